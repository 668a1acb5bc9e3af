// What the lines of a file give, one after another.
ghost use Rattle.std.specs.Prelude.{◌≡◌, ◌≢◌, ◌<◌, ◌≤◌, ◌++◌, ◌∷◌, ℕ, List, [], suc, codes, OnOk, OnErr, IfOk, IsErrOf, IfSome, IfNone, IsTrue, IsFalse, Some, nat_lt};
ghost use Rattle.index_file.specs.Readings as readings;
ghost use Rattle.index_file.specs.Readings.{nothing_read, is_complete, file_of, last_of, is_live_in, can_take_edge, can_take_view};
ghost use Rattle.index_file.specs.Reads.{IsTaken, ExceedsAt, IsWrong};
ghost use Rattle.index_file.specs.SavedGraphs.{IsSaved, saved_file};
ghost use Rattle.index_file.specs.declared.due.Due.TheVariants.{Title, Allocated, Nodes, EdgesLeft, Ranks};

use crate::due::{Due, Stop};
use crate::names::view_of;
use crate::numbers::{number, number_behind, to_u32, two_numbers, two_numbers_behind};
use crate::order::{follows, is_end};
use crate::read_nodes::ReadNodes;
use crate::read_views::ReadViews;
use crate::saved::Saved;
use crate::words::{behind, is_word};
use adjacency::Adjacency;
use bisim_spec::Side;
use index_api::Via;
use px_base::{Limits, Memory};
use std::alloc::Global;
use std::marker::Model;

/// What was read, and what has to come next.
#[derive(Drop)]
pub(crate) struct Draft {
    due: Due,
    k: u32,
    nodes: ReadNodes,
    pairs: Vec<(u32, u32)>,
    views: ReadViews,
}

impl Model for Draft {
    ghost use Rattle.index_file.specs.Readings.{Reading};
    ghost use Rattle.index_file.specs.Drafts.{IsDraft, reading_code};

    ghost Value = { Reading };

    ghost coded = { reading_code };

    ghost view = { λ d. record { due = d.due; k = d.k; allocated = d.nodes; pairs = d.pairs.items; views = d.views } };

    ghost invariant = { λ d. IsDraft (record { due = d.due; k = d.k; allocated = d.nodes; pairs = d.pairs.items; views = d.views }) };
}

// Whether an edge stands behind the other one.
fn is_past(edge: (u32, u32), from: u32, onto: u32) -> bool
    ensures { result ≡ readings.is_behind (Some edge) from onto }
{
    edge.0 < from || (edge.0 == from && edge.1 < onto)
}

// Whether an edge stands behind the last one.
fn is_behind(pairs: &[(u32, u32)], from: u32, onto: u32) -> bool
    ensures { result ≡ readings.is_behind (last_of pairs.now) from onto }
{
    match pairs.last().copied() {
        Some(edge) => is_past(edge, from, onto),
        None => true,
    }
}

fn push_pair(pairs: &mut Vec<(u32, u32)>, edge: (u32, u32)) -> Result<(), Memory>
    ensures ok { OnOk result (pairs.new.items ≡ pairs.old.items ++ edge ∷ []) }
    ensures err { OnErr result (pairs.new.items ≡ pairs.old.items) }
{
    pairs.push(edge)?;
    Ok(())
}

// The count, and none where there may not be as many.
fn count_within(count: u64, most: u32) -> Option<u32>
    ensures found { IfSome result (λ n. (n ≡ count) × (count ≤ most) × (count ≤ 4294967295)) }
    ensures none { IfNone result (most < count) }
{
    if count <= u64::from(most) {
        Some(count as u32)
    } else {
        None
    }
}

fn are_fewer(len: usize, count: u64) -> bool
    ensures { result ≡ nat_lt len count }
{
    (len as u64) < count
}

// Whether nothing more is due, where there are so many views.
fn is_done(due: Due, views: usize) -> bool
    ensures { result ≡ readings.is_done due views }
{
    match due {
        Due::Title => false,
        Due::Allocated => false,
        Due::Nodes(_) => false,
        Due::EdgesLeft(_) => false,
        Due::Ranks(left, count) => left == 0 && views as u64 == count,
    }
}

impl Draft {
    /// Nothing is read yet. O(1); it takes 16 KiB.
    pub(crate) fn new(alloc: Global) -> Result<Draft, Memory>
        ensures { IfOk result (λ d. d ≡ nothing_read) }
    {
        let nodes = ReadNodes::new(alloc)?;
        Ok(Draft {
            due: Due::Title,
            k: 0,
            nodes,
            pairs: Vec::new(alloc),
            views: ReadViews::new(alloc),
        })
    }

    /// Whether the file may end here. O(1), no memory.
    pub(crate) fn is_complete(&self) -> bool
        ensures { result ≡ readings.is_complete self.now }
    {
        is_done(self.due, self.views.len()) && is_end(self.k, self.views.last_via())
    }

    // The node with that number, and none if it isn't live.
    #[tactic(auto, using(crate::proofs::ReadNodeLaws::live_below))]
    fn node_at(&self, n: u64) -> Option<u32>
        ensures found { IfSome result (λ u. (u ≡ n) × IsTrue (is_live_in self.now.allocated n)) }
        ensures none { IfNone result (IsFalse (is_live_in self.now.allocated n)) }
    {
        if self.nodes.is_live(n) {
            Some(n as u32)
        } else {
            None
        }
    }

    // The edge from the one node to the other, and none where it may not come next.
    fn edge_between(&self, from: u64, onto: u64) -> Option<(u32, u32)>
        ensures found { IfSome result (λ e. (e ≡ (from, onto)) × IsTrue (can_take_edge self.now from onto)) }
        ensures none { IfNone result (IsFalse (can_take_edge self.now from onto)) }
    {
        let u = self.node_at(from)?;
        let v = self.node_at(onto)?;
        if is_behind(&self.pairs, u, v) {
            Some((u, v))
        } else {
            None
        }
    }

    // Whether a view of the index may come next, where there are `count` views.
    fn can_begin(&self, via: Via, count: u64) -> bool
        ensures { result ≡ can_take_view self.now count via }
    {
        are_fewer(self.views.len(), count) && follows(self.k, self.views.last_via(), via)
    }

    fn take_title(&mut self, limits: &Limits, line: &[u8]) -> Result<(), Stop>
        requires due { self.old.due ≡ Title }
        ensures taken { OnOk result (IsTaken limits.now line.now self.old self.new) }
        ensures over { IsErrOf result Stop.Limit → ExceedsAt limits.now line.now self.old }
        ensures wrong { IsErrOf result Stop.Syntax → IsWrong limits.now line.now self.old }
    {
        if !is_word(line, b"pathindex 1") {
            return Err(Stop::Syntax);
        }
        self.due = Due::Allocated;
        Ok(())
    }

    fn take_allocated(&mut self, limits: &Limits, line: &[u8]) -> Result<(), Stop>
        requires due { self.old.due ≡ Allocated }
        ensures taken { OnOk result (IsTaken limits.now line.now self.old self.new) }
        ensures over { IsErrOf result Stop.Limit → ExceedsAt limits.now line.now self.old }
        ensures wrong { IsErrOf result Stop.Syntax → IsWrong limits.now line.now self.old }
    {
        let Some((count, level)) = two_numbers_behind(line, b"given ", b" k ") else {
            return Err(Stop::Syntax);
        };
        let Some(nodes) = count_within(count, limits.nodes) else {
            return Err(Stop::Limit);
        };
        let Some(k) = count_within(level, 8) else {
            return Err(Stop::Syntax);
        };
        self.k = k;
        self.due = Due::Nodes(nodes);
        Ok(())
    }

    // The line of a label, where the line of a number is due. The word stands behind its `live `.
    fn take_live(
        &mut self,
        alloc: Global,
        limits: &Limits,
        word: &[u8],
        left: u32,
    ) -> Result<(), Stop>
        requires due { self.old.due ≡ Nodes (suc left) }
        ensures taken { OnOk result (IsTaken limits.now (codes "live " ++ word.now) self.old self.new) }
        ensures over { IsErrOf result Stop.Limit → ExceedsAt limits.now (codes "live " ++ word.now) self.old }
        ensures wrong { IsErrOf result Stop.Syntax → IsWrong limits.now (codes "live " ++ word.now) self.old }
    {
        match self.nodes.push_live(alloc, word, limits.labels) {
            Ok(()) => {
                self.due = Due::Nodes(left);
                Ok(())
            }
            Err(stop) => Err(stop),
        }
    }

    // A line without `live ` in front, where the line of a number is due.
    fn take_gone(&mut self, limits: &Limits, line: &[u8], left: u32) -> Result<(), Stop>
        requires due { self.old.due ≡ Nodes (suc left) }
        requires dead { (word : List ℕ) → line.now ≢ codes "live " ++ word }
        ensures taken { OnOk result (IsTaken limits.now line.now self.old self.new) }
        ensures over { IsErrOf result Stop.Limit → ExceedsAt limits.now line.now self.old }
        ensures wrong { IsErrOf result Stop.Syntax → IsWrong limits.now line.now self.old }
    {
        if !is_word(line, b"gone") {
            return Err(Stop::Syntax);
        }
        match self.nodes.push_gone() {
            Ok(()) => {
                self.due = Due::Nodes(left);
                Ok(())
            }
            Err(_) => Err(Stop::Memory),
        }
    }

    // The line of a number, where `left` lines of numbers follow.
    fn take_node(
        &mut self,
        alloc: Global,
        limits: &Limits,
        line: &[u8],
        left: u32,
    ) -> Result<(), Stop>
        requires due { self.old.due ≡ Nodes (suc left) }
        ensures taken { OnOk result (IsTaken limits.now line.now self.old self.new) }
        ensures over { IsErrOf result Stop.Limit → ExceedsAt limits.now line.now self.old }
        ensures wrong { IsErrOf result Stop.Syntax → IsWrong limits.now line.now self.old }
    {
        match behind(line, b"live ") {
            Some(word) => self.take_live(alloc, limits, word, left),
            None => self.take_gone(limits, line, left),
        }
    }

    fn take_edge_count(&mut self, limits: &Limits, line: &[u8]) -> Result<(), Stop>
        requires due { self.old.due ≡ Nodes 0 }
        ensures taken { OnOk result (IsTaken limits.now line.now self.old self.new) }
        ensures over { IsErrOf result Stop.Limit → ExceedsAt limits.now line.now self.old }
        ensures wrong { IsErrOf result Stop.Syntax → IsWrong limits.now line.now self.old }
    {
        let Some(count) = number_behind(line, b"edges ") else {
            return Err(Stop::Syntax);
        };
        let Some(edges) = count_within(count, limits.edges) else {
            return Err(Stop::Limit);
        };
        self.due = Due::EdgesLeft(edges);
        Ok(())
    }

    // The line of an edge, where `left` lines of edges follow.
    fn take_edge(&mut self, limits: &Limits, line: &[u8], left: u32) -> Result<(), Stop>
        requires due { self.old.due ≡ EdgesLeft (suc left) }
        ensures taken { OnOk result (IsTaken limits.now line.now self.old self.new) }
        ensures over { IsErrOf result Stop.Limit → ExceedsAt limits.now line.now self.old }
        ensures wrong { IsErrOf result Stop.Syntax → IsWrong limits.now line.now self.old }
    {
        let Some((from, onto)) = two_numbers(line, b" ") else {
            return Err(Stop::Syntax);
        };
        let Some(edge) = self.edge_between(from, onto) else {
            return Err(Stop::Syntax);
        };
        match push_pair(&mut self.pairs, edge) {
            Ok(()) => {
                self.due = Due::EdgesLeft(left);
                Ok(())
            }
            Err(_) => Err(Stop::Memory),
        }
    }

    fn take_view_count(&mut self, limits: &Limits, line: &[u8]) -> Result<(), Stop>
        requires due { self.old.due ≡ EdgesLeft 0 }
        ensures taken { OnOk result (IsTaken limits.now line.now self.old self.new) }
        ensures over { IsErrOf result Stop.Limit → ExceedsAt limits.now line.now self.old }
        ensures wrong { IsErrOf result Stop.Syntax → IsWrong limits.now line.now self.old }
    {
        let Some(count) = number_behind(line, b"views ") else {
            return Err(Stop::Syntax);
        };
        self.due = Due::Ranks(0, count);
        Ok(())
    }

    // The line of a view, where there are `count` views.
    fn take_view(
        &mut self,
        alloc: Global,
        limits: &Limits,
        line: &[u8],
        count: u64,
    ) -> Result<(), Stop>
        requires due { self.old.due ≡ Ranks 0 count }
        ensures taken { OnOk result (IsTaken limits.now line.now self.old self.new) }
        ensures over { IsErrOf result Stop.Limit → ExceedsAt limits.now line.now self.old }
        ensures wrong { IsErrOf result Stop.Syntax → IsWrong limits.now line.now self.old }
    {
        let ranks = self.nodes.live();
        let Some(via) = view_of(line) else {
            return Err(Stop::Syntax);
        };
        if !self.can_begin(via, count) {
            return Err(Stop::Syntax);
        }
        match self.views.begin(alloc, via, ranks) {
            Ok(()) => {
                self.due = Due::Ranks(ranks, count);
                Ok(())
            }
            Err(_) => Err(Stop::Memory),
        }
    }

    // The line of a rank, where `left` lines of ranks follow, and there are `count` views.
    fn take_rank(
        &mut self,
        limits: &Limits,
        line: &[u8],
        left: usize,
        count: u64,
    ) -> Result<(), Stop>
        requires due { self.old.due ≡ Ranks (suc left) count }
        ensures taken { OnOk result (IsTaken limits.now line.now self.old self.new) }
        ensures over { IsErrOf result Stop.Limit → ExceedsAt limits.now line.now self.old }
        ensures wrong { IsErrOf result Stop.Syntax → IsWrong limits.now line.now self.old }
    {
        let Some(rank) = number(line) else {
            return Err(Stop::Syntax);
        };
        match self.views.push_rank(rank) {
            Ok(()) => {
                self.due = Due::Ranks(left, count);
                Ok(())
            }
            Err(stop) => Err(stop),
        }
    }

    // The line where so many numbers are due, and then the number of edges.
    fn take_behind_nodes(
        &mut self,
        alloc: Global,
        limits: &Limits,
        line: &[u8],
        count: u32,
    ) -> Result<(), Stop>
        requires due { self.old.due ≡ Nodes count }
        ensures taken { OnOk result (IsTaken limits.now line.now self.old self.new) }
        ensures over { IsErrOf result Stop.Limit → ExceedsAt limits.now line.now self.old }
        ensures wrong { IsErrOf result Stop.Syntax → IsWrong limits.now line.now self.old }
    {
        if count == 0 {
            self.take_edge_count(limits, line)
        } else {
            self.take_node(alloc, limits, line, count - 1)
        }
    }

    // The line where so many edges are due, and then the number of views.
    fn take_behind_edges(&mut self, limits: &Limits, line: &[u8], count: u32) -> Result<(), Stop>
        requires due { self.old.due ≡ EdgesLeft count }
        ensures taken { OnOk result (IsTaken limits.now line.now self.old self.new) }
        ensures over { IsErrOf result Stop.Limit → ExceedsAt limits.now line.now self.old }
        ensures wrong { IsErrOf result Stop.Syntax → IsWrong limits.now line.now self.old }
    {
        if count == 0 {
            self.take_view_count(limits, line)
        } else {
            self.take_edge(limits, line, count - 1)
        }
    }

    // The line where so many ranks of a view are due, and then other views, until there are so many.
    fn take_behind_ranks(
        &mut self,
        alloc: Global,
        limits: &Limits,
        line: &[u8],
        ranks: usize,
        views: u64,
    ) -> Result<(), Stop>
        requires due { self.old.due ≡ Ranks ranks views }
        ensures taken { OnOk result (IsTaken limits.now line.now self.old self.new) }
        ensures over { IsErrOf result Stop.Limit → ExceedsAt limits.now line.now self.old }
        ensures wrong { IsErrOf result Stop.Syntax → IsWrong limits.now line.now self.old }
    {
        if ranks == 0 {
            self.take_view(alloc, limits, line, views)
        } else {
            self.take_rank(limits, line, ranks - 1, views)
        }
    }

    /// Takes a line. `Limit` comes exactly where it passes a limit, `Syntax` exactly where it passes none and can't
    /// stand here. O(b) for a line of b bytes, and for a `live` line the cost of `ReadLabels::number`.
    pub(crate) fn take(&mut self, alloc: Global, limits: &Limits, line: &[u8]) -> Result<(), Stop>
        ensures taken { OnOk result (IsTaken limits.now line.now self.old self.new) }
        ensures over { IsErrOf result Stop.Limit → ExceedsAt limits.now line.now self.old }
        ensures wrong { IsErrOf result Stop.Syntax → IsWrong limits.now line.now self.old }
    {
        match self.due {
            Due::Title => self.take_title(limits, line),
            Due::Allocated => self.take_allocated(limits, line),
            Due::Nodes(count) => self.take_behind_nodes(alloc, limits, line, count),
            Due::EdgesLeft(count) => self.take_behind_edges(limits, line, count),
            Due::Ranks(ranks, views) => self.take_behind_ranks(alloc, limits, line, ranks, views),
        }
    }

    // The lists of children and parents, and where the ranks of nodes stand.
    fn tables(&self, alloc: Global) -> Result<(Adjacency, Adjacency, Vec<u32>), Memory>
        requires { IsTrue (is_complete self.now) }
        ensures saved { IfOk result (λ t. IsSaved self.now.allocated t.0 t.1 self.now.views t.2.items) }
        ensures file { IfOk result (λ t. saved_file self.now.allocated t.0 self.now.k self.now.views ≡ file_of self.now) }
    {
        let places = self.nodes.places(alloc)?;
        let size = to_u32(self.nodes.len());
        let children = Adjacency::of(alloc, size, &self.pairs, Side::Children)?;
        let parents = Adjacency::of(alloc, size, &self.pairs, Side::Parents)?;
        Ok((children, parents, places))
    }

    /// What the file holds, once it may end. O(n + m) for n numbers and m edges; it takes 12 bytes a number and 8 an edge, and
    /// frees 8 an edge.
    pub(crate) fn into_saved(self, alloc: Global) -> Result<Saved, Memory>
        requires { IsTrue (is_complete self) }
        ensures { IfOk result (λ s. s ≡ file_of self) }
    {
        match self.tables(alloc) {
            Ok((children, parents, places)) => Ok(Saved::of_parts(
                self.nodes, children, parents, self.k, self.views, places,
            )),
            Err(error) => Err(error),
        }
    }
}
