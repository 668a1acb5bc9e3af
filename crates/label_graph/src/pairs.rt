// The pairs of nodes for whose edges capacity is reserved.
ghost use Rattle.std.specs.Prelude.{◌≡◌, ◌≤◌, ◌++◌, ◌∷◌, [], ◌%◌, IsTrue, IfOk, OnOk, OnErr, length, position};
ghost use Rattle.label_graph.specs.ReservedGraphs.{is_pair, has_pair, without_pair, starting, ending};
ghost use Rattle.label_graph.specs.PairMarks.{is_marked, marked};

use px_base::{Memory, NodeId};
use std::alloc::Global;
use std::marker::Model;

/// How many marks there are for the nodes where pairs begin, and for those where they end.
const MARKS: usize = 1024;

/// The pairs, in their order. Several nodes share a mark, and a node whose mark isn't set has no pair, so that most of
/// them are told without a look at the pairs. It takes 2 KiB beside 8 bytes a pair.
pub(crate) struct ReservedPairs {
    pairs: Vec<(NodeId, NodeId)>,
    begin: [bool; MARKS],
    end: [bool; MARKS],
    // Whether marks of pairs that are gone may be left.
    stale: bool,
}

impl Drop for ReservedPairs {
    // By hand, so that no function above proves how the pairs are dropped.
    fn drop(self) {
        let ReservedPairs {
            pairs,
            begin: _,
            end: _,
            stale: _,
        } = self;
        drop(pairs);
    }
}

impl Model for ReservedPairs {
    ghost use Rattle.std.specs.Prelude.{ℕ, List};
    ghost use Rattle.std.specs.Coded.{coded×, coded_ℕ, coded_list};
    ghost use Rattle.label_graph.specs.PairMarks.{AreMarked};

    ghost Value = { List (ℕ × ℕ) };

    ghost coded = { coded_list (coded× coded_ℕ coded_ℕ) };

    ghost view = { λ r. r.pairs.items };

    ghost invariant = { λ r. AreMarked r.begin r.end r.pairs.items };
}

impl ReservedPairs {
    /// No pair.
    pub(crate) fn new(alloc: Global) -> ReservedPairs
        ensures { result ≡ [] }
    {
        ReservedPairs {
            pairs: Vec::new(alloc),
            begin: [false; MARKS],
            end: [false; MARKS],
            stale: false,
        }
    }

    /// How many pairs begin at a node.
    pub(crate) fn starting(&self, u: NodeId) -> usize
        ensures { result ≡ starting u self.now }
    {
        if is_marked(&self.begin, u) {
            starting(&self.pairs, u)
        } else {
            0
        }
    }

    /// How many pairs end at a node.
    pub(crate) fn ending(&self, v: NodeId) -> usize
        ensures { result ≡ ending v self.now }
    {
        if is_marked(&self.end, v) {
            ending(&self.pairs, v)
        } else {
            0
        }
    }

    /// Puts a pair behind the others.
    pub(crate) fn push(&mut self, u: NodeId, v: NodeId) -> Result<(), Memory>
        ensures ok { OnOk result (self.new ≡ self.old ++ (u, v) ∷ []) }
        ensures err { OnErr result (self.new ≡ self.old) }
    {
        self.freshen();
        self.pairs.reserve(1)?;
        mark(&mut self.begin, u, true);
        mark(&mut self.end, v, true);
        self.pairs.push_reserved((u, v));
        Ok(())
    }

    // Clears the marks, where all that may be set are of pairs that are gone.
    fn freshen(&mut self)
        ensures { self.new ≡ self.old }
    {
        if self.stale && self.pairs.is_empty() {
            self.begin = [false; MARKS];
            self.end = [false; MARKS];
            self.stale = false;
        }
    }

    /// Takes out the first pair that leads from u to v.
    pub(crate) fn take(&mut self, u: NodeId, v: NodeId)
        requires { IsTrue (has_pair self.old u v) }
        ensures { self.new ≡ without_pair self.old u v }
    {
        take_pair(&mut self.pairs, u, v);
        if self.pairs.is_empty() {
            mark(&mut self.begin, u, false);
            mark(&mut self.end, v, false);
        } else {
            self.stale = true;
        }
    }

    /// Takes all pairs out. Their memory stays.
    pub(crate) fn clear(&mut self)
        ensures { self.new ≡ [] }
    {
        if !self.pairs.is_empty() {
            self.pairs.clear();
            self.stale = true;
        }
    }
}

// Whether the mark of a node is set.
fn is_marked(marks: &[bool; MARKS], n: NodeId) -> bool
    ensures { result ≡ is_marked marks.now n }
{
    marks[n as usize % MARKS]
}

// Sets the mark of a node, or takes it away.
fn mark(marks: &mut [bool; MARKS], n: NodeId, on: bool)
    ensures { marks.new ≡ marked marks.old n on }
{
    marks[n as usize % MARKS] = on;
}

// How many pairs begin at a node.
fn starting(pairs: &[(NodeId, NodeId)], u: NodeId) -> usize
    ensures { result ≡ starting u pairs.now }
{
    pairs.iter().filter(|p| p.0 == u).count()
}

// How many pairs end at a node.
fn ending(pairs: &[(NodeId, NodeId)], v: NodeId) -> usize
    ensures { result ≡ ending v pairs.now }
{
    pairs.iter().filter(|p| p.1 == v).count()
}

// Takes out the first pair that leads from u to v.
fn take_pair(pairs: &mut Vec<(NodeId, NodeId)>, u: NodeId, v: NodeId)
    requires { IsTrue (has_pair pairs.old.items u v) }
    ensures { pairs.new.items ≡ without_pair pairs.old.items u v }
{
    let at = place_of_pair(pairs, u, v).unwrap();
    pairs.remove(at);
}

fn place_of_pair(pairs: &[(NodeId, NodeId)], u: NodeId, v: NodeId) -> Option<usize>
    ensures { result ≡ position (is_pair u v) pairs.now }
{
    pairs.iter().position(|p| p.0 == u && p.1 == v)
}
