// The engine.
ghost use Rattle.std.specs.Prelude.{◌≡◌, ◌≢◌, ◌<◌, ◌≤◌, ◌↔◌, Err, Some, None, false, map, OnOk, OnErr, IfOk, IfSome, IsSome, option_map};
ghost use Rattle.std.specs.List.{AllPairs};
ghost use Rattle.change_spec.specs.Steps.{is_new};
ghost use Rattle.branch_query.specs.Queries.{query_of, of_path, of_branch};
ghost use Rattle.pathindex_core.specs.QueryAnswers.{IsQueried};
ghost use Rattle.index_api.specs.declared.kinds.Via.TheVariants.{Data as TheGraph};
ghost use Rattle.index_api.specs.Meanings.{IsBuilt};
ghost use Rattle.index_api.specs.IndexKinds.{kinds_of, has_kind};
ghost use Rattle.quotient.specs.Quotients.{view_of};
ghost use Rattle.pathindex_core.specs.Calls.{IsMade, IsForgotten, KeepsAllButViews, IsListed, IsMeasured, IsReadied, IsViewIn, LacksView};
ghost use Rattle.pathindex_core.specs.Boxes.{via_view};
ghost use Rattle.pathindex_core.specs.Engines.{graph_in, level_in, EachBecomes, IsSound, by_meaning};
ghost use Rattle.pathindex_core.specs.Updates.{outcome_in};

use crate::asking::ask;
use crate::boxes::{box_place, build_all, take_out};
use crate::errors::{AskError, UpdateError};
use crate::lists::{list, measure};
use crate::state::Open;
use crate::updates::update;
use crate::views::{ready, summary_of};
use branch_query::Query;
use branch_text::Branch;
use graph_update::{Applied, Change};
use index_api::{Answer, Kind, PathIndex, Via};
use label_graph::Graph;
use path_query::PathExpr;
use px_base::{Limits, Memory, Refusal, Steps, Text};
use quotient::Summary;
use std::alloc::Global;
use std::marker::{Brand, Model};
use std::sync::ledger::{Blank, Ledger};

/// A graph, and the indexes that are kept of it: at most one of each kind, each in a box, or each of one type B that is
/// a `PathIndex`. `open` gives it a graph and builds each index; after that, changes go through the engine.
///
/// Clauses see the indexes themselves and what the engine is opened with (`EngineOf`); by what the indexes mean it is
/// `by_meaning B.meaning engine` (`EngineSeen`). What a call makes of it is a record in `specs/Calls.antt` or
/// `specs/QueryAnswers.antt`, and for `open` `IsBuilt` of `index_api`.
///
/// An edge is added, and the 1-index is asked:
///
///     engine.open(graph, Limits::program(), 2)?;
///     engine.update(alloc, Change::one(alloc, Step::Link(3, 0))?)?;
///     let answer = engine.path(alloc, Via::One, &expr, &mut steps)?;
///
/// `crates/example_library` is a whole caller.
#[derive(Drop)]
pub struct Engine<B = Box<dyn PathIndex>> {
    boxes: Vec<B>,
    state: Option<Open>,
}

impl<B> Model for Engine<B> {
    ghost use Rattle.pathindex_core.specs.Engines.{EngineOf, engine_code, opened_of};

    ghost Value = { EngineOf B };

    ghost coded = { engine_code B.code };

    ghost view = { λ e. record { boxes = e.boxes.items; opened = opened_of e.state } };
}

/// Builds each box of the graph, and counts no steps.
fn build_boxes<B: PathIndex, L: Ledger>(
    boxes: &mut Vec<B>,
    graph: &Graph,
    k: u32,
    blank: Blank,
) -> Result<(), Memory>
    requires level { k ≤ 8 }
    requires name { blank.name ≡ L.name }
    requires parts { blank.parts ≡ L.parts }
    requires some { 0 < blank.parts }
    ensures ok { OnOk result (EachBecomes (λ a b. IsBuilt a b graph.now.graph k) (map B.meaning boxes.old.items) (map B.meaning boxes.new.items)) }
    ensures kinds { kinds_of (map B.meaning boxes.new.items) ≡ kinds_of (map B.meaning boxes.old.items) }
{
    let mut steps = Steps::<L>::new(blank);
    let view = graph.view(&mut steps);
    build_all(boxes, &view, k)
}

impl<B: PathIndex> Engine<B> {
    /// An engine with these boxes, no two of which are of one kind. It isn't open. O(1), no memory.
    pub fn new(boxes: Vec<B>) -> Self
        requires apart { AllPairs (λ a b. a.kind ≢ b.kind) (map B.meaning boxes.items) }
        ensures seen { by_meaning B.meaning result ≡ record { boxes = map B.meaning boxes.items; opened = None } }
        ensures sound { IsSound (by_meaning B.meaning result) }
    {
        Engine { boxes, state: None }
    }

    /// Opens the engine with a graph, limits on what changes may make of it, and the highest level of the families, and
    /// builds each index. Where memory runs out, the graph is dropped, and the engine isn't open.
    ///
    /// O(n + m) for n node numbers and m edges, and what the build of each box takes. With all indexes of this library
    /// that is expected O((k + r) (n + m log d)) in all, where a node has at most d neighbours on a side, and the
    /// 1-index and the forward and backward index take r rounds; it takes O(k (n + m)) memory, for a k of at least 1.
    pub fn open(&mut self, graph: Graph, limits: Limits, k: u32) -> Result<(), Memory>
        requires closed { self.old.opened ≡ None }
        requires level { k ≤ 8 }
        requires sound { IsSound (by_meaning B.meaning self.old) }
        ensures sound { IsSound (by_meaning B.meaning self.new) }
        ensures opened { OnOk result (self.new.opened ≡ Some (record { graph = graph.graph; limits = limits; k = k })) }
        ensures built { OnOk result (EachBecomes (λ a b. IsBuilt a b graph.graph k) (map B.meaning self.old.boxes) (map B.meaning self.new.boxes)) }
        ensures err { OnErr result (self.new.opened ≡ None) }
        ensures kinds { kinds_of (map B.meaning self.new.boxes) ≡ kinds_of (map B.meaning self.old.boxes) }
    {
        build_boxes::<B, Brand>(&mut self.boxes, &graph, k, Blank::new(1))?;
        self.state = Some(Open { graph, limits, k });
        Ok(())
    }

    /// The graph. O(1), no memory.
    pub fn graph(&self) -> &Graph
        requires open { IsSome self.now.opened }
        ensures { result.now.graph ≡ graph_in self.now.opened }
    {
        match &self.state {
            Some(open) => &open.graph,
            None => unreachable!(),
        }
    }

    /// The highest level of the families. O(1), no memory.
    pub fn level(&self) -> u32
        requires open { IsSome self.now.opened }
        ensures { result ≡ level_in self.now.opened }
    {
        match &self.state {
            Some(open) => open.k,
            None => unreachable!(),
        }
    }

    /// Makes a change in the graph and in each index, and says which numbers its new nodes got. A change has up to 1,024
    /// steps, and is accepted or refused as one. `Refused` comes exactly if it is refused within the engine's limits,
    /// memory or not. An error leaves all as it was. So does a change that only links edges which are there and gives nodes
    /// labels which they have; it takes no memory. Each other change takes all its memory before the graph or an index
    /// changes, and the partition of the 1-index, if it is kept, moves by one step (Yi, He, Stanoi and Yang 2004).
    ///
    /// O(i) for i indexes, and what the change takes in the graph and `prepare` and `commit` in each index. How much
    /// that is depends on what the change reaches, and not on the size of the graph, except where a table moves as it
    /// grows, keys are dropped, a view of the forward and backward index goes, or the parentless blocks are
    /// searched for again, which passes over the blocks of the 1-index: `AkIndex`, `FbkIndex`, `OneKept` and `FbIndex` say
    /// how much time and memory that takes.
    pub fn update(&mut self, alloc: Global, change: Change) -> Result<Applied, UpdateError>
        requires open { IsSome self.old.opened }
        requires sound { IsSound (by_meaning B.meaning self.old) }
        ensures sound { IsSound (by_meaning B.meaning self.new) }
        ensures refused { (r : Refusal) → (result ≡ Err (UpdateError.Refused r)) ↔ (outcome_in change self.old.opened ≡ Err r) }
        ensures made { IfOk result (IsMade change (by_meaning B.meaning self.old) (by_meaning B.meaning self.new)) }
        ensures same { is_new change (graph_in self.old.opened) ≡ false → result ≢ Err UpdateError.Memory }
        ensures err { OnErr result (by_meaning B.meaning self.new ≡ by_meaning B.meaning self.old) }
    {
        match &mut self.state {
            Some(open) => update(
                alloc,
                &mut self.boxes,
                &mut open.graph,
                &change,
                &open.limits,
            ),
            None => unreachable!(),
        }
    }

    /// Takes out the index of a kind and drops it; all else stays. `NoIndex` comes exactly if none of that kind is
    /// kept, and no other refusal. O(i) for i indexes, and what it takes to drop one; no memory.
    pub fn forget(&mut self, kind: Kind) -> Result<(), Refusal>
        requires sound { IsSound (by_meaning B.meaning self.old) }
        ensures sound { IsSound (by_meaning B.meaning self.new) }
        ensures forgotten { IsForgotten kind (by_meaning B.meaning self.old) (by_meaning B.meaning self.new) }
        ensures no_index { (result ≡ Err Refusal.NoIndex) ↔ (has_kind (kinds_of (map B.meaning self.old.boxes)) kind ≡ false) }
        ensures no_other { (r : Refusal) → result ≡ Err r → r ≡ Refusal.NoIndex }
    {
        match box_place(&self.boxes, kind) {
            Some(i) => {
                take_out(&mut self.boxes, kind, i);
                Ok(())
            }
            None => Err(Refusal::NoIndex),
        }
    }

    /// The answers of a query, asked of the graph itself or through an index, and how they were found. `NoIndex` comes
    /// exactly if the index isn't kept, memory or not. If the forward and backward index is asked and its view isn't
    /// computed, it is computed first: that takes what `FbIndex` takes, and reads the whole graph once. A query of the graph
    /// itself reads the whole graph once; through an index that is exact for it and computed, it reads nothing
    /// of the graph. Answered or not, the graph, its limits, the levels, which indexes are kept, the blocks of the
    /// 1-index and each view that is computed stay. `path` and `branch` say how much time and memory it takes.
    pub fn ask<L: Ledger>(
        &mut self,
        alloc: Global,
        via: Via,
        query: &Query<'_>,
        steps: &mut Steps<L>,
    ) -> Result<Answer, AskError>
        requires open { IsSome self.old.opened }
        requires sound { IsSound (by_meaning B.meaning self.old) }
        ensures sound { IsSound (by_meaning B.meaning self.new) }
        ensures asked { KeepsAllButViews (by_meaning B.meaning self.old) (by_meaning B.meaning self.new) }
        ensures queried { IsQueried (by_meaning B.meaning self.old) (by_meaning B.meaning self.new) via (query_of query.now) result steps.old steps.new }
    {
        match &self.state {
            Some(open) => ask(alloc, &mut self.boxes, open, via, query, steps),
            None => unreachable!(),
        }
    }

    /// `ask` of a path expression: the last nodes of the walks whose labels match it.
    ///
    /// O(m (n + e)) for an expression of m tokens and a graph with n node numbers and e edges; it takes O(m n) memory.
    /// Through an index n and e are the numbers of its blocks and of the pairs with support, and O(s) is added to both
    /// time and memory for s node numbers; if the index isn't exact, what `data_validate::check` takes is added: up
    /// to O(m s) memory.
    pub fn path<L: Ledger>(
        &mut self,
        alloc: Global,
        via: Via,
        expr: &PathExpr,
        steps: &mut Steps<L>,
    ) -> Result<Answer, AskError>
        requires open { IsSome self.old.opened }
        requires sound { IsSound (by_meaning B.meaning self.old) }
        ensures sound { IsSound (by_meaning B.meaning self.new) }
        ensures asked { KeepsAllButViews (by_meaning B.meaning self.old) (by_meaning B.meaning self.new) }
        ensures queried { IsQueried (by_meaning B.meaning self.old) (by_meaning B.meaning self.new) via (of_path expr.now) result steps.old steps.new }
    {
        self.ask(alloc, via, &Query::Path(expr), steps)
    }

    /// `ask` of a branching query. The forward and backward index is exact for it, and so is B(i) if it looks at most i
    /// edges away (`Branch::depth`). Through any other index the candidates of its relaxed form are checked in the graph.
    ///
    /// O(m (n + e)) for m tokens, as for `path`; it takes O((d + 1) n + s) memory where brackets nest d deep, parentheses
    /// counted; through an index that isn't exact, O((d + 1) s).
    pub fn branch<L: Ledger>(
        &mut self,
        alloc: Global,
        via: Via,
        query: &Branch,
        steps: &mut Steps<L>,
    ) -> Result<Answer, AskError>
        requires open { IsSome self.old.opened }
        requires sound { IsSound (by_meaning B.meaning self.old) }
        ensures sound { IsSound (by_meaning B.meaning self.new) }
        ensures asked { KeepsAllButViews (by_meaning B.meaning self.old) (by_meaning B.meaning self.new) }
        ensures queried { IsQueried (by_meaning B.meaning self.old) (by_meaning B.meaning self.new) via (of_branch query.now) result steps.old steps.new }
    {
        self.ask(alloc, via, &Query::Branch(query), steps)
    }

    /// Lists the blocks of an index, each with its nodes; `via` isn't `Data`. `NoIndex` comes exactly if the index isn't
    /// kept, memory or not. If the forward and backward index is listed and its view isn't computed, it is computed
    /// first: that takes what `FbIndex` takes, and reads the whole graph once. Otherwise nothing of the graph is read.
    /// An error leaves the graph and each view that is computed.
    ///
    /// O(m log m + t) for m nodes and t bytes of text where fewer than half of the node numbers ever allocated are
    /// still live; it takes O(m) memory beside the text. Else O(m + s + t) for block numbers of the index below s; it
    /// takes O(m + s) memory.
    pub fn extents<L: Ledger>(
        &mut self,
        alloc: Global,
        via: Via,
        steps: &mut Steps<L>,
    ) -> Result<Text, AskError>
        requires open { IsSome self.old.opened }
        requires sound { IsSound (by_meaning B.meaning self.old) }
        requires index { via ≢ TheGraph }
        ensures sound { IsSound (by_meaning B.meaning self.new) }
        ensures asked { KeepsAllButViews (by_meaning B.meaning self.old) (by_meaning B.meaning self.new) }
        ensures listed { IsListed (by_meaning B.meaning self.old) (by_meaning B.meaning self.new) via result steps.old steps.new }
    {
        match &self.state {
            Some(open) => list(alloc, &mut self.boxes, open, via, steps),
            None => unreachable!(),
        }
    }

    /// The size of the graph and of each index that is kept, in the order of `Via::nth`. The view of the forward and
    /// backward index is computed first, if the index is kept and its view is missing: that takes what `FbIndex` takes, and reads
    /// the whole graph once. Else nothing of the graph is read. `Memory` leaves the graph and each view that is
    /// computed. O(k) for levels up to k if nothing is computed; it takes the memory of the text.
    pub fn sizes<L: Ledger>(&mut self, alloc: Global, steps: &mut Steps<L>) -> Result<Text, Memory>
        requires open { IsSome self.old.opened }
        requires sound { IsSound (by_meaning B.meaning self.old) }
        ensures sound { IsSound (by_meaning B.meaning self.new) }
        ensures asked { KeepsAllButViews (by_meaning B.meaning self.old) (by_meaning B.meaning self.new) }
        ensures measured { IsMeasured (by_meaning B.meaning self.old) (by_meaning B.meaning self.new) result steps.old steps.new }
    {
        match &self.state {
            Some(open) => measure(alloc, &mut self.boxes, open, steps),
            None => unreachable!(),
        }
    }

    /// Computes the view of an index, if it isn't; `via` isn't `Data`. `NoIndex` comes exactly if the index isn't kept, memory
    /// or not. Only the view of the forward and backward index may be missing: computing it takes what `FbIndex` takes, and
    /// reads the whole graph once. Otherwise nothing of the graph is read, and no memory is taken. An error leaves the graph
    /// and each view that is computed. O(i) for i indexes, if nothing is computed.
    pub fn ready<L: Ledger>(&mut self, via: Via, steps: &mut Steps<L>) -> Result<(), AskError>
        requires open { IsSome self.old.opened }
        requires sound { IsSound (by_meaning B.meaning self.old) }
        requires index { via ≢ TheGraph }
        ensures sound { IsSound (by_meaning B.meaning self.new) }
        ensures asked { KeepsAllButViews (by_meaning B.meaning self.old) (by_meaning B.meaning self.new) }
        ensures readied { IsReadied (by_meaning B.meaning self.old) (by_meaning B.meaning self.new) via result steps.old steps.new }
    {
        match &self.state {
            Some(open) => ready(&mut self.boxes, open, via, steps),
            None => unreachable!(),
        }
    }

    /// The view of an index: its blocks, and the edges between them. None exactly if `via` is the graph itself, the index isn't
    /// kept, or its view isn't computed, which `ready` does. O(i) for i indexes, no memory.
    pub fn look(&self, via: Via) -> Option<&Summary>
        requires open { IsSome self.now.opened }
        requires sound { IsSound (by_meaning B.meaning self.now) }
        ensures view { option_map (λ s. view_of s.now) result ≡ via_view (map B.meaning self.now.boxes) via }
        ensures shown { IfSome result (λ s. IsViewIn (by_meaning B.meaning self.now) via (view_of s.now)) }
        ensures none { (result ≡ None) ↔ LacksView (by_meaning B.meaning self.now) via }
    {
        summary_of(&self.boxes, via)
    }
}
