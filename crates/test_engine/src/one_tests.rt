// The 1-index by itself, without an engine: an edge that comes between blocks which have support leaves them.
ghost use Rattle.std.specs.Prelude.{◌≡◌, ◌<◌, IsTrue};
ghost use Rattle.index_api.specs.Meanings.{IsReady, IsPrepared};
ghost use Rattle.one_maintain.specs.KeptQuotients.{meaning_of};

use graph_update::{Change, Step, Verdict, judge};
use index_api::PathIndex;
use label_graph::Graph;
use one_maintain::OneKept;
use px_base::{Limits, NodeId, Steps};
use quotient::Summary;
use std::alloc::Global;
use std::marker::Brand;
use std::sync::ledger::{Blank, Ledger};
use std::test::Fail;
use test_graphs::graph_from;

/// What is done with something that is borrowed.
pub(crate) trait Task: Drop {
    /// What is borrowed.
    type Lent: Drop;

    /// Does it.
    fn carry_out(self, lent: &mut Self::Lent) -> bool;
}

/// Lends a value to the task, and drops it. That the value is of any type keeps its tables out of the proof.
pub(crate) fn lend<T: Task>(mut value: T::Lent, task: T) -> bool {
    task.carry_out(&mut value)
}

/// Whether two nodes are together, and have a block.
fn is_together(summary: &Summary, u: NodeId, v: NodeId) -> bool {
    summary.block_of(u).is_some() && summary.block_of(u) == summary.block_of(v)
}

/// Whether there are two blocks, of the first two nodes and of the next two.
fn are_twins(index: &OneKept) -> bool {
    match index.summary(0) {
        Some(summary) => summary.blocks() == 2
            && is_together(summary, 0, 1)
            && is_together(summary, 2, 3),
        None => false,
    }
}

/// Builds the index of the graph.
fn builds<L: Ledger>(index: &mut OneKept, graph: &Graph, blank: Blank) -> bool
    requires name { blank.name ≡ L.name }
    requires parts { blank.parts ≡ L.parts }
    requires some { 0 < blank.parts }
    ensures { IsTrue result → IsReady (meaning_of index.new.kept) graph.now.graph }
{
    let mut steps = Steps::<L>::new(blank);
    let view = graph.view(&mut steps);
    index.build(&view, 0).is_ok()
}

/// The same, without a count of what it reads.
pub(crate) fn is_built(index: &mut OneKept, graph: &Graph) -> bool
    ensures { IsTrue result → IsReady (meaning_of index.new.kept) graph.now.graph }
{
    builds::<Brand>(index, graph, Blank::new(1))
}

/// Stages the change, if it alters the graph.
fn stages<L: Ledger>(index: &mut OneKept, graph: &Graph, change: &Change, blank: Blank) -> bool
    requires name { blank.name ≡ L.name }
    requires parts { blank.parts ≡ L.parts }
    requires some { 0 < blank.parts }
    requires ready { IsReady (meaning_of index.old.kept) graph.now.graph }
    ensures { IsTrue result → IsPrepared (meaning_of index.old.kept) (meaning_of index.new.kept) change.now graph.now.graph }
{
    let Ok(Verdict::New) = judge(graph, change, &Limits::program()) else {
        return false;
    };
    let mut steps = Steps::<L>::new(blank);
    index.prepare_counted(graph, change, &mut steps).is_ok()
}

/// Makes the change of the index, if it alters the graph.
pub(crate) fn makes(index: &mut OneKept, graph: &Graph, change: &Change) -> bool
    requires ready { IsReady (meaning_of index.old.kept) graph.now.graph }
{
    if !stages::<Brand>(index, graph, change, Blank::new(1)) {
        return false;
    }
    index.commit();
    true
}

/// Whether the twins are together before and after the change.
fn stay_twins(index: &mut OneKept, graph: &Graph, change: &Change) -> bool
    requires ready { IsReady (meaning_of index.old.kept) graph.now.graph }
{
    are_twins(index) && makes(index, graph, change) && are_twins(index)
}

/// Two nodes over two others, and the change by which the second gets an edge to the last.
#[derive(Drop)]
struct Twins {
    graph: Graph,
    change: Change,
}

impl Task for Twins {
    type Lent = OneKept;

    fn carry_out(self, index: &mut OneKept) -> bool {
        is_built(index, &self.graph) && stay_twins(index, &self.graph, &self.change)
    }
}

/// The graph: sets of parents count, not their numbers.
fn graph_of_twins<L: Ledger>(alloc: Global, blank: Blank) -> Result<Graph, Fail>
    requires name { blank.name ≡ L.name }
    requires parts { blank.parts ≡ L.parts }
    requires some { 0 < blank.parts }
{
    let mut steps = Steps::<L>::new(blank);
    graph_from(alloc, b"aabb", &[(0, 2), (1, 2), (0, 3)], &mut steps)
}

#[test]
fn a_supported_link_leaves_the_blocks(rt: HostRuntime) -> Result<(), Fail> {
    let graph = graph_of_twins::<Brand>(rt.alloc(), Blank::new(1))?;
    let change = Change::one(rt.alloc(), Step::Link(1, 3))?;
    assert!(rt; lend(OneKept::new(rt.alloc())?, Twins { graph, change }));
    Ok(())
}
