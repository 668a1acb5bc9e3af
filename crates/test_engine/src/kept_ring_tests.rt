// The 1-index of two rings, one of which loses or gains an edge: what is kept is stable, and no two of its blocks can
// be merged.
ghost use Rattle.std.specs.Prelude.{◌≡◌, ◌<◌};

use crate::one_tests::{Task, is_built, lend, makes};
use crate::ring_tests::graph_of;
use graph_update::{Change, Step};
use index_api::PathIndex;
use label_graph::{Graph, GraphView};
use one_index::{is_minimal, is_stable};
use one_maintain::OneKept;
use px_base::{NodeId, Steps};
use std::alloc::Global;
use std::marker::Brand;
use std::sync::ledger::{Blank, Ledger};
use std::test::Fail;

/// Whether the index has that many blocks, and its partition is stable in the graph and minimal.
fn is_lawful(index: &OneKept, view: &GraphView<'_>, blocks: u32) -> bool {
    match index.summary(0) {
        Some(summary) => {
            summary.blocks() == blocks && is_stable(summary, view) && is_minimal(summary)
        }
        None => false,
    }
}

/// The same, of a graph.
fn is_lawful_in<L: Ledger>(index: &OneKept, graph: &Graph, blocks: u32, blank: Blank) -> bool
    requires name { blank.name ≡ L.name }
    requires parts { blank.parts ≡ L.parts }
    requires some { 0 < blank.parts }
{
    let mut steps = Steps::<L>::new(blank);
    let view = graph.view(&mut steps);
    is_lawful(index, &view, blocks)
}

/// The same, without a count of what it reads.
fn shows(index: &OneKept, graph: &Graph, blocks: u32) -> bool {
    is_lawful_in::<Brand>(index, graph, blocks, Blank::new(1))
}

/// A graph, a change of it, the graph after the change, and how many blocks the index has then.
#[derive(Drop)]
struct Rings {
    before: Graph,
    change: Change,
    after: Graph,
    blocks: u32,
}

impl Task for Rings {
    type Lent = OneKept;

    fn carry_out(self, index: &mut OneKept) -> bool {
        is_built(index, &self.before)
            && makes(index, &self.before, &self.change)
            && shows(index, &self.after, self.blocks)
    }
}

/// Two rings.
const WHOLE: &[(NodeId, NodeId)] = &[(0, 1), (1, 0), (2, 3), (3, 2)];

/// The same without an edge of the second one.
const OPEN: &[(NodeId, NodeId)] = &[(0, 1), (1, 0), (3, 2)];

/// The graph with these edges.
fn ring_graph(alloc: Global, edges: &[(NodeId, NodeId)]) -> Result<Graph, Fail> {
    graph_of::<Brand>(alloc, b"abab", edges, Blank::new(1))
}

#[test]
fn an_edge_goes(rt: HostRuntime) -> Result<(), Fail> {
    let task = Rings {
        before: ring_graph(rt.alloc(), WHOLE)?,
        change: Change::one(rt.alloc(), Step::Unlink(2, 3))?,
        after: ring_graph(rt.alloc(), OPEN)?,
        blocks: 4,
    };
    assert!(rt; lend(OneKept::new(rt.alloc())?, task));
    Ok(())
}

// Two blocks would do: the four are no coarsest partition, but no two of them can be merged.
#[test]
fn an_edge_comes(rt: HostRuntime) -> Result<(), Fail> {
    let task = Rings {
        before: ring_graph(rt.alloc(), OPEN)?,
        change: Change::one(rt.alloc(), Step::Link(2, 3))?,
        after: ring_graph(rt.alloc(), WHOLE)?,
        blocks: 4,
    };
    assert!(rt; lend(OneKept::new(rt.alloc())?, task));
    Ok(())
}
