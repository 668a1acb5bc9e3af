// Candidates that are few in a graph of some size, so that they are checked over what leads to them.
ghost use Rattle.std.specs.Prelude.{◌≡◌, ◌<◌};
ghost use Rattle.pathindex_core.specs.Engines.{IsSound, by_meaning};
ghost use Rattle.pathindex_core.specs.EngineTerms.{IsUnopened, IsOpened};

use crate::calls::opens;
use crate::full_tests::path_gives;
use any_index::full_engine;
use index_api::{PathIndex, Via};
use label_graph::Graph;
use path_query::PathExpr;
use pathindex_core::Engine;
use px_base::{Limits, NodeId, Steps};
use std::alloc::Global;
use std::marker::Brand;
use std::sync::ledger::{Blank, Ledger};
use std::test::Fail;
use test_graphs::graph_from;

/// How many nodes the graph has: enough that two candidates are few.
const NODES: NodeId = 800;

/// A chain of an `a`, a `b` and a `c`, one of a `b` and a `c`, and a `d` whose children are all other nodes, with the
/// label `e`.
fn chains_and_star<L: Ledger>(alloc: Global, blank: Blank) -> Result<Graph, Fail>
    requires name { blank.name ≡ L.name }
    requires parts { blank.parts ≡ L.parts }
    requires some { 0 < blank.parts }
{
    let mut labels = Vec::new(alloc);
    labels.extend_from_slice(b"abcbcd")?;
    let mut edges = Vec::new(alloc);
    edges.extend_from_slice(&[(0, 1), (1, 2), (3, 4)])?;
    for n in 6..NODES {
        labels.push(b'e')?;
        edges.push((5, n))?;
    }
    let mut steps = Steps::<L>::new(blank);
    graph_from(alloc, &labels, &edges, &mut steps)
}

/// Whether these nodes answer the path with that text through A(0), which is exact for no word of two labels.
fn text_gives<B: PathIndex>(
    engine: &mut Engine<B>,
    alloc: Global,
    text: &str,
    nodes: &[NodeId],
) -> bool
    requires open { IsOpened engine.old }
    requires sound { IsSound (by_meaning B.meaning engine.old) }
    ensures open { IsOpened engine.new }
    ensures sound { IsSound (by_meaning B.meaning engine.new) }
{
    match PathExpr::parse(alloc, text.as_bytes(), &Limits::program()) {
        Ok(expr) => path_gives(engine, alloc, Via::A(0), &expr, nodes),
        Err(_) => false,
    }
}

/// Whether both nodes `c` are candidates of a few paths, and answer where a walk leads to them.
fn few_are_checked<B: PathIndex>(engine: &mut Engine<B>, alloc: Global) -> bool
    requires open { IsOpened engine.old }
    requires sound { IsSound (by_meaning B.meaning engine.old) }
    ensures open { IsOpened engine.new }
    ensures sound { IsSound (by_meaning B.meaning engine.new) }
{
    text_gives(engine, alloc, "b/c", &[2, 4])
        && text_gives(engine, alloc, "a/b/c", &[2])
        && text_gives(engine, alloc, "a//c", &[2])
}

/// Whether they do in an engine that is opened with this graph.
fn opens_and_checks<B: PathIndex>(engine: &mut Engine<B>, alloc: Global, graph: Graph) -> bool
    requires closed { IsUnopened engine.old }
    requires sound { IsSound (by_meaning B.meaning engine.old) }
{
    opens(engine, Some(graph), Limits::program()) && few_are_checked(engine, alloc)
}

#[test]
fn few_candidates_are_checked(rt: HostRuntime) -> Result<(), Fail> {
    let graph = chains_and_star::<Brand>(rt.alloc(), Blank::new(1))?;
    let mut engine = full_engine(rt.alloc())?;
    assert!(rt; opens_and_checks(&mut engine, rt.alloc(), graph));
    Ok(())
}
