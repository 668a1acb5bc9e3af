// The 1-index of an engine with all indexes, over graphs that it is opened with.
ghost use Rattle.std.specs.Prelude.{◌≡◌, ◌<◌};
ghost use Rattle.pathindex_core.specs.Engines.{IsSound, by_meaning};
ghost use Rattle.pathindex_core.specs.EngineTerms.{IsUnopened, IsOpened};

use crate::calls::{lists, opens};
use crate::full_tests::{adds_both, makes};
use any_index::full_engine;
use graph_update::Step;
use index_api::{PathIndex, Via};
use label_graph::Graph;
use pathindex_core::Engine;
use px_base::{Limits, NodeId, Steps};
use std::alloc::Global;
use std::marker::Brand;
use std::sync::ledger::{Blank, Ledger};
use std::test::Fail;
use test_graphs::graph_from;

/// A graph whose nodes have these labels, a byte each, and these edges.
pub(crate) fn graph_of<L: Ledger>(
    alloc: Global,
    labels: &[u8],
    edges: &[(NodeId, NodeId)],
    blank: Blank,
) -> Result<Graph, Fail>
    requires name { blank.name ≡ L.name }
    requires parts { blank.parts ≡ L.parts }
    requires some { 0 < blank.parts }
{
    let mut steps = Steps::<L>::new(blank);
    graph_from(alloc, labels, edges, &mut steps)
}

/// The lists of two rings, together and apart.
const TOGETHER: &str = "blocks 2\na n0 n2\nb n1 n3\n";

const APART: &str = "blocks 4\na n0\nb n1\na n2\nb n3\n";

/// Whether they come apart once an edge of one goes.
fn come_apart<B: PathIndex>(engine: &mut Engine<B>, alloc: Global) -> bool
    requires open { IsOpened engine.old }
    requires sound { IsSound (by_meaning B.meaning engine.old) }
    ensures open { IsOpened engine.new }
    ensures sound { IsSound (by_meaning B.meaning engine.new) }
{
    lists(engine, alloc, Via::One, Some(TOGETHER))
        && makes(engine, alloc, Step::Unlink(2, 3))
        && lists(engine, alloc, Via::One, Some(APART))
}

/// Whether they stay so when it comes again.
fn stay_apart<B: PathIndex>(engine: &mut Engine<B>, alloc: Global) -> bool
    requires open { IsOpened engine.old }
    requires sound { IsSound (by_meaning B.meaning engine.old) }
    ensures open { IsOpened engine.new }
    ensures sound { IsSound (by_meaning B.meaning engine.new) }
{
    makes(engine, alloc, Step::Link(2, 3)) && lists(engine, alloc, Via::One, Some(APART))
}

/// Whether they come apart, and stay so.
fn part<B: PathIndex>(engine: &mut Engine<B>, alloc: Global) -> bool
    requires open { IsOpened engine.old }
    requires sound { IsSound (by_meaning B.meaning engine.old) }
    ensures open { IsOpened engine.new }
    ensures sound { IsSound (by_meaning B.meaning engine.new) }
{
    come_apart(engine, alloc) && stay_apart(engine, alloc)
}

/// Whether two rings come apart in an engine that is opened with them, and stay so.
fn opens_and_parts<B: PathIndex>(engine: &mut Engine<B>, alloc: Global, graph: Graph) -> bool
    requires closed { IsUnopened engine.old }
    requires sound { IsSound (by_meaning B.meaning engine.old) }
{
    opens(engine, Some(graph), Limits::program()) && part(engine, alloc)
}

#[test]
fn rings_come_apart(rt: HostRuntime) -> Result<(), Fail> {
    let edges = &[(0, 1), (1, 0), (2, 3), (3, 2)];
    let graph = graph_of::<Brand>(rt.alloc(), b"abab", edges, Blank::new(1))?;
    let mut engine = full_engine(rt.alloc())?;
    assert!(rt; opens_and_parts(&mut engine, rt.alloc(), graph));
    Ok(())
}

/// Adds a ring of two nodes that are there.
fn adds_ring<B: PathIndex>(
    engine: &mut Engine<B>,
    alloc: Global,
    first: NodeId,
    second: NodeId,
) -> bool
    requires open { IsOpened engine.old }
    requires sound { IsSound (by_meaning B.meaning engine.old) }
    ensures open { IsOpened engine.new }
    ensures sound { IsSound (by_meaning B.meaning engine.new) }
{
    makes(engine, alloc, Step::Link(first, second))
        && makes(engine, alloc, Step::Link(second, first))
}

/// Adds the nodes of two rings.
fn adds_nodes<B: PathIndex>(engine: &mut Engine<B>, alloc: Global) -> bool
    requires open { IsOpened engine.old }
    requires sound { IsSound (by_meaning B.meaning engine.old) }
    ensures open { IsOpened engine.new }
    ensures sound { IsSound (by_meaning B.meaning engine.new) }
{
    adds_both(engine, alloc, "a", "b") && adds_both(engine, alloc, "a", "b")
}

/// Adds two rings, edge by edge.
fn adds_rings<B: PathIndex>(engine: &mut Engine<B>, alloc: Global) -> bool
    requires open { IsOpened engine.old }
    requires sound { IsSound (by_meaning B.meaning engine.old) }
    ensures open { IsOpened engine.new }
    ensures sound { IsSound (by_meaning B.meaning engine.new) }
{
    adds_nodes(engine, alloc) && adds_ring(engine, alloc, 0, 1) && adds_ring(engine, alloc, 2, 3)
}

/// Whether they are together or apart: both lists are stable, and of neither two blocks can be merged.
fn are_lawful<B: PathIndex>(engine: &mut Engine<B>, alloc: Global) -> bool
    requires open { IsOpened engine.old }
    requires sound { IsSound (by_meaning B.meaning engine.old) }
    ensures open { IsOpened engine.new }
    ensures sound { IsSound (by_meaning B.meaning engine.new) }
{
    lists(engine, alloc, Via::One, Some(TOGETHER)) || lists(engine, alloc, Via::One, Some(APART))
}

/// Whether two rings that come edge by edge, as in `examples/rings.script`, are in a lawful list.
fn comes_to_law<B: PathIndex>(engine: &mut Engine<B>, alloc: Global) -> bool
    requires closed { IsUnopened engine.old }
    requires sound { IsSound (by_meaning B.meaning engine.old) }
{
    opens(engine, Graph::new(alloc).ok(), Limits::program())
        && adds_rings(engine, alloc)
        && are_lawful(engine, alloc)
}

#[test]
fn new_rings_are_listed(rt: HostRuntime) -> Result<(), Fail> {
    let mut engine = full_engine(rt.alloc())?;
    assert!(rt; comes_to_law(&mut engine, rt.alloc()));
    Ok(())
}
