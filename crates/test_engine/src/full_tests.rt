// One query, through each index and the graph itself.
ghost use Rattle.std.specs.Prelude.{◌≡◌, ◌<◌};
ghost use Rattle.pathindex_core.specs.Engines.{IsSound, by_meaning};
ghost use Rattle.pathindex_core.specs.EngineTerms.{IsUnopened, IsOpened};

use crate::calls::opens;
use any_index::full_engine;
use branch_text::Branch;
use graph_update::{Change, Step};
use index_api::{Answer, PathIndex, Via};
use label_graph::Graph;
use path_query::PathExpr;
use pathindex_core::{AskError, Engine};
use px_base::{Limits, NodeId, Steps, Text};
use std::alloc::Global;
use std::marker::Brand;
use std::sync::ledger::{Blank, Ledger};
use std::test::Fail;

/// Makes a change of one step.
pub(crate) fn makes<B: PathIndex>(engine: &mut Engine<B>, alloc: Global, step: Step) -> bool
    requires open { IsOpened engine.old }
    requires sound { IsSound (by_meaning B.meaning engine.old) }
    ensures open { IsOpened engine.new }
    ensures sound { IsSound (by_meaning B.meaning engine.new) }
{
    match Change::one(alloc, step) {
        Ok(change) => engine.update(alloc, change).is_ok(),
        Err(_) => false,
    }
}

/// Adds a node with this label.
fn adds<B: PathIndex>(engine: &mut Engine<B>, alloc: Global, label: &str) -> bool
    requires open { IsOpened engine.old }
    requires sound { IsSound (by_meaning B.meaning engine.old) }
    ensures open { IsOpened engine.new }
    ensures sound { IsSound (by_meaning B.meaning engine.new) }
{
    match Text::from_bytes(alloc, label.as_bytes()) {
        Ok(label) => makes(engine, alloc, Step::Node(label)),
        Err(_) => false,
    }
}

/// Adds two nodes with these labels.
pub(crate) fn adds_both<B: PathIndex>(
    engine: &mut Engine<B>,
    alloc: Global,
    first: &str,
    second: &str,
) -> bool
    requires open { IsOpened engine.old }
    requires sound { IsSound (by_meaning B.meaning engine.old) }
    ensures open { IsOpened engine.new }
    ensures sound { IsSound (by_meaning B.meaning engine.new) }
{
    adds(engine, alloc, first) && adds(engine, alloc, second)
}

/// Links the first node to the second and the third, and the second to the fourth.
fn links<B: PathIndex>(engine: &mut Engine<B>, alloc: Global) -> bool
    requires open { IsOpened engine.old }
    requires sound { IsSound (by_meaning B.meaning engine.old) }
    ensures open { IsOpened engine.new }
    ensures sound { IsSound (by_meaning B.meaning engine.new) }
{
    makes(engine, alloc, Step::Link(0, 1))
        && makes(engine, alloc, Step::Link(0, 2))
        && makes(engine, alloc, Step::Link(1, 3))
}

/// Adds an `a` with two children `b`, the first of which has a child `c`.
fn grows<B: PathIndex>(engine: &mut Engine<B>, alloc: Global) -> bool
    requires open { IsOpened engine.old }
    requires sound { IsSound (by_meaning B.meaning engine.old) }
    ensures open { IsOpened engine.new }
    ensures sound { IsSound (by_meaning B.meaning engine.new) }
{
    adds_both(engine, alloc, "a", "b") && adds_both(engine, alloc, "b", "c") && links(engine, alloc)
}

/// Whether these are the nodes of the answer.
fn are(answer: &Result<Answer, AskError>, nodes: &[NodeId]) -> bool {
    match answer {
        Ok(answer) => {
            answer.nodes.count() as usize == nodes.len()
                && nodes.iter().all(|n| answer.nodes.contains(*n))
        }
        Err(_) => false,
    }
}

/// The answer to the path, asked so.
fn path_counted<B: PathIndex, L: Ledger>(
    engine: &mut Engine<B>,
    alloc: Global,
    via: Via,
    expr: &PathExpr,
    blank: Blank,
) -> Result<Answer, AskError>
    requires open { IsOpened engine.old }
    requires sound { IsSound (by_meaning B.meaning engine.old) }
    requires name { blank.name ≡ L.name }
    requires parts { blank.parts ≡ L.parts }
    requires some { 0 < blank.parts }
    ensures open { IsOpened engine.new }
    ensures sound { IsSound (by_meaning B.meaning engine.new) }
{
    let mut steps = Steps::<L>::new(blank);
    engine.path(alloc, via, expr, &mut steps)
}

/// Whether these nodes answer the path, asked so.
pub(crate) fn path_gives<B: PathIndex>(
    engine: &mut Engine<B>,
    alloc: Global,
    via: Via,
    expr: &PathExpr,
    nodes: &[NodeId],
) -> bool
    requires open { IsOpened engine.old }
    requires sound { IsSound (by_meaning B.meaning engine.old) }
    ensures open { IsOpened engine.new }
    ensures sound { IsSound (by_meaning B.meaning engine.new) }
{
    let answer = path_counted::<B, Brand>(engine, alloc, via, expr, Blank::new(1));
    are(&answer, nodes)
}

/// The answer to the branching query, asked so.
fn branch_counted<B: PathIndex, L: Ledger>(
    engine: &mut Engine<B>,
    alloc: Global,
    via: Via,
    query: &Branch,
    blank: Blank,
) -> Result<Answer, AskError>
    requires open { IsOpened engine.old }
    requires sound { IsSound (by_meaning B.meaning engine.old) }
    requires name { blank.name ≡ L.name }
    requires parts { blank.parts ≡ L.parts }
    requires some { 0 < blank.parts }
    ensures open { IsOpened engine.new }
    ensures sound { IsSound (by_meaning B.meaning engine.new) }
{
    let mut steps = Steps::<L>::new(blank);
    engine.branch(alloc, via, query, &mut steps)
}

/// Whether these nodes answer the branching query, asked so.
fn branch_gives<B: PathIndex>(
    engine: &mut Engine<B>,
    alloc: Global,
    via: Via,
    query: &Branch,
    nodes: &[NodeId],
) -> bool
    requires open { IsOpened engine.old }
    requires sound { IsSound (by_meaning B.meaning engine.old) }
    ensures open { IsOpened engine.new }
    ensures sound { IsSound (by_meaning B.meaning engine.new) }
{
    let answer = branch_counted::<B, Brand>(engine, alloc, via, query, Blank::new(1));
    are(&answer, nodes)
}

/// Whether these nodes answer the path, through each level.
fn path_gives_by_levels<B: PathIndex>(
    engine: &mut Engine<B>,
    alloc: Global,
    expr: &PathExpr,
    nodes: &[NodeId],
) -> bool
    requires open { IsOpened engine.old }
    requires sound { IsSound (by_meaning B.meaning engine.old) }
    ensures open { IsOpened engine.new }
    ensures sound { IsSound (by_meaning B.meaning engine.new) }
{
    path_gives(engine, alloc, Via::A(0), expr, nodes)
        && path_gives(engine, alloc, Via::A(1), expr, nodes)
        && path_gives(engine, alloc, Via::B(0), expr, nodes)
        && path_gives(engine, alloc, Via::B(1), expr, nodes)
}

/// Whether these nodes answer the path, through the other indexes and the graph itself.
fn path_gives_else<B: PathIndex>(
    engine: &mut Engine<B>,
    alloc: Global,
    expr: &PathExpr,
    nodes: &[NodeId],
) -> bool
    requires open { IsOpened engine.old }
    requires sound { IsSound (by_meaning B.meaning engine.old) }
    ensures open { IsOpened engine.new }
    ensures sound { IsSound (by_meaning B.meaning engine.new) }
{
    path_gives(engine, alloc, Via::Data, expr, nodes)
        && path_gives(engine, alloc, Via::One, expr, nodes)
        && path_gives(engine, alloc, Via::Fb, expr, nodes)
}

/// Whether these nodes answer the path, through each index and the graph itself.
fn path_gives_always<B: PathIndex>(
    engine: &mut Engine<B>,
    alloc: Global,
    expr: &PathExpr,
    nodes: &[NodeId],
) -> bool
    requires open { IsOpened engine.old }
    requires sound { IsSound (by_meaning B.meaning engine.old) }
    ensures open { IsOpened engine.new }
    ensures sound { IsSound (by_meaning B.meaning engine.new) }
{
    path_gives_by_levels(engine, alloc, expr, nodes) && path_gives_else(engine, alloc, expr, nodes)
}

/// Whether these nodes answer the path with that text.
fn path_text_gives<B: PathIndex>(
    engine: &mut Engine<B>,
    alloc: Global,
    text: &str,
    nodes: &[NodeId],
) -> bool
    requires open { IsOpened engine.old }
    requires sound { IsSound (by_meaning B.meaning engine.old) }
    ensures open { IsOpened engine.new }
    ensures sound { IsSound (by_meaning B.meaning engine.new) }
{
    match PathExpr::parse(alloc, text.as_bytes(), &Limits::program()) {
        Ok(expr) => path_gives_always(engine, alloc, &expr, nodes),
        Err(_) => false,
    }
}

/// Whether these nodes answer the branching query, through each level.
fn branch_gives_by_levels<B: PathIndex>(
    engine: &mut Engine<B>,
    alloc: Global,
    query: &Branch,
    nodes: &[NodeId],
) -> bool
    requires open { IsOpened engine.old }
    requires sound { IsSound (by_meaning B.meaning engine.old) }
    ensures open { IsOpened engine.new }
    ensures sound { IsSound (by_meaning B.meaning engine.new) }
{
    branch_gives(engine, alloc, Via::A(0), query, nodes)
        && branch_gives(engine, alloc, Via::A(1), query, nodes)
        && branch_gives(engine, alloc, Via::B(0), query, nodes)
        && branch_gives(engine, alloc, Via::B(1), query, nodes)
}

/// Whether these nodes answer the branching query, through the other indexes and the graph itself.
fn branch_gives_else<B: PathIndex>(
    engine: &mut Engine<B>,
    alloc: Global,
    query: &Branch,
    nodes: &[NodeId],
) -> bool
    requires open { IsOpened engine.old }
    requires sound { IsSound (by_meaning B.meaning engine.old) }
    ensures open { IsOpened engine.new }
    ensures sound { IsSound (by_meaning B.meaning engine.new) }
{
    branch_gives(engine, alloc, Via::Data, query, nodes)
        && branch_gives(engine, alloc, Via::One, query, nodes)
        && branch_gives(engine, alloc, Via::Fb, query, nodes)
}

/// Whether these nodes answer the branching query, through each index and the graph itself.
fn branch_gives_always<B: PathIndex>(
    engine: &mut Engine<B>,
    alloc: Global,
    query: &Branch,
    nodes: &[NodeId],
) -> bool
    requires open { IsOpened engine.old }
    requires sound { IsSound (by_meaning B.meaning engine.old) }
    ensures open { IsOpened engine.new }
    ensures sound { IsSound (by_meaning B.meaning engine.new) }
{
    branch_gives_by_levels(engine, alloc, query, nodes)
        && branch_gives_else(engine, alloc, query, nodes)
}

/// Whether these nodes answer the branching query with that text.
fn branch_text_gives<B: PathIndex>(
    engine: &mut Engine<B>,
    alloc: Global,
    text: &str,
    nodes: &[NodeId],
) -> bool
    requires open { IsOpened engine.old }
    requires sound { IsSound (by_meaning B.meaning engine.old) }
    ensures open { IsOpened engine.new }
    ensures sound { IsSound (by_meaning B.meaning engine.new) }
{
    match Branch::parse(alloc, text.as_bytes(), &Limits::program()) {
        Ok(query) => branch_gives_always(engine, alloc, &query, nodes),
        Err(_) => false,
    }
}

/// Whether a few paths have their answers over the small graph.
fn paths_give<B: PathIndex>(engine: &mut Engine<B>, alloc: Global) -> bool
    requires open { IsOpened engine.old }
    requires sound { IsSound (by_meaning B.meaning engine.old) }
    ensures open { IsOpened engine.new }
    ensures sound { IsSound (by_meaning B.meaning engine.new) }
{
    path_text_gives(engine, alloc, "a/b", &[1, 2])
        && path_text_gives(engine, alloc, "a/b/c", &[3])
        && path_text_gives(engine, alloc, "c/b", &[])
}

/// Whether a few branching queries do.
fn branches_give<B: PathIndex>(engine: &mut Engine<B>, alloc: Global) -> bool
    requires open { IsOpened engine.old }
    requires sound { IsSound (by_meaning B.meaning engine.old) }
    ensures open { IsOpened engine.new }
    ensures sound { IsSound (by_meaning B.meaning engine.new) }
{
    branch_text_gives(engine, alloc, "b[not(/c)]", &[2])
        && branch_text_gives(engine, alloc, "b\\a[/b/c]", &[0])
}

/// Whether each of a few queries has its answers over the small graph, however it is asked.
fn queries_give<B: PathIndex>(engine: &mut Engine<B>, alloc: Global) -> bool
    requires closed { IsUnopened engine.old }
    requires sound { IsSound (by_meaning B.meaning engine.old) }
{
    opens(engine, Graph::new(alloc).ok(), Limits::program())
        && grows(engine, alloc)
        && paths_give(engine, alloc)
        && branches_give(engine, alloc)
}

#[test]
fn each_index_gives_the_graphs_answers(rt: HostRuntime) -> Result<(), Fail> {
    let mut engine = full_engine(rt.alloc())?;
    assert!(rt; queries_give(&mut engine, rt.alloc()));
    Ok(())
}

/// Takes what may go from thread to thread.
fn sends<T: Send>(_value: &T) {}

// Nothing in an engine over these indexes stays with a thread.
#[test]
fn an_engine_goes_from_thread_to_thread(rt: HostRuntime) -> Result<(), Fail> {
    let engine = full_engine(rt.alloc())?;
    sends(&engine);
    Ok(())
}
