// An engine one of whose boxes finds no memory: what fails leaves all as it was, and what needs no memory there goes on.
ghost use Rattle.std.specs.Prelude.{◌≡◌, ◌<◌, None};
ghost use Rattle.pathindex_core.specs.Engines.{IsSound, by_meaning};
ghost use Rattle.pathindex_core.specs.EngineTerms.{IsUnopened, IsOpened};

use crate::calls::{FEW, adds_node, fails_to_add, lists, opens};
use crate::failing_index::{BoxesTask, with_failing_engine};
use crate::script_file::{script_file, script_words};
use index_api::{Answer, Kind, PathIndex, Via};
use label_graph::Graph;
use path_query::PathExpr;
use pathindex_core::{AskError, Engine, UpdateError};
use pathindex_run::run;
use px_base::{MemShelf, MemSink, Memory, Steps, Text};
use std::alloc::Global;
use std::marker::Brand;
use std::sync::ledger::{Blank, Ledger};

/// A graph of one node with the label `a`.
fn one_node(alloc: Global) -> Result<Graph, Memory> {
    let label = Text::from_bytes(alloc, b"a").map_err(|_| Memory)?;
    let mut graph = Graph::new(alloc)?;
    graph.reserve_node(alloc, &label)?;
    graph.add_node();
    Ok(graph)
}

/// A graph, how many nodes it has, and what each index that has views lists of it.
#[derive(Drop)]
struct Start {
    graph: Option<Graph>,
    nodes: u32,
    list: &'static str,
}

/// No node.
fn start_empty(alloc: Global) -> Start {
    Start {
        graph: Graph::new(alloc).ok(),
        nodes: 0,
        list: "blocks 0\n",
    }
}

/// One node.
fn start_with_one(alloc: Global) -> Start {
    Start {
        graph: one_node(alloc).ok(),
        nodes: 1,
        list: "blocks 1\na n0\n",
    }
}

/// Whether each index that has views has this list.
fn all_list<B: PathIndex>(engine: &mut Engine<B>, alloc: Global, list: &str) -> bool
    requires open { IsOpened engine.old }
    requires sound { IsSound (by_meaning B.meaning engine.old) }
    ensures open { IsOpened engine.new }
    ensures sound { IsSound (by_meaning B.meaning engine.new) }
{
    lists(engine, alloc, Via::A(0), Some(list))
        && lists(engine, alloc, Via::A(1), Some(list))
        && lists(engine, alloc, Via::One, Some(list))
}

/// Whether the graph has so many nodes, and each index that has views this list.
fn is_as_begun<B: PathIndex>(engine: &mut Engine<B>, alloc: Global, nodes: u32, list: &str) -> bool
    requires open { IsOpened engine.old }
    requires sound { IsSound (by_meaning B.meaning engine.old) }
    ensures open { IsOpened engine.new }
    ensures sound { IsSound (by_meaning B.meaning engine.new) }
{
    engine.graph().created() == nodes && all_list(engine, alloc, list)
}

/// Whether a node is added with this number once the box that fails is forgotten.
fn goes_on_without<B: PathIndex>(engine: &mut Engine<B>, alloc: Global, number: u32) -> bool
    requires open { IsOpened engine.old }
    requires sound { IsSound (by_meaning B.meaning engine.old) }
    ensures open { IsOpened engine.new }
    ensures sound { IsSound (by_meaning B.meaning engine.new) }
{
    engine.forget(Kind::Fb).is_ok() && adds_node(engine, alloc, number)
}

/// Whether a change for which one box finds no memory leaves all.
#[derive(Drop)]
struct Changes {
    start: Start,
}

impl BoxesTask for Changes {
    fn carry_out(self, alloc: Global, engine: &mut Engine) -> bool {
        let Start { graph, nodes, list } = self.start;
        opens(engine, graph, FEW)
            && fails_to_add(engine, alloc, UpdateError::Memory)
            && is_as_begun(engine, alloc, nodes, list)
            && goes_on_without(engine, alloc, nodes)
    }
}

#[test]
fn a_change_without_memory_leaves_no_node(rt: HostRuntime) {
    let start = start_empty(rt.alloc());
    assert_eq!(rt;
        with_failing_engine(rt.alloc(), Changes { start }),
        Ok(true)
    );
}

#[test]
fn a_change_without_memory_leaves_a_node(rt: HostRuntime) {
    let start = start_with_one(rt.alloc());
    assert_eq!(rt;
        with_failing_engine(rt.alloc(), Changes { start }),
        Ok(true)
    );
}

/// The answer of the graph itself.
fn found<B: PathIndex, L: Ledger>(
    engine: &mut Engine<B>,
    alloc: Global,
    expr: &PathExpr,
    blank: Blank,
) -> Result<Answer, AskError>
    requires open { IsOpened engine.old }
    requires sound { IsSound (by_meaning B.meaning engine.old) }
    requires name { blank.name ≡ L.name }
    requires parts { blank.parts ≡ L.parts }
    requires some { 0 < blank.parts }
    ensures open { IsOpened engine.new }
    ensures sound { IsSound (by_meaning B.meaning engine.new) }
{
    let mut steps = Steps::<L>::new(blank);
    engine.path(alloc, Via::Data, expr, &mut steps)
}

/// Whether the path has no answer in the graph itself.
fn finds_none<B: PathIndex>(engine: &mut Engine<B>, alloc: Global, path: &str) -> bool
    requires open { IsOpened engine.old }
    requires sound { IsSound (by_meaning B.meaning engine.old) }
    ensures open { IsOpened engine.new }
    ensures sound { IsSound (by_meaning B.meaning engine.new) }
{
    let Ok(expr) = PathExpr::parse(alloc, path.as_bytes(), &FEW) else {
        return false;
    };
    match found::<B, Brand>(engine, alloc, &expr, Blank::new(1)) {
        Ok(answer) => answer.nodes.count() == 0,
        Err(_) => false,
    }
}

/// Whether a list for which there is no memory leaves all.
#[derive(Drop)]
struct Lists {
    start: Start,
}

impl BoxesTask for Lists {
    fn carry_out(self, alloc: Global, engine: &mut Engine) -> bool {
        let Start { graph, nodes, list } = self.start;
        opens(engine, graph, FEW)
            && lists(engine, alloc, Via::Fb, None)
            && is_as_begun(engine, alloc, nodes, list)
            && finds_none(engine, alloc, "b")
    }
}

#[test]
fn a_list_without_memory_leaves_no_node(rt: HostRuntime) {
    let start = start_empty(rt.alloc());
    assert_eq!(rt; with_failing_engine(rt.alloc(), Lists { start }), Ok(true));
}

#[test]
fn a_list_without_memory_leaves_a_node(rt: HostRuntime) {
    let start = start_with_one(rt.alloc());
    assert_eq!(rt; with_failing_engine(rt.alloc(), Lists { start }), Ok(true));
}

/// A run of this script, what it writes, and the status.
#[derive(Drop)]
struct Run {
    script: &'static str,
    output: &'static str,
    status: u8,
}

/// A shelf with the script as the file `s`.
fn shelf_of(alloc: Global, script: &str) -> Option<MemShelf> {
    let files = script_file(alloc, script)?;
    Some(MemShelf::new(files, 64, Vec::new(alloc)))
}

/// Whether it ends so; none where there is no memory for its files.
fn ends_so<B: PathIndex>(alloc: Global, engine: &mut Engine<B>, allocated: &Run) -> Option<bool>
    requires closed { IsUnopened engine.old }
    requires sound { IsSound (by_meaning B.meaning engine.old) }
{
    let words = script_words(alloc)?;
    let mut shelf = shelf_of(alloc, allocated.script)?;
    let mut sink = MemSink::new(alloc, 64, Vec::new(alloc), 64).ok()?;
    let status = run(alloc, &words, engine, &mut shelf, &mut sink);
    Some(status == allocated.status && sink.written() == allocated.output.as_bytes())
}

impl BoxesTask for Run {
    fn carry_out(self, alloc: Global, engine: &mut Engine) -> bool {
        ends_so(alloc, engine, &self) == Some(true)
    }
}

/// Scripts, what a run of each writes, and the status.
const RUNS: &[(&str, &str, u8)] = &[
    ("node a\n", "", 7),
    ("extents fb\n", "", 7),
    ("extents a0\n", "blocks 0\n", 0),
    ("forget fb\nnode a\n", "ok\nadded n0\n", 0),
    ("extents a0\nsave\n", "blocks 0\n", 7),
];

#[test]
fn a_run_ends_where_a_box_finds_no_memory(rt: HostRuntime) {
    for (script, output, status) in RUNS {
        let task = Run {
            script,
            output,
            status: *status,
        };
        assert_eq!(rt; with_failing_engine(rt.alloc(), task), Ok(true), "{script}");
    }
}
