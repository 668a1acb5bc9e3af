// Lists of nodes that show why a node answers, and lists that don't.
ghost use Rattle.std.specs.Prelude.{◌≡◌, ◌<◌};

use crate::nested::nested;
use graph_spec::Limits;
use label_graph::Graph;
use path_query::PathExpr;
use px_base::{NodeId, Steps};
use std::alloc::Global;
use std::marker::Brand;
use std::process::Abort;
use std::sync::ledger::{Blank, Ledger};
use std::test::Fail;
use test_graphs::graph_from;
use walk_check::holds;

/// An expression, a node, a list of nodes, and whether that shows why the node answers.
type Row = (&'static str, NodeId, &'static [NodeId], bool);

/// The labels of a chain and its edges. A further node is gone, with number 3.
const CHAIN: &[u8] = b"abcx";

const CHAIN_EDGES: &[(NodeId, NodeId)] = &[(0, 1), (1, 2)];

const ON_CHAIN: &[Row] = &[
    ("a//c", 2, &[0, 1, 2], true),
    ("c|a/b/c", 2, &[2], true),
    ("c|a/b/c", 2, &[0, 1, 2], true),
    ("b", 0, &[0], false),
    ("a//c", 2, &[0, 2], false),
    ("a//c", 2, &[0, 1], false),
    ("a//c", 2, &[1, 2], false),
    ("a//c", 1, &[0, 1, 2], false),
    ("a//c", 2, &[2, 1, 0], false),
    ("_", 3, &[3], false),
    ("_/_", 1, &[3, 1], false),
    ("_", 4, &[4], false),
    ("_", 4294967295, &[4294967295], false),
    ("_*", 4, &[], false),
    ("a*", 0, &[], false),
    ("a*", 0, &[0], true),
    ("a?", 1, &[1], false),
    ("(a*)*/b", 1, &[0, 1], true),
    ("((a?)*|b*)+", 1, &[0, 1], true),
    ("((a?)*)+/(c*)*", 1, &[0, 1], false),
];

/// The labels of two nodes with a child in common, and the edges.
const FORK: &[u8] = b"aab";

const FORK_EDGES: &[(NodeId, NodeId)] = &[(1, 2), (0, 2)];

const ON_FORK: &[Row] = &[
    ("a/b", 2, &[0, 2], true),
    ("a/b", 2, &[1, 2], true),
    ("b/a", 1, &[2, 1], false),
    ("a*", 2, &[2], false),
    ("a/b", 2, &[0, 1, 2], false),
];

/// The labels of a cycle of two nodes, one of which is its own child too, and the edges.
const CYCLE: &[u8] = b"ab";

const CYCLE_EDGES: &[(NodeId, NodeId)] = &[(0, 1), (1, 0), (1, 1)];

const ON_CYCLE: &[Row] = &[
    ("(a/b)*/a", 0, &[0, 1, 0, 1, 0], true),
    ("(a/b)+", 0, &[0, 1, 0], false),
    ("a/b+", 1, &[0, 1, 1, 1], true),
    ("a/a", 0, &[0, 0], false),
    ("a//a", 0, &[0, 1, 1, 0], true),
];

/// Whether the list shows why the node answers; none if the text isn't read or memory runs out.
fn is_shown(
    alloc: Global,
    graph: &Graph,
    text: &str,
    node: NodeId,
    walk: &[NodeId],
) -> Option<bool> {
    let expr = PathExpr::parse(alloc, text.as_bytes(), &Limits::program()).ok()?;
    holds(alloc, graph, &expr, node, walk).ok()
}

fn check_rows(rt: &impl Abort, alloc: Global, graph: &Graph, rows: &[Row]) {
    for (text, node, walk, shown) in rows {
        assert_eq!(rt;
            is_shown(alloc, graph, text, *node, walk),
            Some(*shown),
            "at {text} {walk:?}"
        );
    }
}

fn check_chain<L: Ledger>(rt: &impl Abort, alloc: Global, blank: Blank) -> Result<(), Fail>
    requires name { blank.name ≡ L.name }
    requires parts { blank.parts ≡ L.parts }
    requires some { 0 < blank.parts }
{
    let mut steps = Steps::<L>::new(blank);
    let mut graph = graph_from(alloc, CHAIN, CHAIN_EDGES, &mut steps)?;
    if graph.is_live(3) && graph.is_isolated(3, &mut steps) {
        graph.remove_node(3);
    }
    assert_eq!(rt; graph.node_count(), 3);
    check_rows(rt, alloc, &graph, ON_CHAIN);
    Ok(())
}

fn check_graph<L: Ledger>(
    rt: &impl Abort,
    alloc: Global,
    labels: &[u8],
    edges: &[(NodeId, NodeId)],
    rows: &[Row],
    blank: Blank,
) -> Result<(), Fail>
    requires name { blank.name ≡ L.name }
    requires parts { blank.parts ≡ L.parts }
    requires some { 0 < blank.parts }
{
    let mut steps = Steps::<L>::new(blank);
    let graph = graph_from(alloc, labels, edges, &mut steps)?;
    check_rows(rt, alloc, &graph, rows);
    Ok(())
}

#[test]
fn walks_of_a_chain_are_checked(rt: HostRuntime) -> Result<(), Fail> {
    check_chain::<Brand>(&rt, rt.alloc(), Blank::new(1))
}

#[test]
fn either_parent_shows_it(rt: HostRuntime) -> Result<(), Fail> {
    check_graph::<Brand>(&rt, rt.alloc(), FORK, FORK_EDGES, ON_FORK, Blank::new(1))
}

#[test]
fn walks_around_a_cycle_repeat_nodes(rt: HostRuntime) -> Result<(), Fail> {
    check_graph::<Brand>(&rt, rt.alloc(), CYCLE, CYCLE_EDGES, ON_CYCLE, Blank::new(1))
}

/// Whether the list shows why the node answers so many groups.
fn is_shown_nested(
    alloc: Global,
    graph: &Graph,
    count: u32,
    node: NodeId,
    walk: &[NodeId],
) -> Option<bool> {
    let text = nested(alloc, "a", count).ok()?;
    is_shown(alloc, graph, text.as_str(), node, walk)
}

fn check_nested<L: Ledger>(rt: &impl Abort, alloc: Global, blank: Blank) -> Result<(), Fail>
    requires name { blank.name ≡ L.name }
    requires parts { blank.parts ≡ L.parts }
    requires some { 0 < blank.parts }
{
    let mut steps = Steps::<L>::new(blank);
    let graph = graph_from(alloc, b"aaab", &[(0, 1), (1, 2), (2, 3)], &mut steps)?;
    assert_eq!(rt;
        is_shown_nested(alloc, &graph, 64, 2, &[0, 1, 2]),
        Some(true)
    );
    assert_eq!(rt;
        is_shown_nested(alloc, &graph, 64, 3, &[0, 1, 2, 3]),
        Some(false)
    );
    Ok(())
}

#[test]
fn groups_nest_64_deep(rt: HostRuntime) -> Result<(), Fail> {
    check_nested::<Brand>(&rt, rt.alloc(), Blank::new(1))
}
