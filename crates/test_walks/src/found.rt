// The least walks of small graphs, worked by hand.
ghost use Rattle.std.specs.Prelude.{◌≡◌, ◌<◌};

use crate::nested::nested;
use graph_spec::Limits;
use label_graph::Graph;
use path_query::PathExpr;
use px_base::{NodeId, Steps};
use std::alloc::Global;
use std::marker::Brand;
use std::process::Abort;
use std::sync::ledger::{Blank, Ledger};
use std::test::Fail;
use test_graphs::graph_from;
use walk_proof::{Walk, find};

/// A chain of an `a`, a `b` and a `c`.
const CHAIN: &[(NodeId, NodeId)] = &[(0, 1), (1, 2)];

/// Nodes of the chain, expressions, and the least walks; no walk is an empty list.
const ON_CHAIN: &[(NodeId, &str, &[NodeId])] = &[
    (2, "a//c", &[0, 1, 2]),
    (2, "c|a/b/c", &[2]),
    (0, "b", &[]),
    (2, "_*", &[2]),
    (2, "a?/_+", &[2]),
    (2, "a/(b?)*/c", &[0, 1, 2]),
    (2, "(a|b|c)/(a*)*/c", &[1, 2]),
];

/// Two nodes `a` with a `b` below both, a cycle of the `b` and a `c`, and a node `a` alone.
const MEETING: &[(NodeId, NodeId)] = &[(1, 2), (0, 2), (2, 3), (3, 2)];

/// The same for this graph.
const ON_MEETING: &[(NodeId, &str, &[NodeId])] = &[
    (2, "a/b", &[0, 2]),
    (2, "a/b/c/b", &[0, 2, 3, 2]),
    (2, "(_/_)+/b", &[2, 3, 2]),
    (4, "a*", &[4]),
    (4, "a/a", &[]),
    (3, "b//c", &[2, 3]),
    (3, "(b/c/b/c)+", &[2, 3, 2, 3]),
    (2, "d|d*/b", &[2]),
];

/// Whether this is the least walk, or there is none and the list is empty.
fn is_found(found: Option<Walk>, want: &[NodeId]) -> bool {
    match found {
        Some(walk) => !want.is_empty() && walk.nodes() == want,
        None => want.is_empty(),
    }
}

/// Whether this walk is found in the graph.
fn finds<L: Ledger>(
    alloc: Global,
    graph: &Graph,
    node: NodeId,
    text: &str,
    want: &[NodeId],
    steps: &mut Steps<L>,
) -> bool {
    let Ok(expr) = PathExpr::parse(alloc, text.as_bytes(), &Limits::program()) else {
        return false;
    };
    if !graph.is_live(node) {
        return false;
    }
    match find(alloc, graph, &expr, node, steps) {
        Ok(found) => is_found(found, want),
        Err(_) => false,
    }
}

fn check_walks<L: Ledger>(
    rt: &impl Abort,
    alloc: Global,
    graph: &Graph,
    walks: &[(NodeId, &str, &[NodeId])],
    steps: &mut Steps<L>,
) {
    for (node, text, want) in walks {
        assert!(rt;
            finds(alloc, graph, *node, text, want, steps),
            "n{node} by {text}"
        );
    }
}

fn check_graphs<L: Ledger>(rt: &impl Abort, alloc: Global, blank: Blank) -> Result<(), Fail>
    requires name { blank.name ≡ L.name }
    requires parts { blank.parts ≡ L.parts }
    requires some { 0 < blank.parts }
{
    let mut steps = Steps::<L>::new(blank);
    let chain = graph_from(alloc, b"abc", CHAIN, &mut steps)?;
    check_walks(rt, alloc, &chain, ON_CHAIN, &mut steps);
    let meeting = graph_from(alloc, b"aabca", MEETING, &mut steps)?;
    check_walks(rt, alloc, &meeting, ON_MEETING, &mut steps);
    Ok(())
}

#[test]
fn least_walks_are_found(rt: HostRuntime) -> Result<(), Fail> {
    check_graphs::<Brand>(&rt, rt.alloc(), Blank::new(1))
}

/// Whether the walk of the two nodes is found by an `a` and then groups that are nested so deep.
fn finds_nested<L: Ledger>(alloc: Global, graph: &Graph, depth: u32, steps: &mut Steps<L>) -> bool {
    let Ok(groups) = nested(alloc, "b", depth) else {
        return false;
    };
    match format!(in alloc; "a/{groups}") {
        Ok(text) => finds(alloc, graph, 1, &text, &[0, 1], steps),
        Err(_) => false,
    }
}

fn check_nested<L: Ledger>(rt: &impl Abort, alloc: Global, blank: Blank) -> Result<(), Fail>
    requires name { blank.name ≡ L.name }
    requires parts { blank.parts ≡ L.parts }
    requires some { 0 < blank.parts }
{
    let mut steps = Steps::<L>::new(blank);
    let graph = graph_from(alloc, b"ab", &[(0, 1)], &mut steps)?;
    assert!(rt; finds_nested(alloc, &graph, 64, &mut steps));
    Ok(())
}

#[test]
fn a_walk_is_found_through_64_groups(rt: HostRuntime) -> Result<(), Fail> {
    check_nested::<Brand>(&rt, rt.alloc(), Blank::new(1))
}
