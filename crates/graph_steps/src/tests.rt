// Verdicts of lists of steps.
use super::*;
use crate::reads::edge_before;
use label_graph::Graph;
use px_base::{Limits, NodeId, Refusal, Text};
use std::alloc::Global;
use std::process::Abort;
use std::test::Fail;

const FEW: Limits = Limits {
    nodes: 6,
    edges: 3,
    labels: 2,
    expr_bytes: 1,
    expr_depth: 1,
};

// A step of a row; a label is a byte.
#[derive(Clone, Copy, Debug)]
enum Plain {
    Node(u8),
    Link(NodeId, NodeId),
    Unlink(NodeId, NodeId),
    Drop(NodeId),
    Relabel(NodeId, u8),
}

use Plain::{Drop as Gone, Link, Node, Relabel, Unlink};

type Outcome = Result<Verdict, Refusal>;

const ROWS: &[(&[Plain], Outcome)] = &[
    // nothing, and nothing new
    (&[], Ok(Verdict::Same)),
    (&[Link(0, 1)], Ok(Verdict::Same)),
    (&[Link(0, 1), Link(0, 2)], Ok(Verdict::Same)),
    (&[Link(0, 1), Link(0, 9)], Err(Refusal::NoNode)),
    // three edges, and no fourth; once one is taken away it fits
    (&[Link(1, 2)], Ok(Verdict::New)),
    (&[Link(1, 2), Link(2, 1)], Err(Refusal::Limit)),
    (&[Link(1, 2), Unlink(0, 1), Link(2, 1)], Ok(Verdict::New)),
    (&[Link(0, 1), Link(1, 2), Link(2, 9)], Err(Refusal::NoNode)),
    // a node goes, and takes its edges along
    (
        &[Link(1, 2), Gone(0), Link(2, 1), Link(1, 1)],
        Ok(Verdict::New),
    ),
    (
        &[Link(1, 2), Gone(0), Link(2, 1), Link(1, 1), Link(2, 2)],
        Err(Refusal::Limit),
    ),
    (&[Gone(1), Gone(0), Link(2, 2)], Ok(Verdict::New)),
    (&[Gone(0), Gone(0)], Err(Refusal::NoNode)),
    (&[Gone(0), Link(0, 1)], Err(Refusal::NoNode)),
    (&[Gone(0), Unlink(1, 2)], Err(Refusal::NoEdge)),
    // numbers that the steps allocate: three more
    (
        &[Node(b'b'), Link(3, 3), Gone(3), Link(1, 2)],
        Ok(Verdict::New),
    ),
    (&[Link(3, 3), Node(b'b')], Err(Refusal::NoNode)),
    (&[Node(b'b'), Gone(3), Link(3, 3)], Err(Refusal::NoNode)),
    (&[Node(b'a'), Node(b'a'), Node(b'a')], Ok(Verdict::New)),
    (
        &[Node(b'a'), Node(b'a'), Node(b'a'), Node(b'a')],
        Err(Refusal::Limit),
    ),
    // one label more, which may come twice, and no other
    (&[Node(b'b'), Node(b'b'), Node(b'a')], Ok(Verdict::New)),
    (&[Node(b'b'), Node(b'c')], Err(Refusal::Limit)),
    // a node gets another label, or the one that it has
    (&[Relabel(1, b'b')], Ok(Verdict::New)),
    (&[Relabel(1, b'a')], Ok(Verdict::Same)),
    (&[Relabel(1, b'a'), Link(0, 1)], Ok(Verdict::Same)),
    (&[Relabel(1, b'b'), Relabel(1, b'a')], Ok(Verdict::New)),
    (&[Relabel(3, b'a')], Err(Refusal::NoNode)),
    (&[Node(b'a'), Relabel(3, b'b')], Ok(Verdict::New)),
    (&[Relabel(3, b'b'), Node(b'a')], Err(Refusal::NoNode)),
    (&[Gone(2), Relabel(2, b'a')], Err(Refusal::NoNode)),
    // so a label comes, and no second
    (&[Relabel(1, b'b'), Relabel(2, b'b')], Ok(Verdict::New)),
    (&[Relabel(1, b'b'), Relabel(1, b'c')], Err(Refusal::Limit)),
    (&[Relabel(1, b'b'), Node(b'c')], Err(Refusal::Limit)),
    (&[Node(b'b'), Relabel(1, b'c')], Err(Refusal::Limit)),
    (&[Node(b'b'), Relabel(9, b'c')], Err(Refusal::NoNode)),
    // an edge goes and comes between steps that name other nodes
    (
        &[Unlink(0, 1), Link(1, 2), Link(0, 1), Unlink(0, 2)],
        Ok(Verdict::New),
    ),
    (
        &[Link(1, 2), Unlink(0, 2), Unlink(1, 2), Unlink(1, 2)],
        Err(Refusal::NoEdge),
    ),
    (&[Unlink(0, 1), Gone(2), Unlink(0, 1)], Err(Refusal::NoEdge)),
    (
        &[Node(b'a'), Link(0, 1), Node(b'a'), Link(0, 4), Link(3, 4)],
        Err(Refusal::Limit),
    ),
];

fn step_of(alloc: Global, plain: Plain) -> Result<Step, Fail> {
    match plain {
        Node(byte) => Ok(Step::Node(Text::from_bytes(alloc, &[byte])?)),
        Link(u, v) => Ok(Step::Link(u, v)),
        Unlink(u, v) => Ok(Step::Unlink(u, v)),
        Gone(u) => Ok(Step::Drop(u)),
        Relabel(u, byte) => Ok(Step::Relabel(u, Text::from_bytes(alloc, &[byte])?)),
    }
}

fn change_of(alloc: Global, plains: &[Plain]) -> Result<Change, Fail> {
    let mut change = Change::new(alloc)?;
    for plain in plains {
        change.push(step_of(alloc, *plain)?)?;
    }
    Ok(change)
}

const MOST: u32 = 1 << 30;

fn put_node(graph: &mut Graph, alloc: Global) -> Result<(), Fail> {
    if graph.created() >= MOST || graph.labels().len() >= MOST {
        return Err("there are too many nodes or labels".into());
    }
    graph.reserve_node(alloc, &Text::from_bytes(alloc, b"a")?)?;
    graph.add_node();
    Ok(())
}

fn put_edge(graph: &mut Graph, u: NodeId, v: NodeId) -> Result<(), Fail> {
    if !graph.is_live(u) || !graph.is_live(v) {
        return Err("an edge ends at no node".into());
    }
    if graph.edge_count() >= MOST || edge_before(graph, u, v) {
        return Err("no edge can be added".into());
    }
    graph.reserve_edge(u, v)?;
    graph.add_edge(u, v);
    Ok(())
}

// Three nodes with the label a, and edges from the first to the other two.
fn fork(alloc: Global) -> Result<Graph, Fail> {
    let mut graph = Graph::new(alloc)?;
    for _ in 0..3 {
        put_node(&mut graph, alloc)?;
    }
    put_edge(&mut graph, 0, 1)?;
    put_edge(&mut graph, 0, 2)?;
    Ok(graph)
}

fn check_rows(rt: &impl Abort, alloc: Global, graph: &Graph) -> Result<(), Fail> {
    for (plains, outcome) in ROWS {
        let change = change_of(alloc, plains)?;
        assert!(rt; judge(graph, &change, &FEW) == *outcome, "{plains:?}");
    }
    Ok(())
}

#[test]
fn changes_are_judged(rt: HostRuntime) -> Result<(), Fail> {
    let graph = fork(rt.alloc())?;
    check_rows(&rt, rt.alloc(), &graph)
}

// Changes of one step, of two and of three, the nodes that they may name, and where they name one.
#[test]
fn steps_and_names(rt: HostRuntime) -> Result<(), Fail> {
    let mut change = Change::one(rt.alloc(), Step::Drop(2))?;
    assert!(rt; change.steps().len() == 1 && change.may_name(2));
    change.push(Step::Link(0, 1))?;
    assert!(rt; change.steps().len() == 2 && change.may_name(2) && change.may_name(0));
    assert!(rt; !change.may_name(3) && is_dropped(change.steps(), 2));
    change.push(step_of(rt.alloc(), Relabel(3, b'b'))?)?;
    assert!(rt; change.may_name(3) && !is_dropped(change.steps(), 3));
    let steps = change.as_prefix();
    assert!(rt; steps.is_dropped(2) && !steps.is_dropped(0));
    assert!(rt; change.drops_before(1, 2) && !change.drops_before(0, 2));
    Ok(())
}

// Node 7 is named by the steps at 0, 3 and 5, node 8 twice by that at 6, and node 9 by none.
const NAMING: &[Plain] = &[
    Link(7, 1),
    Link(1, 2),
    Gone(2),
    Relabel(7, b'b'),
    Node(b'a'),
    Unlink(1, 7),
    Link(8, 8),
    Link(1, 8),
];

// A node, a place, and where the first step from there on is that names the node.
const NEXT: &[(NodeId, usize, usize)] = &[
    (7, 0, 0),
    (7, 1, 3),
    (7, 2, 3),
    (7, 4, 5),
    (7, 6, 8),
    (7, 8, 8),
    (1, 1, 1),
    (1, 2, 5),
    (1, 6, 7),
    (8, 0, 6),
    (8, 7, 7),
    (9, 0, 8),
];

// The same of the first steps, so many.
const NEXT_BEFORE: &[(usize, NodeId, usize, usize)] = &[
    (6, 7, 4, 5),
    (5, 7, 1, 3),
    (5, 7, 4, 5),
    (3, 7, 1, 3),
    (1, 7, 0, 0),
    (0, 7, 0, 0),
    (7, 8, 7, 7),
];

fn check_next(rt: &impl Abort, change: &Change) {
    for (n, from, place) in NEXT {
        if *from <= change.steps().len() {
            assert!(rt; change.next_naming(*from, *n) == *place, "{n} {from}");
        }
    }
}

fn check_next_before(rt: &impl Abort, change: &Change) {
    for (past, n, from, place) in NEXT_BEFORE {
        if *past <= change.steps().len() && *from <= *past {
            assert!(rt;
                change.prefix(*past).next_naming(*from, *n) == *place,
                "{past} {n} {from}"
            );
        }
    }
}

#[test]
fn next_steps_that_name_a_node(rt: HostRuntime) -> Result<(), Fail> {
    let change = change_of(rt.alloc(), NAMING)?;
    assert!(rt; change.steps().len() == 8);
    check_next(&rt, &change);
    check_next_before(&rt, &change);
    Ok(())
}

// A change of one step notes nothing of its nodes.
#[test]
fn next_step_of_one(rt: HostRuntime) -> Result<(), Fail> {
    let change = Change::one(rt.alloc(), Step::Link(3, 5))?;
    assert!(rt; change.next_naming(0, 5) == 0 && change.next_naming(1, 5) == 1);
    assert!(rt; change.next_naming(0, 4) == 1 && change.as_prefix().next_naming(0, 3) == 0);
    Ok(())
}
