// Each public call of `label_graph` once, on a small graph.
ghost use Rattle.std.specs.Prelude.{◌≡◌, ◌<◌, IsTrue, OnOk, length};
ghost use Rattle.graph_spec.specs.Graphs.{is_seen};

use super::*;
use label_graph::Digraph;
use px_base::{NodeId, Steps, Text};
use std::alloc::Global;
use std::marker::Brand;
use std::process::Abort;
use std::sync::ledger::{Blank, Ledger};
use std::test::Fail;

// The labels of six nodes, a byte each, and their edges.
const LABELS: &[u8] = b"abacaa";

const EDGES: &[(NodeId, NodeId)] = &[(0, 1), (0, 2), (0, 3), (0, 4), (0, 5), (2, 1), (3, 3)];

// How many ends of edges, and how many labels of nodes with that number, a reader of any graph sees.
fn totals<G: Digraph>(graph: &G, label: u32) -> (usize, usize, u32) {
    let mut children = 0usize;
    let mut parents = 0usize;
    let mut labelled = 0u32;
    for n in 0..graph.size() {
        if graph.is_node(n) {
            children = children.saturating_add(graph.children(n).len());
            parents = parents.saturating_add(graph.parents(n).len());
            if graph.label(n) == label {
                labelled = labelled.saturating_add(1);
            }
        }
    }
    (children, parents, labelled)
}

// Pairs of numbers, and whether an edge leads from the first to the second.
const PAIRS: &[(NodeId, NodeId, bool)] = &[
    (0, 1, true),
    (2, 1, true),
    (3, 3, true),
    (0, 0, false),
    (3, 1, false),
    (1, 0, false),
    (9, 0, false),
    (0, 9, false),
];

fn check_pairs<L: Ledger>(rt: &impl Abort, graph: &Graph, steps: &mut Steps<L>) {
    for (u, v, there) in PAIRS {
        assert!(rt; graph.has_edge(*u, *v, steps) == *there, "from {u} to {v}");
    }
}

// Whether these are the items, in some order.
fn are(items: &[NodeId], others: &[NodeId]) -> bool {
    items.len() == others.len() && items.iter().all(|n| others.contains(n))
}

fn check_neighbours<L: Ledger>(rt: &impl Abort, graph: &Graph, steps: &mut Steps<L>) {
    assert!(rt; are(graph.children(0, steps), &[1, 2, 3, 4, 5]));
    assert!(rt; are(graph.parents(1, steps), &[0, 2]));
    assert!(rt; are(graph.parents(9, steps), &[]));
}

// A graph with the nodes and edges of the small one.
fn check_small<L: Ledger>(rt: &impl Abort, graph: &Graph, steps: &mut Steps<L>) {
    assert!(rt; graph.created() == 6 && graph.node_count() == 6 && graph.edge_count() == 7);
    assert!(rt; !graph.is_live(6));
    check_pairs(rt, graph, steps);
    check_neighbours(rt, graph, steps);
    assert!(rt; totals(&graph.view(steps), 0) == (7, 7, 4));
}

fn read_small_graph<L: Ledger>(rt: &impl Abort, alloc: Global, blank: Blank) -> Result<(), Fail>
    requires name { blank.name ≡ L.name }
    requires parts { blank.parts ≡ L.parts }
    requires some { 0 < blank.parts }
{
    let mut steps = Steps::<L>::new(blank);
    let graph = graph_from(alloc, LABELS, EDGES, &mut steps)?;
    check_small(rt, &graph, &mut steps);
    assert!(rt; graph.is_live(3));
    assert!(rt; graph.label(3) == 2);
    Ok(())
}

#[test]
fn small_graph(rt: HostRuntime) -> Result<(), Fail> {
    read_small_graph::<Brand>(&rt, rt.alloc(), Blank::new(1))
}

// Takes an edge away, which is there.
fn take_edge<L: Ledger>(
    rt: &impl Abort,
    graph: &mut Graph,
    u: NodeId,
    v: NodeId,
    steps: &mut Steps<L>,
) {
    assert!(rt; graph.has_edge(u, v, steps), "from {u} to {v}");
    graph.remove_edge(u, v);
    assert!(rt; !graph.has_edge(u, v, steps), "from {u} to {v}");
}

// Takes a node away at which there is no edge.
fn take_node<L: Ledger>(rt: &impl Abort, graph: &mut Graph, n: NodeId, steps: &mut Steps<L>) {
    assert!(rt; graph.is_live(n));
    assert!(rt; graph.is_isolated(n, steps), "{n}");
    graph.remove_node(n);
    assert!(rt; !graph.is_live(n));
}

// The loop at node 3 goes, and then node 3, of which the hub was a parent.
fn take_loop<L: Ledger>(rt: &impl Abort, graph: &mut Graph, steps: &mut Steps<L>) {
    take_edge(rt, graph, 3, 3, steps);
    assert!(rt; !graph.is_isolated(3, steps));
    take_edge(rt, graph, 0, 3, steps);
    take_node(rt, graph, 3, steps);
    assert!(rt; graph.created() == 6 && graph.node_count() == 5 && graph.edge_count() == 5);
    assert!(rt; are(graph.children(0, steps), &[1, 2, 4, 5]));
}

// Some neighbour of a node, where it has any.
fn check_any<L: Ledger>(rt: &impl Abort, graph: &Graph, steps: &mut Steps<L>) {
    assert!(rt; graph.any_child(2, steps) == Some(1));
    assert!(rt; graph.any_parent(2, steps) == Some(0));
    assert!(rt; graph.any_parent(0, steps).is_none());
}

// The edges of the hub go, and then the hub. Node 2 keeps its child.
fn take_hub<L: Ledger>(rt: &impl Abort, graph: &mut Graph, steps: &mut Steps<L>) {
    for child in &[4, 1, 5, 2] {
        take_edge(rt, graph, 0, *child, steps);
    }
    take_node(rt, graph, 0, steps);
    assert!(rt; graph.node_count() == 4 && graph.edge_count() == 1);
    assert!(rt; are(graph.parents(1, steps), &[2]));
    assert!(rt; totals(&graph.view(steps), 0) == (1, 1, 3));
}

// The label of the gone node 3 is still number 2, and the number 3 is not allocated again.
fn put_again<L: Ledger>(
    rt: &impl Abort,
    alloc: Global,
    graph: &mut Graph,
    steps: &mut Steps<L>,
) -> Result<(), Fail> {
    assert!(rt; graph.labels().len() == 3);
    put_node(alloc, graph, b'c')?;
    assert!(rt; graph.is_live(6) && !graph.is_live(3));
    assert!(rt; graph.label(6) == 2);
    put_edge(graph, 6, 6, steps)?;
    assert!(rt; graph.edge_count() == 2);
    Ok(())
}

fn take_apart<L: Ledger>(rt: &impl Abort, alloc: Global, blank: Blank) -> Result<(), Fail>
    requires name { blank.name ≡ L.name }
    requires parts { blank.parts ≡ L.parts }
    requires some { 0 < blank.parts }
{
    let mut steps = Steps::<L>::new(blank);
    let mut graph = graph_from(alloc, LABELS, EDGES, &mut steps)?;
    take_loop(rt, &mut graph, &mut steps);
    check_any(rt, &graph, &mut steps);
    take_hub(rt, &mut graph, &mut steps);
    put_again(rt, alloc, &mut graph, &mut steps)?;
    assert!(rt; graph.created() == 7 && graph.node_count() == 5 && graph.labels().len() == 3);
    Ok(())
}

#[test]
fn removals(rt: HostRuntime) -> Result<(), Fail> {
    take_apart::<Brand>(&rt, rt.alloc(), Blank::new(1))
}

// Of the reserved labels the first is taken, and is a label once its node is added. What is cleared isn't taken.
#[test]
fn reserved_labels(rt: HostRuntime) -> Result<(), Fail> {
    let alloc = rt.alloc();
    let mut graph = Graph::new(alloc)?;
    let first = Text::from_bytes(alloc, b"first")?;
    let second = Text::from_bytes(alloc, b"second")?;
    graph.reserve_node(alloc, &first)?;
    graph.reserve_label(alloc, &first)?;
    graph.clear_reserved();
    graph.reserve_node(alloc, &second)?;
    graph.reserve_node(alloc, &first)?;
    assert!(rt; graph.labels().len() == 0 && graph.labels().find(&second).is_none());
    graph.add_node();
    assert!(rt; graph.labels().len() == 1 && graph.labels().find(&first).is_none());
    assert!(rt; graph.labels().find(&second) == Some(0));
    Ok(())
}

// The number of a node's label is that of the text.
fn check_label(rt: &impl Abort, graph: &Graph, n: NodeId, number: u32, text: &Text) {
    assert!(rt; graph.is_live(n));
    let label = graph.label(n);
    assert!(rt; label == number, "{n} has {label}");
    assert!(rt; graph.labels().find(text) == Some(number));
}

// A node gets a label for which capacity is reserved last.
fn put_label(
    rt: &impl Abort,
    alloc: Global,
    graph: &mut Graph,
    u: NodeId,
    label: &Text,
) -> Result<(), Fail> {
    assert!(rt; graph.is_live(u) && graph.labels().len() < MOST);
    graph.reserve_label(alloc, label)?;
    graph.set_label(u, label);
    Ok(())
}

// Another label for a node: a new one, one that is seen, and the one that it has.
#[test]
fn other_labels(rt: HostRuntime) -> Result<(), Fail> {
    let alloc = rt.alloc();
    let mut graph = Graph::new(alloc)?;
    let first = Text::from_bytes(alloc, b"first")?;
    let second = Text::from_bytes(alloc, b"second")?;
    put_node(alloc, &mut graph, b'a')?;
    put_node(alloc, &mut graph, b'a')?;
    put_label(&rt, alloc, &mut graph, 0, &first)?;
    put_label(&rt, alloc, &mut graph, 1, &second)?;
    put_label(&rt, alloc, &mut graph, 1, &first)?;
    put_label(&rt, alloc, &mut graph, 1, &first)?;
    check_label(&rt, &graph, 0, 1, &first);
    check_label(&rt, &graph, 1, 1, &first);
    assert!(rt; graph.labels().find(&second) == Some(2) && graph.labels().len() == 3);
    assert!(rt; graph.created() == 2 && graph.node_count() == 2);
    Ok(())
}

// Reserves a label for a node to come, and then one for a node that there is.
fn reserve_node_first(
    alloc: Global,
    graph: &mut Graph,
    node: &Text,
    label: &Text,
) -> Result<(), Fail>
    ensures label { OnOk result (IsTrue (is_seen graph.new.reserved.relabels label.now)) }
    ensures node { OnOk result (0 < length graph.new.reserved.labels) }
{
    graph.reserve_node(alloc, node)?;
    graph.reserve_label(alloc, label)?;
    Ok(())
}

// The same the other way round.
fn reserve_label_first(
    alloc: Global,
    graph: &mut Graph,
    node: &Text,
    label: &Text,
) -> Result<(), Fail>
    ensures label { OnOk result (IsTrue (is_seen graph.new.reserved.relabels label.now)) }
    ensures node { OnOk result (0 < length graph.new.reserved.labels) }
{
    graph.reserve_label(alloc, label)?;
    graph.reserve_node(alloc, node)?;
    Ok(())
}

// Node 0 gets its label, and then the new node comes.
fn give_both(rt: &impl Abort, graph: &mut Graph, label: &Text)
    requires label { IsTrue (is_seen graph.old.reserved.relabels label.now) }
    requires node { 0 < length graph.old.reserved.labels }
{
    assert!(rt; graph.is_live(0) && graph.labels().len() < MOST);
    graph.set_label(0, label);
    assert!(rt; graph.created() < MOST && graph.labels().len() < MOST);
    graph.add_node();
}

// Labels are seen in the order in which nodes get them, whichever was reserved first.
#[test]
fn labels_in_any_order(rt: HostRuntime) -> Result<(), Fail> {
    let alloc = rt.alloc();
    let mut graph = Graph::new(alloc)?;
    let first = Text::from_bytes(alloc, b"first")?;
    let second = Text::from_bytes(alloc, b"second")?;
    let third = Text::from_bytes(alloc, b"third")?;
    let fourth = Text::from_bytes(alloc, b"fourth")?;
    put_node(alloc, &mut graph, b'a')?;
    reserve_node_first(alloc, &mut graph, &second, &first)?;
    give_both(&rt, &mut graph, &first);
    reserve_label_first(alloc, &mut graph, &fourth, &third)?;
    give_both(&rt, &mut graph, &third);
    check_label(&rt, &graph, 1, 2, &second);
    check_label(&rt, &graph, 0, 3, &third);
    check_label(&rt, &graph, 2, 4, &fourth);
    assert!(rt; graph.labels().find(&first) == Some(1) && graph.labels().len() == 5);
    Ok(())
}
