// Groups of steps, made in two calls.
use super::*;
use graph_steps::edge_before;
use label_graph::Graph;
use px_base::{Limits, NodeId, Text};
use std::alloc::Global;
use std::process::Abort;
use std::test::Fail;

const FEW: Limits = Limits {
    nodes: 8,
    edges: 4,
    labels: 4,
    expr_bytes: 1,
    expr_depth: 1,
};

fn node(alloc: Global, label: &[u8]) -> Result<Step, Fail> {
    Ok(Step::Node(Text::from_bytes(alloc, label)?))
}

// Makes a change that alters the graph.
fn make(alloc: Global, graph: &mut Graph, change: &Change) -> Result<Applied, Fail> {
    let Ok(Verdict::New) = judge(graph, change, &FEW) else {
        return Err("not new".into());
    };
    let staged = stage(alloc, graph, change)?;
    Ok(commit(graph, staged))
}

// Stages a change, and drops what is staged.
fn stage_and_drop(alloc: Global, graph: &mut Graph, change: &Change) -> Result<(), Fail> {
    let Ok(Verdict::New) = judge(graph, change, &FEW) else {
        return Err("not new".into());
    };
    let _staged = stage(alloc, graph, change)?;
    Ok(())
}

// A hub, with an edge to each of two nodes and one back, and an idle step.
fn with_hub(alloc: Global) -> Result<Change, Fail> {
    let mut change = Change::one(alloc, node(alloc, b"hub")?)?;
    change.push(node(alloc, b"a")?)?;
    change.push(node(alloc, b"a")?)?;
    change.push(Step::Link(0, 1))?;
    change.push(Step::Link(0, 2))?;
    change.push(Step::Link(0, 1))?;
    change.push(Step::Link(2, 0))?;
    Ok(change)
}

// One more node, which is linked, and the hub goes.
fn without_hub(alloc: Global) -> Result<Change, Fail> {
    let mut change = Change::one(alloc, node(alloc, b"b")?)?;
    change.push(Step::Link(3, 1))?;
    change.push(Step::Drop(0))?;
    change.push(Step::Link(1, 2))?;
    Ok(change)
}

fn make_groups(rt: &impl Abort, alloc: Global, graph: &mut Graph) -> Result<(), Fail> {
    assert!(rt; make(alloc, graph, &with_hub(alloc)?)? == Applied { first: 0, added: 3 });
    assert!(rt; graph.edge_count() == 3 && edge_before(graph, 2, 0));
    assert!(rt; make(alloc, graph, &without_hub(alloc)?)? == Applied { first: 3, added: 1 });
    assert!(rt; graph.edge_count() == 2 && graph.node_count() == 3);
    assert!(rt; edge_before(graph, 3, 1) && edge_before(graph, 1, 2));
    Ok(())
}

#[test]
fn groups(rt: HostRuntime) -> Result<(), Fail> {
    let mut graph = Graph::new(rt.alloc())?;
    make_groups(&rt, rt.alloc(), &mut graph)
}

fn label(alloc: Global, node: NodeId, text: &[u8]) -> Result<Step, Fail> {
    Ok(Step::Relabel(node, Text::from_bytes(alloc, text)?))
}

// Node 0 gets a label, and another, which a new node brings. That node gets another too.
fn with_labels(alloc: Global) -> Result<Change, Fail> {
    let mut change = Change::one(alloc, label(alloc, 0, b"b")?)?;
    change.push(node(alloc, b"c")?)?;
    change.push(label(alloc, 1, b"d")?)?;
    change.push(label(alloc, 0, b"c")?)?;
    change.push(label(alloc, 0, b"c")?)?;
    Ok(change)
}

// The numbers of the labels that nodes 0 and 1 will have.
fn shown_labels(rt: &impl Abort, graph: &Graph, change: &Change) -> Result<(u32, u32), Fail> {
    let Ok(Verdict::New) = judge(graph, change, &FEW) else {
        return Err("not new".into());
    };
    let after = After::new(graph, change);
    assert!(rt; after.is_live(0) && after.is_live(1));
    Ok((after.label(0), after.label(1)))
}

// Labels have the numbers of their order in the change, before it is made and after, whatever lies ahead.
fn check_labels(rt: &impl Abort, alloc: Global, graph: &mut Graph) -> Result<(), Fail> {
    make(alloc, graph, &Change::one(alloc, node(alloc, b"a")?)?)?;
    let change = with_labels(alloc)?;
    assert!(rt; shown_labels(rt, graph, &change)? == (2, 3));
    stage_and_drop(alloc, graph, &change)?;
    assert!(rt; shown_labels(rt, graph, &change)? == (2, 3));
    stage_and_drop(alloc, graph, &with_hub(alloc)?)?;
    assert!(rt; shown_labels(rt, graph, &change)? == (2, 3));
    assert!(rt; make(alloc, graph, &change)? == Applied { first: 1, added: 1 });
    assert!(rt; graph.is_live(0) && graph.is_live(1));
    assert!(rt; graph.label(0) == 2 && graph.label(1) == 3 && graph.labels().len() == 4);
    assert!(rt; graph.labels().find(&Text::from_bytes(alloc, b"b")?) == Some(1));
    Ok(())
}

#[test]
fn other_labels(rt: HostRuntime) -> Result<(), Fail> {
    let mut graph = Graph::new(rt.alloc())?;
    check_labels(&rt, rt.alloc(), &mut graph)
}

// The labels of a change that is dropped don't come back.
fn stage_again(rt: &impl Abort, alloc: Global, graph: &mut Graph) -> Result<(), Fail> {
    stage_and_drop(alloc, graph, &with_hub(alloc)?)?;
    assert!(rt; graph.created() == 0);
    let second = Change::one(alloc, node(alloc, b"a")?)?;
    assert!(rt; make(alloc, graph, &second)? == Applied { first: 0, added: 1 });
    assert!(rt; graph.labels().find(&Text::from_bytes(alloc, b"a")?) == Some(0));
    assert!(rt; graph.labels().len() == 1);
    Ok(())
}

#[test]
fn staged_twice(rt: HostRuntime) -> Result<(), Fail> {
    let mut graph = Graph::new(rt.alloc())?;
    stage_again(&rt, rt.alloc(), &mut graph)
}
