// A small graph stays small, however many nodes come and go.
ghost use Rattle.std.specs.Prelude.{◌≡◌, ◌<◌};

use super::*;
use px_base::{NodeId, Steps, Text};
use std::alloc::Global;
use std::marker::Brand;
use std::process::Abort;
use std::sync::ledger::{Blank, Ledger};
use std::test::Fail;

fn put_node(rt: &impl Abort, alloc: Global, graph: &mut Graph) -> Result<NodeId, Fail> {
    assert!(rt; graph.created() < 1 << 30 && graph.labels().len() < 1 << 30);
    graph.reserve_node(alloc, &Text::from_bytes(alloc, b"a")?)?;
    let added = graph.add_node();
    Ok(added)
}

fn put_edge<L: Ledger>(
    rt: &impl Abort,
    graph: &mut Graph,
    u: NodeId,
    v: NodeId,
    steps: &mut Steps<L>,
) -> Result<(), Fail> {
    assert!(rt; graph.is_live(u) && graph.is_live(v));
    assert!(rt; graph.edge_count() < 1 << 30);
    assert!(rt; !graph.has_edge(u, v, steps));
    graph.reserve_edge(u, v)?;
    graph.add_edge(u, v);
    Ok(())
}

fn take_edge<L: Ledger>(
    rt: &impl Abort,
    graph: &mut Graph,
    u: NodeId,
    v: NodeId,
    steps: &mut Steps<L>,
) {
    assert!(rt; graph.has_edge(u, v, steps));
    graph.remove_edge(u, v);
}

fn take_node<L: Ledger>(rt: &impl Abort, graph: &mut Graph, n: NodeId, steps: &mut Steps<L>) {
    assert!(rt; graph.is_live(n));
    assert!(rt; graph.is_isolated(n, steps));
    graph.remove_node(n);
}

// Two nodes come, are linked both ways and to themselves, and go.
fn come_and_go<L: Ledger>(
    rt: &impl Abort,
    alloc: Global,
    graph: &mut Graph,
    steps: &mut Steps<L>,
) -> Result<(), Fail> {
    let u = put_node(rt, alloc, graph)?;
    let v = put_node(rt, alloc, graph)?;
    let pairs = [(u, v), (v, u), (u, u), (v, v)];
    for (from, onto) in &pairs {
        put_edge(rt, graph, *from, *onto, steps)?;
    }
    for (from, onto) in &pairs {
        take_edge(rt, graph, *from, *onto, steps);
    }
    take_node(rt, graph, u, steps);
    take_node(rt, graph, v, steps);
    Ok(())
}

fn come_and_go_often<L: Ledger>(rt: &impl Abort, alloc: Global, blank: Blank) -> Result<(), Fail>
    requires name { blank.name ≡ L.name }
    requires parts { blank.parts ≡ L.parts }
    requires some { 0 < blank.parts }
{
    let mut steps = Steps::<L>::new(blank);
    let mut graph = Graph::new(alloc)?;
    for _ in 0..1000u32 {
        come_and_go(rt, alloc, &mut graph, &mut steps)?;
    }
    assert!(rt; graph.created() == 2000 && graph.node_count() == 0);
    // four lists of two, each with capacity for four
    assert!(rt; graph.cell_count() == 16);
    Ok(())
}

#[test]
fn cells_are_used_again(rt: HostRuntime) -> Result<(), Fail> {
    come_and_go_often::<Brand>(&rt, rt.alloc(), Blank::new(1))
}
