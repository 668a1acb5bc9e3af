// Each public call once, and the verdicts on a graph that is at its limits.
ghost use Rattle.std.specs.Prelude.{◌≡◌, ◌<◌};

use graph_update::{After, Applied, Change, Neighbours, Step, Verdict, commit, judge, stage};
use label_graph::Graph;
use px_base::{Limits, NodeId, Refusal, Steps, Text};
use std::alloc::Global;
use std::marker::Brand;
use std::process::Abort;
use std::sync::ledger::{Blank, Ledger};
use std::test::Fail;

const TIGHT: Limits = Limits {
    nodes: 2,
    edges: 1,
    labels: 1,
    expr_bytes: 1,
    expr_depth: 1,
};

fn node(alloc: Global, label: &[u8]) -> Result<Change, Fail> {
    Ok(Change::one(alloc, Step::Node(Text::from_bytes(alloc, label)?))?)
}

// Makes a change that alters the graph.
fn make(
    alloc: Global,
    graph: &mut Graph,
    change: &Change,
    limits: &Limits,
) -> Result<Applied, Fail> {
    let Ok(Verdict::New) = judge(graph, change, limits) else {
        return Err("not new".into());
    };
    let staged = stage(alloc, graph, change)?;
    Ok(commit(graph, staged))
}

// What a change did that allocated so many numbers from this one on.
fn applied(first: NodeId, added: u32) -> Applied {
    Applied { first, added }
}

// Two nodes with one label, and an edge from the first to the second.
fn pair(rt: &impl Abort, alloc: Global) -> Result<Graph, Fail> {
    let mut graph = Graph::new(alloc)?;
    let first = node(alloc, b"a")?;
    let link = Change::one(alloc, Step::Link(0, 1))?;
    assert!(rt; make(alloc, &mut graph, &first, &TIGHT)? == applied(0, 1));
    assert!(rt; make(alloc, &mut graph, &first, &TIGHT)? == applied(1, 1));
    assert!(rt; make(alloc, &mut graph, &link, &TIGHT)? == applied(2, 0));
    Ok(graph)
}

// The verdict of a change of one step.
fn verdict(alloc: Global, graph: &Graph, step: Step) -> Result<Result<Verdict, Refusal>, Fail> {
    let change = Change::one(alloc, step)?;
    Ok(judge(graph, &change, &TIGHT))
}

// Each limit is reached.
#[test]
fn verdicts_at_the_limits(rt: HostRuntime) -> Result<(), Fail> {
    let alloc = rt.alloc();
    let graph = pair(&rt, alloc)?;
    let third = Step::Node(Text::from_bytes(alloc, b"a")?);
    assert!(rt; verdict(alloc, &graph, third)? == Err(Refusal::Limit));
    assert!(rt; verdict(alloc, &graph, Step::Link(1, 0))? == Err(Refusal::Limit));
    assert!(rt; verdict(alloc, &graph, Step::Link(0, 1))? == Ok(Verdict::Same));
    assert!(rt; verdict(alloc, &graph, Step::Link(0, 5))? == Err(Refusal::NoNode));
    assert!(rt; verdict(alloc, &graph, Step::Unlink(1, 0))? == Err(Refusal::NoEdge));
    assert!(rt; verdict(alloc, &graph, Step::Drop(1))? == Ok(Verdict::New));
    Ok(())
}

fn listed(alloc: Global, items: Neighbours<'_>) -> Result<Vec<NodeId>, Fail> {
    Ok(items.collect(alloc)?)
}

// Whether these are the items, in some order.
fn are(items: &[NodeId], others: &[NodeId]) -> bool {
    items.len() == others.len() && items.iter().all(|n| others.contains(n))
}

// Shows the neighbours that node 0 will have, and makes the change, which is one step.
fn show_and_make<L: Ledger>(
    rt: &impl Abort,
    alloc: Global,
    graph: &mut Graph,
    step: Step,
    neighbours: (&[NodeId], &[NodeId]),
    steps: &mut Steps<L>,
) -> Result<(), Fail> {
    let change = Change::one(alloc, step)?;
    let Ok(Verdict::New) = judge(graph, &change, &Limits::program()) else {
        return Err("not new".into());
    };
    let after = After::new(graph, &change);
    let (parents, children) = neighbours;
    assert!(rt; after.is_live(0) && !after.is_live(after.created()));
    assert!(rt; are(&listed(alloc, after.parents(0, steps))?, parents));
    assert!(rt; are(&listed(alloc, after.children(0, steps))?, children));
    make(alloc, graph, &change, &Limits::program())?;
    Ok(())
}

fn check_shown<L: Ledger>(rt: &impl Abort, alloc: Global, blank: Blank) -> Result<(), Fail>
    requires name { blank.name ≡ L.name }
    requires parts { blank.parts ≡ L.parts }
    requires some { 0 < blank.parts }
{
    let mut steps = Steps::<L>::new(blank);
    let mut graph = pair(rt, alloc)?;
    show_and_make(
        rt,
        alloc,
        &mut graph,
        Step::Link(1, 0),
        (&[1], &[1]),
        &mut steps,
    )?;
    show_and_make(
        rt,
        alloc,
        &mut graph,
        Step::Link(0, 0),
        (&[0, 1], &[0, 1]),
        &mut steps,
    )?;
    show_and_make(
        rt,
        alloc,
        &mut graph,
        Step::Unlink(0, 1),
        (&[0, 1], &[0]),
        &mut steps,
    )?;
    show_and_make(
        rt,
        alloc,
        &mut graph,
        Step::Unlink(1, 0),
        (&[0], &[0]),
        &mut steps,
    )?;
    show_and_make(
        rt,
        alloc,
        &mut graph,
        Step::Drop(1),
        (&[0], &[0]),
        &mut steps,
    )?;
    assert!(rt; graph.edge_count() == 1 && !graph.is_live(1));
    Ok(())
}

#[test]
fn changes_are_shown_and_made(rt: HostRuntime) -> Result<(), Fail> {
    check_shown::<Brand>(&rt, rt.alloc(), Blank::new(1))
}

// A new node has the next number, and a label that wasn't seen the next number of a label.
#[test]
fn a_new_node_is_shown(rt: HostRuntime) -> Result<(), Fail> {
    let alloc = rt.alloc();
    let mut graph = pair(&rt, alloc)?;
    let change = node(alloc, b"b")?;
    let Ok(Verdict::New) = judge(&graph, &change, &Limits::program()) else {
        return Err("not new".into());
    };
    let after = After::new(&graph, &change);
    assert!(rt; after.is_live(2));
    assert!(rt; after.label(2) == 1);
    assert!(rt; make(alloc, &mut graph, &change, &Limits::program())? == applied(2, 1));
    Ok(())
}

// Two nodes, an edge between them, and a drop of the first, which takes it along: the change counts as one.
fn several(alloc: Global) -> Result<Change, Fail> {
    let mut change = node(alloc, b"b")?;
    change.push(Step::Node(Text::from_bytes(alloc, b"b")?))?;
    change.push(Step::Link(2, 3))?;
    change.push(Step::Link(3, 0))?;
    change.push(Step::Drop(2))?;
    Ok(change)
}

#[test]
fn several_steps_are_made(rt: HostRuntime) -> Result<(), Fail> {
    let alloc = rt.alloc();
    let mut graph = pair(&rt, alloc)?;
    let change = several(alloc)?;
    assert!(rt; make(alloc, &mut graph, &change, &Limits::program())? == applied(2, 2));
    assert!(rt; graph.edge_count() == 2 && !graph.is_live(2) && graph.is_live(3));
    Ok(())
}
