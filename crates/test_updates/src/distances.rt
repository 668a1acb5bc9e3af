// What a link affects.
ghost use Rattle.std.specs.Prelude.{◌≡◌, ◌<◌};

use affected_nodes::affected_nodes;
use bisim_spec::Sides;
use graph_update::{After, Change, Step, Verdict, judge};
use px_base::{Limits, Memory, NodeId, Steps};
use std::alloc::Global;
use std::marker::Brand;
use std::process::Abort;
use std::sync::ledger::{Blank, Ledger};
use std::test::Fail;
use test_graphs::graph_from;

// Whether these nodes are affected by the target, by at most two edges and by at most one, where these sides count.
fn are_within<L: Ledger>(
    alloc: Global,
    after: &After<'_>,
    sides: Sides,
    target: NodeId,
    two: &[NodeId],
    one: &[NodeId],
    steps: &mut Steps<L>,
) -> Result<bool, Memory> {
    if !after.is_live(target) {
        return Ok(false);
    }
    let affected = affected_nodes(alloc, after, sides, &[target], 2, steps)?;
    Ok(affected.within(2) == two && affected.within(1) == one)
}

// A chain of three nodes, and a node that is linked to its first one.
fn check_link<L: Ledger>(rt: &impl Abort, alloc: Global, blank: Blank) -> Result<(), Fail>
    requires name { blank.name ≡ L.name }
    requires parts { blank.parts ≡ L.parts }
    requires some { 0 < blank.parts }
{
    let mut steps = Steps::<L>::new(blank);
    let graph = graph_from(alloc, b"aaaa", &[(1, 2), (2, 3)], &mut steps)?;
    let change = Change::one(alloc, Step::Link(0, 1))?;
    let Ok(Verdict::New) = judge(&graph, &change, &Limits::program()) else {
        return Err("not new".into());
    };
    let after = After::new(&graph, &change);
    let along = are_within(
        alloc,
        &after,
        Sides::Parents,
        1,
        &[1, 2, 3],
        &[1, 2],
        &mut steps,
    )?;
    assert!(rt; along);
    let around = are_within(
        alloc,
        &after,
        Sides::Both,
        2,
        &[2, 3, 1, 0],
        &[2, 3, 1],
        &mut steps,
    )?;
    assert!(rt; around);
    Ok(())
}

#[test]
fn two_edges_on(rt: HostRuntime) -> Result<(), Fail> {
    check_link::<Brand>(&rt, rt.alloc(), Blank::new(1))
}
