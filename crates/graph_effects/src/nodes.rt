// The nodes that come and go with a change.
ghost use Rattle.std.specs.Prelude.{◌≡◌, ◌≤◌, ◌++◌, IfOk, OnOk, length};
ghost use Rattle.graph_spec.specs.Graphs.{IsGraph};
ghost use Rattle.graph_spec.specs.Members.{Lists};
ghost use Rattle.bisim_spec.specs.declared.sides.Side.TheVariants.{Parents};
ghost use Rattle.change_spec.specs.Places.{CanMakeAll};
ghost use Rattle.graph_steps.specs.StepLists.{step_of, steps_of};
ghost use Rattle.graph_update.specs.PendingChanges.{graph_after};
ghost use Rattle.graph_effects.specs.Effects.{is_new_node};
ghost use Rattle.graph_effects.specs.StepEffects.{node_if, comes_below, gone_by, gone_with, end_with, live_ends};

use crate::lists::FewNodes;
use bisim_spec::Side;
use graph_steps::Step;
use graph_update::After;
use label_graph::Graph;
use px_base::{Memory, NodeId};
use std::alloc::Global;

/// The number is noted where it is wanted.
pub(crate) fn note_if(nodes: &mut FewNodes, n: NodeId, wanted: bool) -> Result<(), Memory>
    ensures { OnOk result (nodes.new.items ≡ nodes.old.items ++ node_if wanted n) }
{
    if wanted {
        nodes.push(n)?;
    }
    Ok(())
}

// The nodes among these numbers.
fn live_nodes(alloc: Global, first: u32, end: u32, after: &After<'_>) -> Result<FewNodes, Memory>
    requires { first ≤ end }
    ensures { IfOk result (λ nodes. Lists (comes_below (graph_after after.now) first end) nodes.items) }
{
    let mut nodes = FewNodes::new(alloc);
    for n in first..end {
        note_if(&mut nodes, n, after.is_live(n))?;
    }
    Ok(nodes)
}

/// The nodes that come.
pub(crate) fn came_nodes(
    alloc: Global,
    graph: &Graph,
    after: &After<'_>,
) -> Result<FewNodes, Memory>
    requires { after.now.before ≡ graph.now.graph }
    ensures { IfOk result (λ nodes. Lists (is_new_node after.now.before (graph_after after.now)) nodes.items) }
{
    let first = graph.created();
    let end = after.created();
    let nodes = live_nodes(alloc, first, end, after)?;
    Ok(nodes)
}

// The node that a step takes away, where it is one of the graph.
fn note_gone(nodes: &mut FewNodes, graph: &Graph, step: &Step) -> Result<(), Memory>
    ensures { OnOk result (nodes.new.items ≡ nodes.old.items ++ gone_by graph.now.graph (step_of step.now)) }
{
    match step {
        Step::Drop(u) => note_if(nodes, *u, graph.is_live(*u)),
        _ => Ok(()),
    }
}

// The nodes of the graph that steps take away.
fn gone_with(alloc: Global, graph: &Graph, steps: &[Step]) -> Result<FewNodes, Memory>
    ensures { IfOk result (λ nodes. nodes.items ≡ gone_with graph.now.graph (steps_of steps.now)) }
{
    let mut nodes = FewNodes::new(alloc);
    for i in 0..steps.len() {
        note_gone(&mut nodes, graph, &steps[i])?;
    }
    Ok(nodes)
}

/// The nodes that go.
pub(crate) fn gone_nodes(
    alloc: Global,
    graph: &Graph,
    steps: &[Step],
    after: &After<'_>,
) -> Result<FewNodes, Memory>
    requires graph { after.now.before ≡ graph.now.graph }
    requires same { after.now.change ≡ steps_of steps.now }
    ensures { IfOk result (λ nodes. Lists (is_new_node (graph_after after.now) after.now.before) nodes.items) }
{
    // Called for its contract: the steps can be made.
    let _known = after.created();
    let nodes = gone_with(alloc, graph, steps)?;
    Ok(nodes)
}

// The end of an edge whose other end is its neighbour on this side.
fn end_with(side: Side, edge: (NodeId, NodeId)) -> NodeId
    ensures { result ≡ end_with side edge }
{
    match side {
        Side::Parents => edge.1,
        Side::Children => edge.0,
    }
}

/// Those of the edges that are nodes after the change.
pub(crate) fn note_ends(
    nodes: &mut FewNodes,
    side: Side,
    edges: &[(NodeId, NodeId)],
    after: &After<'_>,
) -> Result<(), Memory>
    ensures { OnOk result (nodes.new.items ≡ nodes.old.items ++ live_ends side (graph_after after.now) edges.now) }
{
    let mut left = edges;
    while let Some((edge, rest)) = left.split_first() {
        left = rest;
        let end = end_with(side, *edge);
        note_if(nodes, end, after.is_live(end))?;
    }
    Ok(())
}

/// The nodes that come, those that get another label, and those to which these edges lead.
pub(crate) fn target_nodes(
    alloc: Global,
    came: &[NodeId],
    relabelled: &[NodeId],
    lost: &[(NodeId, NodeId)],
    added: &[(NodeId, NodeId)],
    after: &After<'_>,
) -> Result<FewNodes, Memory>
    ensures { IfOk result (λ nodes. nodes.items
        ≡ ((came.now ++ relabelled.now) ++ live_ends Parents (graph_after after.now) lost.now) ++ live_ends Parents (graph_after after.now) added.now) }
{
    let mut nodes = FewNodes::from_slice(alloc, came)?;
    nodes.extend_from_slice(relabelled)?;
    note_ends(&mut nodes, Side::Parents, lost, after)?;
    note_ends(&mut nodes, Side::Parents, added, after)?;
    Ok(nodes)
}
