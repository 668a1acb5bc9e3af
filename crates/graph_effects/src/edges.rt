// The edges that come and go with a change.
ghost use Rattle.std.specs.Prelude.{◌≡◌, ◌<◌, ◌≤◌, ◌+◌, ◌*◌, ◌++◌, ◌&&◌, ◌||◌, not, ℕ, Bool, true, false, nat_eq, OnOk, length, drop};
ghost use Rattle.std.specs.List.{list_any};
ghost use Rattle.graph_spec.specs.Graphs.{is_live};
ghost use Rattle.graph_spec.specs.Members.{Lists};
ghost use Rattle.graph_spec.specs.Shapes.{shape_of};
ghost use Rattle.bisim_spec.specs.NodeEdges.{edges_from};
ghost use Rattle.bisim_spec.specs.Weights.{weight_at, weight};
ghost use Rattle.change_spec.specs.Costs.{is_gone};
ghost use Rattle.graph_steps.specs.StepLists.{step_of};
ghost use Rattle.graph_update.specs.PendingChanges.{graph_after};
ghost use Rattle.graph_effects.specs.Effects.{ListsPairs, is_new_node, is_new_edge};
ghost use Rattle.graph_effects.specs.StepEffects.{pair_if, names_pair as naming, unless_named as pair_unless, named_last as pair_last};
ghost use Rattle.graph_effects.specs.StepEffects.{passing, named_where, is_cut, edges_from_live, goes_with};

use crate::lists::FewEdges;
use crate::places::{step_at, step_count};
use graph_steps::{Change, Step};
use graph_update::After;
use label_graph::Graph;
use px_base::{Memory, NodeId, Steps};
use std::sync::ledger::Ledger;

// ---- pairs that steps name

// Whether both are those.
fn is_pair(p: NodeId, n: NodeId, u: NodeId, v: NodeId) -> bool
    ensures { result ≡ (nat_eq p u && nat_eq n v) }
{
    p == u && n == v
}

// Whether the step links these nodes, or unlinks them.
fn names_pair(step: &Step, p: NodeId, n: NodeId) -> bool
    ensures { result ≡ naming p n (step_of step.now) }
{
    match step {
        Step::Link(u, v) => is_pair(p, n, *u, *v),
        Step::Unlink(u, v) => is_pair(p, n, *u, *v),
        _ => false,
    }
}

// Whether the step at a place does so.
fn is_named_by(change: &Change, i: usize, u: NodeId, v: NodeId) -> bool
    requires { i < length change.now }
    ensures { list_any (naming u v) (drop i change.now) ≡ (result || list_any (naming u v) (drop (i + 1) change.now)) }
{
    names_pair(step_at(change, i), u, v)
}

// Whether a step from a place on does so. It names both ends, so the steps that name the one and those that name the other
// are gone through side by side, until either end.
fn is_named_from(change: &Change, from: usize, u: NodeId, v: NodeId) -> bool
    requires { from ≤ length change.now }
    ensures { result ≡ list_any (naming u v) (drop from change.now) }
{
    let len = step_count(change);
    let mut i = change.next_naming(from, u);
    let mut j = change.next_naming(from, v);
    'steps: while i < len && j < len {
        if is_named_by(change, i, u, v) {
            return true;
        }
        if is_named_by(change, j, u, v) {
            return true;
        }
        i = change.next_naming(i + 1, u);
        j = change.next_naming(j + 1, v);
    }
    false
}

// The pair, unless a step from a place on names it.
fn unless_named(change: &Change, from: usize, u: NodeId, v: NodeId) -> Option<(NodeId, NodeId)>
    requires { from ≤ length change.now }
    ensures { result ≡ pair_unless (drop from change.now) u v }
{
    if is_named_from(change, from, u, v) {
        None
    } else {
        Some((u, v))
    }
}

// The pair that the step names, unless one from the next place on does.
fn named_last(step: &Step, change: &Change, next: usize) -> Option<(NodeId, NodeId)>
    requires { next ≤ length change.now }
    ensures { result ≡ pair_last (step_of step.now) (drop next change.now) }
{
    match step {
        Step::Link(u, v) => unless_named(change, next, *u, *v),
        Step::Unlink(u, v) => unless_named(change, next, *u, *v),
        _ => None,
    }
}

// ---- edges between nodes that stay, and edges that come

// The pair is noted where it is wanted.
fn note_if(edges: &mut FewEdges, u: NodeId, v: NodeId, wanted: bool) -> Result<(), Memory>
    ensures { OnOk result (edges.new.items ≡ edges.old.items ++ pair_if wanted (u, v)) }
{
    if wanted {
        edges.push((u, v))?;
    }
    Ok(())
}

// Whether the edge is cut, where it was there or wasn't, and is or isn't.
fn is_cut(was: bool, is: bool, u: NodeId, v: NodeId, after: &After<'_>) -> bool
    ensures { result ≡ ((was && not is) && (is_live (graph_after after.now) u && is_live (graph_after after.now) v)) }
{
    (was && !is) && (after.is_live(u) && after.is_live(v))
}

fn comes(was: bool, is: bool) -> bool
    ensures { result ≡ (is && not was) }
{
    is && !was
}

// The pair is noted among the edges that go or those that come.
fn sort_pair<L: Ledger>(
    graph: &Graph,
    after: &After<'_>,
    pair: (NodeId, NodeId),
    lost: &mut FewEdges,
    added: &mut FewEdges,
    steps: &mut Steps<L>,
) -> Result<(), Memory>
    requires graph { after.now.before ≡ graph.now.graph }
    ensures lost { OnOk result (lost.new.items ≡ lost.old.items ++ pair_if (is_cut after.now.before (graph_after after.now) pair.0 pair.1) pair) }
    ensures added { OnOk result (added.new.items ≡ added.old.items ++ pair_if (is_new_edge after.now.before (graph_after after.now) pair.0 pair.1) pair) }
    ensures cost { steps.new ≡ steps.old + 1 }
{
    let (u, v) = pair;
    let was = graph.has_edge(u, v, steps);
    let is = after.edge_after(u, v, was);
    note_if(lost, u, v, is_cut(was, is, u, v, after))?;
    note_if(added, u, v, comes(was, is))
}

// So is the pair that a step names last.
fn sort_step<L: Ledger>(
    graph: &Graph,
    after: &After<'_>,
    named: Option<(NodeId, NodeId)>,
    lost: &mut FewEdges,
    added: &mut FewEdges,
    steps: &mut Steps<L>,
) -> Result<(), Memory>
    requires graph { after.now.before ≡ graph.now.graph }
    ensures lost { OnOk result (lost.new.items ≡ lost.old.items ++ passing (is_cut after.now.before (graph_after after.now)) named) }
    ensures added { OnOk result (added.new.items ≡ added.old.items ++ passing (is_new_edge after.now.before (graph_after after.now)) named) }
    ensures cost { steps.new ≤ steps.old + 1 }
{
    match named {
        Some(pair) => sort_pair(graph, after, pair, lost, added, steps),
        None => Ok(()),
    }
}

/// The edges between nodes that stay which go, and all edges that come: the steps name them. Each pair that they name is
/// looked up once in the graph, and for each step that names it among the steps that name an end, for the end where these
/// are fewer.
pub(crate) fn sort_named<L: Ledger>(
    graph: &Graph,
    change: &Change,
    after: &After<'_>,
    lost: &mut FewEdges,
    added: &mut FewEdges,
    steps: &mut Steps<L>,
) -> Result<(), Memory>
    requires graph { after.now.before ≡ graph.now.graph }
    ensures lost { OnOk result (lost.new.items ≡ lost.old.items
        ++ named_where (is_cut after.now.before (graph_after after.now)) change.now) }
    ensures added { OnOk result (added.new.items ≡ added.old.items
        ++ named_where (is_new_edge after.now.before (graph_after after.now)) change.now) }
    ensures cost { steps.new ≤ steps.old + length change.now }
{
    let all = change.steps();
    for i in 0..all.len() {
        let named = named_last(&all[i], change, i + 1);
        sort_step(graph, after, named, lost, added, steps)?;
    }
    Ok(())
}

// ---- edges of nodes that go

// The edges from a node.
fn lose_children(lost: &mut FewEdges, u: NodeId, children: &[NodeId]) -> Result<(), Memory>
    ensures { OnOk result (lost.new.items ≡ lost.old.items ++ edges_from u children.now) }
{
    for i in 0..children.len() {
        lost.push((u, children[i]))?;
    }
    Ok(())
}

// The edges to a node from nodes that stay.
fn lose_parents(
    lost: &mut FewEdges,
    u: NodeId,
    parents: &[NodeId],
    after: &After<'_>,
) -> Result<(), Memory>
    ensures { OnOk result (lost.new.items ≡ lost.old.items ++ edges_from_live (graph_after after.now) u parents.now) }
{
    for i in 0..parents.len() {
        note_if(lost, parents[i], u, after.is_live(parents[i]))?;
    }
    Ok(())
}

// The edges of a node that goes, but those from others that go.
fn lose_node<L: Ledger>(
    graph: &Graph,
    after: &After<'_>,
    u: NodeId,
    lost: &mut FewEdges,
    steps: &mut Steps<L>,
) -> Result<(), Memory>
    requires graph { after.now.before ≡ graph.now.graph }
    requires gone { is_live (graph_after after.now) u ≡ false }
    ensures lost { OnOk result ((p : ℕ → ℕ → Bool) → ListsPairs p lost.old.items
        → ((a b : ℕ) → goes_with after.now.before (graph_after after.now) u a b ≡ true → p a b ≡ false)
        → ListsPairs (λ a b. p a b || goes_with after.now.before (graph_after after.now) u a b) lost.new.items) }
    ensures cost { steps.new ≤ steps.old + 2 * weight_at (shape_of after.now.before) u }
{
    // Called for its contract: there is a graph.
    let _known = after.created();
    let children = graph.children(u, steps);
    let parents = graph.parents(u, steps);
    lose_children(lost, u, children)?;
    lose_parents(lost, u, parents, after)?;
    Ok(())
}

/// The edges of nodes that go, each once. The children and the parents of each of them are read once.
pub(crate) fn lose_nodes<L: Ledger>(
    graph: &Graph,
    after: &After<'_>,
    gone: &[NodeId],
    lost: &mut FewEdges,
    steps: &mut Steps<L>,
) -> Result<(), Memory>
    requires graph { after.now.before ≡ graph.now.graph }
    requires gone { Lists (is_new_node (graph_after after.now) after.now.before) gone.now }
    requires lost { ListsPairs (is_cut after.now.before (graph_after after.now)) lost.old.items }
    ensures lost { OnOk result (ListsPairs (is_new_edge (graph_after after.now) after.now.before) lost.new.items) }
    ensures cost { steps.new ≤ steps.old + 2 * weight (shape_of after.now.before) (is_gone after.now.before (graph_after after.now)) }
{
    // Called for its contract: there is a graph.
    let _known = after.created();
    for i in 0..gone.len() {
        lose_node(graph, after, gone[i], lost, steps)?;
    }
    Ok(())
}
