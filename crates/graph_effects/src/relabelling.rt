// The nodes that get another label with a change.
ghost use Rattle.std.specs.Prelude.{◌≡◌, ◌<◌, ◌≤◌, ◌+◌, ◌++◌, ◌&&◌, ◌||◌, not, IfOk, IsTrue, OnOk, length, drop};
ghost use Rattle.std.specs.List.{list_any};
ghost use Rattle.graph_spec.specs.Graphs.{is_live};
ghost use Rattle.graph_spec.specs.Members.{Lists};
ghost use Rattle.graph_steps.specs.StepLists.{step_of};
ghost use Rattle.graph_update.specs.PendingChanges.{graph_after};
ghost use Rattle.graph_effects.specs.Effects.{is_relabelled};
ghost use Rattle.graph_effects.specs.StepEffects.{relabels, relabelled_last, relabelled_where};

use crate::lists::FewNodes;
use crate::nodes::note_if;
use crate::places::{step_at, step_count};
use graph_steps::{Change, Step};
use graph_update::After;
use label_graph::Graph;
use px_base::{Memory, NodeId};
use std::alloc::Global;

// Whether the step gives the node a label.
fn relabels(step: &Step, n: NodeId) -> bool
    ensures { result ≡ relabels n (step_of step.now) }
{
    match step {
        Step::Relabel(u, _) => n == *u,
        _ => false,
    }
}

// Whether the step at a place does so.
fn is_given_by(change: &Change, i: usize, n: NodeId) -> bool
    requires { i < length change.now }
    ensures { list_any (relabels n) (drop i change.now) ≡ (result || list_any (relabels n) (drop (i + 1) change.now)) }
{
    relabels(step_at(change, i), n)
}

// Whether a step from a place on does so. It names the node.
fn is_given_from(change: &Change, from: usize, n: NodeId) -> bool
    requires { from ≤ length change.now }
    ensures { result ≡ list_any (relabels n) (drop from change.now) }
{
    let len = step_count(change);
    let mut i = change.next_naming(from, n);
    while i < len {
        if is_given_by(change, i, n) {
            return true;
        }
        i = change.next_naming(i + 1, n);
    }
    false
}

// Whether a node of both graphs has another label in the second.
fn labels_differ(graph: &Graph, after: &After<'_>, n: NodeId) -> bool
    requires graph { after.now.before ≡ graph.now.graph }
    requires before { IsTrue (is_live graph.now.graph n) }
    requires after { IsTrue (is_live (graph_after after.now) n) }
    ensures { result ≡ is_relabelled after.now.before (graph_after after.now) n }
{
    // Called for its contract: there is a graph, and labels keep their numbers.
    let _known = after.created();
    graph.label(n) != after.label(n)
}

// Whether the number is that of a node of both graphs, with another label in the second.
fn is_other(graph: &Graph, after: &After<'_>, n: NodeId) -> bool
    requires graph { after.now.before ≡ graph.now.graph }
    ensures { result ≡ is_relabelled after.now.before (graph_after after.now) n }
{
    if !graph.is_live(n) {
        return false;
    }
    if !after.is_live(n) {
        return false;
    }
    labels_differ(graph, after, n)
}

fn is_last(other: bool, again: bool) -> bool
    ensures { result ≡ (other && not again) }
{
    other && !again
}

// Notes the node to which the step gives another label, unless one from the next place on gives it one.
fn note_last(
    nodes: &mut FewNodes,
    graph: &Graph,
    after: &After<'_>,
    step: &Step,
    change: &Change,
    next: usize,
) -> Result<(), Memory>
    requires graph { after.now.before ≡ graph.now.graph }
    requires next { next ≤ length change.now }
    ensures { OnOk result (nodes.new.items ≡ nodes.old.items
        ++ relabelled_last (is_relabelled after.now.before (graph_after after.now)) (step_of step.now) (drop next change.now)) }
{
    match step {
        Step::Relabel(u, _) => {
            let wanted = is_last(is_other(graph, after, *u), is_given_from(change, next, *u));
            note_if(nodes, *u, wanted)
        }
        _ => Ok(()),
    }
}

// Notes the nodes to which steps give other labels, each once.
fn note_all(
    nodes: &mut FewNodes,
    graph: &Graph,
    after: &After<'_>,
    change: &Change,
) -> Result<(), Memory>
    requires graph { after.now.before ≡ graph.now.graph }
    ensures { OnOk result (nodes.new.items ≡ nodes.old.items
        ++ relabelled_where (is_relabelled after.now.before (graph_after after.now)) change.now) }
{
    let all = change.steps();
    for i in 0..all.len() {
        note_last(nodes, graph, after, &all[i], change, i + 1)?;
    }
    Ok(())
}

/// The nodes of both graphs that get another label, each once.
pub(crate) fn relabelled_nodes(
    alloc: Global,
    graph: &Graph,
    change: &Change,
    after: &After<'_>,
) -> Result<FewNodes, Memory>
    requires graph { after.now.before ≡ graph.now.graph }
    requires same { after.now.change ≡ change.now }
    ensures { IfOk result (λ nodes. Lists (is_relabelled after.now.before (graph_after after.now)) nodes.items) }
{
    // Called for its contract: the steps can be made.
    let _known = after.created();
    let mut nodes = FewNodes::new(alloc);
    note_all(&mut nodes, graph, after, change)?;
    Ok(nodes)
}
