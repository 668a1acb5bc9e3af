// The neighbours of a node in the graph after a change, read into a buffer.
ghost use Rattle.std.specs.Prelude.{◌≡◌, ◌+◌, ◌≤◌, ◌^◌, OnOk, length};
ghost use Rattle.graph_spec.specs.Members.{Lists};
ghost use Rattle.graph_spec.specs.Graphs.{IsGraph, has_edge};
ghost use Rattle.graph_update.specs.PendingChanges.{graph_after};
ghost use Rattle.quotient_moves.specs.NeighbourCosts.{parents_cost, children_cost};

use graph_update::{After, Neighbours};
use px_base::{Memory, NodeId, Steps};
use std::sync::ledger::Ledger;

/// Lists the parents of a node in the graph after a change, replacing what the list held. O(p) for p parents, those that
/// the change takes away among them. It takes one step and at most one more for each of them, and 4 bytes a parent where
/// the list has no capacity.
pub fn read_parents<L: Ledger>(
    list: &mut Vec<NodeId>,
    after: &After<'_>,
    n: NodeId,
    steps: &mut Steps<L>,
) -> Result<(), Memory>
    ensures parents { OnOk result (Lists (λ u. has_edge (graph_after after.now) u n) list.new.items) }
    ensures graph { IsGraph (graph_after after.now) }
    ensures few { length (graph_after after.now).allocated ≤ 2 ^ 30 }
    ensures cost { steps.new ≤ steps.old + parents_cost after.now n }
{
    // Called for its contract: there is a graph, so that the parents are among its nodes.
    let _known = after.created();
    fill(list, after.parents(n, steps))
}

/// Lists the children of a node in the graph after a change, at the same cost, replacing what the list held.
pub fn read_children<L: Ledger>(
    list: &mut Vec<NodeId>,
    after: &After<'_>,
    n: NodeId,
    steps: &mut Steps<L>,
) -> Result<(), Memory>
    ensures children { OnOk result (Lists (has_edge (graph_after after.now) n) list.new.items) }
    ensures graph { IsGraph (graph_after after.now) }
    ensures few { length (graph_after after.now).allocated ≤ 2 ^ 30 }
    ensures cost { steps.new ≤ steps.old + children_cost after.now n }
{
    // Called for its contract: there is a graph, so that the children are among its nodes.
    let _known = after.created();
    fill(list, after.children(n, steps))
}

// Puts the nodes into a list, replacing what it held.
fn fill(list: &mut Vec<NodeId>, nodes: Neighbours<'_>) -> Result<(), Memory>
    ensures { OnOk result (list.new.items ≡ nodes.entry) }
{
    list.clear();
    for n in nodes {
        list.push(n)?;
    }
    Ok(())
}
