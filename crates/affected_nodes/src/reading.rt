// The nodes around those that were met, which are met in their turn.
ghost use Rattle.std.specs.Prelude.{◌≡◌, ◌+◌, ◌<◌, ◌≤◌, ◌||◌, ◌++◌, ℕ, List, OnOk, nat_eq, length, take, slice_index, sum_by};
ghost use Rattle.graph_spec.specs.Members.{has};
ghost use Rattle.graph_spec.specs.Graphs.{has_edge};
ghost use Rattle.graph_spec.specs.Shapes.{shape_of};
ghost use Rattle.graph_update.specs.PendingChanges.{graph_after};
ghost use Rattle.bisim_spec.specs.SidedLevels.{spread};
ghost use Rattle.affected_nodes.specs.ReadCosts.{children_cost, parents_cost, spread_cost};
ghost use Rattle.affected_nodes.specs.AffectedSearches.{IsSpread};

use bisim_spec::Sides;
use graph_update::{After, Neighbours};
use indexmap::IndexSet;
use px_base::{Memory, NodeId, Steps};
use std::sync::ledger::Ledger;

// This node is met, if it was not yet.
fn meet_one(met: &mut IndexSet<NodeId>, n: NodeId) -> Result<(), Memory>
    ensures prefix { OnOk result ((rest : List ℕ) × (met.new.keys ≡ met.old.keys ++ rest)) }
    ensures has { OnOk result ((c : ℕ) → has met.new.keys c ≡ (has met.old.keys c || nat_eq c n)) }
{
    met.insert(n)?;
    Ok(())
}

/// These nodes are met, if they were not yet.
pub(crate) fn meet(met: &mut IndexSet<NodeId>, nodes: &[NodeId]) -> Result<(), Memory>
    ensures has { OnOk result ((c : ℕ) → has met.new.keys c ≡ (has met.old.keys c || has nodes.now c)) }
{
    for i in 0..nodes.len() {
        meet_one(met, nodes[i])?;
    }
    Ok(())
}

// The same for the neighbours of a node.
fn meet_all(met: &mut IndexSet<NodeId>, nodes: Neighbours<'_>) -> Result<(), Memory>
    ensures prefix { OnOk result ((rest : List ℕ) × (met.new.keys ≡ met.old.keys ++ rest)) }
    ensures has { OnOk result ((c : ℕ) → has met.new.keys c ≡ (has met.old.keys c || has nodes.entry c)) }
{
    for n in nodes {
        meet_one(met, n)?;
    }
    Ok(())
}

// The children of a node are met. They are read once.
fn read_children<L: Ledger>(
    met: &mut IndexSet<NodeId>,
    after: &After<'_>,
    n: NodeId,
    steps: &mut Steps<L>,
) -> Result<(), Memory>
    ensures prefix { OnOk result ((rest : List ℕ) × (met.new.keys ≡ met.old.keys ++ rest)) }
    ensures has { OnOk result ((c : ℕ) → has met.new.keys c ≡ (has met.old.keys c || has_edge (graph_after after.now) n c)) }
    ensures cost { steps.new ≤ steps.old + children_cost after.now n }
{
    // Called for its contract: there is a graph, so that the children are among its nodes.
    let _known = after.created();
    meet_all(met, after.children(n, steps))
}

// The parents of a node are met. They are read once.
fn read_parents<L: Ledger>(
    met: &mut IndexSet<NodeId>,
    after: &After<'_>,
    n: NodeId,
    steps: &mut Steps<L>,
) -> Result<(), Memory>
    ensures prefix { OnOk result ((rest : List ℕ) × (met.new.keys ≡ met.old.keys ++ rest)) }
    ensures has { OnOk result ((c : ℕ) → has met.new.keys c ≡ (has met.old.keys c || has_edge (graph_after after.now) c n)) }
    ensures cost { steps.new ≤ steps.old + parents_cost after.now n }
{
    // Called for its contract: there is a graph, so that the parents are among its nodes.
    let _known = after.created();
    meet_all(met, after.parents(n, steps))
}

// The children and the parents of a node are met.
fn read_both<L: Ledger>(
    met: &mut IndexSet<NodeId>,
    after: &After<'_>,
    n: NodeId,
    steps: &mut Steps<L>,
) -> Result<(), Memory>
    ensures prefix { OnOk result ((rest : List ℕ) × (met.new.keys ≡ met.old.keys ++ rest)) }
    ensures has { OnOk result ((c : ℕ) → has met.new.keys c
        ≡ (has met.old.keys c || (has_edge (graph_after after.now) n c || has_edge (graph_after after.now) c n))) }
    ensures cost { steps.new ≤ steps.old + (children_cost after.now n + parents_cost after.now n) }
{
    read_children(met, after, n, steps)?;
    read_parents(met, after, n, steps)?;
    Ok(())
}

// The nodes whose next level a node can change are met: its children and, where both sides count, its parents.
fn read_around<L: Ledger>(
    met: &mut IndexSet<NodeId>,
    sides: Sides,
    after: &After<'_>,
    n: NodeId,
    steps: &mut Steps<L>,
) -> Result<(), Memory>
    ensures prefix { OnOk result ((rest : List ℕ) × (met.new.keys ≡ met.old.keys ++ rest)) }
    ensures has { OnOk result ((c : ℕ) → has met.new.keys c ≡ (has met.old.keys c || (spread sides (shape_of (graph_after after.now))).edge n c)) }
    ensures cost { steps.new ≤ steps.old + spread_cost sides after.now n }
{
    match sides {
        Sides::Parents => read_children(met, after, n, steps),
        Sides::Both => read_both(met, after, n, steps),
    }
}

// The node at a place.
fn node_at(met: &IndexSet<NodeId>, i: usize) -> NodeId
    requires { i < length met.now.keys }
    ensures { slice_index met.now.keys i ≡ result }
{
    met.as_slice()[i]
}

/// The nodes around all nodes that are met are met, where those around the first `from` are already.
pub(crate) fn spread<L: Ledger>(
    met: &mut IndexSet<NodeId>,
    sides: Sides,
    from: usize,
    after: &After<'_>,
    steps: &mut Steps<L>,
) -> Result<(), Memory>
    requires from { from ≤ length met.old.keys }
    requires first { IsSpread (spread sides (shape_of (graph_after after.now))) met.old.keys from met.old.keys }
    ensures spread { OnOk result (IsSpread (spread sides (shape_of (graph_after after.now))) met.old.keys (length met.old.keys) met.new.keys) }
    ensures cost { steps.new + sum_by (spread_cost sides after.now) (take from met.old.keys)
        ≤ steps.old + sum_by (spread_cost sides after.now) met.old.keys }
{
    for i in from..met.len() {
        let n = node_at(met, i);
        read_around(met, sides, after, n, steps)?;
    }
    Ok(())
}
