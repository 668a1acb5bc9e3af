// Moving a node to another block.
ghost use Rattle.std.specs.Prelude.{◌≡◌, ◌+◌, ◌≤◌, Some, IsSome, IsTrue, OnOk};
ghost use Rattle.graph_spec.specs.Members.{at, Lists};
ghost use Rattle.graph_spec.specs.Graphs.{is_live, has_edge};
ghost use Rattle.graph_spec.specs.Shapes.{shape_of};
ghost use Rattle.bisim_spec.specs.Partitions.{IsPartition};
ghost use Rattle.one_spec.specs.EdgeCounts.{AreEdgeCounts};
ghost use Rattle.graph_update.specs.PendingChanges.{graph_after};
ghost use Rattle.quotient_draft.specs.Drafts.{shown_labels, shown_blocks, shown_support, PutsNode};
ghost use Rattle.quotient_draft.specs.Basis.{IsOver};
ghost use Rattle.quotient_moves.specs.NeighbourCosts.{parents_cost, children_cost};

use crate::neighbours::NodeNeighbours;
use crate::reading::{read_children, read_parents};
use crate::shifting::{block_of, shift_neighbours};
use bisim_spec::Side;
use graph_update::After;
use px_base::{Memory, NodeId, Steps};
use quotient::Summary;
use quotient_draft::Draft;
use std::sync::ledger::Ledger;

/// Drafts the move of a node to a block as shown, with the supports of its edges. Its parents and its children
/// are read once, and its children stay in `neighbours`. After `Memory` the draft must be cleared before it is used again.
/// Expected O(p + c) for p parents and c children; it takes the memory of one move and of two pairs for each.
pub fn move_node<L: Ledger>(
    base: &Summary,
    draft: &mut Draft,
    after: &After<'_>,
    n: NodeId,
    b: u32,
    neighbours: &mut NodeNeighbours,
    steps: &mut Steps<L>,
) -> Result<(), Memory>
    requires over { IsOver base.now.blocks.block_of base.now.blocks.labels draft.old }
    requires live { IsTrue (is_live (graph_after after.now) n) }
    requires partition { IsPartition (shape_of (graph_after after.now)) (shown_blocks base.now draft.old) }
    requires block { IsSome (at (shown_labels base.now draft.old) b) }
    requires supports { AreEdgeCounts (graph_after after.now) (shown_blocks base.now draft.old) (shown_support base.now draft.old) }
    ensures moved { OnOk result (PutsNode n (Some b) (shown_blocks base.now draft.old) (shown_blocks base.now draft.new)) }
    ensures added { draft.new.added ≡ draft.old.added }
    ensures supports { OnOk result (AreEdgeCounts (graph_after after.now) (shown_blocks base.now draft.new) (shown_support base.now draft.new)) }
    ensures children { OnOk result (Lists (has_edge (graph_after after.now) n) neighbours.new) }
    ensures over { OnOk result (IsOver base.now.blocks.block_of base.now.blocks.labels draft.new) }
    ensures cost { steps.new ≤ steps.old + parents_cost after.now n + children_cost after.now n }
{
    // Called for its contract: there are few edges, so that no support grows too large.
    let _known = after.created();
    let own = block_of(base, draft, n);
    read_parents(&mut neighbours.parents, after, n, steps)?;
    read_children(&mut neighbours.children, after, n, steps)?;
    shift_neighbours(base, draft, Side::Parents, &neighbours.parents, n, own, b)?;
    shift_neighbours(base, draft, Side::Children, &neighbours.children, n, own, b)?;
    draft.put(base, n, Some(b))?;
    Ok(())
}
