// Splitting in rounds.
ghost use Rattle.std.specs.Prelude.{◌≡◌, ◌+◌, ◌≤◌, ◌<◌, List, Option, IfOk, OnOk, IsSome, IfSome, IsTrue, length, nat_eq, slice_index, sum_by};
ghost use Rattle.graph_spec.specs.Members.{at};
ghost use Rattle.graph_spec.specs.Graphs.{is_live};
ghost use Rattle.graph_spec.specs.Shapes.{shape_of};
ghost use Rattle.bisim_spec.specs.Partitions.{IsPartition};
ghost use Rattle.one_spec.specs.EdgeCounts.{AreEdgeCounts};
ghost use Rattle.graph_update.specs.PendingChanges.{graph_after};
ghost use Rattle.quotient_draft.specs.Drafts.{shown_blocks, shown_labels, shown_support};
ghost use Rattle.quotient_draft.specs.Basis.{IsOver};
ghost use Rattle.one_split.specs.SplitCosts.{move_cost, round_cost};
ghost use Rattle.one_split.specs.NodeTargetBlocks.{TargetBlocksExist, GoesTo, ListsChildrenIf};
ghost use Rattle.one_split.specs.RoundStates.{CanRound, IsRound, AreLiveNodes, HaveAllGone, ListsAllChildren};
ghost use Rattle.one_split.specs.Numbered.{leads_after};

use crate::keys::number_nodes;
use crate::member_counts::count_by_block;
use crate::next_nodes::NextNodes;
use crate::shared_blocks::in_shared_blocks;
use crate::target_blocks::find_target_blocks;
use graph_update::After;
use key_table::{KeyTable, sort_dedup};
use px_base::{Memory, NodeId, Steps};
use quotient::Summary;
use quotient_draft::Draft;
use quotient_moves::move_node;
use std::alloc::Global;
use std::sync::ledger::Ledger;

// Moves a node, where it goes anywhere.
fn move_one<L: Ledger>(
    base: &Summary,
    draft: &mut Draft,
    after: &After<'_>,
    n: NodeId,
    target_block: Option<u32>,
    next: &mut NextNodes,
    steps: &mut Steps<L>,
) -> Result<(), Memory>
    requires over { IsOver base.now.blocks.block_of base.now.blocks.labels draft.old }
    requires live { IsTrue (is_live (graph_after after.now) n) }
    requires partition { IsPartition (shape_of (graph_after after.now)) (shown_blocks base.now draft.old) }
    requires block { IfSome target_block (λ b. IsSome (at (shown_labels base.now draft.old) b)) }
    requires supports { AreEdgeCounts (graph_after after.now) (shown_blocks base.now draft.old) (shown_support base.now draft.old) }
    ensures over { OnOk result (IsOver base.now.blocks.block_of base.now.blocks.labels draft.new) }
    ensures moved { OnOk result (GoesTo n target_block (shown_blocks base.now draft.old) (shown_blocks base.now draft.new)) }
    ensures added { draft.new.added ≡ draft.old.added }
    ensures supports { OnOk result (AreEdgeCounts (graph_after after.now) (shown_blocks base.now draft.new) (shown_support base.now draft.new)) }
    ensures next { OnOk result (ListsChildrenIf (leads_after after.now) n target_block next.old.list.items next.new.list.items) }
    ensures cost { steps.new ≤ steps.old + move_cost after.now n }
{
    let Some(b) = target_block else {
        return Ok(());
    };
    move_node(base, draft, after, n, b, &mut next.neighbours, steps)?;
    next.add_children()?;
    Ok(())
}

// The groups of nodes in a round: the number of each node's group, and for each group the block to which it goes, if any.
#[derive(Drop)]
struct Groups {
    numbers: Vec<u32>,
    target_blocks: Vec<Option<u32>>,
}

// The block to which the group of the i-th node goes.
fn target_block_of(groups: &Groups, i: usize) -> Option<u32>
    requires { i < length groups.now.numbers.items }
    ensures { result ≡ at groups.now.target_blocks.items (slice_index groups.now.numbers.items i) }
{
    let target_block = groups.target_blocks.get(groups.numbers[i] as usize)?;
    *target_block
}

// Moves each node to where its group goes, and lists the children of those that move.
fn move_nodes<L: Ledger>(
    alloc: Global,
    base: &Summary,
    draft: &mut Draft,
    after: &After<'_>,
    nodes: &[NodeId],
    groups: &Groups,
    steps: &mut Steps<L>,
) -> Result<Vec<NodeId>, Memory>
    requires over { IsOver base.now.blocks.block_of base.now.blocks.labels draft.old }
    requires nodes { AreLiveNodes (graph_after after.now) nodes.now }
    requires count { length groups.now.numbers.items ≡ length nodes.now }
    requires partition { IsPartition (shape_of (graph_after after.now)) (shown_blocks base.now draft.old) }
    requires blocks { TargetBlocksExist groups.now.target_blocks.items (at (shown_labels base.now draft.old)) }
    requires supports { AreEdgeCounts (graph_after after.now) (shown_blocks base.now draft.old) (shown_support base.now draft.old) }
    ensures over { OnOk result (IsOver base.now.blocks.block_of base.now.blocks.labels draft.new) }
    ensures gone { OnOk result (HaveAllGone base.now draft.old draft.new nodes.now groups.now.numbers.items groups.now.target_blocks.items) }
    ensures next { IfOk result (λ next. ListsAllChildren after.now nodes.now groups.now.numbers.items groups.now.target_blocks.items next.items) }
    ensures added { OnOk result (draft.new.added ≡ draft.old.added) }
    ensures supports { OnOk result (AreEdgeCounts (graph_after after.now) (shown_blocks base.now draft.new) (shown_support base.now draft.new)) }
    ensures cost { steps.new ≤ steps.old + sum_by (move_cost after.now) nodes.now }
{
    let mut next = NextNodes::new(alloc);
    for (i, n) in nodes.iter().enumerate() {
        let target_block = target_block_of(groups, i);
        move_one(base, draft, after, *n, target_block, &mut next, steps)?;
    }
    Ok(next.list)
}

// Parts these nodes by their keys, and gives those that are to be examined next: the children of those that moved.
fn part_by_keys<L: Ledger>(
    alloc: Global,
    base: &Summary,
    draft: &mut Draft,
    after: &After<'_>,
    nodes: &[NodeId],
    new_blocks: &mut Vec<u32>,
    steps: &mut Steps<L>,
) -> Result<Vec<NodeId>, Memory>
    requires { CanRound after.now base.now draft.old nodes.now new_blocks.old.items }
    ensures round { IfOk result (λ next. IsRound after.now base.now draft.old draft.new nodes.now new_blocks.old.items new_blocks.new.items next.items) }
    ensures cost { steps.new ≤ steps.old + sum_by (round_cost after.now) nodes.now }
{
    let mut keys = KeyTable::new(alloc)?;
    let numbers = number_nodes(alloc, base, draft, after, nodes, &mut keys, steps)?;
    let counts = count_by_block(alloc, base, draft, nodes)?;
    let target_blocks = find_target_blocks(alloc, base, draft, &counts, &keys, new_blocks)?;
    let groups = Groups {
        numbers,
        target_blocks,
    };
    let mut next = move_nodes(alloc, base, draft, after, nodes, &groups, steps)?;
    sort_dedup(&mut next);
    Ok(next)
}

/// Examines these nodes, and gives those that are to be examined next: the children of those that moved. The parents of
/// a node that is alone in its block aren't read.
pub(crate) fn round<L: Ledger>(
    alloc: Global,
    base: &Summary,
    draft: &mut Draft,
    after: &After<'_>,
    nodes: &[NodeId],
    new_blocks: &mut Vec<u32>,
    steps: &mut Steps<L>,
) -> Result<Vec<NodeId>, Memory>
    requires { CanRound after.now base.now draft.old nodes.now new_blocks.old.items }
    ensures round { IfOk result (λ next. IsRound after.now base.now draft.old draft.new nodes.now new_blocks.old.items new_blocks.new.items next.items) }
    ensures cost { steps.new ≤ steps.old + sum_by (round_cost after.now) nodes.now }
{
    let kept = in_shared_blocks(alloc, base, draft, nodes)?;
    part_by_keys(alloc, base, draft, after, &kept, new_blocks, steps)
}

/// Whether nothing is left to be examined.
pub(crate) fn is_done(next: &[NodeId]) -> bool
    ensures { result ≡ nat_eq (length next.now) 0 }
{
    next.is_empty()
}
