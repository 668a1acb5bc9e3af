// Splitting from several targets.
ghost use Rattle.std.specs.Prelude.{◌≡◌, ◌++◌, ◌∷◌, ◌+◌, ◌≤◌, ◌&&◌, if◌then◌else◌, [], ℕ, IfOk, OnOk, Some, IsSome, IsTrue, is_some, nat_eq, sum_by};
ghost use Rattle.std.specs.List.{IsDistinct};
ghost use Rattle.graph_spec.specs.Members.{has, at};
ghost use Rattle.graph_spec.specs.Graphs.{is_live};
ghost use Rattle.graph_spec.specs.Shapes.{shape_of, IsShape};
ghost use Rattle.label_graph.specs.GraphViews.{label_number};
ghost use Rattle.one_spec.specs.EdgeCounts.{AreEdgeCounts};
ghost use Rattle.graph_update.specs.PendingChanges.{graph_after};
ghost use Rattle.quotient_draft.specs.Drafts.{shown_blocks, shown_labels, shown_support};
ghost use Rattle.quotient_draft.specs.Basis.{IsOver};
ghost use Rattle.one_split.specs.SplitCosts.{move_cost, IsCharged, CostsPerBlock};
ghost use Rattle.one_split.specs.NodeTargetBlocks.{AreBlocks, MembersHaveLabels};
ghost use Rattle.one_split.specs.SplitStates.{CanSplit, HaveLiveBlocks, PartsTarget, LabelsRightAfter, SplitsInside, CostsInside};
ghost use Rattle.one_split.specs.RoundStates.{ShowsPartition, ShowsRightLabels};

use crate::keys::own_block;
use crate::next_nodes::NextNodes;
use crate::rounds::{is_done, round};
use crate::shared_blocks::{FewNodes, push_if};
use crate::target_blocks::draft_block;
use graph_update::After;
use key_table::sort_dedup;
use px_base::{Memory, NodeId, Steps};
use quotient::Summary;
use quotient_draft::Draft;
use quotient_moves::move_node;
use std::alloc::Global;
use std::sync::ledger::Ledger;

// Lists those of the targets that have a block. The others are no longer nodes.
fn with_blocks(
    alloc: Global,
    base: &Summary,
    draft: &Draft,
    targets: &[NodeId],
) -> Result<FewNodes, Memory>
    requires over { IsOver base.now.blocks.block_of base.now.blocks.labels draft.now }
    requires once { IsDistinct nat_eq targets.now }
    ensures once { IfOk result (λ list. IsDistinct nat_eq list.items) }
    ensures those { IfOk result (λ list. (n : ℕ) → has list.items n ≡ (has targets.now n && is_some (at (shown_blocks base.now draft.now) n))) }
    ensures live { OnOk result (HaveLiveBlocks targets.now base.now draft.now) }
{
    let mut list = FewNodes::new(alloc);
    for t in targets {
        push_if(&mut list, *t, draft.block_of(base, *t).is_some())?;
    }
    Ok(list)
}

// Whether the target is alone in a block with its label.
fn is_apart(base: &Summary, draft: &Draft, after: &After<'_>, target: NodeId, own: u32) -> bool
    requires over { IsOver base.now.blocks.block_of base.now.blocks.labels draft.now }
    requires live { IsTrue (is_live (graph_after after.now) target) }
    requires own { at (shown_blocks base.now draft.now) target ≡ Some own }
    requires block { IsSome (at (shown_labels base.now draft.now) own) }
    ensures alone { IsTrue result → (n : ℕ) → at (shown_blocks base.now draft.now) n ≡ Some own → IsTrue (has (target ∷ []) n) }
    ensures label { IsTrue result → at (shown_labels base.now draft.now) own ≡ label_number (graph_after after.now) target }
{
    if draft.label(base, own) != after.label(target) {
        return false;
    }
    draft.member_count(base, own) == 1
}

// Puts a target into a block of its own, where it shares its block or has another label, and puts its children behind the nodes
// that are examined next.
fn part_one<L: Ledger>(
    base: &Summary,
    draft: &mut Draft,
    after: &After<'_>,
    target: NodeId,
    new_blocks: &mut Vec<u32>,
    next: &mut NextNodes,
    steps: &mut Steps<L>,
) -> Result<(), Memory>
    requires shown { ShowsPartition after.now base.now draft.old }
    requires live { MembersHaveLabels (shown_blocks base.now draft.old) (at (shown_labels base.now draft.old)) }
    requires node { IsTrue (is_live (graph_after after.now) target) }
    requires new_blocks { AreBlocks (at (shown_labels base.now draft.old)) new_blocks.old.items }
    ensures over { OnOk result (IsOver base.now.blocks.block_of base.now.blocks.labels draft.new) }
    ensures live { OnOk result (MembersHaveLabels (shown_blocks base.now draft.new) (at (shown_labels base.now draft.new))) }
    ensures parting { OnOk result (PartsTarget after.now target base.now draft.old draft.new
        next.old.list.items next.new.list.items new_blocks.old.items new_blocks.new.items) }
    ensures block_labels { OnOk result (LabelsRightAfter after.now target base.now draft.old draft.new) }
    ensures new_blocks { OnOk result (AreBlocks (at (shown_labels base.now draft.new)) new_blocks.new.items) }
    ensures supports { OnOk result (AreEdgeCounts (graph_after after.now) (shown_blocks base.now draft.new) (shown_support base.now draft.new)) }
    ensures charged { OnOk result (IsCharged new_blocks.old.items new_blocks.new.items steps.old steps.new) }
    ensures cost { steps.new ≤ steps.old + move_cost after.now target }
{
    let own = own_block(base, draft, target);
    if is_apart(base, draft, after, target, own) {
        return Ok(());
    }
    let b = draft_block(base, draft, after.label(target))?;
    new_blocks.push(b)?;
    move_node(base, draft, after, target, b, &mut next.neighbours, steps)?;
    next.add_children()?;
    Ok(())
}

// Puts each target that shares its block or has another label into a block of its own, and gives the nodes that are to be
// examined next.
fn part_all<L: Ledger>(
    alloc: Global,
    base: &Summary,
    draft: &mut Draft,
    after: &After<'_>,
    targets: &[NodeId],
    new_blocks: &mut Vec<u32>,
    steps: &mut Steps<L>,
) -> Result<Vec<NodeId>, Memory>
    requires split { CanSplit after.now base.now draft.old targets.now new_blocks.old.items }
    requires live { MembersHaveLabels (shown_blocks base.now draft.old) (at (shown_labels base.now draft.old)) }
    requires shape { IsShape (shape_of (graph_after after.now)) }
    requires nodes { (n : ℕ) → IsTrue (has targets.now n) → IsTrue (is_live (graph_after after.now) n) }
    ensures over { OnOk result (IsOver base.now.blocks.block_of base.now.blocks.labels draft.new) }
    ensures split { IfOk result (λ next. SplitsInside after.now targets.now base.now draft.old draft.new next.items new_blocks.new.items) }
    ensures once { IfOk result (λ next. IsDistinct nat_eq next.items) }
    ensures block_labels { OnOk result (ShowsRightLabels after.now base.now draft.new) }
    ensures new_blocks { OnOk result (AreBlocks (at (shown_labels base.now draft.new)) new_blocks.new.items) }
    ensures supports { OnOk result (AreEdgeCounts (graph_after after.now) (shown_blocks base.now draft.new) (shown_support base.now draft.new)) }
    ensures charged { OnOk result (CostsPerBlock after.now targets.now new_blocks.new.items steps.old steps.new) }
    ensures cost { steps.new ≤ steps.old + sum_by (move_cost after.now) targets.now }
{
    let mut next = NextNodes::new(alloc);
    for t in targets {
        part_one(base, draft, after, *t, new_blocks, &mut next, steps)?;
    }
    sort_dedup(&mut next.list);
    Ok(next.list)
}

/// Splits blocks in the draft until the partition shown is stable on the graph after the change, where before it was
/// stable except perhaps at the targets. Targets without a block are skipped, and each is listed once. The blocks that
/// are made are put into `new_blocks`, which is empty before. Whatever set is closed under children and holds the targets,
/// only its nodes are moved, and only their neighbours are read.
///
/// It takes at most `4 * ((r + 1) * w)` steps, where the set has `r` nodes, and `w` is what the change costs at it: one for
/// each of them, for each parent and for each child, one for each step of the change, and one for each node that goes, for
/// each of its parents and for each of its children. After `Memory`, which also comes past 2^31 blocks, the draft must be
/// cleared before it is used again.
///
/// Expected O((r + 1) w log w) at most; it takes O(w) memory, by which the draft grows.
pub fn split<L: Ledger>(
    alloc: Global,
    base: &Summary,
    draft: &mut Draft,
    after: &After<'_>,
    targets: &[NodeId],
    new_blocks: &mut Vec<u32>,
    steps: &mut Steps<L>,
) -> Result<(), Memory>
    requires { CanSplit after.now base.now draft.old targets.now new_blocks.old.items }
    ensures over { OnOk result (IsOver base.now.blocks.block_of base.now.blocks.labels draft.new) }
    ensures block_labels { OnOk result (ShowsRightLabels after.now base.now draft.new) }
    ensures split { OnOk result (SplitsInside after.now targets.now base.now draft.old draft.new [] new_blocks.new.items) }
    ensures new_blocks { OnOk result ((b : ℕ) → IsTrue (has new_blocks.new.items b) → IsSome (at (shown_labels base.now draft.new) b)) }
    ensures supports { OnOk result (AreEdgeCounts (graph_after after.now) (shown_blocks base.now draft.new) (shown_support base.now draft.new)) }
    ensures cost { CostsInside after.now targets.now steps.old steps.new }
{
    let present = with_blocks(alloc, base, draft, targets)?;
    // Called for its contract: there is a graph, so that edges lead from nodes to nodes.
    let _known = after.created();
    let mut next = part_all(alloc, base, draft, after, &present, new_blocks, steps)?;
    'rounds: while !is_done(&next) {
        next = round(alloc, base, draft, after, &next, new_blocks, steps)?;
    }
    Ok(())
}
