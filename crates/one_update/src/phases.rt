// The two phases of the upkeep, each by itself: blocks are split, and then merged.
ghost use Rattle.std.specs.Prelude.{◌+◌, ◌*◌, ◌≤◌, OnOk};
ghost use Rattle.graph_spec.specs.Shapes.{shape_of};
ghost use Rattle.bisim_spec.specs.Stability.{Minimal};
ghost use Rattle.one_spec.specs.SplitRoundSteps.{IsRefinement, SameBut};
ghost use Rattle.graph_update.specs.PendingChanges.{graph_after};
ghost use Rattle.quotient_draft.specs.Drafts.{shown_blocks};
ghost use Rattle.one_update.specs.OneDrafts.{rounds_cost, AreTargets, ShowsStable, ShowsStableBut, KeepsMinimal, ShowsUnreached, reached_after};

use crate::resettling::add_blocks;
use affected_nodes::reached_nodes;
use graph_update::After;
use one_merge::ParentlessBlocks;
use px_base::{Bits, Memory, Steps};
use quotient::Summary;
use quotient_draft::Draft;
use std::alloc::Global;
use std::sync::ledger::Ledger;

/// Splits blocks in the draft until the partition shown is stable on the graph after the change, where before it was
/// stable except perhaps at the targets of the change, which are the members of the set. A target's block may have another
/// label than the target. Each block that is shown then lies within one that was shown before. Only what the targets reach
/// is read and moved. Where the base was stable and no two of its blocks could be merged, and the nodes were in its
/// blocks, it leaves what `merge` requires.
///
/// It takes at most `4 * (r + 1) * w` steps, where the targets reach `r` nodes, and `w` is what the change costs there: one
/// for each of them, for each parent and for each child, one for each step of the change, and one for each node that goes,
/// for each of its parents and for each of its children. After `Memory`, which also comes past 2^31 blocks, the
/// draft must be cleared before it is used again.
///
/// Expected O(a + (r + 1) w log w) at most, for a set of numbers below a; it takes O(w) memory.
pub fn split<L: Ledger>(
    alloc: Global,
    base: &Summary,
    draft: &mut Draft,
    after: &After<'_>,
    targets: &Bits,
    steps: &mut Steps<L>,
) -> Result<(), Memory>
    requires targets { AreTargets after.now.before after.now.change targets.now.members }
    requires shown { ShowsStableBut (graph_after after.now) targets.now.members base.now draft.old }
    ensures shown { OnOk result (ShowsStable (graph_after after.now) base.now draft.new) }
    ensures within { OnOk result (IsRefinement (shown_blocks base.now draft.old) (shown_blocks base.now draft.new)) }
    ensures same { OnOk result (SameBut (shown_blocks base.now draft.old) (shown_blocks base.now draft.new) (reached_after after.now)) }
    ensures split { OnOk result (KeepsMinimal after.now base.now draft.old → ShowsUnreached after.now base.now draft.new) }
    ensures cost { steps.new ≤ steps.old + 4 * rounds_cost after.now.before after.now.change }
{
    // Called for its contract: there is a graph, so that what is reached is closed under edges.
    let _known = after.created();
    let targets = targets.list(alloc)?;
    let mut new_blocks = Vec::new(alloc);
    one_split::split(alloc, base, draft, after, &targets, &mut new_blocks, steps)?;
    Ok(())
}

/// Merges blocks in the draft until no two can be merged, if the partition shown is stable on the graph after the
/// change and is the base's outside the reach, and no two blocks of the base could be merged. The graph is read only to
/// find what the targets reach: of each two blocks that can be merged one has only reached nodes as members. The rest
/// is done by the tables of blocks, which are looked through once for the blocks to which no other has support.
///
/// It takes at most `3 * (r + 1) * w` steps, where the targets reach `r` nodes, and `w` is what the change costs there: one
/// for each of them, for each parent and for each child, one for each step of the change, and one for each node that goes,
/// for each of its parents and for each of its children. After `Memory` the draft must be cleared before it is used
/// again.
///
/// Expected O(a + w + b) to find the blocks, with b blocks and a set of numbers below a, and then what `one_merge::merge`
/// takes from these on. It takes O(w) memory, and what is merged.
pub fn merge<L: Ledger>(
    alloc: Global,
    base: &Summary,
    draft: &mut Draft,
    after: &After<'_>,
    targets: &Bits,
    steps: &mut Steps<L>,
) -> Result<(), Memory>
    requires targets { AreTargets after.now.before after.now.change targets.now.members }
    requires shown { ShowsStable (graph_after after.now) base.now draft.old }
    requires split { ShowsUnreached after.now base.now draft.old }
    ensures shown { OnOk result (ShowsStable (graph_after after.now) base.now draft.new) }
    ensures minimal { OnOk result (Minimal (shape_of (graph_after after.now)) (shown_blocks base.now draft.new)) }
    ensures same { OnOk result (SameBut (shown_blocks base.now draft.old) (shown_blocks base.now draft.new) (reached_after after.now)) }
    ensures cost { steps.new ≤ steps.old + 3 * rounds_cost after.now.before after.now.change }
{
    // Called for its contract: there is a graph, and it has few edges.
    let _known = after.created();
    let targets = targets.list(alloc)?;
    let nodes = reached_nodes(alloc, after, &targets, steps)?;
    let mut blocks = Vec::new(alloc);
    add_blocks(base, draft, &nodes, &mut blocks)?;
    let mut parentless = ParentlessBlocks::of(alloc, base)?;
    one_merge::merge(alloc, base, draft, &mut parentless, blocks)?;
    Ok(())
}
