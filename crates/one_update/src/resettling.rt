// From a partition that is unstable at the targets of a change to the next one.
ghost use Rattle.std.specs.Prelude.{◌≡◌, ◌+◌, ◌*◌, ◌≤◌, ℕ, Some, IsTrue, OnOk};
ghost use Rattle.graph_spec.specs.Members.{at, has};
ghost use Rattle.change_spec.specs.NextOne.{KeepsParents};
ghost use Rattle.graph_update.specs.PendingChanges.{graph_after};
ghost use Rattle.quotient_draft.specs.Drafts.{shown_blocks};
ghost use Rattle.quotient_draft.specs.Basis.{IsOver};
ghost use Rattle.one_merge.specs.ParentlessBlocks.{CoversBase, CoversShown};
ghost use Rattle.one_update.specs.OneDrafts.{IsBefore, ShowsChange, IsDrafted, ListsBlocksOf, rounds_cost};
ghost use Rattle.one_update.specs.UnsteadyNodes.{AreUnsteady};

use graph_update::After;
use one_merge::{ParentlessBlocks, merge};
use one_split::split;
use px_base::{Memory, NodeId, Steps};
use quotient::Summary;
use quotient_draft::Draft;
use std::alloc::Global;
use std::sync::ledger::Ledger;

// Adds the block of a node to a list of blocks, where it has one.
fn add_block(base: &Summary, draft: &Draft, n: NodeId, blocks: &mut Vec<u32>) -> Result<(), Memory>
    requires over { IsOver base.now.blocks.block_of base.now.blocks.labels draft.now }
    ensures kept { OnOk result ((b : ℕ) → IsTrue (has blocks.old.items b) → IsTrue (has blocks.new.items b)) }
    ensures there { OnOk result ((b : ℕ) → at (shown_blocks base.now draft.now) n ≡ Some b → IsTrue (has blocks.new.items b)) }
{
    if let Some(b) = draft.block_of(base, n) {
        blocks.push(b)?;
    }
    Ok(())
}

/// Adds the blocks of the nodes to a list of blocks.
pub(crate) fn add_blocks(
    base: &Summary,
    draft: &Draft,
    nodes: &[NodeId],
    blocks: &mut Vec<u32>,
) -> Result<(), Memory>
    requires over { IsOver base.now.blocks.block_of base.now.blocks.labels draft.now }
    ensures kept { OnOk result ((b : ℕ) → IsTrue (has blocks.old.items b) → IsTrue (has blocks.new.items b)) }
    ensures there { OnOk result (ListsBlocksOf nodes.now (shown_blocks base.now draft.now) blocks.new.items) }
{
    for i in 0..nodes.len() {
        add_block(base, draft, nodes[i], blocks)?;
    }
    Ok(())
}

/// Splits blocks until the partition is stable, from these targets of the change on, and then merges blocks until no
/// two can be merged. The other targets keep their labels and their parent blocks.
pub(crate) fn resettle<L: Ledger>(
    alloc: Global,
    base: &Summary,
    draft: &mut Draft,
    parentless: &mut ParentlessBlocks,
    after: &After<'_>,
    targets: &[NodeId],
    steps: &mut Steps<L>,
) -> Result<(), Memory>
    requires before { IsBefore after.now base.now }
    requires covers { CoversBase base.now parentless.old }
    requires changed { ShowsChange after.now.before after.now.change base.now draft.old }
    requires targets { AreUnsteady after.now.before after.now.change base.now.blocks.block_of targets.now }
    requires moves { KeepsParents after.now.change (graph_after after.now) base.now.blocks.block_of → ⊥ }
    ensures covers { CoversBase base.now parentless.new }
    ensures shown { OnOk result (CoversShown base.now draft.new parentless.new) }
    ensures drafted { OnOk result (IsDrafted after.now.before after.now.change base.now draft.new) }
    ensures cost { steps.new ≤ steps.old + 4 * rounds_cost after.now.before after.now.change }
{
    // Called for its contract: edges are few.
    let _known = after.created();
    let mut blocks = Vec::new(alloc);
    split(alloc, base, draft, after, targets, &mut blocks, steps)?;
    add_blocks(base, draft, targets, &mut blocks)?;
    merge(alloc, base, draft, parentless, blocks)?;
    Ok(())
}
