// How many of the nodes that are examined are in each block.
ghost use Rattle.std.specs.Prelude.{◌≡◌, ◌≢◌, ◌+◌, ◌≤◌, ◌<◌, ◌^◌, [], ℕ, IfOk, OnOk, IsSome, IsTrue, IsFalse, length, nat_eq, count_by, if◌then◌else◌};
ghost use Rattle.quotient_draft.specs.MoveTables.{counted};
ghost use Rattle.graph_spec.specs.Members.{has, at, is_this};
ghost use Rattle.quotient_draft.specs.Drafts.{shown_blocks, shown_labels};
ghost use Rattle.quotient_draft.specs.Basis.{IsOver};
ghost use Rattle.one_split.specs.Counted.{is_in};
ghost use Rattle.one_split.specs.NodeTargetBlocks.{IsCountedWhole};

use crate::keys::own_block;
use indexmap::IndexMap;
use px_base::{Memory, NodeId};
use quotient::Summary;
use quotient_draft::Draft;
use std::alloc::Global;

// How many are counted for a block.
fn count_of(counts: &IndexMap<u32, usize>, b: u32) -> usize
    ensures { result ≡ counted counts.now.entries b }
{
    match counts.get(&b) {
        Some(count) => *count,
        None => 0,
    }
}

// Counts one more node for a block, whose count is at most `most` before.
fn count_one(counts: &mut IndexMap<u32, usize>, b: u32, most: usize) -> Result<(), Memory>
    requires counted { counted counts.old.entries b ≤ most }
    requires few { most < 2 ^ 63 }
    ensures { OnOk result ((x : ℕ) → counted counts.new.entries x ≡ counted counts.old.entries x + (if nat_eq x b then 1 else 0)) }
{
    let count = count_of(counts, b).min(most) + 1;
    counts.insert(b, count)?;
    Ok(())
}

/// Counts, for each block, how many of the nodes are in it.
pub(crate) fn count_by_block(
    alloc: Global,
    base: &Summary,
    draft: &Draft,
    nodes: &[NodeId],
) -> Result<IndexMap<u32, usize>, Memory>
    requires over { IsOver base.now.blocks.block_of base.now.blocks.labels draft.now }
    requires blocks { (n : ℕ) → IsTrue (has nodes.now n) → IsSome (at (shown_blocks base.now draft.now) n) }
    ensures { IfOk result (λ counts. (b : ℕ) → counted counts.entries b ≡ count_by (is_in (shown_blocks base.now draft.now) b) nodes.now) }
{
    let mut counts = IndexMap::new(alloc);
    for (i, n) in nodes.iter().enumerate() {
        count_one(&mut counts, own_block(base, draft, *n), i)?;
    }
    Ok(counts)
}

/// Whether as many nodes are counted for a block as it has members.
pub(crate) fn is_whole(
    base: &Summary,
    draft: &Draft,
    counts: &IndexMap<u32, usize>,
    own: u32,
) -> bool
    requires over { IsOver base.now.blocks.block_of base.now.blocks.labels draft.now }
    requires block { IsSome (at (shown_labels base.now draft.now) own) }
    ensures yes { IsTrue result → IsCountedWhole (shown_blocks base.now draft.now) counts.now.entries own }
    ensures no { IsFalse result → IsCountedWhole (shown_blocks base.now draft.now) counts.now.entries own → ⊥ }
{
    count_of(counts, own) == draft.member_count(base, own) as usize
}
