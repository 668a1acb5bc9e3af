// Where groups of nodes go.
ghost use Rattle.std.specs.Prelude.{◌≡◌, ◌≢◌, ◌⊎◌, ◌++◌, ◌∷◌, ◌<◌, ◌^◌, [], ℕ, List, IfOk, OnOk, Some, None, IsSome, IsTrue, IsFalse, false, length, option_to_list, count_by};
ghost use Rattle.graph_spec.specs.Members.{has, at, is_this};
ghost use Rattle.quotient_draft.specs.Drafts.{shown_blocks, shown_labels, shown_support};
ghost use Rattle.quotient_draft.specs.Basis.{IsOver};
ghost use Rattle.one_split.specs.NodeTargetBlocks.{AreGroupTargetBlocks, BeginsAt, IsCountedWhole, StaysIf, AreBlocks, TargetBlocksExist, AreAdded, MembersHaveLabels, LabelsStay, SetsLabel, TakesLabel};
ghost use Rattle.one_split.specs.RoundStates.{ExtendsDraft, GoesAsDrafted, TargetBlocksTakeLabels};

use crate::member_counts::is_whole;
use indexmap::{IndexMap, IndexSet};
use key_table::KeyTable;
use px_base::Memory;
use quotient::Summary;
use quotient_draft::Draft;
use std::alloc::Global;

/// Drafts a block without members. Past 2^31 blocks there is no number for one.
pub(crate) fn draft_block(base: &Summary, draft: &mut Draft, label: u32) -> Result<u32, Memory>
    requires over { IsOver base.now.blocks.block_of base.now.blocks.labels draft.old }
    requires live { MembersHaveLabels (shown_blocks base.now draft.old) (at (shown_labels base.now draft.old)) }
    ensures empty { IfOk result (λ b. (n : ℕ) → at (shown_blocks base.now draft.old) n ≢ Some b) }
    ensures free { IfOk result (λ b. at (shown_labels base.now draft.old) b ≡ None) }
    ensures stay { OnOk result (shown_blocks base.now draft.new ≡ shown_blocks base.now draft.old) }
    ensures supports { OnOk result ((x y : ℕ) → shown_support base.now draft.new x y ≡ shown_support base.now draft.old x y) }
    ensures label { IfOk result (λ b. SetsLabel b label (at (shown_labels base.now draft.old)) (at (shown_labels base.now draft.new))) }
    ensures over { OnOk result (IsOver base.now.blocks.block_of base.now.blocks.labels draft.new) }
{
    if draft.blocks(base) >= 1 << 31 {
        return Err(Memory);
    }
    let b = draft.new_block(base, label)?;
    Ok(b)
}

// The first number of a key, which is the block of its nodes.
fn own_number(key: &[u32]) -> u32
    requires { 0 < length key.now }
    ensures { (around : List ℕ) (own : ℕ) → key.now ≡ own ∷ around → result ≡ own }
{
    key[0]
}

// Whether a group may stay: all members of its block are counted, and no group of that block stays yet.
fn may_stay(
    base: &Summary,
    draft: &Draft,
    counts: &IndexMap<u32, usize>,
    own: u32,
    stays: &IndexSet<u32>,
) -> bool
    requires over { IsOver base.now.blocks.block_of base.now.blocks.labels draft.now }
    requires block { IsSome (at (shown_labels base.now draft.now) own) }
    ensures yes { IsTrue result → (has stays.now.keys own ≡ false) × IsCountedWhole (shown_blocks base.now draft.now) counts.now.entries own }
    ensures no { IsFalse result → IsTrue (has stays.now.keys own) ⊎ (IsCountedWhole (shown_blocks base.now draft.now) counts.now.entries own → ⊥) }
{
    if stays.contains(&own) {
        return false;
    }
    is_whole(base, draft, counts, own)
}

// Where a group goes whose nodes are in this block: it stays, or goes to a new block.
fn find_target_block(
    base: &Summary,
    draft: &mut Draft,
    counts: &IndexMap<u32, usize>,
    own: u32,
    stays: &mut IndexSet<u32>,
    new_blocks: &mut Vec<u32>,
) -> Result<Option<u32>, Memory>
    requires over { IsOver base.now.blocks.block_of base.now.blocks.labels draft.old }
    requires live { MembersHaveLabels (shown_blocks base.now draft.old) (at (shown_labels base.now draft.old)) }
    requires block { IsSome (at (shown_labels base.now draft.old) own) }
    ensures over { OnOk result (IsOver base.now.blocks.block_of base.now.blocks.labels draft.new) }
    ensures stay { OnOk result (shown_blocks base.now draft.new ≡ shown_blocks base.now draft.old) }
    ensures supports { OnOk result ((x y : ℕ) → shown_support base.now draft.new x y ≡ shown_support base.now draft.old x y) }
    ensures kept { OnOk result (LabelsStay (at (shown_labels base.now draft.old)) (at (shown_labels base.now draft.new))) }
    ensures label { IfOk result (λ target_block. TakesLabel own target_block (at (shown_labels base.now draft.old)) (at (shown_labels base.now draft.new))) }
    ensures stays { IfOk result (λ target_block. StaysIf (shown_blocks base.now draft.old) counts.now.entries own stays.old.keys stays.new.keys target_block) }
    ensures goes { IfOk result (λ target_block. GoesAsDrafted base.now draft.old draft.new counts.now.entries own stays.old.keys stays.new.keys target_block) }
    ensures new_blocks { IfOk result (λ target_block. new_blocks.new.items ≡ new_blocks.old.items ++ option_to_list target_block) }
{
    if may_stay(base, draft, counts, own, stays) {
        stays.insert(own)?;
        return Ok(None);
    }
    let b = draft_block(base, draft, draft.label(base, own))?;
    new_blocks.push(b)?;
    Ok(Some(b))
}

/// Where each group goes, by how many nodes are counted for each block.
pub(crate) fn find_target_blocks(
    alloc: Global,
    base: &Summary,
    draft: &mut Draft,
    counts: &IndexMap<u32, usize>,
    keys: &KeyTable,
    new_blocks: &mut Vec<u32>,
) -> Result<Vec<Option<u32>>, Memory>
    requires over { IsOver base.now.blocks.block_of base.now.blocks.labels draft.old }
    requires live { MembersHaveLabels (shown_blocks base.now draft.old) (at (shown_labels base.now draft.old)) }
    requires keys { (k : ℕ) → k < length keys.now → (own : ℕ) × BeginsAt keys.now k own × IsSome (at (shown_labels base.now draft.old) own) }
    requires new_blocks { AreBlocks (at (shown_labels base.now draft.old)) new_blocks.old.items }
    ensures extends { OnOk result (ExtendsDraft base.now draft.old draft.new) }
    ensures count { IfOk result (λ target_blocks. length target_blocks.items ≡ length keys.now) }
    ensures going { IfOk result (λ target_blocks. AreGroupTargetBlocks (shown_blocks base.now draft.old) counts.now.entries keys.now target_blocks.items) }
    ensures blocks { IfOk result (λ target_blocks. TargetBlocksExist target_blocks.items (at (shown_labels base.now draft.new))) }
    ensures labels { IfOk result (λ target_blocks. TargetBlocksTakeLabels base.now draft.old draft.new keys.now target_blocks.items) }
    ensures new_blocks { OnOk result (AreBlocks (at (shown_labels base.now draft.new)) new_blocks.new.items) }
    ensures from { IfOk result (λ target_blocks. AreAdded target_blocks.items new_blocks.old.items new_blocks.new.items) }
{
    let mut stays = IndexSet::new(alloc);
    let mut target_blocks = Vec::with_capacity(alloc, keys.len() as usize)?;
    for k in 0..keys.len() {
        let own = own_number(keys.key(k));
        let target_block = find_target_block(base, draft, counts, own, &mut stays, new_blocks)?;
        target_blocks.push(target_block)?;
    }
    Ok(target_blocks)
}
