// The numbers of the blocks into which groups go.
ghost use Rattle.std.specs.Prelude.{◌≡◌, ◌+◌, ◌<◌, ◌≤◌, ◌^◌, ◌⊎◌, ℕ, List, [], true, false, Some, None, IsSome, IsTrue, IsFalse, IfOk, OnErr, length, slice_get, slice_index, nat_eq, if◌then◌else◌};
ghost use Rattle.std.specs.List.{list_all};
ghost use Rattle.graph_spec.specs.Members.{has, at};
ghost use Rattle.block_partition.specs.LabelledPartitions.{IsBlock, block_count};
ghost use Rattle.block_splitting.specs.Chosen.{HasFirst, AreAllActive, IsKept, IsNotKept, IsPicked, AreChosen};

use crate::nodes::NodeSet;
use block_partition::{Blocks, Members};
use key_table::KeyTable;
use px_base::Memory;
use std::alloc::Global;

// Whether all of these are active. It ends at the first that doesn't.
fn all_contained(members: &mut Members<'_>, active_nodes: &NodeSet) -> bool
    ensures { result ≡ list_all (has active_nodes.now.nodes) members.old }
{
    'members: while let Some(n) = members.next() {
        if !active_nodes.contains(n) {
            return false;
        }
    }
    true
}

// Whether all members of a block are active.
fn all_active(blocks: &Blocks, active_nodes: &NodeSet, b: u32) -> bool
    requires block { IsBlock blocks.now b }
    ensures all { IsTrue result → AreAllActive blocks.now.block_of (has active_nodes.now.nodes) b }
    ensures one { IsFalse result → (n : ℕ) × (at blocks.now.block_of n ≡ Some b) × (has active_nodes.now.nodes n ≡ false) }
{
    let mut members = blocks.members(b);
    all_contained(&mut members, active_nodes)
}

// Whether the group keeps the block's number: it is the one that may, and all members of the block are active.
fn keeps(blocks: &Blocks, active_nodes: &NodeSet, retained: &[u32], own: u32, k: u32) -> bool
    requires own { IsBlock blocks.now own }
    requires within { own < length retained.now }
    ensures kept { IsTrue result → IsKept blocks.now.block_of (has active_nodes.now.nodes) retained.now own k own }
    ensures not_kept { IsFalse result → IsNotKept blocks.now.block_of (has active_nodes.now.nodes) retained.now own k }
{
    if retained[own as usize] != k {
        return false;
    }
    all_active(blocks, active_nodes, own)
}

// The number of the block for a group: that of its own block, if it keeps it, and else a new one.
fn choose_one(
    blocks: &mut Blocks,
    active_nodes: &NodeSet,
    retained: &[u32],
    own: u32,
    k: u32,
) -> u32
    requires own { IsBlock blocks.old own }
    requires within { own < length retained.now }
    requires reserved { 0 < blocks.old.reserved.blocks }
    ensures picked { IsPicked blocks.old blocks.new (has active_nodes.now.nodes) retained.now own k result }
    ensures reserved { blocks.old.reserved.blocks ≤ blocks.new.reserved.blocks + 1 }
{
    if keeps(blocks, active_nodes, retained, own, k) {
        return own;
    }
    let label = blocks.label(own);
    blocks.new_block(label)
}

/// The first number of a key: the block of the nodes that have it.
pub(crate) fn own_number(key: &[u32]) -> u32
    requires { (n : ℕ) × HasFirst key.now n }
    ensures { (n : ℕ) → HasFirst key.now n → result ≡ n }
{
    key[0]
}

// Reserves capacity for that many blocks. Numbers of blocks are below 2^31.
fn reserve_more(blocks: &mut Blocks, more: u32) -> Result<(), Memory>
    ensures nodes { IfOk result (λ _. blocks.new.block_of ≡ blocks.old.block_of) }
    ensures labels { IfOk result (λ _. blocks.new.labels ≡ blocks.old.labels) }
    ensures reserved { IfOk result (λ _. more ≤ blocks.new.reserved.blocks) }
    ensures err { OnErr result (blocks.new ≡ blocks.old) }
{
    // Called for its contract: there are at most 2^31 numbers.
    let _known = blocks.numbers();
    if more > (1 << 31) - blocks.count() {
        return Err(Memory);
    }
    blocks.reserve(0, more)?;
    Ok(())
}

/// Chooses a block for each group: the block of the key's nodes, where the group keeps its number, and else a
/// new one. Where memory runs out, the partition stays.
pub(crate) fn choose(
    alloc: Global,
    blocks: &mut Blocks,
    active_nodes: &NodeSet,
    keys: &KeyTable,
    retained: &[u32],
) -> Result<Vec<u32>, Memory>
    requires keyed { (k : ℕ) (key : List ℕ) → slice_get keys.now k ≡ Some key → (own : ℕ) × HasFirst key own × IsBlock blocks.old own }
    requires within { (b : ℕ) → IsBlock blocks.old b → b < length retained.now }
    ensures chosen { IfOk result (λ c. AreChosen blocks.old blocks.new (has active_nodes.now.nodes) keys.now (length keys.now) retained.now c.items) }
    ensures err { OnErr result (blocks.new ≡ blocks.old) }
{
    let mut chosen = Vec::with_capacity(alloc, keys.len() as usize)?;
    reserve_more(blocks, keys.len())?;
    for k in 0..keys.len() {
        let c = choose_one(blocks, active_nodes, retained, own_number(keys.key(k)), k);
        chosen.push_reserved(c);
    }
    Ok(chosen)
}
