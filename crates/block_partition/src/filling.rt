// The tables of a partition, filled from lists.
ghost use Rattle.std.specs.Prelude.{◌≡◌, ◌+◌, ◌<◌, ◌≤◌, ◌^◌, ℕ, [], None, Some, IfOk, IfSome, length, nat_eq, nat_lt, is_some, if◌then◌else◌};
ghost use Rattle.graph_spec.specs.Members.{at};
ghost use Rattle.block_partition.specs.LabelledPartitions.{IsBlock};
ghost use Rattle.block_partition.specs.FilledTables.{HaveLabels, SameBlocks, SameBelow};

use crate::blocks::Blocks;
use px_base::{Memory, NodeId};
use std::alloc::Global;

// Makes the next block.
fn add_block(blocks: &mut Blocks, label: u32, count: usize)
    requires reserved { 0 < blocks.old.reserved.blocks }
    requires count { (b : ℕ) → is_some (at blocks.old.labels b) ≡ nat_lt b count }
    ensures label { (b : ℕ) → at blocks.new.labels b ≡ (if nat_eq b count then Some label else at blocks.old.labels b) }
    ensures nodes { blocks.new.block_of ≡ blocks.old.block_of }
    ensures reserved { blocks.new.reserved.blocks + 1 ≡ blocks.old.reserved.blocks }
    ensures nodes_reserved { blocks.new.reserved.nodes ≡ blocks.old.reserved.nodes }
{
    blocks.new_block(label);
}

// Makes a block for each label.
fn add_blocks(blocks: &mut Blocks, labels: &[u32])
    requires none { (b : ℕ) → at blocks.old.labels b ≡ None }
    requires reserved { length labels.now ≤ blocks.old.reserved.blocks }
    ensures labels { HaveLabels blocks.new labels.now }
    ensures nodes { blocks.new.block_of ≡ blocks.old.block_of }
    ensures nodes_reserved { blocks.new.reserved.nodes ≡ blocks.old.reserved.nodes }
{
    for (count, label) in labels.iter().enumerate() {
        add_block(blocks, *label, count);
    }
}

// The block of a node, and none past the end of the list.
#[inline(always)]
fn block_of(block: &[Option<u32>], n: NodeId) -> Option<u32>
    ensures { result ≡ at block.now n }
{
    let b = block.get(n as usize)?;
    *b
}

// Gives the next node its block, where it has one.
#[inline(always)]
fn append(blocks: &mut Blocks, block: Option<u32>)
    requires block { IfSome block (IsBlock blocks.old) }
    requires reserved { 0 < blocks.old.reserved.nodes }
    ensures blocks { (m : ℕ) → at blocks.new.block_of m ≡ (if nat_eq m (length blocks.old.block_of) then block else at blocks.old.block_of m) }
    ensures count { length blocks.new.block_of ≡ length blocks.old.block_of + 1 }
    ensures labels { blocks.new.labels ≡ blocks.old.labels }
    ensures reserved { blocks.new.reserved.nodes + 1 ≡ blocks.old.reserved.nodes }
{
    blocks.append(block);
}

// Puts the nodes below a number into the blocks that the list gives. The partition's own list of blocks
// is empty before.
fn append_nodes(blocks: &mut Blocks, size: u32, block: &[Option<u32>])
    requires blocks { (n b : ℕ) → at block.now n ≡ Some b → IsBlock blocks.old b }
    requires none { blocks.old.block_of ≡ [] }
    requires reserved { size ≤ blocks.old.reserved.nodes }
    ensures blocks { SameBelow size blocks.new.block_of block.now }
    ensures labels { blocks.new.labels ≡ blocks.old.labels }
{
    for n in 0..size {
        append(blocks, block_of(block, n));
    }
}

/// The partition with these labels of blocks, each at its number, in which the nodes below a size have the
/// blocks that the list gives. `Memory` comes only where memory runs out. O(s + l) for a size s and l labels; it
/// takes 12 bytes a number below the size, and little more than 24 a label.
pub fn fill(
    alloc: Global,
    size: u32,
    block: &[Option<u32>],
    labels: &[u32],
) -> Result<Blocks, Memory>
    requires few_nodes { size ≤ 2 ^ 31 }
    requires few_blocks { length labels.now ≤ 2 ^ 31 }
    requires nodes { (n b : ℕ) → at block.now n ≡ Some b → n < size }
    requires blocks { (n b : ℕ) → at block.now n ≡ Some b → b < length labels.now }
    ensures blocks { IfOk result (λ p. SameBlocks p.block_of block.now) }
    ensures labels { IfOk result (λ p. HaveLabels p labels.now) }
{
    let mut blocks = Blocks::new(alloc)?;
    blocks.reserve(size, labels.len() as u32)?;
    add_blocks(&mut blocks, labels);
    append_nodes(&mut blocks, size, block);
    Ok(blocks)
}
