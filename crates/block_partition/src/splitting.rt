// Members of a block that become a block of their own.
ghost use Rattle.std.specs.Prelude.{◌≡◌, ◌<◌, ℕ, true, Some, IsSome, length, if◌then◌else◌};
ghost use Rattle.graph_spec.specs.Members.{at, has};
ghost use Rattle.block_partition.specs.LabelledPartitions.{IsBlock, IsLeastFree};
ghost use Rattle.block_partition.specs.SplitBlocks.{IsSplitOff};

use crate::blocks::Blocks;
use px_base::NodeId;

impl Blocks {
    /// Makes a block of these members of another one, from the capacity reserved for one block, and gives its number,
    /// the least that isn't a block. It has the label of the other one, which may be left without members. O(m) for m
    /// nodes, no memory.
    pub fn split_off(&mut self, from: u32, nodes: &[NodeId]) -> u32
        requires block { IsBlock self.old from }
        requires reserved { 0 < self.old.reserved.blocks }
        requires members { (n : ℕ) → has nodes.now n ≡ true → at self.old.block_of n ≡ Some from }
        ensures least { IsLeastFree self.old.labels result }
        ensures split { IsSplitOff self.old self.new from (has nodes.now) result }
    {
        let label = self.label(from);
        let b = self.new_block(label);
        move_all(self, nodes, b);
        b
    }
}

// Moves nodes to a block.
fn move_all(blocks: &mut Blocks, nodes: &[NodeId], b: u32)
    requires members { (n : ℕ) → has nodes.now n ≡ true → IsSome (at blocks.old.block_of n) }
    requires block { IsBlock blocks.old b }
    ensures blocks { (n : ℕ) → at blocks.new.block_of n ≡ (if has nodes.now n then Some b else at blocks.old.block_of n) }
    ensures count { length blocks.new.block_of ≡ length blocks.old.block_of }
    ensures labels { blocks.new.labels ≡ blocks.old.labels }
    ensures reserved { blocks.new.reserved ≡ blocks.old.reserved }
{
    for n in nodes {
        blocks.move_node(*n, b);
    }
}
