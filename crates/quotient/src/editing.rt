// Changing a quotient piece by piece. Capacity is reserved first; the changes then take no memory.
ghost use Rattle.std.specs.Prelude.{◌≡◌, ◌≢◌, ◌+◌, ◌<◌, ◌≤◌, ◌^◌, ℕ, Some, IsSome, OnOk, IfSome, None, length, slice_index, nat_eq, max};
ghost use Rattle.graph_spec.specs.Members.{at};
ghost use Rattle.block_partition.specs.LabelledPartitions.{IsBlock, IsLeastFree, block_count, with_block, without_block};
ghost use Rattle.bisim_spec.specs.IndexGraphs.{support_at};
ghost use Rattle.quotient.specs.Quotients.{view_of, with_put, with_support};
ghost use Rattle.quotient.specs.QuotientTables.{UsesOne, GivesMore};

use crate::summary::Summary;
use block_partition::Blocks;
use px_base::{Memory, NodeId};

// Reserving.
impl Summary {
    /// Reserves capacity for that many further numbers of nodes past the end of the list and for that many further
    /// blocks, instead of what was reserved, and for that many further pairs with support. It leaves the quotient as it
    /// is seen. O(`blocks`), and linear in all node numbers, block numbers and pairs where a table moves; it takes 12
    /// bytes a number, little more than 24 a block, and what a pair takes.
    pub fn reserve(&mut self, nodes: u32, blocks: u32, pairs: usize) -> Result<(), Memory>
        requires nodes { length self.old.blocks.block_of + nodes ≤ 2 ^ 31 }
        requires blocks { block_count self.old.blocks + blocks ≤ 2 ^ 31 }
        ensures same { view_of self.new ≡ view_of self.old }
        ensures nodes { OnOk result (self.new.blocks.reserved.nodes ≡ nodes) }
        ensures blocks { OnOk result (self.new.blocks.reserved.blocks ≡ blocks) }
        ensures pairs { OnOk result (pairs ≤ self.new.reserved.pairs) }
        ensures span { self.new.reserved.span ≡ self.old.reserved.span }
        ensures children { self.new.reserved.children ≡ self.old.reserved.children }
        ensures parents { self.new.reserved.parents ≡ self.old.reserved.parents }
    {
        self.block_edges.supports.reserve(pairs)?;
        self.blocks.reserve(nodes, blocks)?;
        Ok(())
    }

    /// Reserves capacity for blocks with numbers below this one. It leaves the quotient as it is seen. O(g) for g
    /// numbers that come, and linear in all where a table moves; it takes two short lists a number.
    pub fn reserve_span(&mut self, span: u32) -> Result<(), Memory>
        ensures same { view_of self.new ≡ view_of self.old }
        ensures blocks { self.new.blocks.reserved ≡ self.old.blocks.reserved }
        ensures pairs { self.new.reserved.pairs ≡ self.old.reserved.pairs }
        ensures span { OnOk result (span ≤ self.new.reserved.span) }
        ensures labels { length self.new.blocks.labels ≤ self.new.reserved.span }
    {
        self.block_edges.grow(span as usize)?;
        Ok(())
    }

    /// Reserves capacity for that many further children of a block. It leaves the quotient as it is seen. O(1), and O(c)
    /// for c children where their list moves; it takes 4 bytes a child.
    pub fn reserve_children(&mut self, b: u32, more: usize) -> Result<(), Memory>
        requires within { b < self.old.reserved.span }
        ensures same { view_of self.new ≡ view_of self.old }
        ensures blocks { self.new.blocks.reserved ≡ self.old.blocks.reserved }
        ensures pairs { self.new.reserved.pairs ≡ self.old.reserved.pairs }
        ensures span { self.new.reserved.span ≡ self.old.reserved.span }
        ensures children { GivesMore self.old.reserved.children self.new.reserved.children }
        ensures parents { self.new.reserved.parents ≡ self.old.reserved.parents }
        ensures ok { OnOk result (more ≤ slice_index self.new.reserved.children b) }
    {
        self.block_edges.children.reserve(b, more)
    }

    /// Reserves capacity for that many further parents of a block. It leaves the quotient as it is seen. O(1), and O(p)
    /// for p parents where their list moves; it takes 4 bytes a parent.
    pub fn reserve_parents(&mut self, b: u32, more: usize) -> Result<(), Memory>
        requires within { b < self.old.reserved.span }
        ensures same { view_of self.new ≡ view_of self.old }
        ensures blocks { self.new.blocks.reserved ≡ self.old.blocks.reserved }
        ensures pairs { self.new.reserved.pairs ≡ self.old.reserved.pairs }
        ensures span { self.new.reserved.span ≡ self.old.reserved.span }
        ensures children { self.new.reserved.children ≡ self.old.reserved.children }
        ensures parents { GivesMore self.old.reserved.parents self.new.reserved.parents }
        ensures ok { OnOk result (more ≤ slice_index self.new.reserved.parents b) }
    {
        self.block_edges.parents.reserve(b, more)
    }
}

// Changes.
impl Summary {
    /// Makes a block without members, from the capacity reserved for one, and gives its number, the least that isn't a block.
    /// O(1), no memory.
    pub fn new_block(&mut self, label: u32) -> u32
        requires reserved { 0 < self.old.blocks.reserved.blocks }
        requires span { (b : ℕ) → IsLeastFree self.old.blocks.labels b → b < self.old.reserved.span }
        ensures least { IsLeastFree self.old.blocks.labels result }
        ensures added { self.new ≡ record self.old { blocks = with_block self.old.blocks result label } }
    {
        self.blocks.new_block(label)
    }

    /// Puts a node into a block, or takes it out of its block. A node past the end of the list takes reserved capacity for
    /// numbers. O(1), and O(g) where the list grows by g numbers; no memory.
    pub fn put(&mut self, n: NodeId, b: Option<u32>)
        requires block { IfSome b (IsBlock self.old.blocks) }
        requires within { IsSome b → n < length self.old.blocks.block_of + self.old.blocks.reserved.nodes }
        ensures blocks { self.new.blocks.block_of ≡ with_put self.old.blocks.block_of n b }
        ensures labels { self.new.blocks.labels ≡ self.old.blocks.labels }
        ensures nodes { length self.new.blocks.block_of + self.new.blocks.reserved.nodes ≡ length self.old.blocks.block_of + self.old.blocks.reserved.nodes }
        ensures reserved { self.new.blocks.reserved.blocks ≡ self.old.blocks.reserved.blocks }
        ensures supports { self.new.supports ≡ self.old.supports }
        ensures pairs { self.new.reserved ≡ self.old.reserved }
    {
        match b {
            Some(b) => put_in(&mut self.blocks, n, b),
            None => put_out(&mut self.blocks, n),
        }
    }

    /// Writes the support of a pair of blocks, from the capacity reserved for one pair, one child and one parent.
    /// Expected O(1), no memory.
    pub fn set_support(&mut self, a: u32, b: u32, n: u32)
        requires from { IsBlock self.old.blocks a }
        requires onto { IsBlock self.old.blocks b }
        requires pairs { 0 < self.old.reserved.pairs }
        requires children { 0 < slice_index self.old.reserved.children a }
        requires parents { 0 < slice_index self.old.reserved.parents b }
        ensures blocks { self.new.blocks ≡ self.old.blocks }
        ensures supports { self.new.supports ≡ with_support self.old.supports (a, b) n }
        ensures span { self.new.reserved.span ≡ self.old.reserved.span }
        ensures pairs { self.old.reserved.pairs ≤ self.new.reserved.pairs + 1 }
        ensures children { UsesOne a self.old.reserved.children self.new.reserved.children }
        ensures parents { UsesOne b self.old.reserved.parents self.new.reserved.parents }
    {
        self.block_edges.set(a, b, n);
    }

    /// Takes a block without members and without support away; its number is free again. O(1), no memory.
    pub fn retire_block(&mut self, b: u32)
        requires block { IsBlock self.old.blocks b }
        requires empty { (n : ℕ) → at self.old.blocks.block_of n ≢ Some b }
        requires from { (c : ℕ) → support_at self.old.supports b c ≡ 0 }
        requires onto { (c : ℕ) → support_at self.old.supports c b ≡ 0 }
        ensures { self.new ≡ record self.old { blocks = without_block self.old.blocks b } }
    {
        self.blocks.retire_block(b);
    }
}

// Puts a node into a block.
fn put_in(blocks: &mut Blocks, n: NodeId, b: u32)
    requires block { IsBlock blocks.old b }
    requires within { n < length blocks.old.block_of + blocks.old.reserved.nodes }
    ensures put { blocks.new.block_of ≡ with_put blocks.old.block_of n (Some b) }
    ensures labels { blocks.new.labels ≡ blocks.old.labels }
    ensures nodes { length blocks.new.block_of + blocks.new.reserved.nodes ≡ length blocks.old.block_of + blocks.old.reserved.nodes }
    ensures reserved { blocks.new.reserved.blocks ≡ blocks.old.reserved.blocks }
{
    if blocks.block_of(n).is_some() {
        blocks.move_node(n, b);
    } else {
        blocks.place(n, b);
    }
}

// Takes a node out of its block, where it has one.
fn put_out(blocks: &mut Blocks, n: NodeId)
    ensures put { blocks.new.block_of ≡ with_put blocks.old.block_of n None }
    ensures labels { blocks.new.labels ≡ blocks.old.labels }
    ensures nodes { length blocks.new.block_of + blocks.new.reserved.nodes ≡ length blocks.old.block_of + blocks.old.reserved.nodes }
    ensures reserved { blocks.new.reserved.blocks ≡ blocks.old.reserved.blocks }
{
    if blocks.block_of(n).is_some() {
        blocks.take_out(n);
    }
}
