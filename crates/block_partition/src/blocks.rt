// The tables of a partition.
ghost use Rattle.std.specs.Prelude.{◌≡◌, ◌≢◌, ◌+◌, ◌-◌, ◌<◌, ◌≤◌, ◌^◌, ℕ, nat_eq, if◌then◌else◌, Some, None, IsSome, is_some, IfOk, OnOk, OnErr, IfSome, length, slice_set, slice_index, vec_len, vec_capacity};
ghost use Rattle.graph_spec.specs.Members.{Lists, at};
ghost use Rattle.block_partition.specs.LabelledPartitions.{IsBlock, is_member, block_count, member_count, IsLeastFree, no_blocks, with_reserved, with_block, with_member, with_move, without_block};
ghost use Rattle.block_partition.specs.Extensions.{with_next};
ghost use Rattle.block_partition.specs.Tables.{KeepsPlaces, head_where, with_length};

use crate::freed::Freed;
use crate::live::Live;
use crate::members::Members;
use crate::slots::Slots;
use px_base::{Memory, NodeId};
use std::alloc::Global;
use std::marker::Model;

/// A partition of nodes into blocks: a list with a block or none for each node number, and a label for
/// each block. Numbers of nodes and of blocks are below 2^31.
///
/// It takes 12 bytes for each node number, and little more than 24 for each block number. A call that takes
/// 'no memory' asks the allocator for none.
///
/// Two nodes in one block. Only the call that reserves can fail:
///
///     let mut blocks = Blocks::new(alloc)?;
///     blocks.reserve(2, 1)?;
///     let block = blocks.new_block(label);
///     blocks.place(0, block);
///     blocks.place(1, block);
pub struct Blocks {
    block: Slots,
    next: Slots,
    prev: Slots,
    first: Slots,
    labels: Vec<Option<u32>>,
    sizes: Vec<u32>,
    freed: Freed,
    live: Live,
    nodes_reserved: u32,
    blocks_reserved: u32,
}

impl Drop for Blocks {
    // By hand, so that no crate above proves how the tables are dropped.
    fn drop(self) {
        let Blocks {
            block,
            next,
            prev,
            first,
            labels,
            sizes,
            freed,
            live,
            nodes_reserved: _,
            blocks_reserved: _,
        } = self;
        drop(block);
        drop(next);
        drop(prev);
        drop(first);
        drop(labels);
        drop(sizes);
        drop(freed);
        drop(live);
    }
}

impl Model for Blocks {
    ghost use Rattle.block_partition.specs.LabelledPartitions.{Partition};
    ghost use Rattle.block_partition.specs.Soundness.{AreSoundTables};

    ghost Value = { Partition };

    ghost view = { λ b. record {
      block_of = b.block.places;
      labels = b.labels.items;
      reserved = record { nodes = b.nodes_reserved; blocks = b.blocks_reserved };
    } };

    ghost invariant = { λ b. AreSoundTables b.block b.next b.prev b.first b.labels b.sizes b.freed b.live b.nodes_reserved b.blocks_reserved };
}

// Reading.
impl Blocks {
    /// The length of the list of blocks: at most 2^31. Numbers past its end have no block. O(1), no memory.
    pub fn numbers(&self) -> u32
        ensures count { result ≡ length self.now.block_of }
        ensures few { result ≤ 2 ^ 31 }
    {
        self.block.len() as u32
    }

    /// The block of a node, and none where it has none. O(1), no memory.
    pub fn block_of(&self, n: NodeId) -> Option<u32>
        ensures block { result ≡ at self.now.block_of n }
        ensures live { IfSome result (IsBlock self.now) }
    {
        self.block.get(n)
    }

    /// Whether the number is that of a block. O(1), no memory.
    pub fn is_block(&self, b: u32) -> bool
        ensures { result ≡ is_some (at self.now.labels b) }
    {
        label_at(&self.labels, b).is_some()
    }

    /// How many blocks there are: at most 2^31. O(1), no memory.
    pub fn count(&self) -> u32
        ensures count { result ≡ block_count self.now }
        ensures few { result ≤ 2 ^ 31 }
    {
        self.live.len() as u32
    }

    /// The numbers of the blocks, each once, in no stated order. O(1), no memory.
    pub fn live(&self) -> &[u32]
        ensures blocks { Lists (λ b. is_some (at self.now.labels b)) result.now }
        ensures count { length result.now ≡ block_count self.now }
    {
        self.live.as_slice()
    }

    /// The numbers of blocks are below it: at most 2^31. O(1), no memory.
    pub fn span(&self) -> u32
        ensures span { result ≡ length self.now.labels }
        ensures few { result ≤ 2 ^ 31 }
        ensures live { (n b : ℕ) → at self.now.block_of n ≡ Some b → IsBlock self.now b }
    {
        self.labels.len() as u32
    }

    /// The least number from this one on that is no block: at most `span`, where this one is. O(1), no
    /// memory: where some number below `span` is no block, it looks at the numbers of two runs of 64, and at some
    /// hundred entries at most.
    pub fn next_free(&self, from: u32) -> u32
        ensures free { at self.now.labels result ≡ None }
        ensures from { from ≤ result }
        ensures passed { (c : ℕ) → from ≤ c → c < result → IsBlock self.now c }
    {
        if self.live.len() == self.labels.len() {
            return from.max(self.labels.len() as u32);
        }
        self.freed.next_from(&self.labels, from)
    }

    /// The label of a block. O(1), no memory.
    pub fn label(&self, b: u32) -> u32
        requires block { IsBlock self.now b }
        ensures { at self.now.labels b ≡ Some result }
    {
        label_at(&self.labels, b).unwrap()
    }

    /// How many members a block has. O(1), no memory.
    pub fn member_count(&self, b: u32) -> u32
        requires block { IsBlock self.now b }
        ensures { result ≡ member_count self.now b }
    {
        self.sizes[b as usize]
    }

    /// The members of a block, each once, in no stated order. O(1) for the call and for each member, no memory.
    pub fn members(&self, b: u32) -> Members<'_>
        requires block { IsBlock self.now b }
        ensures { Lists (is_member self.now b) result }
    {
        Members::new(&self.next, self.first.get(b), self.block.len())
    }
}

// Reserving.
impl Blocks {
    /// No blocks. O(1), no memory until capacity is reserved.
    pub fn new(alloc: Global) -> Result<Blocks, Memory>
        ensures { IfOk result (λ b. b ≡ no_blocks) }
    {
        Ok(Blocks {
            block: Slots::new(alloc),
            next: Slots::new(alloc),
            prev: Slots::new(alloc),
            first: Slots::new(alloc),
            labels: Vec::new(alloc),
            sizes: Vec::new(alloc),
            freed: Freed::new(alloc),
            live: Live::new(alloc),
            nodes_reserved: 0,
            blocks_reserved: 0,
        })
    }

    /// Reserves capacity for that many further numbers past the end of the list, and for that many further
    /// blocks, instead of what was reserved. Where memory runs out, that stays. O(`blocks`), and
    /// O(`numbers` + `span`) more where a table moves; it takes 12 bytes a node and little more than 24 a block.
    pub fn reserve(&mut self, nodes: u32, blocks: u32) -> Result<(), Memory>
        requires nodes { length self.old.block_of + nodes ≤ 2 ^ 31 }
        requires blocks { block_count self.old + blocks ≤ 2 ^ 31 }
        ensures ok { OnOk result (self.new ≡ with_reserved self.old nodes blocks) }
        ensures err { OnErr result (self.new ≡ self.old) }
    {
        reserve_nodes(
            &mut self.block,
            &mut self.next,
            &mut self.prev,
            nodes as usize,
        )?;
        reserve_blocks(
            &mut self.first,
            &mut self.labels,
            &mut self.sizes,
            blocks as usize,
        )?;
        let span = self.labels.len() + blocks as usize;
        self.freed.reserve(span)?;
        self.live.reserve(span, blocks as usize)?;
        self.nodes_reserved = nodes;
        self.blocks_reserved = blocks;
        Ok(())
    }
}

// Writing.
impl Blocks {
    /// Makes a block without members, from the capacity reserved for one, and gives its number, the least that isn't a
    /// block. O(1), no memory: the time of `next_free` twice at most.
    pub fn new_block(&mut self, label: u32) -> u32
        requires reserved { 0 < self.old.reserved.blocks }
        ensures least { IsLeastFree self.old.labels result }
        ensures added { self.new ≡ with_block self.old result label }
        ensures labels { (c : ℕ) → at self.new.labels c ≡ (if nat_eq c result then Some label else at self.old.labels c) }
    {
        let b = self.next_free(0);
        if b < self.span() {
            self.make_again(b, label);
        } else {
            self.make_next(b, label);
        }
        b
    }

    // Makes a block under a number of the list.
    fn make_again(&mut self, b: u32, label: u32)
        requires reserved { 0 < self.old.reserved.blocks }
        requires least { IsLeastFree self.old.labels b }
        requires within { b < length self.old.labels }
        ensures { self.new ≡ with_block self.old b label }
    {
        self.labels[b as usize] = Some(label);
        self.freed.pass(&self.labels, b);
        self.live.push(b);
        self.blocks_reserved -= 1;
    }

    // Makes a block under the number past the end of the list, where each number of the list is a block.
    fn make_next(&mut self, b: u32, label: u32)
        requires reserved { 0 < self.old.reserved.blocks }
        requires least { IsLeastFree self.old.labels b }
        requires past { length self.old.labels ≤ b }
        ensures { self.new ≡ with_block self.old b label }
    {
        self.labels.push_reserved(Some(label));
        self.sizes.push_reserved(0);
        self.first.push_none();
        self.freed.pass(&self.labels, b);
        self.live.push(b);
        self.blocks_reserved -= 1;
    }

    /// Puts a node that has no block into one. Where the node stands past the end of the list, the list grows to end
    /// with it, from the capacity reserved for numbers. O(g) for g numbers that the list grows by, no memory.
    pub fn place(&mut self, n: NodeId, b: u32)
        requires block { IsBlock self.old b }
        requires free { at self.old.block_of n ≡ None }
        requires within { n < length self.old.block_of + self.old.reserved.nodes }
        ensures placed { self.new ≡ with_member self.old n b }
        ensures blocks { (m : ℕ) → at self.new.block_of m ≡ (if nat_eq m n then Some b else at self.old.block_of m) }
    {
        self.grow(n as usize + 1);
        self.link(n, b);
    }

    /// Puts the node with the next number past the end of the list into a block, or into none, from
    /// the capacity reserved for one number. O(1), no memory.
    pub fn append(&mut self, block: Option<u32>)
        requires block { IfSome block (IsBlock self.old) }
        requires reserved { 0 < self.old.reserved.nodes }
        ensures { self.new ≡ with_next self.old block }
    {
        let len = self.block.len();
        match block {
            Some(b) => self.append_member(b),
            None => self.grow(len + 1),
        }
    }

    /// Moves a node from its block to this one. O(1), no memory.
    pub fn move_node(&mut self, n: NodeId, b: u32)
        requires has { IsSome (at self.old.block_of n) }
        requires block { IsBlock self.old b }
        ensures { self.new ≡ with_move self.old n (Some b) }
    {
        self.take_out(n);
        self.link(n, b);
    }

    /// Takes a node out of its block. O(1), no memory.
    pub fn take_out(&mut self, n: NodeId)
        requires has { IsSome (at self.old.block_of n) }
        ensures { self.new ≡ with_move self.old n None }
    {
        let Some(own) = self.block.get(n) else {
            unreachable!()
        };
        let before = self.prev.get(n);
        let after = self.next.get(n);
        self.next.set_at(before, after);
        self.prev.set_at(after, before);
        self.first.set_at(head_of(own, before), after);
        self.next.set(n, None);
        self.prev.set(n, None);
        self.block.set(n, None);
        self.sizes[own as usize] -= 1;
    }

    /// Takes a block without members away; its number is free again. O(1), no memory.
    pub fn retire_block(&mut self, b: u32)
        requires block { IsBlock self.old b }
        requires empty { (n : ℕ) → at self.old.block_of n ≢ Some b }
        ensures { self.new ≡ without_block self.old b }
    {
        self.labels[b as usize] = None;
        self.live.remove(b);
        self.freed.put(b);
    }

    // Lets the list grow up to a length, with none.
    fn grow(&mut self, len: usize)
        requires { len ≤ length self.old.block_of + self.old.reserved.nodes }
        ensures { self.new ≡ with_length self.old len }
    {
        let old = self.block.len();
        self.block.grow(len);
        self.next.grow(len);
        self.prev.grow(len);
        self.nodes_reserved -= (self.block.len() - old) as u32;
    }

    // Puts the node with the next number before the members of a block.
    #[inline(always)]
    fn append_member(&mut self, b: u32)
        requires block { IsBlock self.old b }
        requires reserved { 0 < self.old.reserved.nodes }
        ensures { self.new ≡ with_next self.old (Some b) }
    {
        let node = self.block.len() as u32;
        let after = self.first.get(b);
        self.prev.push(None);
        self.prev.set_at(after, Some(node));
        self.next.push(after);
        self.first.set(b, Some(node));
        self.block.push(Some(b));
        self.sizes[b as usize] += 1;
        self.nodes_reserved -= 1;
    }

    // Puts a node of the list that has no block before the members of one.
    fn link(&mut self, n: NodeId, b: u32)
        requires block { IsBlock self.old b }
        requires free { at self.old.block_of n ≡ None }
        requires within { n < length self.old.block_of }
        ensures { self.new ≡ with_move self.old n (Some b) }
    {
        let head = self.first.get(b);
        self.prev.set_at(head, Some(n));
        self.next.set(n, head);
        self.first.set(b, Some(n));
        self.block.set(n, Some(b));
        self.sizes[b as usize] += 1;
    }
}

// The label of a block, and none past the end.
fn label_at(labels: &[Option<u32>], b: u32) -> Option<u32>
    ensures { result ≡ at labels.now b }
{
    let label = labels.get(b as usize)?;
    *label
}

// The block where no member stands before this one, and none where one does.
fn head_of(block: u32, before: Option<u32>) -> Option<u32>
    ensures { result ≡ head_where block before }
{
    match before {
        None => Some(block),
        Some(_) => None,
    }
}

// Reserves capacity for that many more numbers.
fn reserve_nodes(
    block: &mut Slots,
    next: &mut Slots,
    prev: &mut Slots,
    more: usize,
) -> Result<(), Memory>
    ensures block { KeepsPlaces block.old block.new }
    ensures next { KeepsPlaces next.old next.new }
    ensures prev { KeepsPlaces prev.old prev.new }
    ensures block_ok { OnOk result (length block.new.places + more ≤ block.new.capacity) }
    ensures next_ok { OnOk result (length next.new.places + more ≤ next.new.capacity) }
    ensures prev_ok { OnOk result (length prev.new.places + more ≤ prev.new.capacity) }
{
    block.reserve(more)?;
    next.reserve(more)?;
    prev.reserve(more)?;
    Ok(())
}

// Reserves capacity for that many more blocks.
fn reserve_blocks(
    first: &mut Slots,
    labels: &mut Vec<Option<u32>>,
    sizes: &mut Vec<u32>,
    more: usize,
) -> Result<(), Memory>
    ensures first { KeepsPlaces first.old first.new }
    ensures labels { labels.new.items ≡ labels.old.items }
    ensures labels_capacity { vec_capacity labels.old ≤ vec_capacity labels.new }
    ensures sizes { sizes.new.items ≡ sizes.old.items }
    ensures sizes_capacity { vec_capacity sizes.old ≤ vec_capacity sizes.new }
    ensures first_ok { OnOk result (length first.new.places + more ≤ first.new.capacity) }
    ensures labels_ok { OnOk result (vec_len labels.new + more ≤ vec_capacity labels.new) }
    ensures sizes_ok { OnOk result (vec_len sizes.new + more ≤ vec_capacity sizes.new) }
{
    first.reserve(more)?;
    labels.reserve(more)?;
    sizes.reserve(more)?;
    Ok(())
}
