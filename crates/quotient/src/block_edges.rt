// Edges between blocks: how many there are, and which blocks they join.
ghost use Rattle.std.specs.Prelude.{◌≡◌, ◌-◌, ◌<◌, ◌≤◌, ℕ, IfOk, OnOk, length, slice_index};
ghost use Rattle.bisim_spec.specs.IndexGraphs.{support_at};
ghost use Rattle.quotient.specs.QuotientNeighbours.{AreLive, AreNeighbourLists, list_at};
ghost use Rattle.quotient.specs.QuotientTables.{IsWritten};

use crate::block_neighbours::BlockNeighbours;
use crate::places::Place;
use crate::supports::Supports;
use block_partition::Blocks;
use px_base::Memory;
use std::alloc::Global;

/// The supports, and the neighbours of each block by them.
#[derive(Drop)]
pub(crate) struct BlockEdges {
    pub(crate) supports: Supports,
    pub(crate) children: BlockNeighbours,
    pub(crate) parents: BlockNeighbours,
}

impl BlockEdges {
    /// The supports, and the neighbours by them. Each list gets just the cells that it needs, one behind another.
    /// O(`span` + p) for p pairs.
    pub(crate) fn of_supports(
        alloc: Global,
        blocks: &Blocks,
        supports: Supports,
    ) -> Result<BlockEdges, Memory>
        requires live { AreLive blocks.now supports.pairs }
        ensures supports { IfOk result (λ j. j.supports.pairs ≡ supports.pairs) }
        ensures neighbour_lists { IfOk result (λ j. AreNeighbourLists j.supports.pairs j.children.lists j.parents.lists) }
        ensures children { IfOk result (λ j. length j.children.lists ≡ length blocks.now.labels) }
        ensures parents { IfOk result (λ j. length j.parents.lists ≡ length blocks.now.labels) }
    {
        let (from, onto) = supports.end_counts(alloc, blocks.span() as usize)?;
        let mut supports = supports;
        let mut children = BlockNeighbours::with_counts(alloc, &from)?;
        let mut parents = BlockNeighbours::with_counts(alloc, &onto)?;
        supports.list_neighbours(&mut children, &mut parents)?;
        Ok(BlockEdges {
            supports,
            children,
            parents,
        })
    }

    /// Adds lists until there are some for at least that many block numbers.
    pub(crate) fn grow(&mut self, blocks: usize) -> Result<(), Memory>
        requires lengths { length self.old.children.lists ≤ length self.old.parents.lists }
        ensures supports { self.new.supports ≡ self.old.supports }
        ensures children { (m : ℕ) → list_at self.new.children.lists m ≡ list_at self.old.children.lists m }
        ensures parents { (m : ℕ) → list_at self.new.parents.lists m ≡ list_at self.old.parents.lists m }
        ensures more_children { length self.old.children.lists ≤ length self.new.children.lists }
        ensures lengths { length self.new.children.lists ≤ length self.new.parents.lists }
        ensures ok { OnOk result (blocks ≤ length self.new.children.lists) }
    {
        self.parents.grow(blocks)?;
        self.children.grow(blocks)?;
        Ok(())
    }

    /// Writes the support of a pair of blocks, for which capacity is reserved. O(1), but for hashing; it takes no memory.
    pub(crate) fn set(&mut self, a: u32, b: u32, n: u32)
        requires from { a < length self.old.children.lists }
        requires onto { b < length self.old.parents.lists }
        requires pairs { 0 < self.old.supports.reserved }
        requires children { 0 < slice_index self.old.children.reserved a }
        requires parents { 0 < slice_index self.old.parents.reserved b }
        requires neighbour_lists { AreNeighbourLists self.old.supports.pairs self.old.children.lists self.old.parents.lists }
        ensures { IsWritten a b n self.old.supports self.new.supports self.old.children self.new.children self.old.parents self.new.parents }
    {
        if self.supports.get(a, b) == 0 {
            self.set_first(a, b, n);
        } else {
            self.set_more(a, b, n);
        }
    }

    // Writes the support of a pair that has none.
    fn set_first(&mut self, a: u32, b: u32, n: u32)
        requires from { a < length self.old.children.lists }
        requires onto { b < length self.old.parents.lists }
        requires pairs { 0 < self.old.supports.reserved }
        requires children { 0 < slice_index self.old.children.reserved a }
        requires parents { 0 < slice_index self.old.parents.reserved b }
        requires neighbour_lists { AreNeighbourLists self.old.supports.pairs self.old.children.lists self.old.parents.lists }
        requires none { support_at self.old.supports.pairs a b ≡ 0 }
        ensures { IsWritten a b n self.old.supports self.new.supports self.old.children self.new.children self.old.parents self.new.parents }
    {
        self.supports.set(a, b, n);
        if n > 0 {
            let place = Place::new(self.children.count(a), self.parents.count(b));
            self.supports.add_place(place);
            self.children.add(a, b);
            self.parents.add(b, a);
        }
    }

    // Writes the support of a pair that has some.
    fn set_more(&mut self, a: u32, b: u32, n: u32)
        requires from { a < length self.old.children.lists }
        requires onto { b < length self.old.parents.lists }
        requires pairs { 0 < self.old.supports.reserved }
        requires neighbour_lists { AreNeighbourLists self.old.supports.pairs self.old.children.lists self.old.parents.lists }
        requires some { 0 < support_at self.old.supports.pairs a b }
        ensures { IsWritten a b n self.old.supports self.new.supports self.old.children self.new.children self.old.parents self.new.parents }
    {
        if n == 0 {
            self.part(a, b);
        } else {
            self.supports.set(a, b, n);
        }
    }

    // Takes the support from a pair that has some. In each list the last neighbour moves to the place of the one
    // removed, and that place is noted for it.
    fn part(&mut self, a: u32, b: u32)
        requires from { a < length self.old.children.lists }
        requires onto { b < length self.old.parents.lists }
        requires neighbour_lists { AreNeighbourLists self.old.supports.pairs self.old.children.lists self.old.parents.lists }
        requires some { 0 < support_at self.old.supports.pairs a b }
        ensures { IsWritten a b 0 self.old.supports self.new.supports self.old.children self.new.children self.old.parents self.new.parents }
    {
        let place = self.supports.remove(a, b);
        let (i, child) = self.children.remove(a, b, place.child);
        let (j, parent) = self.parents.remove(b, a, place.parent);
        self.supports.note_child(a, child, i);
        self.supports.note_parent(parent, b, j);
    }
}
