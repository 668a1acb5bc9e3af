// How many edges lead from one block to another.
ghost use Rattle.std.specs.Prelude.{◌≡◌, ◌+◌, ◌-◌, ◌<◌, ◌≤◌, ◌^◌, IfOk, OnOk, IsTrue, IsFalse, length};
ghost use Rattle.std.specs.FinMap as map;
ghost use Rattle.bisim_spec.specs.IndexGraphs.{support_at};
ghost use Rattle.quotient.specs.Quotients.{pair_count, with_support};
ghost use Rattle.quotient.specs.QuotientNeighbours.{AreNeighbourLists, ArePairsBelow, IsPositive, RaisesPair, with_one_more};

use crate::block_neighbours::BlockNeighbours;
use crate::places::{Place, Places, noted};
use indexmap::IndexMap;
use px_base::{Memory, Recent};
use std::alloc::Global;
use std::marker::Model;

/// The number of edges for each pair of blocks that has one, and where the pair stands in the lists of
/// neighbours.
#[derive(Drop)]
pub(crate) struct Supports {
    table: IndexMap<(u32, u32), u32>,
    places: Places,
}

impl Model for Supports {
    ghost use Rattle.std.specs.FinMap as map;
    ghost use Rattle.indexmap.specs.IndexMap.{spare};
    ghost use Rattle.quotient.specs.QuotientTables.{KeptPairs, pairs_code};
    ghost use Rattle.quotient.specs.QuotientNeighbours.{IsPositive};

    ghost Value = { KeptPairs };

    ghost coded = { pairs_code };

    ghost view = { λ s. record { pairs = map.from_entries s.table.entries; reserved = spare s.table } };

    ghost invariant = { λ s. IsPositive (map.from_entries s.table.entries) };
}

impl Supports {
    pub(crate) fn new(alloc: Global, is_noting: bool) -> Supports
        ensures { result.pairs ≡ map.empty }
    {
        Supports {
            table: IndexMap::new(alloc),
            places: Places::new(alloc, is_noting),
        }
    }

    /// No supports, and capacity for that many pairs.
    pub(crate) fn with_reserved(
        alloc: Global,
        pairs: usize,
        is_noting: bool,
    ) -> Result<Supports, Memory>
        ensures { IfOk result (λ s. s.pairs ≡ map.empty) }
    {
        let mut supports = Supports::new(alloc, is_noting);
        supports.reserve_pairs(pairs)?;
        Ok(supports)
    }

    /// The support of a pair, found by hash.
    pub(crate) fn get(&self, a: u32, b: u32) -> u32
        ensures { result ≡ support_at self.now.pairs a b }
    {
        match self.table.get(&(a, b)) {
            Some(n) => *n,
            None => 0,
        }
    }

    /// How many pairs have edges.
    pub(crate) fn pairs(&self) -> usize
        ensures { result ≡ pair_count self.now.pairs }
    {
        self.table.len()
    }

    /// Reserves capacity for that many further pairs.
    pub(crate) fn reserve(&mut self, more: usize) -> Result<(), Memory>
        ensures pairs { self.new.pairs ≡ self.old.pairs }
        ensures reserved { OnOk result (more ≤ self.new.reserved) }
    {
        self.reserve_pairs(more)?;
        self.places.reserve(more)
    }

    // Reserves capacity for that many further pairs, but not for their places.
    fn reserve_pairs(&mut self, more: usize) -> Result<(), Memory>
        ensures pairs { self.new.pairs ≡ self.old.pairs }
        ensures reserved { OnOk result (more ≤ self.new.reserved) }
    {
        self.table.reserve(more)?;
        Ok(())
    }

    /// Writes the support of a pair, for which capacity is reserved. It takes no memory.
    pub(crate) fn set(&mut self, a: u32, b: u32, n: u32)
        requires reserved { 0 < self.old.reserved }
        ensures pairs { self.new.pairs ≡ with_support self.old.pairs (a, b) n }
        ensures reserved { self.old.reserved ≤ self.new.reserved + 1 }
    {
        if n == 0 {
            self.remove(a, b);
        } else {
            self.write(a, b, n);
        }
    }

    /// Takes a pair out, where it is in, and gives the place that was noted for it. It takes no memory.
    pub(crate) fn remove(&mut self, a: u32, b: u32) -> Place
        ensures pairs { self.new.pairs ≡ map.remove self.old.pairs (a, b) }
        ensures reserved { self.old.reserved ≤ self.new.reserved }
    {
        match self.table.swap_remove_full(&(a, b)) {
            Some((i, _, _)) => self.places.take(i),
            None => Place::new(0, 0),
        }
    }

    // Writes the support of a pair, which isn't 0.
    fn write(&mut self, a: u32, b: u32, n: u32)
        requires some { 0 < n }
        requires reserved { 0 < self.old.reserved }
        ensures pairs { self.new.pairs ≡ map.insert self.old.pairs (a, b) n }
        ensures reserved { self.old.reserved ≤ self.new.reserved + 1 }
    {
        match self.table.insert((a, b), n) {
            Ok(_) => {}
            Err(_) => unreachable!(),
        }
    }

    /// Notes the place of the pair that came last into the table, from the capacity reserved for one. It takes no memory.
    pub(crate) fn add_place(&mut self, place: Place)
        ensures { self.new ≡ self.old }
    {
        self.places.add(place);
    }

    /// Notes another place of b among the children of a, where the pair is in.
    pub(crate) fn note_child(&mut self, a: u32, b: u32, place: usize)
        ensures { self.new ≡ self.old }
    {
        if let Some(i) = self.table.get_index_of(&(a, b)) {
            self.places.write_child(i, place);
        }
    }

    /// Notes another place of a among the parents of b, where the pair is in.
    pub(crate) fn note_parent(&mut self, a: u32, b: u32, place: usize)
        ensures { self.new ≡ self.old }
    {
        if let Some(i) = self.table.get_index_of(&(a, b)) {
            self.places.write_parent(i, place);
        }
    }

    /// Counts one more edge. A pair that was counted a short time ago is found without a hash.
    #[inline(always)]
    pub(crate) fn raise(&mut self, a: u32, b: u32, recent: &mut Recent) -> Result<(), Memory>
        requires few { support_at self.old.pairs a b < 2 ^ 32 - 1 }
        ensures { OnOk result (RaisesPair a b (support_at self.old.pairs) (support_at self.new.pairs)) }
    {
        if self.raise_at(recent.get(a, b) as usize, a, b) {
            return Ok(());
        }
        let i = self.raise_by_hash(a, b)?;
        recent.put(a, b, noted(i));
        Ok(())
    }

    // Counts one more edge of a pair, if the pair has this index in the table.
    #[inline(always)]
    fn raise_at(&mut self, i: usize, a: u32, b: u32) -> bool
        requires few { support_at self.old.pairs a b < 2 ^ 32 - 1 }
        ensures raised { IsTrue result → self.new.pairs ≡ with_one_more self.old.pairs a b }
        ensures same { IsFalse result → self.new ≡ self.old }
    {
        let Some((pair, n)) = self.table.get_index(i) else {
            return false;
        };
        if *pair != (a, b) {
            return false;
        }
        let n = *n;
        let Some(count) = self.table.get_index_mut(i) else {
            unreachable!()
        };
        *count = n + 1;
        true
    }

    // Counts one more edge of a pair that is found by hash, and answers its index.
    #[inline(always)]
    fn raise_by_hash(&mut self, a: u32, b: u32) -> Result<usize, Memory>
        requires few { support_at self.old.pairs a b < 2 ^ 32 - 1 }
        ensures { OnOk result (self.new.pairs ≡ with_one_more self.old.pairs a b) }
    {
        let (i, before) = self.table.insert_full((a, b), 1)?;
        let Some(n) = before else {
            return Ok(i);
        };
        let Some(count) = self.table.get_index_mut(i) else {
            unreachable!()
        };
        *count = n + 1;
        Ok(i)
    }

    /// How many pairs begin at each block below this number, and how many end there.
    pub(crate) fn end_counts(
        &self,
        alloc: Global,
        blocks: usize,
    ) -> Result<(Vec<u32>, Vec<u32>), Memory>
        ensures from { IfOk result (λ counts. length counts.0.items ≡ blocks) }
        ensures onto { IfOk result (λ counts. length counts.1.items ≡ blocks) }
    {
        let mut from = zeros(alloc, blocks)?;
        let mut onto = zeros(alloc, blocks)?;
        for i in 0..self.table.len() {
            if let Some((pair, _)) = self.table.get_index(i) {
                count_one(&mut from, pair.0);
                count_one(&mut onto, pair.1);
            }
        }
        Ok((from, onto))
    }

    /// Puts the two blocks of each pair into each other's lists, and notes the places. The lists are empty before.
    pub(crate) fn list_neighbours(
        &mut self,
        children: &mut BlockNeighbours,
        parents: &mut BlockNeighbours,
    ) -> Result<(), Memory>
        requires from { ArePairsBelow (length children.old.lists) self.old.pairs }
        requires onto { ArePairsBelow (length parents.old.lists) self.old.pairs }
        requires empty { AreNeighbourLists map.empty children.old.lists parents.old.lists }
        ensures same { self.new.pairs ≡ self.old.pairs }
        ensures neighbour_lists { OnOk result (AreNeighbourLists self.old.pairs children.new.lists parents.new.lists) }
        ensures children { OnOk result (length children.new.lists ≡ length children.old.lists) }
        ensures parents { OnOk result (length parents.new.lists ≡ length parents.old.lists) }
    {
        self.places.reserve(self.table.len())?;
        list_pairs(&self.table, &mut self.places, children, parents)?;
        Ok(())
    }
}

// So many zeros.
fn zeros(alloc: Global, len: usize) -> Result<Vec<u32>, Memory>
    ensures { IfOk result (λ v. length v.items ≡ len) }
{
    let mut zeros = Vec::with_capacity(alloc, len)?;
    zeros.resize(len, 0)?;
    Ok(zeros)
}

// Counts one more for this number, where there is a count for it.
fn count_one(counts: &mut Vec<u32>, n: u32)
    ensures { length counts.new.items ≡ length counts.old.items }
{
    let n = n as usize;
    if n < counts.len() {
        counts[n] = counts[n].saturating_add(1);
    }
}

// Puts the two blocks of each pair of the table into each other's lists, and notes the places in the order of the table.
fn list_pairs(
    table: &IndexMap<(u32, u32), u32>,
    places: &mut Places,
    children: &mut BlockNeighbours,
    parents: &mut BlockNeighbours,
) -> Result<(), Memory>
    requires positive { IsPositive (map.from_entries table.now.entries) }
    requires from { ArePairsBelow (length children.old.lists) (map.from_entries table.now.entries) }
    requires onto { ArePairsBelow (length parents.old.lists) (map.from_entries table.now.entries) }
    requires empty { AreNeighbourLists map.empty children.old.lists parents.old.lists }
    ensures neighbour_lists { OnOk result (AreNeighbourLists (map.from_entries table.now.entries) children.new.lists parents.new.lists) }
    ensures children { OnOk result (length children.new.lists ≡ length children.old.lists) }
    ensures parents { OnOk result (length parents.new.lists ≡ length parents.old.lists) }
{
    for i in 0..table.len() {
        let Some((pair, _)) = table.get_index(i) else {
            unreachable!()
        };
        let (a, b) = *pair;
        let place = Place::new(children.count(a), parents.count(b));
        children.push(a, b)?;
        parents.push(b, a)?;
        places.push(place)?;
    }
    Ok(())
}
