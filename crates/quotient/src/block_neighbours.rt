// Lists of neighbours.
ghost use Rattle.std.specs.Prelude.{◌≡◌, ◌++◌, ◌∷◌, ◌<◌, ◌≤◌, [], ℕ, false, Some, IsTrue, IfOk, OnOk, OnErr, IfSome, IfNone, length, max, slice_set, slice_index, slice_get, nat_eq, position};
ghost use Rattle.std.proofs.Math.ListN.{replicate};
ghost use Rattle.std.specs.List.Sorted.{IsPermutation};
ghost use Rattle.graph_spec.specs.Members.{has};
ghost use Rattle.quotient.specs.QuotientNeighbours.{list_at};
ghost use Rattle.quotient.specs.QuotientTables.{UsesOne, GivesMore};

use cell_lists::{EMPTY, Segment, items, make_places, push, take_at};
use px_base::Memory;
use std::alloc::Global;
use std::marker::Model;

/// A list of neighbours for each block number. The lists lie in one array, so that no block takes an allocation of its own.
/// A list takes 12 bytes, and 4 for each neighbour if it has more than one. A list that grows later takes 4 to 16 for each
/// of the most that it had.
#[derive(Drop)]
pub(crate) struct BlockNeighbours {
    segments: Vec<Segment>,
    cells: Vec<u32>,
}

impl Model for BlockNeighbours {
    ghost use Rattle.std.specs.Prelude.{map};
    ghost use Rattle.cell_lists.specs.Segments.{items_in};
    ghost use Rattle.quotient.specs.QuotientTables.{KeptLists};
    ghost use Rattle.quotient.specs.NeighbourCells.{AreHeld, spare_in};

    ghost Value = { KeptLists };

    ghost view = { λ n. record {
      lists = map (items_in n.cells.items) n.segments.items;
      reserved = map spare_in n.segments.items;
    } };

    ghost invariant = { λ n. AreHeld n.cells.items n.segments.items };
}

impl BlockNeighbours {
    /// An empty list for each count, with capacity for just that many neighbours. O(n) for n lists and neighbours.
    pub(crate) fn with_counts(alloc: Global, counts: &[u32]) -> Result<BlockNeighbours, Memory>
        ensures { IfOk result (λ n. n.lists ≡ replicate (length counts.now) []) }
    {
        let mut lists = BlockNeighbours {
            segments: Vec::with_capacity(alloc, counts.len())?,
            cells: Vec::with_capacity(alloc, cells_for(counts))?,
        };
        for count in counts {
            lists.push_list(*count)?;
        }
        Ok(lists)
    }

    // Puts an empty list behind the others, with capacity for that many neighbours.
    fn push_list(&mut self, count: u32) -> Result<(), Memory>
        ensures { OnOk result (self.new.lists ≡ self.old.lists ++ [] ∷ []) }
    {
        if count <= EMPTY.reserved {
            self.push_empty()?;
            return Ok(());
        }
        let Ok(first) = u32::try_from(self.cells.len()) else {
            return Err(Memory);
        };
        self.cells.resize(first as usize + count as usize, 0)?;
        self.segments.push(Segment {
            first,
            len: 0,
            reserved: count,
        })?;
        Ok(())
    }

    /// The list with this number.
    pub(crate) fn get(&self, n: u32) -> &[u32]
        requires { n < length self.now.lists }
        ensures { result.now ≡ list_at self.now.lists n }
    {
        items(&self.cells, &self.segments[n as usize])
    }

    /// How many neighbours the list with this number has.
    pub(crate) fn count(&self, n: u32) -> usize
        requires { n < length self.now.lists }
    {
        self.get(n).len()
    }

    /// Puts a neighbour behind the list with this number.
    pub(crate) fn push(&mut self, n: u32, b: u32) -> Result<(), Memory>
        requires { n < length self.old.lists }
        ensures { OnOk result (self.new.lists ≡ slice_set self.old.lists n (list_at self.old.lists n ++ b ∷ [])) }
    {
        self.reserve(n, 1)?;
        self.add(n, b);
        Ok(())
    }

    /// Adds empty lists until there are at least that many.
    pub(crate) fn grow(&mut self, len: usize) -> Result<(), Memory>
        ensures lists { (m : ℕ) → list_at self.new.lists m ≡ list_at self.old.lists m }
        ensures len { length self.old.lists ≤ length self.new.lists }
        ensures most { length self.new.lists ≤ max len (length self.old.lists) }
        ensures ok { OnOk result (len ≤ length self.new.lists) }
        ensures reserved { GivesMore self.old.reserved self.new.reserved }
    {
        while self.segments.len() < len {
            self.push_empty()?;
        }
        Ok(())
    }

    fn push_empty(&mut self) -> Result<(), Memory>
        ensures lists { OnOk result (self.new.lists ≡ self.old.lists ++ [] ∷ []) }
        ensures reserved { OnOk result (GivesMore self.old.reserved self.new.reserved) }
        ensures err { OnErr result (self.new ≡ self.old) }
    {
        self.segments.push(EMPTY)?;
        Ok(())
    }

    /// Reserves capacity for that many further neighbours in the list with this number.
    pub(crate) fn reserve(&mut self, n: u32, more: usize) -> Result<(), Memory>
        requires { n < length self.old.lists }
        ensures lists { self.new.lists ≡ self.old.lists }
        ensures reserved { GivesMore self.old.reserved self.new.reserved }
        ensures ok { OnOk result (more ≤ slice_index self.new.reserved n) }
    {
        make_places(&mut self.cells, &mut self.segments[n as usize], more)?;
        Ok(())
    }

    /// Puts a neighbour behind the list with this number, from the capacity reserved for one. It takes no memory.
    pub(crate) fn add(&mut self, n: u32, b: u32)
        requires within { n < length self.old.lists }
        requires reserved { 0 < slice_index self.old.reserved n }
        ensures lists { self.new.lists ≡ slice_set self.old.lists n (list_at self.old.lists n ++ b ∷ []) }
        ensures reserved { UsesOne n self.old.reserved self.new.reserved }
    {
        push(&mut self.cells, &mut self.segments[n as usize], b);
    }

    /// Takes a neighbour out of the list with this number, and answers its place, and which neighbour stood last: that
    /// one stands at the place now. O(1), where the neighbour stands at the place that is given; else the list is
    /// searched. It takes no memory.
    pub(crate) fn remove(&mut self, n: u32, b: u32, place: u32) -> (usize, u32)
        requires within { n < length self.old.lists }
        requires member { IsTrue (has (list_at self.old.lists n) b) }
        ensures lists { self.new.lists ≡ slice_set self.old.lists n (list_at self.new.lists n) }
        ensures taken { IsPermutation (list_at self.old.lists n) (b ∷ list_at self.new.lists n) }
        ensures reserved { UsesOne n self.old.reserved self.new.reserved }
    {
        let Some(i) = find_in(self.get(n), b, place as usize) else {
            unreachable!()
        };
        let last = last_of(self.get(n));
        take_at(&mut self.cells, &mut self.segments[n as usize], i);
        (i, last)
    }
}

// How many cells lists with these counts take.
fn cells_for(counts: &[u32]) -> usize {
    let mut cells = 0usize;
    for count in counts {
        if *count > EMPTY.reserved {
            cells = cells.saturating_add(*count as usize);
        }
    }
    cells
}

// Where a number stands in a list, if it does. It is looked for at one place first.
fn find_in(list: &[u32], b: u32, first: usize) -> Option<usize>
    ensures at { IfSome result (λ i. slice_get list.now i ≡ Some b) }
    ensures none { IfNone result (has list.now b ≡ false) }
{
    if stands_at(list, b, first) {
        return Some(first);
    }
    place_in(list, b)
}

fn stands_at(list: &[u32], b: u32, i: usize) -> bool
    ensures { IsTrue result → slice_get list.now i ≡ Some b }
{
    match list.get(i) {
        Some(c) => *c == b,
        None => false,
    }
}

fn last_of(list: &[u32]) -> u32 {
    match list.last() {
        Some(b) => *b,
        None => 0,
    }
}

fn place_in(list: &[u32], b: u32) -> Option<usize>
    ensures { result ≡ position (nat_eq b) list.now }
{
    list.iter().position(|x| b == *x)
}
