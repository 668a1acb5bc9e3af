// Numbers that are blocks.
ghost use Rattle.std.specs.Prelude.{◌≡◌, ◌<◌, ◌≤◌, ◌+◌, ◌^◌, ◌++◌, ◌∷◌, ◌&&◌, ℕ, [], true, false, not, nat_eq, length, suc, OnOk, slice_index, vec_len};
ghost use Rattle.std.specs.List.{IsDistinct};
ghost use Rattle.graph_spec.specs.Members.{has};

use px_base::Memory;
use std::alloc::Global;
use std::marker::Model;

/// Numbers in no stated order, as a sparse set (P. Briggs and L. Torczon, LOPLAS 1993): a list of them, and by number
/// the place in that list. It takes 8 bytes a number of those for which capacity is reserved.
#[derive(Drop)]
pub(crate) struct Live {
    numbers: Vec<u32>,
    // The entry of a number that isn't listed has no meaning.
    places: Vec<u32>,
}

impl Model for Live {
    ghost use Rattle.std.specs.Prelude.{vec_len, vec_capacity};
    ghost use Rattle.block_partition.specs.Tables.{NumberSet};
    ghost use Rattle.block_partition.specs.Soundness.{HavePlaces};

    ghost Value = { NumberSet };

    ghost view = { λ l. record { numbers = l.numbers.items; span = vec_len l.places; capacity = vec_capacity l.numbers } };

    ghost invariant = { λ l. HavePlaces l.numbers.items l.places.items };
}

impl Live {
    pub(crate) fn new(alloc: Global) -> Live
        ensures { result.numbers ≡ [] }
    {
        Live {
            numbers: Vec::new(alloc),
            places: Vec::new(alloc),
        }
    }

    pub(crate) fn len(&self) -> usize
        ensures { result ≡ length self.now.numbers }
    {
        self.numbers.len()
    }

    /// The numbers, each once.
    pub(crate) fn as_slice(&self) -> &[u32]
        ensures numbers { result.now ≡ self.now.numbers }
        ensures once { IsDistinct nat_eq self.now.numbers }
    {
        &self.numbers
    }

    /// Reserves capacity for that many more numbers, and for numbers below that span.
    pub(crate) fn reserve(&mut self, span: usize, more: usize) -> Result<(), Memory>
        ensures numbers { self.new.numbers ≡ self.old.numbers }
        ensures span { self.old.span ≤ self.new.span }
        ensures capacity { self.old.capacity ≤ self.new.capacity }
        ensures span_ok { OnOk result (span ≤ self.new.span) }
        ensures capacity_ok { OnOk result (length self.new.numbers + more ≤ self.new.capacity) }
    {
        self.numbers.reserve(more)?;
        grow(&mut self.places, span)
    }

    /// Puts a number behind the others, from the capacity reserved for one. O(1), no memory.
    pub(crate) fn push(&mut self, n: u32)
        requires reserved { length self.old.numbers < self.old.capacity }
        requires within { n < self.old.span }
        requires other { has self.old.numbers n ≡ false }
        requires few { length self.old.numbers < 2 ^ 31 }
        ensures { self.new ≡ record self.old { numbers = self.old.numbers ++ n ∷ [] } }
    {
        self.places[n as usize] = self.numbers.len() as u32;
        self.numbers.push_reserved(n);
    }

    /// Takes a number out; the last one stands in its place then. O(1), no memory.
    pub(crate) fn remove(&mut self, n: u32)
        requires { has self.old.numbers n ≡ true }
        ensures numbers { (m : ℕ) → has self.new.numbers m ≡ (has self.old.numbers m && not (nat_eq m n)) }
        ensures len { suc (length self.new.numbers) ≡ length self.old.numbers }
        ensures span { self.new.span ≡ self.old.span }
        ensures capacity { self.new.capacity ≡ self.old.capacity }
    {
        let place = self.places[n as usize];
        let last = self.numbers[self.numbers.len() - 1];
        self.places[last as usize] = place;
        self.numbers.swap_remove(place as usize);
    }
}

// Appends places that have no meaning yet, up to that many.
fn grow(places: &mut Vec<u32>, span: usize) -> Result<(), Memory>
    ensures places { (k : ℕ) → k < vec_len places.old → slice_index places.new.items k ≡ slice_index places.old.items k }
    ensures longer { vec_len places.old ≤ vec_len places.new }
    ensures ok { OnOk result (span ≤ vec_len places.new) }
{
    if places.len() < span {
        places.resize(span, 0)?;
    }
    Ok(())
}
