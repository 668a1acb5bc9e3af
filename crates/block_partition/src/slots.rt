// A table of small numbers.
ghost use Rattle.std.specs.Prelude.{◌≡◌, ◌<◌, ◌≤◌, ◌+◌, ◌++◌, ◌∷◌, [], None, length, OnOk, slice_set};
ghost use Rattle.graph_spec.specs.Members.{at};
ghost use Rattle.block_partition.specs.Tables.{slot_value, IsSmall, IsIn, set_at, grown, KeepsPlaces};

use px_base::Memory;
use std::alloc::Global;
use std::marker::Model;

// The value that stands for none.
const NONE: u32 = u32::MAX;

/// For each place a number below 2^32 - 1, or none. It takes 4 bytes a place.
#[derive(Drop)]
pub(crate) struct Slots {
    cells: Vec<u32>,
}

impl Model for Slots {
    ghost use Rattle.std.specs.Prelude.{map, vec_capacity};
    ghost use Rattle.block_partition.specs.Tables.{Table, slot_value};

    ghost Value = { Table };

    ghost view = { λ s. record { places = map slot_value s.cells.items; capacity = vec_capacity s.cells } };
}

impl Slots {
    pub(crate) fn new(alloc: Global) -> Slots
        ensures { result.places ≡ [] }
    {
        Slots {
            cells: Vec::new(alloc),
        }
    }

    pub(crate) fn len(&self) -> usize
        ensures { result ≡ length self.now.places }
    {
        self.cells.len()
    }

    /// What stands at a place, and none past the end.
    pub(crate) fn get(&self, n: u32) -> Option<u32>
        ensures place { result ≡ at self.now.places n }
        ensures small { IsSmall result }
    {
        let cell = self.cells.get(n as usize)?;
        number_of(*cell)
    }

    /// Writes a place.
    pub(crate) fn set(&mut self, n: u32, v: Option<u32>)
        requires within { n < length self.old.places }
        requires small { IsSmall v }
        ensures { self.new ≡ record self.old { places = slice_set self.old.places n v } }
    {
        self.cells[n as usize] = cell_of(v);
    }

    /// Writes a place, where there is one.
    pub(crate) fn set_at(&mut self, place: Option<u32>, v: Option<u32>)
        requires within { IsIn place self.old.places }
        requires small { IsSmall v }
        ensures { self.new ≡ record self.old { places = set_at self.old.places place v } }
    {
        if let Some(n) = place {
            self.set(n, v);
        }
    }

    /// Reserves capacity for that many more places.
    pub(crate) fn reserve(&mut self, more: usize) -> Result<(), Memory>
        ensures keeps { KeepsPlaces self.old self.new }
        ensures ok { OnOk result (length self.new.places + more ≤ self.new.capacity) }
    {
        self.cells.reserve(more)?;
        Ok(())
    }

    /// Appends one place.
    pub(crate) fn push(&mut self, v: Option<u32>)
        requires reserved { length self.old.places < self.old.capacity }
        requires small { IsSmall v }
        ensures { self.new ≡ record self.old { places = self.old.places ++ v ∷ [] } }
    {
        self.cells.push_reserved(cell_of(v));
    }

    /// Appends one place with none.
    pub(crate) fn push_none(&mut self)
        requires { length self.old.places < self.old.capacity }
        ensures { self.new ≡ record self.old { places = self.old.places ++ None ∷ [] } }
    {
        self.cells.push_reserved(NONE);
    }

    /// Appends places with none, up to that length.
    pub(crate) fn grow(&mut self, len: usize)
        requires { len ≤ self.old.capacity }
        ensures { self.new ≡ record self.old { places = grown self.old.places len } }
    {
        while self.len() < len {
            self.push_none();
        }
    }
}

fn number_of(cell: u32) -> Option<u32>
    ensures number { result ≡ slot_value cell }
    ensures small { IsSmall result }
{
    if cell == NONE { None } else { Some(cell) }
}

fn cell_of(v: Option<u32>) -> u32
    requires { IsSmall v }
    ensures { slot_value result ≡ v }
{
    match v {
        Some(n) => n,
        None => NONE,
    }
}
