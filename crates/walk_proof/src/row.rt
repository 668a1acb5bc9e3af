// Marks of places.
ghost use Rattle.std.specs.Prelude.{◌≡◌, ◌<◌, ◌&&◌, ◌||◌, ℕ, [], not, nat_eq, IsTrue, IfOk, OnOk};
ghost use Rattle.graph_spec.specs.Members.{has};

use indexmap::IndexSet;
use px_base::{Bits, Memory};
use std::alloc::Global;
use std::marker::Model;

/// While fewer places are marked than one in so many, they are listed.
const LISTED_SHARE: usize = 32;

/// A mark for each place below a width. Few marks are listed, and many have a byte for each place, so that the memory is
/// that of the marks, and not of the width.
#[derive(Drop)]
pub(crate) struct Row {
    few: IndexSet<u32>,
    // Nothing, while they are listed.
    many: Bits,
    width: u32,
}

/// The width, and the places that are marked.
impl Model for Row {
    ghost use Rattle.std.specs.Prelude.{◌++◌};
    ghost use Rattle.px_base.specs.BitSets.{BitSet};
    ghost use Rattle.walk_proof.specs.Marking.{AreMarks};

    ghost Value = { BitSet };

    ghost view = { λ r. record { size = r.width; members = r.many.members ++ r.few.keys } };

    ghost invariant = { λ r. AreMarks r.width r.many r.few.keys };
}

impl Row {
    /// No place is marked.
    pub(crate) fn new(alloc: Global, width: u32) -> Result<Row, Memory>
        ensures { IfOk result (λ r. r ≡ record { size = width; members = [] }) }
    {
        let many = Bits::new(alloc, 0)?;
        Ok(Row {
            few: IndexSet::new(alloc),
            many,
            width,
        })
    }

    /// Whether the place is marked; false from the width on.
    pub(crate) fn contains(&self, place: u32) -> bool
        ensures { result ≡ has self.now.members place }
    {
        self.many.contains(place) || self.few.contains(&place)
    }

    /// Marks the place, and says whether it wasn't marked before.
    pub(crate) fn insert(&mut self, alloc: Global, place: u32) -> Result<bool, Memory>
        requires { place < self.old.size }
        ensures size { self.new.size ≡ self.old.size }
        ensures new { IfOk result (λ new. new ≡ not (has self.old.members place)) }
        ensures members { OnOk result ((m : ℕ) → has self.new.members m ≡ (nat_eq m place || has self.old.members m)) }
    {
        let new = !self.contains(place);
        self.spread_marks(alloc)?;
        if self.many.size() > 0 {
            self.many.insert(place);
        } else {
            self.few.insert(place)?;
        }
        Ok(new)
    }

    /// Takes the mark of the place away.
    pub(crate) fn remove(&mut self, place: u32)
        ensures size { self.new.size ≡ self.old.size }
        ensures members { (m : ℕ) → has self.new.members m ≡ (not (nat_eq m place) && has self.old.members m) }
    {
        if place < self.many.size() {
            self.many.remove(place);
        } else {
            self.few.swap_remove(&place);
        }
    }

    /// Goes over to a byte for each place, where there are many marks.
    fn spread_marks(&mut self, alloc: Global) -> Result<(), Memory>
        ensures size { self.new.size ≡ self.old.size }
        ensures members { (m : ℕ) → has self.new.members m ≡ has self.old.members m }
    {
        if self.few.len() > self.width as usize / LISTED_SHARE {
            self.many = spread(alloc, self.few.as_slice(), self.width)?;
            self.few.clear();
        }
        Ok(())
    }
}

/// A byte for each place, in which these are marked.
fn spread(alloc: Global, places: &[u32], width: u32) -> Result<Bits, Memory>
    requires { (m : ℕ) → IsTrue (has places.now m) → m < width }
    ensures { IfOk result (λ b. (b.size ≡ width) × ((m : ℕ) → has b.members m ≡ has places.now m)) }
{
    let mut marks = Bits::new(alloc, width)?;
    for i in 0..places.len() {
        marks.insert(places[i]);
    }
    Ok(marks)
}
