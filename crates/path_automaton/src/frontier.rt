// The pairs that a search has marked, and those that it still has to visit.
ghost use Rattle.std.specs.Prelude.{◌≡◌, ◌<◌, ◌≤◌, ◌++◌, ◌∷◌, ℕ, [], length, IsTrue, IfOk, OnOk};
ghost use Rattle.graph_spec.specs.Members.{has};
ghost use Rattle.path_automaton.specs.MarkRows.{row, IsSet, IsMarked, HasRows};
ghost use Rattle.path_automaton.specs.NewMarks.{Gathers, SpreadsAt};

use crate::row::Row;
use crate::worklist::Worklist;
use px_base::{Bits, Memory};
use std::alloc::Global;

/// The marks of pairs of a state and a place, a row for each state, and the worklist of pairs to be visited. A place is a
/// node, or the graph's size, which stands for the place before all nodes. Beside them are the states that are marked where
/// a fork enters them.
#[derive(Drop)]
pub(crate) struct Frontier {
    pub alloc: Global,
    pub rows: Vec<Row>,
    pub worklist: Worklist,
    pub shared: Bits,
}

/// Puts a place behind the others where none is free. It stays out of the loops that mark.
#[cold]
#[inline(never)]
fn push_more(found: &mut Vec<u32>, place: u32) -> Result<(), Memory>
    ensures items { OnOk result (found.new.items ≡ found.old.items ++ place ∷ []) }
{
    found.push(place)?;
    Ok(())
}

/// Puts a place behind the others.
#[inline(always)]
pub(crate) fn push(found: &mut Vec<u32>, place: u32) -> Result<(), Memory>
    ensures items { OnOk result (found.new.items ≡ found.old.items ++ place ∷ []) }
{
    if found.len() < found.capacity() {
        found.push_reserved(place);
        Ok(())
    } else {
        push_more(found, place)
    }
}

/// Marks the place, and finds it where it wasn't marked before.
#[inline(always)]
pub(crate) fn mark(
    alloc: Global,
    row: &mut Row,
    found: &mut Vec<u32>,
    place: u32,
) -> Result<(), Memory>
    requires { place < length row.old }
    ensures gathers { OnOk result (Gathers (λ v. v ≡ place) row.old row.new found.old.items found.new.items) }
    ensures marked { OnOk result (IsSet row.new place) }
{
    if row.insert(alloc, place)? {
        push(found, place)?;
    }
    Ok(())
}

/// The same where the test holds.
#[inline(always)]
pub(crate) fn mark_if(
    alloc: Global,
    row: &mut Row,
    found: &mut Vec<u32>,
    place: u32,
    holds: bool,
) -> Result<(), Memory>
    requires { place < length row.old }
    ensures gathers { OnOk result (Gathers (λ v. IsTrue holds × (v ≡ place)) row.old row.new found.old.items found.new.items) }
    ensures marked { OnOk result (IsTrue holds → IsSet row.new place) }
{
    if holds {
        mark(alloc, row, found, place)
    } else {
        Ok(())
    }
}

/// The same for each of the places.
fn mark_each(
    alloc: Global,
    row: &mut Row,
    found: &mut Vec<u32>,
    places: &[u32],
) -> Result<(), Memory>
    requires { (v : ℕ) → IsTrue (has places.now v) → v < length row.old }
    ensures gathers { OnOk result (Gathers (λ v. IsTrue (has places.now v)) row.old row.new found.old.items found.new.items) }
    ensures marked { OnOk result ((v : ℕ) → IsTrue (has places.now v) → IsSet row.new v) }
{
    for n in places {
        let place = *n;
        mark(alloc, row, found, place)?;
    }
    Ok(())
}

impl Frontier {
    /// No pair is marked, and none is listed. No row takes memory for its marks yet.
    pub(crate) fn new(
        alloc: Global,
        shared: Bits,
        states: usize,
        width: usize,
    ) -> Result<Frontier, Memory>
        ensures wide { IfOk result (λ f. HasRows states width f.rows.items) }
        ensures unmarked { IfOk result (λ f. (s v : ℕ) → IsMarked f.rows.items s v → ⊥) }
        ensures none { IfOk result (λ f. f.worklist ≡ []) }
    {
        let mut rows = Vec::new(alloc);
        for _ in 0..states {
            rows.push(Row::new(alloc, width))?;
        }
        Ok(Frontier {
            alloc,
            rows,
            worklist: Worklist::new(alloc),
            shared,
        })
    }

    /// Marks the state at each of the places. The buffer holds what was found.
    pub(crate) fn mark_all(
        &mut self,
        found: &mut Vec<u32>,
        state: u32,
        places: &[u32],
    ) -> Result<(), Memory>
        requires there { state < length self.old.rows.items }
        requires wide { (v : ℕ) → IsTrue (has places.now v) → v < length (row self.old.rows.items state) }
        ensures spreads { OnOk result (SpreadsAt state (λ v. IsTrue (has places.now v)) self.old self.new) }
        ensures marked { OnOk result ((v : ℕ) → IsTrue (has places.now v) → IsMarked self.new.rows.items state v) }
    {
        found.clear();
        mark_each(self.alloc, &mut self.rows[state as usize], found, places)?;
        self.worklist.push(state, found)?;
        Ok(())
    }
}
