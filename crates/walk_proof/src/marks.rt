// Marked pairs of a state and a place.
ghost use Rattle.std.specs.Prelude.{◌≡◌, ◌<◌, ℕ, [], length, IsTrue, IfOk, OnOk};
ghost use Rattle.graph_spec.specs.Members.{has};
ghost use Rattle.walk_proof.specs.Marking.{row, IsMarked, Among, HasMarkRows, NotesIn, Notes, IsCleared};

use crate::row::Row;
use px_base::Memory;
use std::alloc::Global;
use std::marker::Model;

/// A state at a place.
#[derive(Clone, Copy, Drop)]
pub(crate) struct Pair {
    pub state: u32,
    pub place: u32,
}

/// Pairs, as a list.
#[derive(Drop)]
pub(crate) struct Layer {
    pub pairs: Vec<Pair>,
}

impl Model for Layer {
    ghost use Rattle.std.specs.Prelude.{List};
    ghost use Rattle.walk_proof.specs.declared.marks.Pair.{Pair as Value_of_pair};

    ghost Value = { List Value_of_pair };

    ghost view = { λ l. l.pairs.items };
}

impl Layer {
    pub(crate) fn new(alloc: Global) -> Layer
        ensures { result ≡ [] }
    {
        Layer {
            pairs: Vec::new(alloc),
        }
    }

    pub(crate) fn pairs(&self) -> &[Pair]
        ensures { result.now ≡ self.now }
    {
        &self.pairs
    }
}

/// For each state a row in which no place is marked.
pub(crate) fn new_rows(alloc: Global, states: usize, width: u32) -> Result<Vec<Row>, Memory>
    ensures wide { IfOk result (λ rows. HasMarkRows states width rows.items) }
    ensures unmarked { IfOk result (λ rows. (s c : ℕ) → IsMarked rows.items s c → ⊥) }
{
    let mut rows = Vec::new(alloc);
    for _ in 0..states {
        rows.push(Row::new(alloc, width)?)?;
    }
    Ok(rows)
}

/// Whether the state is marked at the place.
pub(crate) fn is_marked(rows: &[Row], state: u32, place: u32) -> bool
    requires { state < length rows.now }
    ensures { result ≡ has (row rows.now state).members place }
{
    rows[state as usize].contains(place)
}

/// Marks the place in the row of the state, and lists the pair where it wasn't marked before.
fn note_in(
    alloc: Global,
    row: &mut Row,
    layer: &mut Layer,
    state: u32,
    place: u32,
) -> Result<(), Memory>
    requires { place < row.old.size }
    ensures size { row.new.size ≡ row.old.size }
    ensures notes { OnOk result (NotesIn state place row.old row.new layer.old layer.new) }
{
    if row.insert(alloc, place)? {
        layer.pairs.push(Pair { state, place })?;
    }
    Ok(())
}

/// Marks the state at the place, and lists the pair where it wasn't marked before.
pub(crate) fn note(
    alloc: Global,
    rows: &mut Vec<Row>,
    layer: &mut Layer,
    state: u32,
    place: u32,
) -> Result<(), Memory>
    requires state { state < length rows.old.items }
    requires place { place < (row rows.old.items state).size }
    ensures notes { OnOk result (Notes (λ s c. (s ≡ state) × (c ≡ place)) rows.old.items rows.new.items layer.old layer.new) }
    ensures marked { OnOk result (IsMarked rows.new.items state place) }
{
    note_in(alloc, &mut rows[state as usize], layer, state, place)
}

/// Takes the mark of a pair away.
fn clear_one(rows: &mut Vec<Row>, state: u32, place: u32)
    requires { state < length rows.old.items }
    ensures { IsCleared (λ s c. (s ≡ state) × (c ≡ place)) rows.old.items rows.new.items }
{
    rows[state as usize].remove(place);
}

/// Takes the marks of the pairs away.
pub(crate) fn clear(rows: &mut Vec<Row>, pairs: &[Pair])
    requires { (s c : ℕ) → Among pairs.now s c → s < length rows.old.items }
    ensures { IsCleared (Among pairs.now) rows.old.items rows.new.items }
{
    for i in 0..pairs.len() {
        clear_one(rows, pairs[i].state, pairs[i].place);
    }
}
