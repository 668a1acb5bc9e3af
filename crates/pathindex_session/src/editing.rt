// Triples that come into the graph of an engine that is open, or go out of it.
ghost use Rattle.std.specs.Prelude.{◌≡◌, Some, IsTrue, IfOk, OnOk, OnErr};
ghost use Rattle.triple_names.specs.Names.{AreSameNames};
ghost use Rattle.triple_names.specs.Represented.{is_among};
ghost use Rattle.triple_names.specs.TripleChanges.{insert_steps, placed_in};
ghost use Rattle.triple_names.specs.TripleChanges as changes;
ghost use Rattle.any_index.specs.AnyMeanings.{meaning_of};
ghost use Rattle.pathindex_core.specs.Engines.{by_meaning};
ghost use Rattle.pathindex_core.specs.EngineTerms.{engine_graph};
ghost use Rattle.pathindex_session.specs.Sessions.{IsOpenAndSound};
ghost use Rattle.pathindex_session.specs.Edits.{IsEdited, names_with};

use any_index::AnyIndex;
use graph_update::{Applied, Change};
use pathindex_core::{Engine, UpdateError};
use px_base::{Memory, Refusal};
use std::alloc::Global;
use triple_names::{DeleteError, Names, Placed, delete_change, insert_change};
use triples_read::Triple;

// The change that inserts a triple, and the numbers that its parts get, which can then be noted without memory.
fn prepare(
    alloc: Global,
    engine: &Engine<AnyIndex>,
    names: &mut Names,
    triple: &Triple,
) -> Result<(Change, Placed), Memory>
    requires ready { IsOpenAndSound engine.now }
    ensures change { IfOk result (λ r. r.0 ≡ insert_steps names.old.names (engine_graph engine.now) triple.now) }
    ensures placed { IfOk result (λ r. r.1 ≡ placed_in names.old.names (engine_graph engine.now) triple.now) }
    ensures reserved { OnOk result (IsTrue (is_among names.new.reserved triple.now)) }
    ensures names { AreSameNames names.new.names names.old.names }
{
    let (change, placed) = insert_change(alloc, names, engine.graph(), triple)?;
    names.stage(alloc, triple)?;
    Ok((change, placed))
}

/// Inserts a triple. If that is accepted, the numbers of its parts are noted.
pub(crate) fn insert(
    alloc: Global,
    engine: &mut Engine<AnyIndex>,
    names: &mut Names,
    triple: Triple,
) -> Result<Applied, UpdateError>
    requires ready { IsOpenAndSound engine.old }
    ensures ready { IsOpenAndSound engine.new }
    ensures edited { IsEdited (Some (insert_steps names.old.names (engine_graph engine.old) triple))
        (by_meaning meaning_of engine.old) (by_meaning meaning_of engine.new) result }
    ensures names { OnOk result (AreSameNames names.new.names (names_with names.old.names (engine_graph engine.old) triple)) }
    ensures err { OnErr result (AreSameNames names.new.names names.old.names) }
{
    match prepare(alloc, engine, names, &triple) {
        Ok((change, placed)) => match engine.update(alloc, change) {
            Ok(applied) => {
                names.note(triple, placed);
                Ok(applied)
            }
            Err(error) => Err(error),
        },
        Err(Memory) => Err(UpdateError::Memory),
    }
}

/// Deletes a triple. One that isn't there is refused.
pub(crate) fn delete(
    alloc: Global,
    engine: &mut Engine<AnyIndex>,
    names: &Names,
    triple: &Triple,
) -> Result<Applied, UpdateError>
    requires ready { IsOpenAndSound engine.old }
    ensures ready { IsOpenAndSound engine.new }
    ensures edited { IsEdited (changes.delete_change names.now.names (engine_graph engine.old) triple.now)
        (by_meaning meaning_of engine.old) (by_meaning meaning_of engine.new) result }
{
    match delete_change(alloc, names, engine.graph(), triple) {
        Ok(change) => engine.update(alloc, change),
        Err(DeleteError::NoNode) => Err(UpdateError::Refused(Refusal::NoNode)),
        Err(DeleteError::Memory) => Err(UpdateError::Memory),
    }
}
