// Changes of the graph.
ghost use Rattle.std.specs.Prelude.{◌≡◌, IfOk, OnOk, OnErr, not};
ghost use Rattle.graph_steps.specs.StepLists.{step_of};
ghost use Rattle.triple_names.specs.Names.{Names as Numbers};
ghost use Rattle.pathindex_core.specs.Engines.{by_meaning};
ghost use Rattle.script_read.specs.Commands.{change as changing, insert as inserting, delete as deleting};
ghost use Rattle.script_interpreter.specs.EngineStates.{state_of, IsOpenForProgram};
ghost use Rattle.script_interpreter.specs.RunSteps.{Changed, Obeyed};

use crate::group::Scope;
use crate::output::Output;
use graph_update::{Change, Step};
use index_api::PathIndex;
use pathindex_core::{Engine, UpdateError};
use px_base::{Memory, Refusal};
use std::alloc::Global;
use triple_names::{DeleteError, Names, delete_change, insert_change};
use triples_read::Triple;

/// Makes a change if it is accepted, gathers what that prints, and tells whether it is.
pub(crate) fn make<B: PathIndex>(
    alloc: Global,
    engine: &mut Engine<B>,
    change: Change,
    scope: Scope,
    output: &mut Output,
) -> Result<bool, Memory>
    requires ready { IsOpenForProgram (by_meaning B.meaning engine.old) }
    ensures ready { IsOpenForProgram (by_meaning B.meaning engine.new) }
    ensures ok { (n : Numbers) → IfOk result (λ accepted. Changed scope (state_of B.meaning engine.old n) change output.old (not accepted)
        (state_of B.meaning engine.new n) output.new) }
    ensures err { OnErr result (output.new ≡ output.old) }
{
    // Called for its contract, here and below: the numbers are few.
    let _known = engine.graph().created();
    match engine.update(alloc, change) {
        Ok(applied) => {
            let _known = engine.graph().created();
            output.push_applied(applied, scope)?;
            Ok(true)
        }
        Err(UpdateError::Refused(refusal)) => {
            output.refuse(refusal)?;
            Ok(false)
        }
        Err(UpdateError::Memory) => Err(Memory),
    }
}

/// Makes a change of one step, which is a line of its own.
pub(crate) fn change<B: PathIndex>(
    alloc: Global,
    engine: &mut Engine<B>,
    step: Step,
    output: &mut Output,
) -> Result<(), Memory>
    requires ready { IsOpenForProgram (by_meaning B.meaning engine.old) }
    ensures ready { IsOpenForProgram (by_meaning B.meaning engine.new) }
    ensures ok { (n : Numbers) → OnOk result (Obeyed (state_of B.meaning engine.old n) (changing (step_of step)) output.old
        (state_of B.meaning engine.new n) output.new) }
    ensures err { OnErr result (output.new ≡ output.old) }
{
    match Change::one(alloc, step) {
        Ok(change) => {
            make(alloc, engine, change, Scope::OneLine, output)?;
            Ok(())
        }
        Err(_) => Err(Memory),
    }
}

/// Inserts a triple, and gathers what that prints. If its change is accepted, the numbers of its parts are noted.
pub(crate) fn insert<B: PathIndex>(
    alloc: Global,
    engine: &mut Engine<B>,
    names: &mut Names,
    triple: Triple,
    output: &mut Output,
) -> Result<(), Memory>
    requires ready { IsOpenForProgram (by_meaning B.meaning engine.old) }
    ensures ready { IsOpenForProgram (by_meaning B.meaning engine.new) }
    ensures ok { OnOk result (Obeyed (state_of B.meaning engine.old names.old.names) (inserting triple) output.old
        (state_of B.meaning engine.new names.new.names) output.new) }
    ensures err { OnErr result (output.new ≡ output.old) }
{
    let (change, placed) = insert_change(alloc, names, engine.graph(), &triple)?;
    names.stage(alloc, &triple)?;
    let accepted = make(alloc, engine, change, Scope::LineGroup, output)?;
    if !accepted {
        return Ok(());
    }
    names.note(triple, placed);
    Ok(())
}

/// Deletes a triple, and gathers what that prints. One that isn't there is refused.
pub(crate) fn delete<B: PathIndex>(
    alloc: Global,
    engine: &mut Engine<B>,
    names: &Names,
    triple: &Triple,
    output: &mut Output,
) -> Result<(), Memory>
    requires ready { IsOpenForProgram (by_meaning B.meaning engine.old) }
    ensures ready { IsOpenForProgram (by_meaning B.meaning engine.new) }
    ensures ok { OnOk result (Obeyed (state_of B.meaning engine.old names.now.names) (deleting triple.now) output.old
        (state_of B.meaning engine.new names.now.names) output.new) }
    ensures err { OnErr result (output.new ≡ output.old) }
{
    match delete_change(alloc, names, engine.graph(), triple) {
        Ok(change) => {
            make(alloc, engine, change, Scope::LineGroup, output)?;
            Ok(())
        }
        Err(DeleteError::NoNode) => output.refuse(Refusal::NoNode),
        Err(DeleteError::Memory) => Err(Memory),
    }
}
