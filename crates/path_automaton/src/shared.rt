// The states of an automaton that more than one state leads to.
ghost use Rattle.std.specs.Prelude.{◌≡◌, ◌<◌, length};

use crate::program::Program;
use crate::state::State;
use px_base::{Bits, Memory};
use std::alloc::Global;

/// The states that others lead to, and those that more than one leads to.
#[derive(Drop)]
struct Entries {
    entered: Bits,
    shared: Bits,
}

/// Notes that a state leads to this one.
fn note(entries: &mut Entries, state: u32)
    requires entered { state < entries.old.entered.size }
    requires shared { state < entries.old.shared.size }
    ensures entered { entries.new.entered.size ≡ entries.old.entered.size }
    ensures shared { entries.new.shared.size ≡ entries.old.shared.size }
{
    if entries.entered.contains(state) {
        entries.shared.insert(state);
    } else {
        entries.entered.insert(state);
    }
}

/// Notes the states that the state leads to.
fn note_next(program: &Program, entries: &mut Entries, state: u32)
    requires state { state < length program.now }
    requires entered { entries.old.entered.size ≡ length program.now }
    requires shared { entries.old.shared.size ≡ length program.now }
    ensures entered { entries.new.entered.size ≡ entries.old.entered.size }
    ensures shared { entries.new.shared.size ≡ entries.old.shared.size }
{
    match program.state(state) {
        State::End | State::Stuck => {}
        State::Any(next) | State::Label(_, next) => note(entries, next),
        State::Fork(first, second) => {
            note(entries, first);
            note(entries, second);
        }
    }
}

/// The states that more than one state leads to. It only helps to save time, so nothing is promised of it.
pub(crate) fn shared_states(alloc: Global, program: &Program) -> Result<Bits, Memory> {
    let Ok(count) = u32::try_from(program.len()) else {
        return Err(Memory);
    };
    let entered = Bits::new(alloc, count)?;
    let shared = Bits::new(alloc, count)?;
    let mut entries = Entries { entered, shared };
    for state in 0..count {
        note_next(program, &mut entries, state);
    }
    Ok(entries.shared)
}
