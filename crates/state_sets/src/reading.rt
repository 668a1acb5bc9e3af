// The states in which an automaton can be while it reads labels.
ghost use Rattle.std.specs.Prelude.{◌≡◌, ◌<◌, ℕ, Some, length, IsTrue, OnOk};
ghost use Rattle.graph_spec.specs.Members.{has};
ghost use Rattle.path_automaton.specs.declared.state.State.TheVariants.{End};
ghost use Rattle.path_automaton.specs.Programs.{state_at};
ghost use Rattle.path_automaton.specs.NewMarks.{Enters};
ghost use Rattle.walk_spec.specs.Ways.{Takes};
ghost use Rattle.state_sets.specs.StateSets.{Enlarges, AreClosed, Behind};

use crate::states::States;
use path_automaton::{Program, State};
use px_base::Memory;

/// Adds the states that the state forks to.
fn enter_fork(program: &Program, states: &mut States, state: u32) -> Result<(), Memory>
    requires state { state < length program.now }
    requires size { states.old.0 ≡ length program.now }
    ensures size { states.new.0 ≡ states.old.0 }
    ensures enlarges { OnOk result (Enlarges (Enters (state_at program.now state)) states.old.1 states.new.1) }
    ensures entered { OnOk result ((k : ℕ) → Enters (state_at program.now state) k → IsTrue (has states.new.1 k)) }
{
    match program.state(state) {
        State::Fork(first, second) => {
            states.enter(first)?;
            states.enter(second)
        }
        State::End | State::Stuck | State::Any(_) | State::Label(_, _) => Ok(()),
    }
}

/// Adds all states that forks lead to from the members.
fn close(program: &Program, states: &mut States) -> Result<(), Memory>
    requires size { states.old.0 ≡ length program.now }
    ensures size { states.new.0 ≡ states.old.0 }
    ensures closed { OnOk result (AreClosed (state_at program.now) (λ s. IsTrue (has states.old.1 s)) states.new.1) }
{
    let mut i = 0;
    'states: while i < states.list().len() {
        let state = states.list()[i];
        enter_fork(program, states, state)?;
        i += 1;
    }
    Ok(())
}

/// Makes the set that of the start and of all states that forks lead to from it: where the automaton can be before it
/// reads a label. `Memory` comes only where memory runs out. O(m) for m states; it takes O(m) memory, which the set keeps.
pub fn begin(program: &Program, states: &mut States, start: u32) -> Result<(), Memory>
    requires start { start < length program.now }
    requires size { states.old.0 ≡ length program.now }
    ensures size { states.new.0 ≡ states.old.0 }
    ensures closed { OnOk result (AreClosed (state_at program.now) (λ s. s ≡ start) states.new.1) }
{
    states.clear();
    states.enter(start)?;
    close(program, states)
}

/// Adds the state behind the label, if the state reads it.
fn read_one(program: &Program, state: u32, label: u32, states: &mut States) -> Result<(), Memory>
    requires state { state < length program.now }
    requires size { states.old.0 ≡ length program.now }
    ensures size { states.new.0 ≡ states.old.0 }
    ensures enlarges { OnOk result (Enlarges (Takes (λ n. Some label) (state_at program.now state) 0) states.old.1 states.new.1) }
    ensures entered { OnOk result ((k : ℕ) → Takes (λ n. Some label) (state_at program.now state) 0 k → IsTrue (has states.new.1 k)) }
{
    match program.state(state) {
        State::Any(next) => states.enter(next),
        State::Label(number, next) => {
            if number == label {
                states.enter(next)
            } else {
                Ok(())
            }
        }
        State::End | State::Stuck | State::Fork(_, _) => Ok(()),
    }
}

/// Adds the states behind the label from each of the states.
fn read_each(program: &Program, from: &[u32], label: u32, states: &mut States) -> Result<(), Memory>
    requires from { (s : ℕ) → IsTrue (has from.now s) → s < length program.now }
    requires size { states.old.0 ≡ length program.now }
    ensures size { states.new.0 ≡ states.old.0 }
    ensures enlarges { OnOk result (Enlarges (Behind (state_at program.now) (λ n. Some label) from.now 0) states.old.1 states.new.1) }
    ensures entered { OnOk result ((k : ℕ) → Behind (state_at program.now) (λ n. Some label) from.now 0 k → IsTrue (has states.new.1 k)) }
{
    for i in 0..from.len() {
        read_one(program, from[i], label, states)?;
    }
    Ok(())
}

/// Makes the set that of the states behind the label from each of the states, and of all states that forks lead to from
/// these. Labels are numbers as the automaton has them. `Memory` comes only where memory runs out. O(m) for m states; it
/// takes memory only for members beyond the most that the set has had.
pub fn read(program: &Program, from: &[u32], label: u32, states: &mut States) -> Result<(), Memory>
    requires from { (s : ℕ) → IsTrue (has from.now s) → s < length program.now }
    requires size { states.old.0 ≡ length program.now }
    ensures size { states.new.0 ≡ states.old.0 }
    ensures closed { OnOk result (AreClosed (state_at program.now) (Behind (state_at program.now) (λ n. Some label) from.now 0) states.new.1) }
{
    states.clear();
    read_each(program, from, label, states)?;
    close(program, states)
}

/// Whether one of the states is the end of a word. O(s) for s states, no memory.
pub fn has_end(program: &Program, states: &[u32]) -> bool
    requires { (s : ℕ) → IsTrue (has states.now s) → s < length program.now }
    ensures yes { IsTrue result → (s : ℕ) × IsTrue (has states.now s) × (state_at program.now s ≡ Some End) }
    ensures none { (s : ℕ) → IsTrue (has states.now s) → state_at program.now s ≡ Some End → IsTrue result }
{
    for i in 0..states.len() {
        if is_end(program, states[i]) {
            return true;
        }
    }
    false
}

fn is_end(program: &Program, state: u32) -> bool
    requires { state < length program.now }
    ensures yes { IsTrue result → state_at program.now state ≡ Some End }
    ensures none { state_at program.now state ≡ Some End → IsTrue result }
{
    matches!(program.state(state), State::End)
}
