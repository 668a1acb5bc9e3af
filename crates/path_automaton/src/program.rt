// Automata.
ghost use Rattle.std.specs.Prelude.{◌≡◌, ◌+◌, ◌<◌, ◌++◌, ◌∷◌, [], length, slice_get, slice_set, Some, IfOk, OnOk};
ghost use Rattle.path_automaton.specs.declared.state.State.TheVariants.{End};
ghost use Rattle.path_automaton.specs.Programs.{LeadsInside, AreInside};

use crate::state::State;
use px_base::Memory;
use std::alloc::Global;
use std::marker::Model;

/// An automaton: its states, by their numbers. State 0 is the end of a word.
///
/// An automaton of the words of two labels, the second of which has number 3, read from state `first` on:
///
///     let mut program = Program::new(alloc)?;
///     let last = program.push(State::Label(3, 0))?;
///     let first = program.push(State::Any(last))?;
#[derive(Drop)]
pub struct Program {
    states: Vec<State>,
}

impl Model for Program {
    ghost use Rattle.std.specs.Prelude.{List};
    ghost use Rattle.path_automaton.specs.declared.state.State.{State};
    ghost use Rattle.path_automaton.specs.Programs.{AreInside};

    ghost Value = { List State };

    ghost view = { λ p. p.states.items };

    ghost invariant = { λ p. AreInside p.states.items };
}

impl Program {
    /// The automaton of the end alone. O(1); it takes memory for one state.
    pub fn new(alloc: Global) -> Result<Program, Memory>
        ensures { IfOk result (λ p. p ≡ End ∷ []) }
    {
        let states = vec![in alloc; State::End]?;
        Ok(Program { states })
    }

    /// Adds a state behind the others, and gives its number. `Memory` comes where memory runs out, or where there are
    /// 2^32 states. O(1), amortized; it takes memory for one state.
    pub fn push(&mut self, state: State) -> Result<u32, Memory>
        requires { LeadsInside (length self.old + 1) state }
        ensures number { IfOk result (λ k. k ≡ length self.old) }
        ensures ok { OnOk result (self.new ≡ self.old ++ state ∷ []) }
    {
        let Ok(number) = u32::try_from(self.states.len()) else {
            return Err(Memory);
        };
        self.states.push(state)?;
        Ok(number)
    }

    /// Writes a state in the place of another. O(1), no memory.
    pub fn set(&mut self, number: u32, state: State)
        requires there { number < length self.old }
        requires inside { LeadsInside (length self.old) state }
        ensures { self.new ≡ slice_set self.old number state }
    {
        self.states[number as usize] = state;
    }

    /// How many states there are. O(1), no memory.
    pub fn len(&self) -> usize
        ensures { result ≡ length self.now }
    {
        self.states.len()
    }

    /// The same. Each state leads to states of the automaton.
    pub(crate) fn count(&self) -> usize
        ensures count { result ≡ length self.now }
        ensures inside { AreInside self.now }
    {
        self.states.len()
    }

    /// The state with the number. O(1), no memory.
    pub fn state(&self, number: u32) -> State
        requires { number < length self.now }
        ensures there { slice_get self.now number ≡ Some result }
        ensures inside { LeadsInside (length self.now) result }
    {
        self.states[number as usize]
    }
}
