// Which states lead to a state.
ghost use Rattle.std.specs.Prelude.{◌≡◌, ◌<◌, ◌≤◌, ◌⊎◌, ℕ, length, slice_get, slice_index_or, [], IsTrue, IfOk, OnOk};
ghost use Rattle.graph_spec.specs.Members.{has};
ghost use Rattle.path_automaton.specs.Programs.{state_at};
ghost use Rattle.walk_proof.specs.Sources.{AreSources, Adds, Leads};

use path_automaton::{Program, State};
use px_base::Memory;
use std::alloc::Global;
use std::marker::Model;

/// States, as a list.
#[derive(Drop)]
pub(crate) struct Sources {
    states: Vec<u32>,
}

impl Model for Sources {
    ghost use Rattle.std.specs.Prelude.{List, ℕ};

    ghost Value = { List ℕ };

    ghost view = { λ s. s.states.items };
}

impl Sources {
    fn new(alloc: Global) -> Sources
        ensures { result ≡ [] }
    {
        Sources {
            states: Vec::new(alloc),
        }
    }

    pub(crate) fn states(&self) -> &[u32]
        ensures { result.now ≡ self.now }
    {
        &self.states
    }
}

/// Lists a state among those that lead to the other one.
fn add(sources: &mut Vec<Sources>, next: u32, state: u32) -> Result<(), Memory>
    requires { next < length sources.old.items }
    ensures count { length sources.new.items ≡ length sources.old.items }
    ensures adds { OnOk result (Adds (λ s k. (s ≡ state) × (k ≡ next)) sources.old.items sources.new.items) }
{
    sources[next as usize].states.push(state)?;
    Ok(())
}

/// Lists the state among those that lead to where it leads.
fn add_state(program: &Program, sources: &mut Vec<Sources>, state: u32) -> Result<(), Memory>
    requires state { state < length program.now }
    requires count { length sources.old.items ≡ length program.now }
    ensures count { length sources.new.items ≡ length sources.old.items }
    ensures adds { OnOk result (Adds (λ s k. (s ≡ state) × Leads (state_at program.now s) k) sources.old.items sources.new.items) }
{
    match program.state(state) {
        State::End | State::Stuck => Ok(()),
        State::Any(next) => add(sources, next, state),
        State::Label(_, next) => add(sources, next, state),
        State::Fork(first, second) => {
            add(sources, first, state)?;
            add(sources, second, state)
        }
    }
}

fn no_sources(alloc: Global, count: usize) -> Result<Vec<Sources>, Memory>
    ensures count { IfOk result (λ s. length s.items ≡ count) }
    ensures none { IfOk result (λ s. (k n : ℕ) → IsTrue (has (slice_index_or s.items k []) n) → ⊥) }
{
    let mut sources = Vec::new(alloc);
    for _ in 0..count {
        sources.push(Sources::new(alloc))?;
    }
    Ok(sources)
}

/// For each state those that lead to it, by a label or by none.
pub(crate) fn sources_of(alloc: Global, program: &Program) -> Result<Vec<Sources>, Memory>
    ensures count { IfOk result (λ s. length s.items ≡ length program.now) }
    ensures sources { IfOk result (λ s. AreSources (state_at program.now) s.items) }
{
    let Ok(count) = u32::try_from(program.len()) else {
        return Err(Memory);
    };
    let mut sources = no_sources(alloc, program.len())?;
    for state in 0..count {
        add_state(program, &mut sources, state)?;
    }
    Ok(sources)
}
