// The pairs that a search still has to visit.
ghost use Rattle.std.specs.Prelude.{◌≡◌, ◌++◌, [], IfOk, OnOk, MatchOption};
ghost use Rattle.path_automaton.specs.ListedPairs.{all_at, IsTaken};

use px_base::Memory;
use std::alloc::Global;
use std::marker::Model;

/// A state, and for how many places in a row it is listed.
#[derive(Clone, Copy, Drop)]
pub(crate) struct Run {
    pub state: u32,
    pub len: usize,
}

/// Pairs of a state and a place. Places that came together for one state lie in one array, a run of them: a place takes 4
/// bytes, and a run 16 more. What is done for a state is done for a whole run.
#[derive(Drop)]
pub(crate) struct Worklist {
    runs: Vec<Run>,
    places: Vec<u32>,
}

impl Model for Worklist {
    ghost use Rattle.std.specs.Prelude.{List, ℕ};
    ghost use Rattle.path_automaton.specs.ListedPairs.{pairs_in, AreRuns};

    ghost Value = { List (ℕ × ℕ) };

    ghost view = { λ w. pairs_in w.runs.items w.places.items };

    ghost invariant = { λ w. AreRuns w.runs.items w.places.items };
}

impl Worklist {
    /// An empty worklist.
    pub(crate) fn new(alloc: Global) -> Worklist
        ensures { result ≡ [] }
    {
        Worklist {
            runs: Vec::new(alloc),
            places: Vec::new(alloc),
        }
    }

    /// Lists the state at each of the places.
    pub(crate) fn push(&mut self, state: u32, places: &[u32]) -> Result<(), Memory>
        ensures { OnOk result (self.new ≡ self.old ++ all_at state places.now) }
    {
        if places.is_empty() {
            return Ok(());
        }
        self.runs.reserve(1)?;
        self.places.extend_from_slice(places)?;
        let len = places.len();
        self.runs.push_reserved(Run { state, len });
        Ok(())
    }

    /// Takes the last run out: its state, and into the buffer its places. `None` comes exactly where nothing is listed.
    pub(crate) fn take(&mut self, places: &mut Vec<u32>) -> Result<Option<u32>, Memory>
        ensures { IfOk result (λ o. MatchOption o (self.old ≡ []) (λ s. IsTaken self.old self.new s places.new.items)) }
    {
        let Some(run) = self.runs.last().copied() else {
            return Ok(None);
        };
        let from = self.places.len() - run.len;
        places.clear();
        places.extend_from_slice(&self.places[from..])?;
        self.places.truncate(from);
        self.runs.truncate(self.runs.len() - 1);
        Ok(Some(run.state))
    }
}
