// Triples are loaded in batches, and looked up ahead together.
ghost use Rattle.std.specs.Prelude.{◌≡◌, ◌≢◌, [], IfOk, OnOk, IfErr, Err};
ghost use Rattle.graph_load.specs.TripleGraphs.{nothing_loaded};
ghost use Rattle.triple_names.specs.NameTables.{names_by};
ghost use Rattle.graph_load.specs.Hashed.{triple_of};
ghost use Rattle.graph_load.specs.Loaders.{load_state, Holds, IsSoundLoader, IsTaken};
ghost use Rattle.graph_load.specs.LoadSteps.{TellsOutcome, AreLoaded, Stops, OneStops};

use crate::batch::Waiting;
use crate::files::LoadError;
use crate::limited_changes::Stop;
use crate::loader::Loader;
use crate::loader::ahead::{Hints, Lookahead};
use label_graph::Graph;
use px_base::{Limits, Memory};
use std::alloc::Global;
use std::marker::Model;
use triple_names::Names;

/// A loader that is given whole batches. It is seen as the loader alone: what is looked up ahead changes nothing of what
/// is loaded.
#[derive(Drop)]
pub(crate) struct BatchLoader {
    loader: Loader,
    lookahead: Lookahead,
}

impl Model for BatchLoader {
    ghost use Rattle.graph_load.specs.declared.loader.Loader.{Loader as Value_of_loader};
    ghost use Rattle.graph_load.specs.contracts.loader.Loader as loaders;

    ghost Value = { Value_of_loader };

    ghost coded = { loaders.the_row.coded };

    ghost view = { λ b. b.loader };
}

// Loads a triple.
fn load_next(
    alloc: Global,
    limits: &Limits,
    loader: &mut Loader,
    waiting: &Waiting,
    hints: Option<Hints>,
) -> Result<(), LoadError>
    requires { IsSoundLoader loader.old }
    ensures taken { OnOk result (IsTaken limits.now (triple_of waiting.now.triple) loader.old loader.new) }
    ensures stopped { IfErr result (TellsOutcome (Stops limits.now waiting.now loader.old)) }
    ensures found { result ≢ Err LoadError.Missing }
    ensures no_fault { result ≢ Err LoadError.Fault }
{
    match loader.add(alloc, limits, &waiting.triple, hints) {
        Ok(()) => Ok(()),
        Err(Stop::Limit) => Err(LoadError::Limit(waiting.line)),
        Err(Stop::Memory) => Err(LoadError::Memory),
    }
}

impl BatchLoader {
    /// Nothing is loaded.
    pub(crate) fn new(alloc: Global) -> Result<BatchLoader, Memory>
        ensures sound { IfOk result IsSoundLoader }
        ensures nothing { IfOk result (λ r. Holds r []) }
        ensures empty { IfOk result (λ r. load_state r [] ≡ nothing_loaded) }
    {
        Ok(BatchLoader {
            loader: Loader::new(alloc)?,
            lookahead: Lookahead::new(alloc),
        })
    }

    /// The graph, without the tables.
    pub(crate) fn into_graph(self) -> Graph
        ensures { result ≡ self.graph }
    {
        self.loader.into_graph()
    }

    /// The graph, and the numbers of what is loaded.
    pub(crate) fn into_parts(self, alloc: Global) -> (Graph, Names)
        requires { IsSoundLoader self }
        ensures graph { result.0 ≡ self.graph }
        ensures names { result.1 ≡ names_by self.terms self.predicates self.known [] [] }
    {
        self.loader.into_parts(alloc)
    }

    /// Loads the triples of a batch, in their order.
    pub(crate) fn add_all(
        &mut self,
        alloc: Global,
        limits: &Limits,
        waiting: &[Waiting],
    ) -> Result<(), LoadError>
        requires { IsSoundLoader self.old }
        ensures loaded { OnOk result (AreLoaded limits.now waiting.now self.old self.new) }
        ensures stopped { IfErr result (TellsOutcome (OneStops limits.now waiting.now self.old)) }
        ensures found { result ≢ Err LoadError.Missing }
        ensures no_fault { result ≢ Err LoadError.Fault }
    {
        self.lookahead.look_up(&self.loader, waiting)?;
        for n in 0..waiting.len() {
            let hints = self.lookahead.hints(n);
            load_next(alloc, limits, &mut self.loader, &waiting[n], hints)?;
        }
        Ok(())
    }
}
