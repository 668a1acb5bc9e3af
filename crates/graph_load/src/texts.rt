// Texts in memory as graph files.
ghost use Rattle.std.specs.Prelude.{◌≡◌, ◌≢◌, Err, IfOk, IfErr};
ghost use Rattle.graph_load.specs.Loads.{Loads, LoadsNamed, loaded};
ghost use Rattle.graph_load.specs.LoadSteps.{TellsOutcome};

use crate::files::{LoadError, load_named};
use crate::text_shelf::TextShelf;
use label_graph::Graph;
use px_base::Limits;
use std::alloc::Global;
use triple_names::Names;

/// `load_named` of a text in memory, which isn't copied. Neither `Missing` nor `Fault` comes.
pub fn load_text(alloc: Global, text: &[u8], limits: &Limits) -> Result<(Graph, Names), LoadError>
    ensures loaded { IfOk result (λ r. Loads limits.now text.now (loaded r.0.graph)) }
    ensures named { IfOk result (λ r. LoadsNamed limits.now text.now r.0.graph r.1.names) }
    ensures refused { IfErr result (TellsOutcome (Loads limits.now text.now)) }
    ensures found { result ≢ Err LoadError.Missing }
    ensures read { result ≢ Err LoadError.Fault }
{
    let mut shelf = TextShelf::new(text);
    match load_named(alloc, &mut shelf, "", limits) {
        Ok(loaded) => Ok(loaded),
        Err(LoadError::Missing) => unreachable!(),
        Err(LoadError::Fault) => unreachable!(),
        Err(error) => Err(error),
    }
}
