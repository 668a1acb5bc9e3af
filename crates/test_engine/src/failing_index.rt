// An engine of three boxes, the last of which finds no memory once it is built.
ghost use Rattle.std.specs.Prelude.{◌≡◌, [], ◌∷◌, Some, None, if◌then◌else◌};
ghost use Rattle.bisim_spec.specs.declared.kind.Kind.TheVariants.{Fb};
ghost use Rattle.pathindex_core.specs.Engines.{IsSound, by_meaning};
ghost use Rattle.pathindex_core.specs.EngineTerms.{IsUnopened};

use ak_maintain::AkIndex;
use graph_update::Change;
use index_api::{Kind, PathIndex};
use label_graph::{Graph, GraphView};
use one_maintain::OneKept;
use pathindex_core::Engine;
use px_base::Memory;
use quotient::Summary;
use std::alloc::Global;

/// A forward and backward index that is built without its view, and then never finds memory.
#[derive(Drop)]
struct FailingIndex {
    is_built: bool,
    is_staged: bool,
}

impl PathIndex for FailingIndex {
    ghost meaning = { λ t. record { kind = Fb; views = if t.is_built then None ∷ [] else []; staged = if t.is_staged then Some [] else None } };

    fn kind(&self) -> Kind {
        Kind::Fb
    }

    fn build(&mut self, _view: &GraphView<'_>, _k: u32) -> Result<(), Memory> {
        self.is_built = true;
        self.is_staged = false;
        Ok(())
    }

    fn prepare(&mut self, _graph: &Graph, _change: &Change) -> Result<(), Memory> {
        Err(Memory)
    }

    fn commit(&mut self) {
        self.is_built = false;
        self.is_staged = false;
    }

    fn cancel(&mut self) {
        self.is_staged = false;
    }

    fn refresh(&mut self, _view: &GraphView<'_>) -> Result<(), Memory> {
        Err(Memory)
    }

    fn summary(&self, _level: u32) -> Option<&Summary> {
        None
    }
}

/// What is done with an engine of boxes.
pub(crate) trait BoxesTask: Drop {
    /// Does it, and says whether all was as it should be. The engine isn't open yet.
    fn carry_out(self, alloc: Global, engine: &mut Engine) -> bool
        requires closed { IsUnopened engine.old }
        requires sound { IsSound (by_meaning meaning engine.old) };
}

/// Has the task done with an engine that keeps the A(k)-indexes, the 1-index, and an index that never finds memory.
pub(crate) fn with_failing_engine<T: BoxesTask>(alloc: Global, task: T) -> Result<bool, Memory> {
    let failing = FailingIndex {
        is_built: false,
        is_staged: false,
    };
    let mut boxes: Vec<Box<dyn PathIndex>> = Vec::new(alloc);
    boxes.push(Box::new(alloc, AkIndex::new(alloc)?)?)?;
    boxes.push(Box::new(alloc, OneKept::new(alloc)?)?)?;
    boxes.push(Box::new(alloc, failing)?)?;
    let mut engine = Engine::new(boxes);
    let answer = task.carry_out(alloc, &mut engine);
    Ok(answer)
}
