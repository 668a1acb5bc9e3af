// Groups of changes.
ghost use Rattle.std.specs.Prelude.{◌≡◌, ◌++◌, ◌∷◌, [], IfOk, OnOk, OnErr, take, List};
ghost use Rattle.change_spec.specs.Steps.{Step as Value_of_step};
ghost use Rattle.graph_steps.specs.StepLists.{step_of};

use graph_update::{Change, Step};
use px_base::Memory;
use std::alloc::Global;

/// How many steps of a group are kept: one more than a change may have, so that a group with more is refused.
const KEPT_STEPS: usize = 1025;

/// Where a change stands in a script.
#[derive(Clone, Copy, Debug, PartialEq, Eq)]
pub(crate) enum Scope {
    /// It is a line of its own.
    OneLine,
    /// It is a group of lines.
    LineGroup,
}

/// A group that isn't ended.
#[derive(Drop)]
pub(crate) struct OpenGroup {
    /// Its first steps.
    pub(crate) change: Change,
    /// The number of the line with its `begin`.
    pub(crate) line: u32,
}

impl OpenGroup {
    /// The group that begins at this line.
    pub(crate) fn begin(alloc: Global, line: u32) -> Result<OpenGroup, Memory>
        ensures empty { IfOk result (λ group. group.change ≡ []) }
        ensures line { IfOk result (λ group. group.line ≡ line) }
    {
        let change = Change::new(alloc)?;
        Ok(OpenGroup { change, line })
    }

    /// Appends a step, if it is one of the first. If memory runs out the group stays as it was.
    pub(crate) fn keep(&mut self, step: Step) -> Result<(), Memory>
        ensures steps { OnOk result ((steps : List Value_of_step) → self.old.change ≡ take KEPT_STEPS steps
            → self.new.change ≡ take KEPT_STEPS (steps ++ step_of step ∷ [])) }
        ensures line { self.new.line ≡ self.old.line }
    {
        if self.change.steps().len() < KEPT_STEPS {
            self.change.push(step)?;
        }
        Ok(())
    }
}
