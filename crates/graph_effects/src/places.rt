// The steps of a change by their places.
ghost use Rattle.std.specs.Prelude.{◌≡◌, ◌<◌, ◌+◌, ◌∷◌, length, drop};
ghost use Rattle.graph_steps.specs.StepLists.{step_of};

use graph_steps::{Change, Step};

/// How many they are.
pub(crate) fn step_count(change: &Change) -> usize
    ensures { result ≡ length change.now }
{
    change.steps().len()
}

/// The step at a place.
pub(crate) fn step_at(change: &Change, i: usize) -> &Step
    requires { i < length change.now }
    ensures { drop i change.now ≡ step_of result.now ∷ drop (i + 1) change.now }
{
    change.as_prefix().step(i)
}
