// The first steps of a change.
ghost use Rattle.std.specs.Prelude.{◌≡◌, ◌<◌, ◌≤◌, ◌+◌, ◌∷◌, Some, length, slice_get, take, drop};
ghost use Rattle.change_spec.specs.Named.{is_dropped};
ghost use Rattle.graph_steps.specs.StepLists.{step_of, steps_of};
ghost use Rattle.graph_steps.specs.NamedSteps.{IsNextNamed};
ghost use Rattle.graph_steps.specs.NodePlaces.{node_places};

use crate::changes::{Change, Step};
use px_base::NodeId;
use std::marker::Model;

/// The first steps of a change. It is seen as their list.
///
/// Whether an edge will be there once two steps are made:
///
///     let there = has_edge(&graph, &change.prefix(2), 3, 5);
#[derive(Drop)]
pub struct Prefix<'a> {
    change: &'a Change,
    past: usize,
}

impl<'a> Model for Prefix<'a> {
    ghost use Rattle.std.specs.Prelude.{◌≤◌, List, length, take};
    ghost use Rattle.change_spec.specs.Steps.{Step as Value_of_step};
    ghost use Rattle.change_spec.specs.Codes.{steps_code};

    ghost Value = { List Value_of_step };

    ghost coded = { steps_code };

    ghost view = { λ f. take f.past f.change.now };

    ghost invariant = { λ f. f.past ≤ length f.change.now };
}

impl<'a> Prefix<'a> {
    // Those of a change before a place.
    pub(crate) fn of(change: &'a Change, past: usize) -> Prefix<'a>
        requires { past ≤ length change.now }
        ensures { result ≡ take past change.now }
    {
        Prefix { change, past }
    }

    /// Those of them before a place. O(1), no memory.
    pub fn prefix(&self, past: usize) -> Prefix<'a>
        requires { past ≤ length self.now }
        ensures { result ≡ take past self.now }
    {
        Prefix::of(self.change, past)
    }

    /// The steps, in their order. O(1), no memory.
    pub fn steps(&self) -> &'a [Step]
        ensures { steps_of result.now ≡ self.now }
    {
        steps_before(self.change.steps(), self.past)
    }

    // How many they are.
    pub(crate) fn len(&self) -> usize
        ensures { result ≡ length self.now }
    {
        self.past
    }

    /// The step at a place. O(1), no memory.
    pub fn step(&self, i: usize) -> &'a Step
        requires { i < length self.now }
        ensures { drop i self.now ≡ step_of result.now ∷ drop (i + 1) self.now }
    {
        step_at(self.steps(), i)
    }

    /// The place of the first step from a place on that names the node, and the number of steps if none does. Expected O(1)
    /// if the place is 0 or the step in front of it names the node; else the steps that name it before the place are passed
    /// over. No memory.
    pub fn next_naming(&self, from: usize, n: NodeId) -> usize
        requires { from ≤ length self.now }
        ensures { IsNextNamed n self.now from result }
    {
        self.change.next_naming(from, n).min(self.past)
    }

    /// Whether one of them takes the node away. Expected O(1), no memory.
    pub fn is_dropped(&self, n: NodeId) -> bool
        ensures { result ≡ is_dropped self.now n }
    {
        self.change.drops_before(self.past, n)
    }

    /// The place of the step that adds a node once so many others are added. O(1), no memory.
    pub(crate) fn node_place(&self, earlier: usize) -> usize
        requires { earlier < length (node_places self.now) }
        ensures { slice_get (node_places self.now) earlier ≡ Some result }
    {
        self.change.node_place(earlier)
    }
}

// The steps before a place.
fn steps_before(steps: &[Step], past: usize) -> &[Step]
    requires { past ≤ length steps.now }
    ensures { steps_of result.now ≡ take past (steps_of steps.now) }
{
    &steps[..past]
}

fn step_at(steps: &[Step], i: usize) -> &Step
    requires { i < length steps.now }
    ensures { drop i (steps_of steps.now) ≡ step_of result.now ∷ drop (i + 1) (steps_of steps.now) }
{
    &steps[i]
}
