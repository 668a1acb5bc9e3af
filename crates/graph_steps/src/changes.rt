// Changes as lists of steps, and verdicts on them.
ghost use Rattle.std.specs.Prelude.{◌≡◌, ◌<◌, ◌≤◌, ◌||◌, ◌++◌, ◌∷◌, [], true, Some, IfOk, OnOk, OnErr, length, nat_eq, slice_get, take, drop};
ghost use Rattle.std.specs.List.{list_any};
ghost use Rattle.change_spec.specs.Named.{is_named, is_dropped, names};
ghost use Rattle.graph_steps.specs.StepLists.{step_of, steps_of};
ghost use Rattle.graph_steps.specs.NamedSteps.{IsNextNamed, DropsLast};
ghost use Rattle.graph_steps.specs.NodePlaces.{place_if, node_places};
ghost use Rattle.smallvec.specs.SmallVec.{HasRoomFor};

use crate::links::{NodeEnds, StepLinks, drops_before, drops_from, next_place, note, unlinked};
use crate::prefix::Prefix;
use indexmap::IndexMap;
use px_base::{Memory, NodeId, Text};
use smallvec::SmallVec;
use std::alloc::Global;
use std::default::MadeWith;
use std::marker::Model;

/// A step of a change.
///
/// One more node, and an edge that leads to it:
///
///     let step = Step::Node(Text::from_bytes(alloc, b"note")?);
///     let step = Step::Link(5, 22);
#[derive(Debug, Drop)]
pub enum Step {
    /// One more node, with this label.
    Node(Text),
    /// An edge from the first node to the second.
    Link(NodeId, NodeId),
    /// That edge is taken away.
    Unlink(NodeId, NodeId),
    /// The node is taken away, with each edge that begins or ends there. Its number is never allocated again.
    Drop(NodeId),
    /// The node gets this label.
    Relabel(NodeId, Text),
}

// What stands in a change's place for one step while it has none.
impl MadeWith<Global> for Step {
    fn made_with(_alloc: Global) -> Step {
        Step::Drop(0)
    }
}

/// A change of a graph: a list of steps, each made in the graph that those before it leave. It is seen as that list. It
/// keeps one step in itself, so that a change of one step takes no memory beside its label.
///
/// A node with an edge that leads to it from node 5, where 22 numbers are allocated already:
///
///     let mut change = Change::one(alloc, Step::Node(Text::from_bytes(alloc, b"note")?))?;
///     change.push(Step::Link(5, 22))?;
pub struct Change {
    steps: SmallVec<Step, 1>,
    // For each step the places of the next ones that name its nodes.
    links: StepLinks,
    // From the second step on: for each node that steps name, the places of the first that does, of the last, and of the first that
    // takes it away.
    ends: NodeEnds,
    // The places of the steps that add nodes, rising.
    places: SmallVec<usize, 1>,
}

impl Drop for Change {
    // By hand, so that no crate above proves how the tables are dropped.
    fn drop(self) {
        let Change {
            steps,
            links,
            ends,
            places,
        } = self;
        drop(steps);
        drop(links);
        drop(ends);
        drop(places);
    }
}

impl Model for Change {
    ghost use Rattle.std.specs.Prelude.{◌≡◌, List};
    ghost use Rattle.change_spec.specs.Steps.{Step as Value_of_step};
    ghost use Rattle.change_spec.specs.Codes.{steps_code};
    ghost use Rattle.graph_steps.specs.StepLists.{steps_of};
    ghost use Rattle.graph_steps.specs.StepLinks.{AreKept};

    ghost Value = { List Value_of_step };

    ghost coded = { steps_code };

    ghost view = { λ c. steps_of c.steps.items };

    ghost invariant = { λ c. AreKept (steps_of c.steps.items) c.links.items c.ends.entries c.places.items };
}

impl Change {
    /// A change without steps. O(1), no memory.
    pub fn new(alloc: Global) -> Result<Change, Memory>
        ensures { IfOk result (λ c. c ≡ []) }
    {
        Ok(Change {
            steps: SmallVec::new(alloc),
            links: SmallVec::new(alloc),
            ends: IndexMap::new(alloc),
            places: SmallVec::new(alloc),
        })
    }

    /// A change of one step. O(1), no memory.
    pub fn one(alloc: Global, step: Step) -> Result<Change, Memory>
        ensures { IfOk result (λ c. c ≡ step_of step ∷ []) }
    {
        let mut steps = SmallVec::new(alloc);
        let mut links = SmallVec::new(alloc);
        let mut places = SmallVec::new(alloc);
        note_place(&mut places, &[], &step);
        links.push_reserved(unlinked());
        steps.push_reserved(step);
        Ok(Change {
            steps,
            links,
            ends: IndexMap::new(alloc),
            places,
        })
    }

    /// Appends a step. Where memory runs out the change stays as it was, and the step is dropped. Expected O(1),
    /// amortized.
    pub fn push(&mut self, step: Step) -> Result<(), Memory>
        ensures ok { OnOk result (self.new ≡ self.old ++ step_of step ∷ []) }
        ensures err { OnErr result (self.new ≡ self.old) }
    {
        self.steps.reserve(1)?;
        self.places.reserve(1)?;
        note(
            &mut self.ends,
            &mut self.links,
            self.steps.as_slice(),
            &step,
        )?;
        note_place(&mut self.places, self.steps.as_slice(), &step);
        self.steps.push_reserved(step);
        Ok(())
    }

    /// The steps, in their order. O(1), no memory.
    pub fn steps(&self) -> &[Step]
        ensures { steps_of result.now ≡ self.now }
    {
        self.steps.as_slice()
    }

    /// Whether a step may name the node: always true of the nodes that one does name, and of those alone where there is
    /// no more than one step. Expected O(1), no memory.
    pub fn may_name(&self, n: NodeId) -> bool
        ensures named { is_named self.now n ≡ true → result ≡ true }
        ensures one { length self.now ≤ 1 → result ≡ is_named self.now n }
    {
        if self.steps.len() <= 1 {
            return is_named(self.steps.as_slice(), n);
        }
        self.ends.contains_key(&n)
    }

    /// The place of the first step from a place on that names the node, and the number of steps if none does. Expected O(1)
    /// if the place is 0 or the step in front of it names the node; else the steps that name it before the place are passed
    /// over. No memory.
    pub fn next_naming(&self, from: usize, n: NodeId) -> usize
        requires { from ≤ length self.now }
        ensures { IsNextNamed n self.now from result }
    {
        next_place(
            &self.ends,
            self.links.as_slice(),
            self.steps.as_slice(),
            from,
            n,
        )
    }

    /// Whether a step from a place on takes the node away. No step may name a node that one before it takes away, as in a
    /// change that is accepted. Expected O(1), no memory.
    pub fn drops_from(&self, from: usize, n: NodeId) -> bool
        requires place { from ≤ length self.now }
        requires last { DropsLast self.now }
        ensures { result ≡ is_dropped (drop from self.now) n }
    {
        drops_from(&self.ends, self.steps.as_slice(), from, n)
    }

    /// Whether a step before a place takes the node away. Expected O(1), no memory.
    pub fn drops_before(&self, past: usize, n: NodeId) -> bool
        requires { past ≤ length self.now }
        ensures { result ≡ is_dropped (take past self.now) n }
    {
        drops_before(&self.ends, self.steps.as_slice(), past, n)
    }

    /// How many steps add a node. O(1), no memory.
    pub fn added(&self) -> usize
        ensures { result ≡ length (node_places self.now) }
    {
        self.places.len()
    }

    /// The place of the step that adds a node once so many others are added. O(1), no memory.
    pub fn node_place(&self, earlier: usize) -> usize
        requires { earlier < length (node_places self.now) }
        ensures { slice_get (node_places self.now) earlier ≡ Some result }
    {
        place_at(self.places.as_slice(), earlier)
    }

    /// The first steps, those before a place. O(1), no memory.
    pub fn prefix(&self, past: usize) -> Prefix<'_>
        requires { past ≤ length self.now }
        ensures { result ≡ take past self.now }
    {
        Prefix::of(self, past)
    }

    /// All steps. O(1), no memory.
    pub fn as_prefix(&self) -> Prefix<'_>
        ensures { result ≡ self.now }
    {
        Prefix::of(self, self.steps.len())
    }
}

// The place at an index.
fn place_at(places: &[usize], i: usize) -> usize
    requires { i < length places.now }
    ensures { slice_get places.now i ≡ Some result }
{
    places[i]
}

// Whether it is one of both.
fn is_either(n: NodeId, u: NodeId, v: NodeId) -> bool
    ensures { result ≡ (nat_eq n u || nat_eq n v) }
{
    n == u || n == v
}

// Whether the step names the node.
pub(crate) fn names(step: &Step, n: NodeId) -> bool
    ensures { result ≡ names n (step_of step.now) }
{
    match step {
        Step::Link(from, to) => is_either(n, *from, *to),
        Step::Unlink(from, to) => is_either(n, *from, *to),
        Step::Drop(node) => n == *node,
        Step::Relabel(node, _) => n == *node,
        Step::Node(_) => false,
    }
}

// Whether one of the steps does so.
fn any_names(steps: &[Step], n: NodeId) -> bool
    ensures { result ≡ list_any (λ s. names n (step_of s)) steps.now }
{
    steps.iter().any(|s| names(s, n))
}

// The same, said of the steps that they stand for.
fn is_named(steps: &[Step], n: NodeId) -> bool
    ensures { result ≡ is_named (steps_of steps.now) n }
{
    any_names(steps, n)
}

// Notes the place, where the step adds a node.
fn place_if(places: &mut SmallVec<usize, 1>, step: &Step, place: usize)
    requires { HasRoomFor places.old 1 }
    ensures { places.new.items ≡ places.old.items ++ place_if (step_of step.now) place }
{
    match step {
        Step::Node(_) => places.push_reserved(place),
        Step::Link(_, _) => (),
        Step::Unlink(_, _) => (),
        Step::Drop(_) => (),
        Step::Relabel(_, _) => (),
    }
}

// The same of one more step behind those that there are.
fn note_place(places: &mut SmallVec<usize, 1>, steps: &[Step], step: &Step)
    requires place { HasRoomFor places.old 1 }
    requires places { places.old.items ≡ node_places (steps_of steps.now) }
    ensures { places.new.items ≡ node_places (steps_of steps.now ++ step_of step.now ∷ []) }
{
    place_if(places, step, steps.len());
}

/// What an accepted change means for the graph.
#[derive(Clone, Copy, Debug, PartialEq, Eq)]
pub enum Verdict {
    /// Some step isn't idle.
    New,
    /// Each step links an edge that is there already, or gives a node the label that it has; the graph stays as it is.
    Same,
}
