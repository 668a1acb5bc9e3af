// Links from each step to the next ones that name its nodes, and for each node the first step that names it, the last, and
// the first that takes it away.
ghost use Rattle.std.specs.Prelude.{◌≡◌, ◌<◌, ◌≤◌, ◌+◌, ◌||◌, ◌++◌, ◌∷◌, [], OnOk, OnErr, false, length, take, drop, nat_eq};
ghost use Rattle.indexmap.specs.IndexMap.{spare};
ghost use Rattle.smallvec.specs.SmallVec.{HasRoomFor};
ghost use Rattle.change_spec.specs.Named.{names, is_dropped as is_gone};
ghost use Rattle.graph_steps.specs.StepLists.{step_of, steps_of};
ghost use Rattle.graph_steps.specs.NamedSteps.{IsNextNamed, DropsLast};
ghost use Rattle.graph_steps.specs.StepLinks.{nowhere, is_first, is_drop, next_of, with_next, link_at, with_link, ends_at, taken_with, ends_with, AreLinks, AreEnds, AreNoted, IsLater, IsLast, IsAhead, Notes, LeadsTo};

use crate::changes::{Step, names};
use crate::degrees::is_dropped;
use indexmap::IndexMap;
use px_base::{Memory, NodeId};
use smallvec::SmallVec;
use std::alloc::Global;
use std::default::MadeWith;

// What stands for the place of a step where there is none: it is behind every place.
const NOWHERE: usize = usize::MAX;

/// Of the steps behind a step, the places of the first that names the node which this one names first, and of the first
/// that names the other.
#[derive(Clone, Copy, Drop)]
pub(crate) struct Links {
    first: usize,
    second: usize,
}

// What stands in a change's place for the links of one step while it has none.
impl MadeWith<Global> for Links {
    fn made_with(_alloc: Global) -> Links {
        unlinked()
    }
}

/// The places of the first step that names a node, of the last, and of the first that takes it away.
#[derive(Clone, Copy, Drop)]
pub(crate) struct Ends {
    first: usize,
    last: usize,
    taken: usize,
}

/// Of nodes that steps name.
pub(crate) type NodeEnds = IndexMap<NodeId, Ends>;

/// Of all steps.
pub(crate) type StepLinks = SmallVec<Links, 1>;

/// The links of the last step.
pub(crate) fn unlinked() -> Links
    ensures { result ≡ record { first = nowhere; second = nowhere } }
{
    Links {
        first: NOWHERE,
        second: NOWHERE,
    }
}

fn is_first(step: &Step, n: NodeId) -> bool
    ensures { result ≡ is_first n (step_of step.now) }
{
    match step {
        Step::Link(from, _) => n == *from,
        Step::Unlink(from, _) => n == *from,
        Step::Drop(node) => n == *node,
        Step::Relabel(node, _) => n == *node,
        Step::Node(_) => false,
    }
}

fn next_of(step: &Step, links: &Links, n: NodeId) -> usize
    ensures { result ≡ next_of (step_of step.now) links.now n }
{
    if is_first(step, n) {
        links.first
    } else {
        links.second
    }
}

fn with_next(step: &Step, links: Links, n: NodeId, next: usize) -> Links
    ensures { result ≡ with_next (step_of step.now) links n next }
{
    if is_first(step, n) {
        Links {
            first: next,
            second: links.second,
        }
    } else {
        Links {
            first: links.first,
            second: next,
        }
    }
}

// Where the link of the step at a place leads.
fn link_at(steps: &[Step], links: &[Links], i: usize, n: NodeId) -> usize
    requires steps { i < length steps.now }
    requires links { i < length links.now }
    ensures { result ≡ link_at (steps_of steps.now) links.now i n }
{
    next_of(&steps[i], &links[i], n)
}

// Lets the link of the step at a place lead to another one.
fn set_link(links: &mut StepLinks, steps: &[Step], i: usize, n: NodeId, next: usize)
    requires steps { i < length steps.now }
    requires links { i < length links.old.items }
    ensures items { links.new.items ≡ with_link (steps_of steps.now) links.old.items i n next }
    ensures capacity { links.new.capacity ≡ links.old.capacity }
{
    match links.get_mut(i) {
        Some(there) => *there = with_next(&steps[i], *there, n, next),
        None => (),
    }
}

// The ends that are noted for a node.
fn noted(ends: &NodeEnds, n: NodeId) -> Ends
    ensures { result ≡ ends_at ends.now.entries n }
{
    match ends.get(&n) {
        Some(there) => *there,
        None => Ends {
            first: NOWHERE,
            last: NOWHERE,
            taken: NOWHERE,
        },
    }
}

fn taken_with(taken: usize, place: usize, takes: bool) -> usize
    ensures { result ≡ taken_with taken place takes }
{
    if takes { taken.min(place) } else { taken }
}

fn ends_with(ends: Ends, place: usize, takes: bool) -> Ends
    ensures { result ≡ ends_with ends place takes }
{
    Ends {
        first: ends.first.min(place),
        last: place,
        taken: taken_with(ends.taken, place, takes),
    }
}

// The step at a place names the node, and may take it away.
fn note_node(ends: &mut NodeEnds, n: NodeId, place: usize, takes: bool)
    requires spare { 0 < spare ends.old }
    ensures notes { Notes (λ m. nat_eq m n) takes place ends.old.entries ends.new.entries }
    ensures spare { spare ends.old ≤ spare ends.new + 1 }
{
    let more = ends_with(noted(ends, n), place, takes);
    match ends.insert(n, more) {
        Ok(_) => (),
        Err(_) => unreachable!(),
    }
}

fn note_both(ends: &mut NodeEnds, u: NodeId, v: NodeId, place: usize)
    requires spare { 2 ≤ spare ends.old }
    ensures notes { Notes (λ m. nat_eq m u || nat_eq m v) false place ends.old.entries ends.new.entries }
    ensures spare { spare ends.old ≤ spare ends.new + 2 }
{
    note_node(ends, u, place, false);
    note_node(ends, v, place, false);
}

// The nodes that the step at a place names.
fn note_ends(ends: &mut NodeEnds, step: &Step, place: usize)
    requires spare { 2 ≤ spare ends.old }
    ensures notes { Notes (λ m. names m (step_of step.now)) (is_drop (step_of step.now)) place ends.old.entries ends.new.entries }
    ensures spare { spare ends.old ≤ spare ends.new + 2 }
{
    match step {
        Step::Node(_) => (),
        Step::Link(from, to) => note_both(ends, *from, *to, place),
        Step::Unlink(from, to) => note_both(ends, *from, *to, place),
        Step::Drop(node) => note_node(ends, *node, place, true),
        Step::Relabel(node, _) => note_node(ends, *node, place, false),
    }
}

// Links the last one of the steps that names the node to the step that comes.
fn lead_node(links: &mut StepLinks, ends: &NodeEnds, steps: &[Step], n: NodeId)
    requires count { length links.old.items ≡ length steps.now }
    requires few { length steps.now < nowhere }
    requires noted { AreNoted (steps_of steps.now) ends.now.entries }
    ensures leads { LeadsTo (λ m. nat_eq m n) (length steps.now) (steps_of steps.now) ends.now.entries links.old.items links.new.items }
    ensures count { length links.new.items ≡ length links.old.items }
    ensures capacity { links.new.capacity ≡ links.old.capacity }
{
    let last = noted(ends, n).last;
    if last < steps.len() {
        set_link(links, steps, last, n, steps.len());
    }
}

fn lead_both(links: &mut StepLinks, ends: &NodeEnds, steps: &[Step], u: NodeId, v: NodeId)
    requires count { length links.old.items ≡ length steps.now }
    requires few { length steps.now < nowhere }
    requires noted { AreNoted (steps_of steps.now) ends.now.entries }
    ensures leads { LeadsTo (λ m. nat_eq m u || nat_eq m v) (length steps.now) (steps_of steps.now) ends.now.entries links.old.items links.new.items }
    ensures count { length links.new.items ≡ length links.old.items }
    ensures capacity { links.new.capacity ≡ links.old.capacity }
{
    lead_node(links, ends, steps, u);
    lead_node(links, ends, steps, v);
}

// The same for the nodes that the step names.
fn lead_ends(links: &mut StepLinks, ends: &NodeEnds, steps: &[Step], step: &Step)
    requires count { length links.old.items ≡ length steps.now }
    requires few { length steps.now < nowhere }
    requires noted { AreNoted (steps_of steps.now) ends.now.entries }
    ensures leads { LeadsTo (λ m. names m (step_of step.now)) (length steps.now) (steps_of steps.now) ends.now.entries links.old.items links.new.items }
    ensures count { length links.new.items ≡ length links.old.items }
    ensures capacity { links.new.capacity ≡ links.old.capacity }
{
    match step {
        Step::Node(_) => (),
        Step::Link(from, to) => lead_both(links, ends, steps, *from, *to),
        Step::Unlink(from, to) => lead_both(links, ends, steps, *from, *to),
        Step::Drop(node) => lead_node(links, ends, steps, *node),
        Step::Relabel(node, _) => lead_node(links, ends, steps, *node),
    }
}

// Notes the first step where it is the only one, since it is noted once a second one comes.
fn note_first(ends: &mut NodeEnds, steps: &[Step])
    requires ends { AreEnds (steps_of steps.now) ends.old.entries }
    requires some { 0 < length steps.now }
    requires spare { 2 ≤ spare ends.old }
    ensures noted { AreNoted (steps_of steps.now) ends.new.entries }
    ensures spare { spare ends.old ≤ spare ends.new + 2 }
{
    if steps.len() == 1 {
        note_ends(ends, &steps[0], 0);
    }
}

// Notes one more step behind those that there are.
fn note_next(ends: &mut NodeEnds, links: &mut StepLinks, steps: &[Step], step: &Step)
    requires ends { AreEnds (steps_of steps.now) ends.old.entries }
    requires links { AreLinks (steps_of steps.now) links.old.items }
    requires some { 0 < length steps.now }
    requires few { length steps.now < nowhere }
    requires spare { 4 ≤ spare ends.old }
    requires place { HasRoomFor links.old 1 }
    ensures ends { AreEnds (steps_of steps.now ++ step_of step.now ∷ []) ends.new.entries }
    ensures links { AreLinks (steps_of steps.now ++ step_of step.now ∷ []) links.new.items }
{
    note_first(ends, steps);
    lead_ends(links, ends, steps, step);
    links.push_reserved(unlinked());
    note_ends(ends, step, steps.len());
}

/// Notes one more step behind those that there are, and takes the memory for it. Nothing is noted of the nodes of the first
/// step until a second one comes.
pub(crate) fn note(
    ends: &mut NodeEnds,
    links: &mut StepLinks,
    steps: &[Step],
    step: &Step,
) -> Result<(), Memory>
    requires ends { AreEnds (steps_of steps.now) ends.old.entries }
    requires links { AreLinks (steps_of steps.now) links.old.items }
    ensures ends { OnOk result (AreEnds (steps_of steps.now ++ step_of step.now ∷ []) ends.new.entries) }
    ensures links { OnOk result (AreLinks (steps_of steps.now ++ step_of step.now ∷ []) links.new.items) }
    ensures ends_stay { OnErr result (ends.new.entries ≡ ends.old.entries) }
    ensures links_stay { OnErr result (links.new.items ≡ links.old.items) }
{
    links.reserve(1)?;
    if steps.is_empty() {
        links.push_reserved(unlinked());
        return Ok(());
    }
    if steps.len() == NOWHERE {
        return Err(Memory);
    }
    ends.reserve(4)?;
    note_next(ends, links, steps, step);
    Ok(())
}

// The same as `next_place`, by going through the steps.
fn next_among(steps: &[Step], from: usize, n: NodeId) -> usize
    requires { from ≤ length steps.now }
    ensures { IsNextNamed n (steps_of steps.now) from result }
{
    for i in from..steps.len() {
        if names(&steps[i], n) {
            return i;
        }
    }
    steps.len()
}

// Where to begin, to come to the first step from a place on that names the node: at the step in front of the place if that
// names it too, else at the first of all.
fn start_of(ends: &NodeEnds, links: &[Links], steps: &[Step], from: usize, n: NodeId) -> usize
    requires links { AreLinks (steps_of steps.now) links.now }
    requires noted { AreNoted (steps_of steps.now) ends.now.entries }
    requires from { from ≤ length steps.now }
    ensures { IsAhead n (steps_of steps.now) from result }
{
    if from > 0 && names(&steps[from - 1], n) {
        return link_at(steps, links, from - 1, n);
    }
    noted(ends, n).first
}

// The first place along the links that is no further in front.
fn along(links: &[Links], steps: &[Step], start: usize, from: usize, n: NodeId) -> usize
    requires links { AreLinks (steps_of steps.now) links.now }
    requires from { from ≤ length steps.now }
    requires start { IsAhead n (steps_of steps.now) from start }
    ensures { IsLater n (steps_of steps.now) from result }
{
    let mut place = start;
    while place < from {
        place = link_at(steps, links, place, n);
    }
    place
}

/// The place of the first step from a place on that names the node, and the number of steps if none does.
pub(crate) fn next_place(
    ends: &NodeEnds,
    links: &[Links],
    steps: &[Step],
    from: usize,
    n: NodeId,
) -> usize
    requires links { AreLinks (steps_of steps.now) links.now }
    requires ends { AreEnds (steps_of steps.now) ends.now.entries }
    requires from { from ≤ length steps.now }
    ensures { IsNextNamed n (steps_of steps.now) from result }
{
    if steps.len() <= 1 {
        return next_among(steps, from, n);
    }
    let start = start_of(ends, links, steps, from, n);
    along(links, steps, start, from, n).min(steps.len())
}

/// Whether a step from a place on takes the node away, where no step names a node that one before it takes away: only the
/// first step that takes it away can.
pub(crate) fn drops_from(ends: &NodeEnds, steps: &[Step], from: usize, n: NodeId) -> bool
    requires ends { AreEnds (steps_of steps.now) ends.now.entries }
    requires last { DropsLast (steps_of steps.now) }
    requires from { from ≤ length steps.now }
    ensures { result ≡ is_gone (drop from (steps_of steps.now)) n }
{
    if steps.len() <= 1 {
        return is_dropped(&steps[from..], n);
    }
    let taken = noted(ends, n).taken;
    from <= taken && taken < steps.len()
}

/// Whether a step before a place takes the node away.
pub(crate) fn drops_before(ends: &NodeEnds, steps: &[Step], past: usize, n: NodeId) -> bool
    requires ends { AreEnds (steps_of steps.now) ends.now.entries }
    requires past { past ≤ length steps.now }
    ensures { result ≡ is_gone (take past (steps_of steps.now)) n }
{
    if steps.len() <= 1 {
        return is_dropped(&steps[..past], n);
    }
    let taken = noted(ends, n).taken;
    taken < past
}
