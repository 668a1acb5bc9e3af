// Changes of the graph: one step, a group of steps, a triple.
ghost use Rattle.change_spec.specs.Steps.{node, relabel};
ghost use Rattle.graph_steps.specs.StepLists.{step_of};
ghost use Rattle.pathindex_calls.specs.Changes.{Makes, MakesOne, Inserts, Deletes, Adds, Steps, Labels, ReadsTriple, Begins, Ends, Cancels};

use crate::replies::{MEMORY, MISUSE, Reply, SYNTAX, of_update, said};
use graph_update::{Change, Step};
use path_query::read_label;
use pathindex_session::Session;
use px_base::{Memory, NodeId};
use std::alloc::Global;
use triples_read::{LineError, Triple, read_line};

// Makes a change.
fn make(alloc: Global, session: &mut Session, change: Change) -> Reply
    ensures { Makes change session.old session.new result }
{
    of_update(session.update(alloc, change))
}

// Makes a change of one step.
fn make_one(alloc: Global, session: &mut Session, step: Step) -> Reply
    ensures { MakesOne (step_of step) session.old session.new result }
{
    match Change::one(alloc, step) {
        Ok(change) => make(alloc, session, change),
        Err(Memory) => said(MEMORY),
    }
}

// Puts a step behind those of a group.
fn add(change: &mut Change, step: Step) -> Reply
    ensures { Adds (step_of step) change.old change.new result }
{
    match change.push(step) {
        Ok(()) => said(0),
        Err(Memory) => said(MEMORY),
    }
}

/// Makes a step, or puts it behind those of the group that was begun.
pub(crate) fn take_step(
    alloc: Global,
    session: &mut Session,
    group: &mut Option<Change>,
    step: Step,
) -> Reply
    ensures { Steps (step_of step) session.old group.old session.new group.new result }
{
    match group {
        Some(change) => add(change, step),
        None => make_one(alloc, session, step),
    }
}

/// Takes the step that adds a node, whose label the text spells.
pub(crate) fn take_node(
    alloc: Global,
    session: &mut Session,
    group: &mut Option<Change>,
    text: &[u8],
) -> Reply
    ensures { Labels (λ label. node label) text.now session.old group.old session.new group.new result }
{
    match read_label(alloc, text) {
        Ok(Some(label)) => take_step(alloc, session, group, Step::Node(label)),
        Ok(None) => said(SYNTAX),
        Err(Memory) => said(MEMORY),
    }
}

/// Takes the step that gives a node the label that the text spells.
pub(crate) fn take_relabel(
    alloc: Global,
    session: &mut Session,
    group: &mut Option<Change>,
    n: NodeId,
    text: &[u8],
) -> Reply
    ensures { Labels (λ label. relabel n label) text.now session.old group.old session.new group.new result }
{
    match read_label(alloc, text) {
        Ok(Some(label)) => take_step(alloc, session, group, Step::Relabel(n, label)),
        Ok(None) => said(SYNTAX),
        Err(Memory) => said(MEMORY),
    }
}

/// Begins a group, unless one is begun.
pub(crate) fn begin(alloc: Global, group: &mut Option<Change>) -> Reply
    ensures { Begins group.old group.new result }
{
    if group.is_some() {
        return said(MISUSE);
    }
    match Change::new(alloc) {
        Ok(change) => {
            *group = Some(change);
            said(0)
        }
        Err(Memory) => said(MEMORY),
    }
}

/// Ends the group that is begun: its steps are made as one change.
pub(crate) fn end(alloc: Global, session: &mut Session, group: &mut Option<Change>) -> Reply
    ensures { Ends session.old group.old session.new group.new result }
{
    match group.take() {
        Some(change) => make(alloc, session, change),
        None => said(MISUSE),
    }
}

/// Drops the group that is begun.
pub(crate) fn cancel(group: &mut Option<Change>) -> Reply
    ensures { Cancels group.old group.new result }
{
    match group.take() {
        Some(_) => said(0),
        None => said(MISUSE),
    }
}

// Inserts a triple.
fn insert_triple(alloc: Global, session: &mut Session, triple: Triple) -> Reply
    ensures { Inserts triple session.old session.new result }
{
    of_update(session.insert(alloc, triple))
}

// Deletes a triple.
fn delete_triple(alloc: Global, session: &mut Session, triple: &Triple) -> Reply
    ensures { Deletes triple.now session.old session.new result }
{
    of_update(session.delete(alloc, triple))
}

/// Inserts the triple that the text spells, as a line of N-Triples.
pub(crate) fn insert(alloc: Global, session: &mut Session, text: &[u8]) -> Reply
    ensures { ReadsTriple (λ triple. Inserts triple) text.now session.old session.new result }
{
    match read_line(alloc, text) {
        Ok(Some(triple)) => insert_triple(alloc, session, triple),
        Ok(None) => said(SYNTAX),
        Err(LineError::Syntax) => said(SYNTAX),
        Err(LineError::Memory) => said(MEMORY),
    }
}

/// Deletes the triple that the text spells, as a line of N-Triples.
pub(crate) fn delete(alloc: Global, session: &mut Session, text: &[u8]) -> Reply
    ensures { ReadsTriple (λ triple. Deletes triple) text.now session.old session.new result }
{
    match read_line(alloc, text) {
        Ok(Some(triple)) => delete_triple(alloc, session, &triple),
        Ok(None) => said(SYNTAX),
        Err(LineError::Syntax) => said(SYNTAX),
        Err(LineError::Memory) => said(MEMORY),
    }
}
