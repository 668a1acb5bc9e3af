// The change that inserts a triple.
ghost use Rattle.std.specs.Prelude.{◌≡◌, ◌++◌, ◌∷◌, [], ◌≤◌, ◌^◌, IfOk, OnOk};
ghost use Rattle.change_spec.specs.Steps.{link};
ghost use Rattle.term_table.specs.Terms.{same_term};
ghost use Rattle.triple_names.specs.Items.{of_term, of_triple, term_label, predicate_label};
ghost use Rattle.triple_names.specs.Names.{node_there, if_live};
ghost use Rattle.triple_names.specs.TripleChanges.{given_number, next_after, object_there, placed_in, node_unless, insert_steps};
ghost use Rattle.triple_names.specs.KeptTriples.{InsertKeeps};

use crate::name_tables::Names;
use graph_update::{Change, Step};
use label_graph::Graph;
use px_base::{Memory, NodeId, Text};
use std::alloc::Global;
use triples_read::{Term, Triple, write_term};

/// The numbers of the nodes of a triple's parts.
#[derive(Clone, Copy, Debug, PartialEq, Eq)]
pub struct Placed {
    /// That of its subject.
    pub subject: NodeId,
    /// That of the triple itself.
    pub triple: NodeId,
    /// That of its object.
    pub object: NodeId,
}

// The nodes of a triple's parts, where they are there.
#[derive(Clone, Copy)]
struct Parts {
    subject: Option<NodeId>,
    triple: Option<NodeId>,
    object: Option<NodeId>,
}

/// The number, where it is that of a live node.
pub(crate) fn if_live(graph: &Graph, number: Option<NodeId>) -> Option<NodeId>
    ensures { result ≡ if_live graph.now.graph number }
{
    let n = number?;
    if graph.is_live(n) { Some(n) } else { None }
}

/// The node of a term, where it is there.
pub(crate) fn term_node(names: &Names, graph: &Graph, term: &Term) -> Option<NodeId>
    ensures { result ≡ node_there names.now.names graph.now.graph (of_term term.now) }
{
    if_live(graph, names.term(term))
}

/// The node of a triple, where it is there.
pub(crate) fn triple_node(names: &Names, graph: &Graph, triple: &Triple) -> Option<NodeId>
    ensures { result ≡ node_there names.now.names graph.now.graph (of_triple triple.now) }
{
    if_live(graph, names.triple(triple))
}

/// Whether they are the same term.
pub(crate) fn is_same(a: &Term, b: &Term) -> bool
    ensures { result ≡ same_term a.now b.now }
{
    *a == *b
}

// The number of a node that is there, else the next one.
fn given(there: Option<NodeId>, next: NodeId) -> NodeId
    ensures { result ≡ given_number there next }
{
    match there {
        Some(n) => n,
        None => next,
    }
}

// The next number behind that.
fn behind(there: Option<NodeId>, next: NodeId) -> NodeId
    requires { next ≤ 2 ^ 31 }
    ensures { result ≡ next_after there next }
{
    match there {
        Some(_) => next,
        None => next + 1,
    }
}

// The node of the object: that of the subject, where they are one term.
fn object_node(names: &Names, graph: &Graph, triple: &Triple, subject: NodeId) -> Option<NodeId>
    ensures { result ≡ object_there names.now.names graph.now.graph triple.now subject }
{
    if is_same(&triple.object, &triple.subject) {
        Some(subject)
    } else {
        term_node(names, graph, &triple.object)
    }
}

// The parts that are there.
fn find_parts(names: &Names, graph: &Graph, triple: &Triple) -> Parts
    ensures subject { result.subject ≡ node_there names.now.names graph.now.graph (of_term triple.now.subject) }
    ensures triple { result.triple ≡ node_there names.now.names graph.now.graph (of_triple triple.now) }
    ensures object { result.object ≡ object_there names.now.names graph.now.graph triple.now (placed_in names.now.names graph.now.graph triple.now).subject }
{
    let subject = term_node(names, graph, &triple.subject);
    let first = given(subject, graph.created());
    Parts {
        subject,
        triple: triple_node(names, graph, triple),
        object: object_node(names, graph, triple, first),
    }
}

// The numbers that the parts have, or will be given from this one on.
fn place(parts: &Parts, next: NodeId) -> Placed
    requires { next ≤ 2 ^ 30 }
    ensures subject { result.subject ≡ given_number parts.now.subject next }
    ensures triple { result.triple ≡ given_number parts.now.triple (next_after parts.now.subject next) }
    ensures object { result.object ≡ given_number parts.now.object (next_after parts.now.triple (next_after parts.now.subject next)) }
{
    let second = behind(parts.subject, next);
    let third = behind(parts.triple, second);
    Placed {
        subject: given(parts.subject, next),
        triple: given(parts.triple, second),
        object: given(parts.object, third),
    }
}

fn text(alloc: Global, content: &str) -> Result<Text, Memory>
    ensures { IfOk result (λ t. t ≡ content.now) }
{
    Ok(Text::from_string(String::from_str(alloc, content)?))
}

// The label of a term's node.
fn label_of_term(alloc: Global, term: &Term) -> Result<Text, Memory>
    ensures { IfOk result (λ t. t ≡ term_label term.now) }
{
    match term {
        Term::Iri(_) => text(alloc, "iri"),
        Term::Blank(_) => text(alloc, "blank"),
        Term::Literal { .. } => text(alloc, "literal"),
    }
}

// The label of the node of a triple with that predicate.
fn label_of_predicate(alloc: Global, iri: &Text) -> Result<Text, Memory>
    ensures { IfOk result (λ t. t ≡ predicate_label iri.now) }
{
    let term = Term::Iri(iri.copy(alloc)?);
    write_term(alloc, &term)
}

// One more node, where a term has none.
fn add_term(
    alloc: Global,
    change: &mut Change,
    there: Option<NodeId>,
    term: &Term,
) -> Result<(), Memory>
    ensures { OnOk result (change.new ≡ change.old ++ node_unless there (term_label term.now)) }
{
    if there.is_some() {
        return Ok(());
    }
    let label = label_of_term(alloc, term)?;
    change.push(Step::Node(label))
}

// One more node, where the triple has none.
fn add_triple(
    alloc: Global,
    change: &mut Change,
    there: Option<NodeId>,
    predicate: &Text,
) -> Result<(), Memory>
    ensures { OnOk result (change.new ≡ change.old ++ node_unless there (predicate_label predicate.now)) }
{
    if there.is_some() {
        return Ok(());
    }
    let label = label_of_predicate(alloc, predicate)?;
    change.push(Step::Node(label))
}

// The steps that insert a triple, where its parts are placed so.
fn steps_of(
    alloc: Global,
    triple: &Triple,
    parts: &Parts,
    placed: &Placed,
) -> Result<Change, Memory>
    ensures { IfOk result (λ c. c ≡ node_unless parts.now.subject (term_label triple.now.subject)
        ++ (node_unless parts.now.triple (predicate_label triple.now.predicate)
        ++ (node_unless parts.now.object (term_label triple.now.object)
        ++ (link placed.now.subject placed.now.triple ∷ link placed.now.triple placed.now.object ∷ [])))) }
{
    let mut change = Change::new(alloc)?;
    add_term(alloc, &mut change, parts.subject, &triple.subject)?;
    add_triple(alloc, &mut change, parts.triple, &triple.predicate)?;
    add_term(alloc, &mut change, parts.object, &triple.object)?;
    change.push(Step::Link(placed.subject, placed.triple))?;
    change.push(Step::Link(placed.triple, placed.object))?;
    Ok(change)
}

/// The change that inserts a triple, and the numbers that its parts have or will be given. For each of its subject, itself and
/// its object that isn't there, in this order and each once, a node is added; then the edges from the subject to the triple and
/// on to the object. A part is there where its number is that of a live node of the graph.
///
/// Expected O(b) for texts of b bytes. It takes the memory of the change, which has at most five steps and three labels.
pub fn insert_change(
    alloc: Global,
    names: &Names,
    graph: &Graph,
    triple: &Triple,
) -> Result<(Change, Placed), Memory>
    ensures change { IfOk result (λ r. r.0 ≡ insert_steps names.now.names graph.now.graph triple.now) }
    ensures placed { IfOk result (λ r. r.1 ≡ placed_in names.now.names graph.now.graph triple.now) }
    // Where the graph represents triples, it represents this one too once the change is accepted and the numbers are noted.
    ensures keeps { IfOk result (λ r. InsertKeeps names.now.names graph.now.graph triple.now r.0 r.1) }
{
    let parts = find_parts(names, graph, triple);
    let placed = place(&parts, graph.created());
    let change = steps_of(alloc, triple, &parts, &placed)?;
    Ok((change, placed))
}
