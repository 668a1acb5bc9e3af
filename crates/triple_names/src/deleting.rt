// The change that deletes a triple.
ghost use Rattle.std.specs.Prelude.{◌≡◌, ◌<◌, ◌++◌, ◌||◌, ◌&&◌, None, Some, IfOk, IsErrOf, OnOk, nat_eq};
ghost use Rattle.std.specs.List.{list_all};
ghost use Rattle.triple_names.specs.TripleChanges.{is_only_neighbour, drop_with, delete_change};
ghost use Rattle.triple_names.specs.KeptTriples.{DeleteKeeps};
ghost use Rattle.triple_names.specs.declared.deleting.DeleteError.TheVariants.{Memory as NoMemory};

use crate::inserting::{is_same, term_node, triple_node};
use crate::name_tables::Names;
use graph_update::{Change, Step};
use label_graph::Graph;
use px_base::{Memory, NodeId, Steps};
use std::alloc::Global;
use std::marker::Brand;
use std::sync::ledger::{Blank, Ledger};
use triples_read::Triple;

/// Why there is no change that deletes a triple.
#[derive(Clone, Copy, Debug, PartialEq, Eq)]
pub enum DeleteError {
    /// The triple isn't there.
    NoNode,
    /// An allocation failed.
    Memory,
}

impl From<Memory> for DeleteError {
    ghost from_gives = { λ _ e. e ≡ NoMemory };

    fn from(_: Memory) -> Self {
        DeleteError::Memory
    }
}

// Whether each number is this one.
fn are_all(list: &[NodeId], n: NodeId) -> bool
    ensures { result ≡ list_all (λ m. nat_eq m n) list.now }
{
    list.iter().all(|m| *m == n)
}

fn either(first: bool, second: bool, third: bool) -> bool
    ensures { result ≡ (first || (second && third)) }
{
    first || (second && third)
}

fn is_number(n: NodeId, m: NodeId) -> bool
    ensures { result ≡ nat_eq n m }
{
    n == m
}

fn counted_neighbours<L: Ledger>(graph: &Graph, u: NodeId, other: NodeId, blank: Blank) -> bool
    requires name { blank.name ≡ L.name }
    requires parts { blank.parts ≡ L.parts }
    requires some { 0 < blank.parts }
    ensures { result ≡ is_only_neighbour graph.now.graph u other }
{
    let mut steps = Steps::<L>::new(blank);
    let children = are_all(graph.children(u, &mut steps), other);
    let parents = are_all(graph.parents(u, &mut steps), other);
    either(is_number(u, other), children, parents)
}

// Whether the node has no neighbour but the other one.
fn is_only_neighbour(graph: &Graph, u: NodeId, other: NodeId) -> bool
    ensures { result ≡ is_only_neighbour graph.now.graph u other }
{
    counted_neighbours::<Brand>(graph, u, other, Blank::new(1))
}

// Drops the node of a term that is there and has no neighbour but the triple's node.
fn drop_term(
    graph: &Graph,
    change: &mut Change,
    there: Option<NodeId>,
    triple: NodeId,
) -> Result<(), Memory>
    ensures { OnOk result (change.new ≡ change.old ++ drop_with graph.now.graph there triple) }
{
    let Some(u) = there else {
        return Ok(());
    };
    if !is_only_neighbour(graph, u, triple) {
        return Ok(());
    }
    change.push(Step::Drop(u))
}

/// The change that deletes a triple: its node is dropped; then that of its subject, if it is there and has no other neighbour;
/// then the same of its object, where that is another term. `NoNode` comes exactly where the triple isn't there: its number is
/// not that of a live node of the graph.
///
/// Expected O(b) for texts of b bytes, and O(d) for terms that are parts of d triples. It takes the memory of the change, which
/// has at most three steps.
pub fn delete_change(
    alloc: Global,
    names: &Names,
    graph: &Graph,
    triple: &Triple,
) -> Result<Change, DeleteError>
    ensures change { IfOk result (λ c. delete_change names.now.names graph.now.graph triple.now ≡ Some c) }
    ensures absent { IsErrOf result DeleteError.NoNode → delete_change names.now.names graph.now.graph triple.now ≡ None }
    // Where the graph represents triples, it represents all but this one once the change is accepted.
    ensures keeps { IfOk result (λ c. DeleteKeeps names.now.names graph.now.graph triple.now c) }
{
    let Some(node) = triple_node(names, graph, triple) else {
        return Err(DeleteError::NoNode);
    };
    let mut change = Change::one(alloc, Step::Drop(node))?;
    let subject = term_node(names, graph, &triple.subject);
    drop_term(graph, &mut change, subject, node)?;
    if !is_same(&triple.object, &triple.subject) {
        let object = term_node(names, graph, &triple.object);
        drop_term(graph, &mut change, object, node)?;
    }
    Ok(change)
}
