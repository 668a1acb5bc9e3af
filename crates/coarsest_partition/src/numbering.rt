// Nodes that are numbered by their keys once all their parents are.
ghost use Rattle.std.specs.Prelude.{◌≡◌, ◌<◌, ℕ, List, Some, IsSome, IsTrue, IfOk, OnOk, is_some, length, vec_len};
ghost use Rattle.std.specs.List.{list_all};
ghost use Rattle.graph_spec.specs.Graphs.{IsGraph};
ghost use Rattle.graph_spec.specs.Members.{at};
ghost use Rattle.label_graph.specs.GraphViews.{label_number};
ghost use Rattle.key_table.specs.NumberedKeys.{AreDistinct, Interns};
ghost use Rattle.bisim_spec.specs.NodeKeys.{IsWritten};
ghost use Rattle.coarsest_partition.specs.Ordered.{IsOrdered, IsReadyForRounds};

use bisim_levels::{block_of, single_block, write_key};
use key_table::KeyTable;
use label_graph::{Digraph, GraphView};
use px_base::{Memory, NodeId};

// Whether all the nodes have numbers.
fn are_numbered(block: &[Option<u32>], nodes: &[NodeId]) -> bool
    ensures { result ≡ list_all (λ p. is_some (at block.now p)) nodes.now }
{
    nodes.iter().all(|p| block_of(block, *p).is_some())
}

// Whether the node has no number, and all its parents have.
fn is_ready(block: &[Option<u32>], n: NodeId, parents: &[NodeId]) -> bool
    ensures { IsTrue result → IsReadyForRounds block.now n parents.now }
{
    if block_of(block, n).is_some() {
        return false;
    }
    are_numbered(block, parents)
}

// The number of the key of a node with these parents, whose label has this number.
fn intern_written(
    keys: &mut KeyTable,
    key: &mut Vec<u32>,
    block: &[Option<u32>],
    parents: &[NodeId],
    label: u32,
) -> Result<u32, Memory>
    ensures ok { IfOk result (λ k. (key : List ℕ) × IsWritten (at block.now) parents.now label key × Interns keys.old keys.new key k) }
    ensures distinct { IfOk result (λ k. AreDistinct keys.new) }
{
    write_key(key, parents, label, |p| block_of(block, p))?;
    keys.intern(key)
}

// The same. In a graph of triples the node of each triple has one parent.
#[inline(always)]
fn intern_key(
    keys: &mut KeyTable,
    key: &mut Vec<u32>,
    block: &[Option<u32>],
    parents: &[NodeId],
    label: u32,
) -> Result<u32, Memory>
    ensures ok { IfOk result (λ k. (key : List ℕ) × IsWritten (at block.now) parents.now label key × Interns keys.old keys.new key k) }
    ensures distinct { IfOk result (λ k. AreDistinct keys.new) }
{
    match single_block(block, parents) {
        Some(parent) => keys.intern(&[label, parent]),
        None => intern_written(keys, key, block, parents, label),
    }
}

/// Numbers a node by its key, if it has no number and all its parents have.
pub(crate) fn number_node(
    keys: &mut KeyTable,
    key: &mut Vec<u32>,
    block: &mut Vec<Option<u32>>,
    view: &GraphView<'_>,
    n: NodeId,
) -> Result<(), Memory>
    requires graph { IsGraph view.now }
    requires node { IsSome (label_number view.now n) }
    requires ordered { IsOrdered view.now keys.old block.old.items }
    requires long { vec_len block.old ≡ length view.now.allocated }
    ensures ordered { OnOk result (IsOrdered view.now keys.new block.new.items) }
    ensures long { vec_len block.new ≡ vec_len block.old }
{
    let parents = view.parents(n);
    if !is_ready(block, n, parents) {
        return Ok(());
    }
    let k = intern_key(keys, key, block, parents, view.label(n))?;
    block[n as usize] = Some(k);
    Ok(())
}
