// Keys without the own block.
ghost use Rattle.std.specs.Prelude.{◌≡◌, ◌↔◌, [], ℕ, List, Some, IsSome, IsTrue, IfOk, slice_get};
ghost use Rattle.graph_spec.specs.Members.{at};
ghost use Rattle.key_table.specs.NumberedKeys.{AreDistinct, Interns};
ghost use Rattle.bisim_spec.specs.NodeKeys.{IsWritten};
ghost use Rattle.round_refinement.specs.Numbering.{AreNumbered, Numbers};
ghost use Rattle.index_check.specs.OuterParents.{
  is_outer_parent,
  AreInnerLabels,
  HasInnerParent,
  IsInnerLabel,
  HasWholeKey,
  TellsByOuter,
  outer_block_at,
  outer_block,
};

use crate::comparing::{are_both, determines};
use key_table::KeyTable;
use label_graph::Digraph;
use px_base::Memory;
use round_refinement::{block_of, write_key};
use std::alloc::Global;

// The block, if it isn't the own one.
fn outer_of(block: Option<u32>, own: Option<u32>) -> Option<u32>
    ensures { result ≡ outer_block own block }
{
    if block == own { None } else { block }
}

// The block of p, if it isn't that of n.
fn outer_block_of(block: &[Option<u32>], n: u32, p: u32) -> Option<u32>
    ensures { result ≡ outer_block_at block.now n p }
{
    outer_of(block_of(block, p), block_of(block, n))
}

// Whether some parent of the node is in its block.
fn has_inner_parent<G: Digraph>(g: &G, block: &[Option<u32>], n: u32) -> bool
    requires node { IsSome (G.label_at g.now n) }
    requires block { IsSome (at block.now n) }
    ensures { IsTrue result ↔ HasInnerParent block.now (G.edge g.now) n }
{
    let own = block_of(block, n);
    let parents = g.parents(n);
    for i in 0..parents.len() {
        if block_of(block, parents[i]) == own {
            return true;
        }
    }
    false
}

// The label of a node that has a parent in its block.
fn inner_label<G: Digraph>(g: &G, block: &[Option<u32>], n: u32) -> Option<u32>
    requires { IsSome (G.label_at g.now n) → IsSome (at block.now n) }
    ensures { IsInnerLabel block.now (G.label_at g.now) (G.edge g.now) n result }
{
    if g.is_node(n) && has_inner_parent(g, block, n) {
        Some(g.label(n))
    } else {
        None
    }
}

/// The labels of the nodes that have a parent in their block, and none for the others.
pub(crate) fn inner_labels<G: Digraph>(
    alloc: Global,
    g: &G,
    block: &[Option<u32>],
) -> Result<Vec<Option<u32>>, Memory>
    requires { (n : ℕ) → IsSome (G.label_at g.now n) → IsSome (at block.now n) }
    ensures { IfOk result (λ l. AreInnerLabels block.now (G.label_at g.now) (G.edge g.now) l.items) }
{
    let mut labels = Vec::with_capacity(alloc, g.size() as usize)?;
    for n in 0..g.size() {
        labels.push(inner_label(g, block, n))?;
    }
    Ok(labels)
}

// The number of the key of a node without its own block.
fn find_outer_key(
    keys: &mut KeyTable,
    key: &mut Vec<u32>,
    nodes: &[u32],
    number: u32,
    block: &[Option<u32>],
    n: u32,
) -> Result<u32, Memory>
    ensures ok { IfOk result (λ k. (written : List ℕ)
        × IsWritten (outer_block_at block.now n) nodes.now number written × Interns keys.old keys.new written k) }
    ensures distinct { IfOk result (λ k. AreDistinct keys.new) }
{
    write_key(key, nodes, number, |p| outer_block_of(block, n, p))?;
    keys.intern(key)
}

// The number of the key of a node with a number of its own, and `None` where it has none.
fn outer_number<G: Digraph>(
    keys: &mut KeyTable,
    key: &mut Vec<u32>,
    g: &G,
    own: &[Option<u32>],
    block: &[Option<u32>],
    n: u32,
) -> Result<Option<u32>, Memory>
    requires distinct { AreDistinct keys.old }
    requires nodes { IsSome (at own.now n) → IsSome (G.label_at g.now n) }
    ensures ok { IfOk result (λ number. Numbers (at own.now) block.now (is_outer_parent block.now (G.edge g.now)) n keys.old keys.new number) }
    ensures distinct { IfOk result (λ number. AreDistinct keys.new) }
{
    match block_of(own, n) {
        Some(number) => {
            let k = find_outer_key(keys, key, g.parents(n), number, block, n)?;
            Ok(Some(k))
        }
        None => Ok(None),
    }
}

// The numbers `own`, refined by the other blocks of the nodes' parents, and the keys of these; at first there are none.
fn number_by_outer<G: Digraph>(
    alloc: Global,
    keys: &mut KeyTable,
    key: &mut Vec<u32>,
    g: &G,
    own: &[Option<u32>],
    block: &[Option<u32>],
) -> Result<Vec<Option<u32>>, Memory>
    requires none { keys.old ≡ [] }
    requires own { (n : ℕ) → IsSome (at own.now n) → IsSome (G.label_at g.now n) }
    ensures numbered { IfOk result (λ next. AreNumbered (at own.now) block.now (is_outer_parent block.now (G.edge g.now)) next.items (slice_get keys.new)) }
    ensures distinct { IfOk result (λ next. AreDistinct keys.new) }
{
    let mut next = Vec::with_capacity(alloc, g.size() as usize)?;
    for n in 0..g.size() {
        let number = outer_number(keys, key, g, own, block, n)?;
        next.push(number)?;
    }
    Ok(next)
}

// Whether the key is in the table.
fn has_key(keys: &KeyTable, key: &[u32]) -> bool
    ensures { IsTrue result ↔ ((k : ℕ) × (slice_get keys.now k ≡ Some key.now)) }
{
    keys.find(key).is_some()
}

// Whether the key of a node with all its parents is in the table.
fn has_whole_key<G: Digraph>(
    keys: &KeyTable,
    key: &mut Vec<u32>,
    g: &G,
    own: &[Option<u32>],
    block: &[Option<u32>],
    n: u32,
) -> Result<bool, Memory>
    requires nodes { IsSome (at own.now n) → IsSome (G.label_at g.now n) }
    requires base { (m : ℕ) → IsSome (G.label_at g.now m) → IsSome (at block.now m) }
    ensures { IfOk result (λ yes. IsTrue yes ↔ HasWholeKey (at own.now) block.now (G.edge g.now) keys.now n) }
{
    match block_of(own, n) {
        Some(number) => {
            write_key(key, g.parents(n), number, |p| block_of(block, p))?;
            Ok(has_key(keys, key))
        }
        None => Ok(false),
    }
}

// Whether no such key is.
fn lacks_whole_keys<G: Digraph>(
    keys: &KeyTable,
    key: &mut Vec<u32>,
    g: &G,
    own: &[Option<u32>],
    block: &[Option<u32>],
) -> Result<bool, Memory>
    requires own { (n : ℕ) → IsSome (at own.now n) → IsSome (G.label_at g.now n) }
    requires base { (n : ℕ) → IsSome (G.label_at g.now n) → IsSome (at block.now n) }
    ensures { IfOk result (λ yes. IsTrue yes ↔ ((n : ℕ) → HasWholeKey (at own.now) block.now (G.edge g.now) keys.now n → ⊥)) }
{
    for n in 0..g.size() {
        let has = has_whole_key(keys, key, g, own, block, n)?;
        if has {
            return Ok(false);
        }
    }
    Ok(true)
}

// The same as `tells_by_outer`, by a table without keys.
fn tells_with<G: Digraph>(
    alloc: Global,
    keys: &mut KeyTable,
    key: &mut Vec<u32>,
    g: &G,
    own: &[Option<u32>],
    block: &[Option<u32>],
) -> Result<bool, Memory>
    requires none { keys.old ≡ [] }
    requires own { (n : ℕ) → IsSome (at own.now n) → IsSome (G.label_at g.now n) }
    requires base { (n : ℕ) → IsSome (G.label_at g.now n) → IsSome (at block.now n) }
    ensures { IfOk result (λ yes. IsTrue yes ↔ TellsByOuter (at own.now) block.now (G.edge g.now)) }
{
    let by_outer = number_by_outer(alloc, keys, key, g, own, block)?;
    let apart = determines(alloc, &by_outer, block)?;
    let lacks = lacks_whole_keys(keys, key, g, own, block)?;
    Ok(are_both(apart, lacks))
}

/// Whether of nodes with one number in `own` no two of two blocks have parents in the same other blocks, and none has those parents in other
/// blocks that are all the parents of another.
pub(crate) fn tells_by_outer<G: Digraph>(
    alloc: Global,
    g: &G,
    own: &[Option<u32>],
    block: &[Option<u32>],
) -> Result<bool, Memory>
    requires own { (n : ℕ) → IsSome (at own.now n) → IsSome (G.label_at g.now n) }
    requires base { (n : ℕ) → IsSome (G.label_at g.now n) → IsSome (at block.now n) }
    ensures { IfOk result (λ yes. IsTrue yes ↔ TellsByOuter (at own.now) block.now (G.edge g.now)) }
{
    let mut keys = KeyTable::new(alloc)?;
    let mut key = Vec::new(alloc);
    tells_with(alloc, &mut keys, &mut key, g, own, block)
}
