// Keys with the own block.
ghost use Rattle.std.specs.Prelude.{◌≡◌, ◌||◌, [], ℕ, IsSome, IfOk, OnOk, nat_eq};
ghost use Rattle.graph_spec.specs.Members.{at, has};
ghost use Rattle.key_table.specs.NumberedKeys.{AreDistinct};
ghost use Rattle.bisim_spec.specs.Refinement.{Refines};
ghost use Rattle.round_refinement.specs.Numbering.{Numbers};
ghost use Rattle.index_check.specs.ClosedParents.{is_closed_parent};

use key_table::KeyTable;
use label_graph::Digraph;
use px_base::Memory;
use round_refinement::{block_of, find_key};
use std::alloc::Global;

// Memory that is used again: for a key, and for the nodes whose blocks it has.
#[derive(Drop)]
struct Buffers {
    key: Vec<u32>,
    nodes: Vec<u32>,
}

// Makes these the nodes: the parents of n, and n.
fn set_around(nodes: &mut Vec<u32>, parents: &[u32], n: u32) -> Result<(), Memory>
    ensures { OnOk result ((m : ℕ) → has nodes.new.items m ≡ (has parents.now m || nat_eq m n)) }
{
    nodes.clear();
    nodes.extend_from_slice(parents)?;
    nodes.push(n)?;
    Ok(())
}

// The number of the key of a node with its own block in it, and `None` where it has no number of its own.
fn closed_number<G: Digraph>(
    keys: &mut KeyTable,
    buffers: &mut Buffers,
    g: &G,
    own: &[Option<u32>],
    base: &[Option<u32>],
    n: u32,
) -> Result<Option<u32>, Memory>
    requires distinct { AreDistinct keys.old }
    requires nodes { IsSome (at own.now n) → IsSome (G.label_at g.now n) }
    ensures ok { IfOk result (λ number. Numbers (at own.now) base.now (is_closed_parent base.now (G.edge g.now)) n keys.old keys.new number) }
    ensures distinct { IfOk result (λ number. AreDistinct keys.new) }
{
    match block_of(own, n) {
        Some(number) => {
            set_around(&mut buffers.nodes, g.parents(n), n)?;
            let k = find_key(keys, &mut buffers.key, &buffers.nodes, number, base)?;
            Ok(Some(k))
        }
        None => Ok(None),
    }
}

// The same for all nodes, by a table without keys.
fn refine_with<G: Digraph>(
    alloc: Global,
    keys: &mut KeyTable,
    buffers: &mut Buffers,
    g: &G,
    own: &[Option<u32>],
    base: &[Option<u32>],
) -> Result<Vec<Option<u32>>, Memory>
    requires none { keys.old ≡ [] }
    requires own { (n : ℕ) → IsSome (at own.now n) → IsSome (G.label_at g.now n) }
    requires base { (n : ℕ) → IsSome (G.label_at g.now n) → IsSome (at base.now n) }
    ensures { IfOk result (λ next. Refines (at own.now) base.now (is_closed_parent base.now (G.edge g.now)) next.items) }
{
    let mut next = Vec::with_capacity(alloc, g.size() as usize)?;
    for n in 0..g.size() {
        let number = closed_number(keys, buffers, g, own, base, n)?;
        next.push(number)?;
    }
    Ok(next)
}

/// The numbers `own`, refined by the blocks in `base` of the nodes and of their parents together.
pub(crate) fn refine_by_closed<G: Digraph>(
    alloc: Global,
    g: &G,
    own: &[Option<u32>],
    base: &[Option<u32>],
) -> Result<Vec<Option<u32>>, Memory>
    requires own { (n : ℕ) → IsSome (at own.now n) → IsSome (G.label_at g.now n) }
    requires base { (n : ℕ) → IsSome (G.label_at g.now n) → IsSome (at base.now n) }
    ensures { IfOk result (λ next. Refines (at own.now) base.now (is_closed_parent base.now (G.edge g.now)) next.items) }
{
    let mut keys = KeyTable::new(alloc)?;
    let mut buffers = Buffers {
        key: Vec::new(alloc),
        nodes: Vec::new(alloc),
    };
    refine_with(alloc, &mut keys, &mut buffers, g, own, base)
}
