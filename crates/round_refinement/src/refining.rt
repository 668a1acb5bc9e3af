// A partition that is refined by the blocks of neighbours.
ghost use Rattle.std.specs.Prelude.{◌≡◌, ℕ, Some, IsSome, IfOk};
ghost use Rattle.graph_spec.specs.Members.{at};
ghost use Rattle.key_table.specs.NumberedKeys.{AreDistinct};
ghost use Rattle.round_refinement.specs.NeighbourSides.{is_neighbour};
ghost use Rattle.bisim_spec.specs.Refinement.{Refines};
ghost use Rattle.round_refinement.specs.Numbering.{Numbers};

use crate::keys::{block_of, find_key};
use crate::neighbour_lists::neighbours;
use bisim_spec::Side;
use key_table::KeyTable;
use label_graph::Digraph;
use px_base::Memory;
use std::alloc::Global;

// The number of the key of a node, and `None` where it has no block.
fn number_of<G: Digraph>(
    keys: &mut KeyTable,
    key: &mut Vec<u32>,
    g: &G,
    side: Side,
    own: &[Option<u32>],
    base: &[Option<u32>],
    n: u32,
) -> Result<Option<u32>, Memory>
    requires distinct { AreDistinct keys.old }
    requires nodes { IsSome (at own.now n) → IsSome (G.label_at g.now n) }
    ensures ok { IfOk result (λ number. Numbers (at own.now) base.now (is_neighbour side (G.edge g.now)) n keys.old keys.new number) }
    ensures distinct { IfOk result (λ number. AreDistinct keys.new) }
{
    match block_of(own, n) {
        Some(number) => {
            let k = find_key(keys, key, neighbours(g, side, n), number, base)?;
            Ok(Some(k))
        }
        None => Ok(None),
    }
}

/// The partition `own`, refined by the blocks in `base` of the neighbours on one side: nodes stay together where those are
/// the same. Blocks are numbered in the order of their first members.
pub fn refine<G: Digraph>(
    alloc: Global,
    g: &G,
    side: Side,
    own: &[Option<u32>],
    base: &[Option<u32>],
) -> Result<Vec<Option<u32>>, Memory>
    requires own { (n : ℕ) → IsSome (at own.now n) → IsSome (G.label_at g.now n) }
    requires base { (n : ℕ) → IsSome (G.label_at g.now n) → IsSome (at base.now n) }
    ensures { IfOk result (λ next. Refines (at own.now) base.now (is_neighbour side (G.edge g.now)) next.items) }
{
    let mut keys = KeyTable::new(alloc)?;
    let mut key = Vec::new(alloc);
    let mut next = Vec::with_capacity(alloc, g.size() as usize)?;
    for n in 0..g.size() {
        let number = number_of(&mut keys, &mut key, g, side, own, base, n)?;
        next.push(number)?;
    }
    Ok(next)
}
