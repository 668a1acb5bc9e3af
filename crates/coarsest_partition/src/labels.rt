// The partition by labels, in tables.
ghost use Rattle.std.specs.Prelude.{◌≡◌, ◌<◌, ◌∷◌, [], ℕ, IfOk, length};
ghost use Rattle.graph_spec.specs.Graphs.{IsGraph};
ghost use Rattle.graph_spec.specs.Shapes.{shape_of};
ghost use Rattle.bisim_spec.specs.Bisimilarity.{SameLabel};
ghost use Rattle.bisim_spec.specs.Partitions.{Agrees};
ghost use Rattle.block_splitting.specs.Chosen.{HasFirst, AreFirstNumbers};
ghost use Rattle.block_splitting.specs.Splits.{AreLabelled, AreInhabited};

use bisim_levels::label_level;
use block_partition::{Blocks, fill};
use key_table::KeyTable;
use label_graph::GraphView;
use px_base::Memory;
use std::alloc::Global;

// The first number of a key, and 0 where it has none.
fn first_or_zero(key: &[u32]) -> u32
    ensures { (n : ℕ) → HasFirst key.now n → result ≡ n }
{
    if key.is_empty() {
        return 0;
    }
    key[0]
}

/// The first number of each key.
pub(crate) fn first_numbers(alloc: Global, keys: &KeyTable) -> Result<Vec<u32>, Memory>
    ensures count { IfOk result (λ first. length first.items ≡ length keys.now) }
    ensures first { IfOk result (λ first. AreFirstNumbers keys.now first.items) }
{
    let mut first = Vec::with_capacity(alloc, keys.len() as usize)?;
    for b in 0..keys.len() {
        first.push(first_or_zero(keys.key(b)))?;
    }
    Ok(first)
}

/// The partition by labels.
pub(crate) fn by_labels(alloc: Global, view: &GraphView<'_>) -> Result<Blocks, Memory>
    ensures agrees { IfOk result (λ p. Agrees (shape_of view.now) p.block_of (SameLabel (shape_of view.now))) }
    ensures labelled { IfOk result (AreLabelled view.now) }
    ensures inhabited { IfOk result AreInhabited }
{
    let level = label_level(alloc, view)?;
    let labels = first_numbers(alloc, &level.keys)?;
    // Called for its contract: there are fewer than 2^31 keys.
    let _known = level.keys.len();
    let blocks = fill(alloc, view.created(), &level.block, &labels)?;
    Ok(blocks)
}
