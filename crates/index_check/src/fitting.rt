// Whether the views of a file fit its graph.
ghost use Rattle.std.specs.Prelude.{◌≡◌, ◌<◌, ◌↔◌, length, IfOk, IsTrue};
ghost use Rattle.bisim_spec.specs.Partitions.{IsPartition};
ghost use Rattle.index_file.specs.FittingViews.{IsPartitionVia, FitsView, IsStableMinimal};
ghost use Rattle.index_file.specs.SavedGraphs.{blocks_at};
ghost use Rattle.round_refinement.specs.NumberedShapes.{digraph_shape};

use crate::both::{fits_both, fits_level_both};
use crate::levels::fits_level;
use crate::minimal::is_minimal;
use crate::stability::is_stable;
use index_api::Via;
use index_file::Saved;
use label_graph::Digraph;
use px_base::Memory;
use std::alloc::Global;

// Whether the partition is stable, and no two of its blocks can be merged.
fn is_stable_minimal<G: Digraph>(
    alloc: Global,
    g: &G,
    block: &[Option<u32>],
) -> Result<bool, Memory>
    requires partition { IsPartition (digraph_shape G.Digraph g.now) block.now }
    ensures { IfOk result (λ yes. IsTrue yes ↔ IsStableMinimal (digraph_shape G.Digraph g.now) block.now) }
{
    let stable = is_stable(alloc, g, block)?;
    if stable {
        is_minimal(alloc, g, block)
    } else {
        Ok(false)
    }
}

// Whether the partition is one of the index, where labels are seen by their numbers.
fn fits_via<G: Digraph>(
    alloc: Global,
    g: &G,
    via: Via,
    block: &[Option<u32>],
) -> Result<bool, Memory>
    requires partition { IsPartition (digraph_shape G.Digraph g.now) block.now }
    ensures { IfOk result (λ yes. IsTrue yes ↔ IsPartitionVia (digraph_shape G.Digraph g.now) via block.now) }
{
    match via {
        Via::Data => Ok(false),
        Via::A(level) => fits_level(alloc, g, block, level),
        Via::One => is_stable_minimal(alloc, g, block),
        Via::Fb => fits_both(alloc, g, block),
        Via::B(level) => fits_level_both(alloc, g, block, level),
    }
}

// The blocks of a view.
fn block_list(alloc: Global, saved: &Saved, j: u32) -> Result<Vec<Option<u32>>, Memory>
    requires { j < length saved.now.views }
    ensures { IfOk result (λ l. l.items ≡ blocks_at saved.now j) }
{
    let mut block = Vec::with_capacity(alloc, saved.size() as usize)?;
    for n in 0..saved.size() {
        block.push(saved.block_of(j, n))?;
    }
    Ok(block)
}

/// Whether a view of the file is a partition of its index, of the graph in the file: for an A(i)-index the classes of nodes that are
/// bisimilar to level i, for the 1-index one that is stable and in which no two blocks can be merged, for the forward and backward
/// index the classes of full bisimilarity by parents and children, and for a bounded one those to its level.
///
/// Expected O(n + m log m) for n node numbers and m edges, for a level i + 1 times that, and O(n + m log² m) for the forward and backward
/// index. It takes 8 bytes a number, and what `fits_level`, `is_stable` and `is_minimal`, `fits_both` or `fits_level_both` take. Keys are
/// found by hashes that have no secret, so a file that is crafted to have many keys of one hash can make it quadratic.
pub fn fits(alloc: Global, saved: &Saved, j: u32) -> Result<bool, Memory>
    requires { j < length saved.now.views }
    ensures { IfOk result (λ yes. IsTrue yes ↔ FitsView saved.now j) }
{
    // Called for its contract: the graph is sound, and each view is a partition of its nodes.
    let _known = saved.size();
    let block = block_list(alloc, saved, j)?;
    fits_via(alloc, saved, saved.via(j), &block)
}
