// Whether a partition is stable.
ghost use Rattle.std.specs.Prelude.{◌≡◌, ◌≤◌, ◌↔◌, ℕ, IfOk, IsTrue, length};
ghost use Rattle.bisim_spec.specs.Partitions.{IsPartition};
ghost use Rattle.bisim_spec.specs.Stability.{Stable, StableBoth};
ghost use Rattle.round_refinement.specs.NumberedShapes.{digraph_shape};

use crate::comparing::{are_both, determines};
use bisim_spec::Side;
use label_graph::Digraph;
use px_base::Memory;
use round_refinement::{label_list, refine};
use std::alloc::Global;

/// Whether the partition is stable: nodes of one block have one label, and parents in the same blocks (Milo and Suciu, ICDT 1999).
/// The list is as for `fits_level`. `Memory` comes only where memory runs out. Expected O(n + m log m + b) for n node numbers, m edges
/// and block numbers below b; it takes 16 bytes a number, the table of keys, and 16 bytes for each number below b.
pub(crate) fn is_stable<G: Digraph>(
    alloc: Global,
    g: &G,
    block: &[Option<u32>],
) -> Result<bool, Memory>
    requires partition { IsPartition (digraph_shape G.Digraph g.now) block.now }
    ensures { IfOk result (λ yes. IsTrue yes ↔ Stable (digraph_shape G.Digraph g.now) block.now) }
{
    let labels = label_list(alloc, g)?;
    let next = refine(alloc, g, Side::Parents, block, block)?;
    let labelled = determines(alloc, block, &labels)?;
    let stays = determines(alloc, block, &next)?;
    Ok(are_both(labelled, stays))
}

/// Whether the partition is stable by parents and by children: besides, nodes of one block have children in the same blocks. It costs
/// twice what `is_stable` costs.
pub(crate) fn is_stable_both<G: Digraph>(
    alloc: Global,
    g: &G,
    block: &[Option<u32>],
) -> Result<bool, Memory>
    requires partition { IsPartition (digraph_shape G.Digraph g.now) block.now }
    ensures { IfOk result (λ yes. IsTrue yes ↔ StableBoth (digraph_shape G.Digraph g.now) block.now) }
{
    let stable = is_stable(alloc, g, block)?;
    if !stable {
        return Ok(false);
    }
    let next = refine(alloc, g, Side::Children, block, block)?;
    let stays = determines(alloc, block, &next)?;
    Ok(stays)
}
