// Full bisimilarity by parents and children.
ghost use Rattle.std.specs.Prelude.{◌↔◌, IfOk, IsTrue};
ghost use Rattle.bisim_spec.specs.Bisimilarity.{Both, FB};
ghost use Rattle.bisim_spec.specs.Partitions.{IsPartition, Agrees};
ghost use Rattle.round_refinement.specs.NumberedShapes.{digraph_shape};

use crate::comparing::{are_same, determines};
use crate::levels::level_both;
use crate::stability::is_stable_both;
use label_graph::Digraph;
use px_base::Memory;
use round_refinement::{label_list, next_both, part_active};
use std::alloc::Global;

/// Whether the blocks are the classes of nodes that are bisimilar to level `i` by parents and children, as in a bounded forward and
/// backward index (Kaushik et al., SIGMOD 2002). It costs twice what `fits_level` costs.
pub(crate) fn fits_level_both<G: Digraph>(
    alloc: Global,
    g: &G,
    block: &[Option<u32>],
    i: u32,
) -> Result<bool, Memory>
    requires partition { IsPartition (digraph_shape G.Digraph g.now) block.now }
    ensures { IfOk result (λ yes. IsTrue yes ↔ Agrees (digraph_shape G.Digraph g.now) block.now (Both (digraph_shape G.Digraph g.now) i)) }
{
    let right = level_both(alloc, g, i)?;
    are_same(alloc, &right, block)
}

// The level from which on no level parts more nodes.
fn settled<G: Digraph>(alloc: Global, g: &G) -> Result<Vec<Option<u32>>, Memory>
    ensures { IfOk result (λ l. Agrees (digraph_shape G.Digraph g.now) l.items (FB (digraph_shape G.Digraph g.now))) }
{
    let mut block = label_list(alloc, g)?;
    for j in 0..g.size() {
        let next = next_both(alloc, g, &block)?;
        let stays = determines(alloc, &block, &next)?;
        if stays {
            return Ok(block);
        }
        block = next;
    }
    Ok(block)
}

// Whether the blocks are the classes of nodes that are fully bisimilar by parents and children, by all levels.
fn fits_settled<G: Digraph>(alloc: Global, g: &G, block: &[Option<u32>]) -> Result<bool, Memory>
    requires partition { IsPartition (digraph_shape G.Digraph g.now) block.now }
    ensures { IfOk result (λ yes. IsTrue yes ↔ Agrees (digraph_shape G.Digraph g.now) block.now (FB (digraph_shape G.Digraph g.now))) }
{
    let right = settled(alloc, g)?;
    are_same(alloc, &right, block)
}

/// Whether the blocks are the classes of nodes that are fully bisimilar by parents and children, as in the forward and backward
/// index (Kaushik et al., SIGMOD 2002). The list is as for `fits_level`. `Memory` comes only where memory runs out.
///
/// Blocks that aren't stable both ways don't fit. Stable ones are no coarser, so they fit exactly where a partition that is no finer
/// determines them: that of `part_active`, which is stable where its rounds came to their end. They do, but that isn't proved; where
/// they hadn't, all levels would decide. Expected O(n + m log m + b) for n node numbers, m edges and block numbers below b, and what
/// `part_active` costs.
pub(crate) fn fits_both<G: Digraph>(
    alloc: Global,
    g: &G,
    block: &[Option<u32>],
) -> Result<bool, Memory>
    requires partition { IsPartition (digraph_shape G.Digraph g.now) block.now }
    ensures { IfOk result (λ yes. IsTrue yes ↔ Agrees (digraph_shape G.Digraph g.now) block.now (FB (digraph_shape G.Digraph g.now))) }
{
    let stable = is_stable_both(alloc, g, block)?;
    if !stable {
        return Ok(false);
    }
    let coarse = part_active(alloc, g)?;
    let found = determines(alloc, &coarse, block)?;
    if found {
        return Ok(true);
    }
    let whole = is_stable_both(alloc, g, &coarse)?;
    if whole {
        return Ok(false);
    }
    fits_settled(alloc, g, block)
}
