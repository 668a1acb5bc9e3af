// The levels of bisimilarity, each from the one below.
ghost use Rattle.std.specs.Prelude.{◌↔◌, IfOk, IsTrue};
ghost use Rattle.bisim_spec.specs.Bisimilarity.{Bis, Both};
ghost use Rattle.bisim_spec.specs.Partitions.{IsPartition, Agrees};
ghost use Rattle.bisim_spec.specs.Refinement.{IsNextLevel};
ghost use Rattle.round_refinement.specs.NumberedShapes.{digraph_shape};

use crate::comparing::are_same;
use bisim_spec::Side;
use label_graph::Digraph;
use px_base::Memory;
use round_refinement::{label_list, next_both, refine};
use std::alloc::Global;

// The level above one.
fn next_level<G: Digraph>(
    alloc: Global,
    g: &G,
    block: &[Option<u32>],
) -> Result<Vec<Option<u32>>, Memory>
    requires partition { IsPartition (digraph_shape G.Digraph g.now) block.now }
    ensures partition { IfOk result (λ l. IsPartition (digraph_shape G.Digraph g.now) l.items) }
    ensures agrees { IfOk result (λ l. IsNextLevel Bis (digraph_shape G.Digraph g.now) block.now l.items) }
{
    let next = refine(alloc, g, Side::Parents, block, block)?;
    Ok(next)
}

// The nodes that are bisimilar to a level.
fn level<G: Digraph>(alloc: Global, g: &G, i: u32) -> Result<Vec<Option<u32>>, Memory>
    ensures { IfOk result (λ l. Agrees (digraph_shape G.Digraph g.now) l.items (Bis (digraph_shape G.Digraph g.now) i)) }
{
    let mut block = label_list(alloc, g)?;
    for j in 0..i {
        let next = next_level(alloc, g, &block)?;
        block = next;
    }
    Ok(block)
}

/// Whether the blocks are the classes of nodes that are bisimilar to level `i` (Kaushik et al., ICDE 2002). The list has at each
/// node's number its block; blocks may have any numbers, and their order tells nothing. Each level is made anew from the labels.
/// `Memory` comes only where memory runs out. Expected O(i (n + m log m) + b) for n node numbers, m edges and block numbers below
/// b; it takes 16 bytes a number, the table of a level's keys, and 16 bytes for each number below b.
pub(crate) fn fits_level<G: Digraph>(
    alloc: Global,
    g: &G,
    block: &[Option<u32>],
    i: u32,
) -> Result<bool, Memory>
    requires partition { IsPartition (digraph_shape G.Digraph g.now) block.now }
    ensures { IfOk result (λ yes. IsTrue yes ↔ Agrees (digraph_shape G.Digraph g.now) block.now (Bis (digraph_shape G.Digraph g.now) i)) }
{
    let right = level(alloc, g, i)?;
    are_same(alloc, &right, block)
}

/// The nodes that are bisimilar to a level, by parents and children.
pub(crate) fn level_both<G: Digraph>(
    alloc: Global,
    g: &G,
    i: u32,
) -> Result<Vec<Option<u32>>, Memory>
    ensures { IfOk result (λ l. Agrees (digraph_shape G.Digraph g.now) l.items (Both (digraph_shape G.Digraph g.now) i)) }
{
    let mut block = label_list(alloc, g)?;
    for j in 0..i {
        let next = next_both(alloc, g, &block)?;
        block = next;
    }
    Ok(block)
}
