// Counting edges between the blocks of their ends.
ghost use Rattle.std.specs.Prelude.{◌≡◌, ◌-◌, ◌<◌, ◌≤◌, ◌^◌, ◌&&◌, ℕ, IfOk, IfSome, OnOk, length, nat_eq};
ghost use Rattle.graph_spec.specs.Members.{is_this};
ghost use Rattle.bisim_spec.specs.Supports.{joins, support};
ghost use Rattle.bisim_spec.specs.IndexGraphs.{support_at};
ghost use Rattle.quotient.specs.QuotientNeighbours.{AreNeighbourLists, AreLive, AreFew, AddsPairIf, CountsPairs, SameTotals, total_support};

use crate::block_edges::BlockEdges;
use crate::supports::Supports;
use block_partition::Blocks;
use px_base::{Memory, NodeId, Recent};
use std::alloc::Global;

/// How many pairs of blocks are gathered before they are counted.
pub(crate) const BATCH: usize = 4096;

// Puts a pair of blocks behind the others, where there are two.
#[inline(always)]
fn push_pair(
    pairs: &mut Vec<(u32, u32)>,
    from: Option<u32>,
    onto: Option<u32>,
) -> Result<(), Memory>
    ensures { OnOk result (AddsPairIf (λ x y. is_this x from && is_this y onto) pairs.old.items pairs.new.items) }
{
    let Some(a) = from else { return Ok(()) };
    let Some(b) = onto else { return Ok(()) };
    pairs.push((a, b))?;
    Ok(())
}

/// Gathers the blocks of one more edge.
#[inline(always)]
pub(crate) fn gather_edge(
    pairs: &mut Vec<(u32, u32)>,
    blocks: &Blocks,
    from: NodeId,
    onto: NodeId,
) -> Result<(), Memory>
    ensures { OnOk result (AddsPairIf (λ x y. joins blocks.now.block_of x y (from, onto)) pairs.old.items pairs.new.items) }
{
    push_pair(pairs, blocks.block_of(from), blocks.block_of(onto))
}

/// Counts the pairs of blocks.
pub(crate) fn count_pairs(
    supports: &mut Supports,
    pairs: &[(u32, u32)],
    recent: &mut Recent,
) -> Result<(), Memory>
    requires few { (x y : ℕ) → total_support supports.old.pairs pairs.now x y ≤ 2 ^ 30 }
    ensures { OnOk result (CountsPairs pairs.now supports.old.pairs supports.new.pairs) }
{
    for (a, b) in pairs {
        supports.raise(*a, *b, recent)?;
    }
    Ok(())
}

/// Counts the pairs of blocks that were gathered, once they are many.
#[inline(always)]
pub(crate) fn count_batch(
    supports: &mut Supports,
    pairs: &mut Vec<(u32, u32)>,
    recent: &mut Recent,
) -> Result<(), Memory>
    requires few { (x y : ℕ) → total_support supports.old.pairs pairs.old.items x y ≤ 2 ^ 30 }
    ensures { OnOk result (SameTotals supports.old.pairs pairs.old.items supports.new.pairs pairs.new.items) }
{
    if pairs.len() < BATCH {
        return Ok(());
    }
    count_pairs(supports, pairs, recent)?;
    pairs.clear();
    Ok(())
}

// Counts the edges of a list between the blocks of their ends. The blocks of many edges are read before their pairs are
// counted, since reads that don't wait for one another take less time. There is capacity for two pairs a block from the
// start: in a graph of triples there are seldom fewer.
fn supports_of_edges(
    alloc: Global,
    blocks: &Blocks,
    edges: &[(NodeId, NodeId)],
) -> Result<Supports, Memory>
    requires few { AreFew edges.now }
    ensures supports { IfOk result (λ s. (a b : ℕ) → support_at s.pairs a b ≡ support edges.now blocks.now.block_of a b) }
    ensures live { IfOk result (λ s. AreLive blocks.now s.pairs) }
{
    let span = blocks.span() as usize;
    let mut supports = Supports::with_reserved(alloc, edges.len().min(2 * span), true)?;
    let mut pairs = Vec::with_capacity(alloc, BATCH)?;
    let mut recent = Recent::new(alloc)?;
    for (from, onto) in edges {
        gather_edge(&mut pairs, blocks, *from, *onto)?;
        count_batch(&mut supports, &mut pairs, &mut recent)?;
    }
    count_pairs(&mut supports, &pairs, &mut recent)?;
    Ok(supports)
}

/// Counts the edges of a list between the blocks of their ends, and lists the neighbours of each block once the
/// pairs are known.
pub(crate) fn count_edges(
    alloc: Global,
    blocks: &Blocks,
    edges: &[(NodeId, NodeId)],
) -> Result<BlockEdges, Memory>
    requires few { AreFew edges.now }
    ensures supports { IfOk result (λ j. (a b : ℕ) → support_at j.supports.pairs a b ≡ support edges.now blocks.now.block_of a b) }
    ensures live { IfOk result (λ j. AreLive blocks.now j.supports.pairs) }
    ensures neighbour_lists { IfOk result (λ j. AreNeighbourLists j.supports.pairs j.children.lists j.parents.lists) }
    ensures children { IfOk result (λ j. length j.children.lists ≡ length blocks.now.labels) }
    ensures parents { IfOk result (λ j. length j.parents.lists ≡ length blocks.now.labels) }
{
    let supports = supports_of_edges(alloc, blocks, edges)?;
    let block_edges = BlockEdges::of_supports(alloc, blocks, supports)?;
    Ok(block_edges)
}
