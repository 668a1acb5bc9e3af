// Counting the edges of a graph between the blocks of their ends.
ghost use Rattle.std.specs.Prelude.{◌≡◌, ◌+◌, ◌≤◌, ◌^◌, ℕ, IfOk, OnOk, length};
ghost use Rattle.std.specs.FinSet as set;
ghost use Rattle.graph_spec.specs.Graphs.{IsGraph};
ghost use Rattle.quotient.specs.Quotients.{AreSupports};
ghost use Rattle.quotient.specs.QuotientNeighbours.{AreNeighbourLists, AreLive, AreCountedBelow, pairs_between, total_support};

use crate::block_edges::BlockEdges;
use crate::counting::{BATCH, count_batch, count_pairs, gather_edge};
use crate::supports::Supports;
use block_partition::Blocks;
use label_graph::{Digraph, GraphView};
use px_base::{Memory, NodeId, Recent};
use std::alloc::Global;

// Gathers and counts the edges from a node to children.
#[inline(always)]
fn count_children(
    supports: &mut Supports,
    pairs: &mut Vec<(u32, u32)>,
    recent: &mut Recent,
    blocks: &Blocks,
    n: NodeId,
    children: &[NodeId],
) -> Result<(), Memory>
    requires few { (x y : ℕ)
        → total_support supports.old.pairs pairs.old.items x y + pairs_between blocks.now.block_of n children.now x y ≤ 2 ^ 30 }
    ensures { OnOk result ((x y : ℕ) → total_support supports.new.pairs pairs.new.items x y
        ≡ total_support supports.old.pairs pairs.old.items x y + pairs_between blocks.now.block_of n children.now x y) }
{
    for child in children {
        gather_edge(pairs, blocks, n, *child)?;
        count_batch(supports, pairs, recent)?;
    }
    Ok(())
}

// Gathers and counts the edges from the next node, where the number is that of a node.
#[inline(always)]
fn count_node(
    supports: &mut Supports,
    pairs: &mut Vec<(u32, u32)>,
    recent: &mut Recent,
    view: &GraphView<'_>,
    blocks: &Blocks,
    n: NodeId,
) -> Result<(), Memory>
    requires graph { IsGraph view.now }
    requires few { set.len view.now.edges ≤ 2 ^ 30 }
    requires counted { AreCountedBelow view.now.edges blocks.now.block_of n supports.old.pairs pairs.old.items }
    ensures { OnOk result (AreCountedBelow view.now.edges blocks.now.block_of (n + 1) supports.new.pairs pairs.new.items) }
{
    if !view.is_node(n) {
        return Ok(());
    }
    count_children(supports, pairs, recent, blocks, n, view.children(n))?;
    Ok(())
}

// Counts the edges of a graph between the blocks of their ends, in batches, as `supports_of_edges` does for a list.
fn supports_of_graph(
    alloc: Global,
    blocks: &Blocks,
    view: &GraphView<'_>,
    is_noting: bool,
) -> Result<Supports, Memory>
    ensures supports { IfOk result (λ s. AreSupports view.now.edges blocks.now.block_of s.pairs) }
    ensures live { IfOk result (λ s. AreLive blocks.now s.pairs) }
{
    let span = blocks.span() as usize;
    let edges = view.edge_count() as usize;
    let mut supports = Supports::with_reserved(alloc, edges.min(2 * span), is_noting)?;
    let mut pairs = Vec::with_capacity(alloc, BATCH)?;
    let mut recent = Recent::new(alloc)?;
    for n in 0..view.size() {
        count_node(&mut supports, &mut pairs, &mut recent, view, blocks, n)?;
    }
    count_pairs(&mut supports, &pairs, &mut recent)?;
    Ok(supports)
}

/// Counts the edges of a graph between the blocks of their ends, and lists the neighbours of each block once the pairs
/// are known.
pub(crate) fn count_graph(
    alloc: Global,
    blocks: &Blocks,
    view: &GraphView<'_>,
    is_noting: bool,
) -> Result<BlockEdges, Memory>
    ensures supports { IfOk result (λ j. AreSupports view.now.edges blocks.now.block_of j.supports.pairs) }
    ensures live { IfOk result (λ j. AreLive blocks.now j.supports.pairs) }
    ensures neighbour_lists { IfOk result (λ j. AreNeighbourLists j.supports.pairs j.children.lists j.parents.lists) }
    ensures children { IfOk result (λ j. length j.children.lists ≡ length blocks.now.labels) }
    ensures parents { IfOk result (λ j. length j.parents.lists ≡ length blocks.now.labels) }
{
    let supports = supports_of_graph(alloc, blocks, view, is_noting)?;
    let block_edges = BlockEdges::of_supports(alloc, blocks, supports)?;
    Ok(block_edges)
}
