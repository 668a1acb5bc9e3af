// Whether a partition is stable.
ghost use Rattle.std.specs.Prelude.{◌≡◌, ◌↔◌, ℕ, Some, IsSome, IsTrue, IsFalse};
ghost use Rattle.std.specs.List.{list_any, list_all};
ghost use Rattle.graph_spec.specs.Graphs.{IsGraph};
ghost use Rattle.graph_spec.specs.Shapes.{IsNode, IsParent, shape_of};
ghost use Rattle.graph_spec.specs.Members.{at};
ghost use Rattle.bisim_spec.specs.Bisimilarity.{Covers};
ghost use Rattle.bisim_spec.specs.Partitions.{IsPartition, Together};
ghost use Rattle.bisim_spec.specs.Stability.{Stable};
ghost use Rattle.block_partition.specs.LabelledPartitions.{is_member};
ghost use Rattle.one_index.specs.Alike.{AreAlike, IsUniform, is_among};

use crate::members::some_member;
use label_graph::{Digraph, GraphView};
use px_base::NodeId;
use quotient::Summary;

// Whether the node is a member of the block.
fn is_in(summary: &Summary, n: NodeId, b: u32) -> bool
    ensures { result ≡ is_member summary.now.blocks b n }
{
    match summary.block_of(n) {
        Some(own) => b == own,
        None => false,
    }
}

// Whether one of the nodes is a member of the block.
fn has_member(summary: &Summary, b: u32, nodes: &[NodeId]) -> bool
    ensures { result ≡ list_any (is_member summary.now.blocks b) nodes.now }
{
    nodes.iter().any(|n| is_in(summary, *n, b))
}

// Whether the node is in one block with one of the others.
fn is_matched(summary: &Summary, n: NodeId, others: &[NodeId]) -> bool
    ensures { result ≡ is_among summary.now.blocks others.now (at summary.now.blocks.block_of n) }
{
    match summary.block_of(n) {
        Some(b) => has_member(summary, b, others),
        None => false,
    }
}

// Whether each of the nodes is in one block with one of the others.
fn are_matched(summary: &Summary, nodes: &[NodeId], others: &[NodeId]) -> bool
    ensures { result ≡ list_all (λ n. is_among summary.now.blocks others.now (at summary.now.blocks.block_of n)) nodes.now }
{
    nodes.iter().all(|n| is_matched(summary, *n, others))
}

// Whether each parent of `u` is in one block with some parent of `v`.
fn covers(summary: &Summary, view: &GraphView<'_>, u: NodeId, v: NodeId) -> bool
    requires graph { IsGraph view.now }
    requires first { IsNode (shape_of view.now) u }
    requires second { IsNode (shape_of view.now) v }
    ensures yes { IsTrue result → Covers (IsParent (shape_of view.now)) (Together summary.now.blocks.block_of) u v }
    ensures no { IsFalse result → Covers (IsParent (shape_of view.now)) (Together summary.now.blocks.block_of) u v → ⊥ }
{
    are_matched(summary, view.parents(u), view.parents(v))
}

// Whether two nodes have one label, and parents in the same blocks.
fn are_alike(summary: &Summary, view: &GraphView<'_>, u: NodeId, v: NodeId) -> bool
    requires graph { IsGraph view.now }
    requires partition { IsPartition (shape_of view.now) summary.now.blocks.block_of }
    requires first { IsNode (shape_of view.now) u }
    requires second { IsNode (shape_of view.now) v }
    ensures yes { IsTrue result → AreAlike (shape_of view.now) summary.now.blocks.block_of u v }
    ensures no { IsFalse result → AreAlike (shape_of view.now) summary.now.blocks.block_of u v → ⊥ }
{
    if u == v {
        return true;
    }
    if view.label(u) != view.label(v) {
        return false;
    }
    if !covers(summary, view, u, v) {
        return false;
    }
    covers(summary, view, v, u)
}

// Whether the members of a block have one label, and parents in the same blocks.
fn is_uniform(summary: &Summary, view: &GraphView<'_>, b: u32) -> bool
    requires graph { IsGraph view.now }
    requires partition { IsPartition (shape_of view.now) summary.now.blocks.block_of }
    ensures yes { IsTrue result → IsSome (at summary.now.blocks.labels b) → IsUniform (shape_of view.now) summary.now.blocks.block_of b }
    ensures no { IsFalse result → IsUniform (shape_of view.now) summary.now.blocks.block_of b → ⊥ }
{
    if !summary.is_node(b) {
        return true;
    }
    let Some(first) = some_member(summary, b) else {
        return true;
    };
    for n in summary.extent(b) {
        if !are_alike(summary, view, first, n) {
            return false;
        }
    }
    true
}

// Whether exactly the nodes have a block. If so, all of these are blocks.
fn is_partition(summary: &Summary, view: &GraphView<'_>) -> bool
    ensures graph { IsGraph view.now }
    ensures yes { IsTrue result → IsPartition (shape_of view.now) summary.now.blocks.block_of }
    ensures no { IsFalse result → IsPartition (shape_of view.now) summary.now.blocks.block_of → ⊥ }
    ensures live { IsTrue result → (n b : ℕ) → at summary.now.blocks.block_of n ≡ Some b → IsSome (at summary.now.blocks.labels b) }
{
    let most = view.size().max(summary.numbers());
    for n in 0..most {
        if view.is_node(n) != summary.block_of(n).is_some() {
            return false;
        }
    }
    true
}

/// Whether the partition is stable in the graph: exactly the nodes have a block, and the members of each block have one
/// label, and parents in the same blocks. The supports of the summary don't matter.
///
/// Each node is compared with one member of its block, by at most as many look-ups as the product of their numbers of
/// parents: O(n + b + m d) for n node numbers, b block numbers, m edges and at most d parents of a node; no memory.
pub fn is_stable(summary: &Summary, view: &GraphView<'_>) -> bool
    ensures { IsTrue result ↔ Stable (shape_of view.now) summary.now.blocks.block_of }
{
    if !is_partition(summary, view) {
        return false;
    }
    for b in 0..summary.size() {
        if !is_uniform(summary, view, b) {
            return false;
        }
    }
    true
}
