// Rounds until no node is active.
ghost use Rattle.std.specs.Prelude.{◌≡◌, ◌<◌, ◌≤◌, ◌^◌, ◌⊎◌, ℕ, [], true, IsSome, IfOk, OnOk, length, vec_len};
ghost use Rattle.graph_spec.specs.Graphs.{IsGraph};
ghost use Rattle.graph_spec.specs.Members.{has, at};
ghost use Rattle.bisim_spec.specs.Bisimilarity.{Bisim};
ghost use Rattle.bisim_spec.specs.Partitions.{IsPartition, Agrees};
ghost use Rattle.graph_spec.specs.Shapes.{shape_of};
ghost use Rattle.block_partition.specs.LabelledPartitions.{block_count};
ghost use Rattle.block_splitting.specs.Nodes.{AreNodes};
ghost use Rattle.block_splitting.specs.Splits.{HasMore, AreLabelled, AreInhabited};
ghost use Rattle.coarsest_partition.specs.IndexBlocks.{FitsWithSupports, StayIndexBlocks};
ghost use Rattle.coarsest_partition.specs.Refined.{parents_alone, IsRefined, IsStepByParents};
ghost use Rattle.coarsest_partition.specs.ActiveSides.{AreActive, CanRefine};

use crate::activating::activate_moved;
use crate::labels::by_labels;
use crate::ordered::by_order;
use bisim_spec::Side;
use block_partition::Blocks;
use block_splitting::{NodeSet, Tables, split};
use label_graph::{Digraph, GraphView};
use px_base::{Memory, NodeId};
use std::alloc::Global;

// Makes a node active if it has a block.
fn add_placed(active_nodes: &mut NodeSet, blocks: &Blocks, n: NodeId) -> Result<(), Memory>
    requires size { n < active_nodes.old.size }
    ensures size { active_nodes.new.size ≡ active_nodes.old.size }
    ensures here { OnOk result (IsSome (at blocks.now.block_of n) → has active_nodes.new.nodes n ≡ true) }
    ensures stay { OnOk result ((m : ℕ) → has active_nodes.old.nodes m ≡ true → has active_nodes.new.nodes m ≡ true) }
    ensures only { OnOk result ((m : ℕ) → has active_nodes.new.nodes m ≡ true
        → (has active_nodes.old.nodes m ≡ true) ⊎ IsSome (at blocks.now.block_of m)) }
{
    if blocks.block_of(n).is_some() {
        return active_nodes.add(n);
    }
    Ok(())
}

/// All nodes are active.
pub(crate) fn all_active_nodes(
    alloc: Global,
    view: &GraphView<'_>,
    blocks: &Blocks,
) -> Result<NodeSet, Memory>
    requires partition { IsPartition (shape_of view.now) blocks.now.block_of }
    ensures graph { IfOk result (λ w. IsGraph view.now) }
    ensures size { IfOk result (λ w. w.size ≡ length view.now.allocated) }
    ensures nodes { IfOk result (λ w. AreNodes view.now w.nodes) }
    ensures all { IfOk result (λ w. (n : ℕ) → IsSome (at blocks.now.block_of n) → has w.nodes n ≡ true) }
{
    let mut active_nodes = NodeSet::new(alloc, view.size())?;
    for n in 0..view.size() {
        add_placed(&mut active_nodes, blocks, n)?;
    }
    Ok(active_nodes)
}

// One round by parents.
fn round(
    alloc: Global,
    view: &GraphView<'_>,
    blocks: &mut Blocks,
    active_nodes: &mut NodeSet,
    tables: &mut Tables,
) -> Result<(), Memory>
    requires refine { CanRefine view.now blocks.old.block_of (vec_len tables.old.group) }
    requires active_nodes { AreActive view.now active_nodes.old }
    ensures step { OnOk result (IsStepByParents view.now blocks.old.block_of blocks.new.block_of active_nodes.old.nodes active_nodes.new.nodes) }
    ensures nodes { OnOk result (AreNodes view.now active_nodes.new.nodes) }
    ensures size { active_nodes.new.size ≡ active_nodes.old.size }
    ensures reserved { vec_len tables.new.group ≡ vec_len tables.old.group }
    ensures few { OnOk result (block_count blocks.new ≤ 2 ^ 31) }
    ensures kept { OnOk result (StayIndexBlocks view.now blocks.old blocks.new) }
    ensures more { OnOk result (HasMore blocks.old blocks.new active_nodes.new.nodes) }
{
    let moved = split(alloc, view, Side::Parents, blocks, active_nodes, tables)?;
    active_nodes.clear();
    activate_moved(active_nodes, blocks, view, Side::Parents, &moved)?;
    // Called for its contract: there are at most 2^31 blocks.
    let _known = blocks.count();
    Ok(())
}

// The partition into classes of full bisimilarity, from one on the way there.
fn settle_by_parents(
    alloc: Global,
    view: &GraphView<'_>,
    mut blocks: Blocks,
    mut active_nodes: NodeSet,
) -> Result<Blocks, Memory>
    requires refined { IsRefined view.now parents_alone (Bisim (shape_of view.now)) blocks.block_of (λ t. has active_nodes.nodes) }
    requires nodes { AreNodes view.now active_nodes.nodes }
    requires size { active_nodes.size ≡ length view.now.allocated }
    ensures labelled { IfOk result (λ p. AreLabelled view.now blocks → AreLabelled view.now p) }
    ensures inhabited { IfOk result (λ p. AreInhabited blocks → AreInhabited p) }
    ensures agrees { IfOk result (λ p. Agrees (shape_of view.now) p.block_of (Bisim (shape_of view.now))) }
{
    let mut tables = Tables::new(alloc, view.size())?;
    'rounds: while !active_nodes.is_empty() {
        round(alloc, view, &mut blocks, &mut active_nodes, &mut tables)?;
    }
    Ok(blocks)
}

// The partition into classes of full bisimilarity, by rounds from the one by labels on.
fn by_rounds(alloc: Global, view: &GraphView<'_>) -> Result<Blocks, Memory>
    ensures agrees { IfOk result (λ p. Agrees (shape_of view.now) p.block_of (Bisim (shape_of view.now))) }
    ensures labelled { IfOk result (AreLabelled view.now) }
    ensures inhabited { IfOk result AreInhabited }
{
    let labels = by_labels(alloc, view)?;
    let active_nodes = all_active_nodes(alloc, view, &labels)?;
    let blocks = settle_by_parents(alloc, view, labels, active_nodes)?;
    Ok(blocks)
}

// The same, by one pass over the nodes where the graph has no cycle.
fn classes(alloc: Global, view: &GraphView<'_>) -> Result<Blocks, Memory>
    ensures agrees { IfOk result (λ p. Agrees (shape_of view.now) p.block_of (Bisim (shape_of view.now))) }
    ensures labelled { IfOk result (AreLabelled view.now) }
    ensures inhabited { IfOk result AreInhabited }
{
    match by_order(alloc, view)? {
        Some(blocks) => Ok(blocks),
        None => by_rounds(alloc, view),
    }
}

/// The coarsest partition that is stable under parents: its blocks are the classes of full bisimilarity.
///
/// Where the graph has no cycle, one pass numbers the nodes in an order in which parents come first, each by its label
/// and the blocks of its parents. Where it has a cycle anywhere, that pass is lost, and the whole partition is made by
/// rounds over active nodes: at first nodes of one label are together, and all are active. After a round those are active of
/// which a parent went to another block, unless they are alone in theirs. In each block the largest group of them keeps
/// the block's number, where no other member is left. There are at most as many rounds as blocks.
///
/// Expected O(n + m log d) for n node numbers, m edges and at most d parents of a node where the graph has no cycle,
/// else O(r (n + m log d)) at most for r rounds; it takes O(n + m) memory.
pub fn full_bisimulation(alloc: Global, view: &GraphView<'_>) -> Result<Blocks, Memory>
    ensures agrees { IfOk result (λ p. Agrees (shape_of view.now) p.block_of (Bisim (shape_of view.now))) }
    ensures fits { IfOk result (FitsWithSupports view.now) }
{
    // Called for its contract: what is seen is a graph.
    let _known = view.created();
    let blocks = classes(alloc, view)?;
    Ok(blocks)
}
