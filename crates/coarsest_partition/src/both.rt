// Rounds by parents and by children in turn.
ghost use Rattle.std.specs.Prelude.{◌≡◌, ◌<◌, ◌≤◌, ◌^◌, ◌&&◌, nat_eq, IfOk, OnOk, length, vec_len};
ghost use Rattle.graph_spec.specs.Graphs.{IsGraph};
ghost use Rattle.bisim_spec.specs.Bisimilarity.{SameLabel, FB};
ghost use Rattle.bisim_spec.specs.Partitions.{Agrees};
ghost use Rattle.graph_spec.specs.Shapes.{shape_of};
ghost use Rattle.block_partition.specs.LabelledPartitions.{block_count};
ghost use Rattle.block_splitting.specs.Nodes.{AreNodes};
ghost use Rattle.block_splitting.specs.Splits.{AreLabelled, AreInhabited};
ghost use Rattle.coarsest_partition.specs.IndexBlocks.{FitsWithSupports, StayIndexBlocks};
ghost use Rattle.coarsest_partition.specs.ActiveSides.{other_of, AreBothSidesActive, AreActive, IsStepOn, CanRefine, HasMoreOrSettles};

use crate::activating::activate_moved;
use crate::labels::by_labels;
use crate::rounds::all_active_nodes;
use bisim_spec::Side;
use block_partition::Blocks;
use block_splitting::{NodeSet, Tables, split};
use label_graph::{Digraph, GraphView};
use px_base::Memory;
use std::alloc::Global;

// The other side.
fn opposite(side: Side) -> Side
    ensures { result ≡ other_of side }
{
    match side {
        Side::Parents => Side::Children,
        Side::Children => Side::Parents,
    }
}

// Whether nothing is active on either side.
fn are_empty(parents: &NodeSet, children: &NodeSet) -> bool
    ensures { result ≡ (nat_eq (length parents.now.nodes) 0 && nat_eq (length children.now.nodes) 0) }
{
    parents.is_empty() && children.is_empty()
}

// One round on a side, where some nodes are active on this one and others on the other.
fn round_on(
    alloc: Global,
    view: &GraphView<'_>,
    side: Side,
    blocks: &mut Blocks,
    own: &mut NodeSet,
    other: &mut NodeSet,
    tables: &mut Tables,
) -> Result<(), Memory>
    requires refine { CanRefine view.now blocks.old.block_of (vec_len tables.old.group) }
    requires own { AreActive view.now own.old }
    requires other { AreActive view.now other.old }
    ensures step { OnOk result (IsStepOn view.now side blocks.old.block_of blocks.new.block_of own.old other.old own.new other.new) }
    ensures own { OnOk result (AreNodes view.now own.new.nodes) }
    ensures other { OnOk result (AreNodes view.now other.new.nodes) }
    ensures own_size { own.new.size ≡ own.old.size }
    ensures other_size { other.new.size ≡ other.old.size }
    ensures reserved { vec_len tables.new.group ≡ vec_len tables.old.group }
    ensures few { OnOk result (block_count blocks.new ≤ 2 ^ 31) }
    ensures kept { OnOk result (StayIndexBlocks view.now blocks.old blocks.new) }
    ensures more { OnOk result (HasMoreOrSettles blocks.old blocks.new own.new other.old other.new) }
{
    let moved = split(alloc, view, side, blocks, own, tables)?;
    own.clear();
    activate_moved(own, blocks, view, side, &moved)?;
    activate_moved(other, blocks, view, opposite(side), &moved)?;
    // Called for its contract: there are at most 2^31 blocks.
    let _known = blocks.count();
    Ok(())
}

// Rounds by parents and rounds by children take turns until no node is active, from the partition by labels on.
fn take_turns(
    alloc: Global,
    view: &GraphView<'_>,
    blocks: &mut Blocks,
    parents: &mut NodeSet,
    children: &mut NodeSet,
    tables: &mut Tables,
) -> Result<(), Memory>
    requires start { AreBothSidesActive view.now blocks.old.block_of parents.old children.old }
    requires reserved { length view.now.allocated ≤ vec_len tables.old.group }
    ensures labelled { OnOk result (AreLabelled view.now blocks.old → AreLabelled view.now blocks.new) }
    ensures inhabited { OnOk result (AreInhabited blocks.old → AreInhabited blocks.new) }
    ensures agrees { OnOk result (Agrees (shape_of view.now) blocks.new.block_of (FB (shape_of view.now))) }
{
    'rounds: while !are_empty(parents, children) {
        round_on(
            alloc,
            view,
            Side::Parents,
            blocks,
            parents,
            children,
            tables,
        )?;
        round_on(
            alloc,
            view,
            Side::Children,
            blocks,
            children,
            parents,
            tables,
        )?;
    }
    Ok(())
}

// The same, with tables of its own.
fn settle_active(
    alloc: Global,
    view: &GraphView<'_>,
    blocks: &mut Blocks,
    parents: &mut NodeSet,
    children: &mut NodeSet,
) -> Result<(), Memory>
    requires start { AreBothSidesActive view.now blocks.old.block_of parents.old children.old }
    ensures labelled { OnOk result (AreLabelled view.now blocks.old → AreLabelled view.now blocks.new) }
    ensures inhabited { OnOk result (AreInhabited blocks.old → AreInhabited blocks.new) }
    ensures agrees { OnOk result (Agrees (shape_of view.now) blocks.new.block_of (FB (shape_of view.now))) }
{
    let mut tables = Tables::new(alloc, view.size())?;
    take_turns(alloc, view, blocks, parents, children, &mut tables)
}

// The partition into classes of bisimilarity both ways, from the one by labels.
fn settle_both_ways(alloc: Global, view: &GraphView<'_>, blocks: &mut Blocks) -> Result<(), Memory>
    requires labels { Agrees (shape_of view.now) blocks.old.block_of (SameLabel (shape_of view.now)) }
    ensures graph { OnOk result (IsGraph view.now) }
    ensures labelled { OnOk result (AreLabelled view.now blocks.old → AreLabelled view.now blocks.new) }
    ensures inhabited { OnOk result (AreInhabited blocks.old → AreInhabited blocks.new) }
    ensures agrees { OnOk result (Agrees (shape_of view.now) blocks.new.block_of (FB (shape_of view.now))) }
{
    let mut parents = all_active_nodes(alloc, view, blocks)?;
    let mut children = all_active_nodes(alloc, view, blocks)?;
    settle_active(alloc, view, blocks, &mut parents, &mut children)
}

/// The coarsest partition that is stable under parents and under children: its blocks are the classes of full
/// bisimilarity both ways.
///
/// Rounds by parents and rounds by children take turns, each over the nodes that are active on its side: at first all, and then
/// those of which a neighbour there went to another block, unless they are alone in their own. There are at most twice as
/// many rounds as blocks. Expected O(r (n + m log d)) for r rounds, n node numbers, m edges and at most d neighbours of a
/// node on a side; it takes O(n + m) memory.
pub fn full_bisimulation_both_ways(alloc: Global, view: &GraphView<'_>) -> Result<Blocks, Memory>
    ensures agrees { IfOk result (λ p. Agrees (shape_of view.now) p.block_of (FB (shape_of view.now))) }
    ensures fits { IfOk result (FitsWithSupports view.now) }
{
    let mut blocks = by_labels(alloc, view)?;
    settle_both_ways(alloc, view, &mut blocks)?;
    Ok(blocks)
}
