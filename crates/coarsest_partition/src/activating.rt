// The nodes that are active next.
ghost use Rattle.std.specs.Prelude.{◌≡◌, ◌<◌, ◌||◌, ◌&&◌, not, nat_eq, ℕ, true, IsSome, OnOk, length};
ghost use Rattle.std.specs.List.{list_any};
ghost use Rattle.graph_spec.specs.Graphs.{IsGraph};
ghost use Rattle.graph_spec.specs.Members.{has, Lists};
ghost use Rattle.label_graph.specs.GraphViews.{label_number};
ghost use Rattle.block_splitting.specs.Nodes.{AreNodes};
ghost use Rattle.coarsest_partition.specs.SingletonBlocks.{is_alone, Activates};
ghost use Rattle.bisim_levels.specs.NeighbourSides.{is_neighbour};

use bisim_spec::Side;
use block_partition::Blocks;
use block_splitting::{NodeSet, opposite_neighbours};
use label_graph::GraphView;
use px_base::{Memory, NodeId};

// Whether the node is alone in its block.
fn is_lone(blocks: &Blocks, n: NodeId) -> bool
    ensures { result ≡ is_alone blocks.now n }
{
    match blocks.block_of(n) {
        Some(b) => blocks.member_count(b) == 1,
        None => false,
    }
}

// Makes a node active, unless it is alone in its block.
fn add_shared(active_nodes: &mut NodeSet, blocks: &Blocks, n: NodeId) -> Result<(), Memory>
    requires below { n < active_nodes.old.size }
    ensures size { active_nodes.new.size ≡ active_nodes.old.size }
    ensures nodes { OnOk result ((m : ℕ) → has active_nodes.new.nodes m ≡ (has active_nodes.old.nodes m || (nat_eq m n && not (is_alone blocks.now m)))) }
{
    if is_lone(blocks, n) {
        return Ok(());
    }
    active_nodes.add(n)
}

// Makes nodes active that aren't alone.
fn activate_shared(
    active_nodes: &mut NodeSet,
    blocks: &Blocks,
    nodes: &[NodeId],
) -> Result<(), Memory>
    requires below { (m : ℕ) → has nodes.now m ≡ true → m < active_nodes.old.size }
    ensures size { active_nodes.new.size ≡ active_nodes.old.size }
    ensures nodes { OnOk result ((m : ℕ) → has active_nodes.new.nodes m ≡
        (has active_nodes.old.nodes m || (has nodes.now m && not (is_alone blocks.now m)))) }
{
    for n in nodes {
        add_shared(active_nodes, blocks, *n)?;
    }
    Ok(())
}

// Makes the nodes active of which this one is a neighbour on a side, and that aren't alone.
fn activate_around(
    active_nodes: &mut NodeSet,
    blocks: &Blocks,
    view: &GraphView<'_>,
    side: Side,
    q: NodeId,
) -> Result<(), Memory>
    requires graph { IsGraph view.now }
    requires node { IsSome (label_number view.now q) }
    requires size { active_nodes.old.size ≡ length view.now.allocated }
    ensures size { active_nodes.new.size ≡ active_nodes.old.size }
    ensures nodes { OnOk result (Activates (λ m. is_neighbour side view.now q m) blocks.now active_nodes.old.nodes active_nodes.new.nodes) }
{
    activate_shared(active_nodes, blocks, opposite_neighbours(view, side, q))
}

// Makes the nodes active that have one of these as a neighbour on a side, unless they are alone in their
// block, which no round can split.
fn activate_each(
    active_nodes: &mut NodeSet,
    blocks: &Blocks,
    view: &GraphView<'_>,
    side: Side,
    moved: &[NodeId],
) -> Result<(), Memory>
    requires graph { IsGraph view.now }
    requires nodes { AreNodes view.now moved.now }
    requires size { active_nodes.old.size ≡ length view.now.allocated }
    ensures size { active_nodes.new.size ≡ active_nodes.old.size }
    ensures nodes { OnOk result (Activates (λ m. list_any (λ q. is_neighbour side view.now q m) moved.now) blocks.now
        active_nodes.old.nodes active_nodes.new.nodes) }
{
    for q in moved {
        activate_around(active_nodes, blocks, view, side, *q)?;
    }
    Ok(())
}

/// Makes the nodes active that have one of these as a neighbour on a side, unless they are alone in their
/// block, which no round can split. Where they are many, they are in rising order then.
pub(crate) fn activate_moved(
    active_nodes: &mut NodeSet,
    blocks: &Blocks,
    view: &GraphView<'_>,
    side: Side,
    moved: &[NodeId],
) -> Result<(), Memory>
    requires graph { IsGraph view.now }
    requires nodes { AreNodes view.now moved.now }
    requires size { active_nodes.old.size ≡ length view.now.allocated }
    ensures size { active_nodes.new.size ≡ active_nodes.old.size }
    ensures nodes { OnOk result (Activates (λ m. list_any (λ q. is_neighbour side view.now q m) moved.now) blocks.now
        active_nodes.old.nodes active_nodes.new.nodes) }
{
    activate_each(active_nodes, blocks, view, side, moved)?;
    active_nodes.order()?;
    Ok(())
}
