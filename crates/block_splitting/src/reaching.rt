// The nodes that have given ones as neighbours.
ghost use Rattle.std.specs.Prelude.{◌≡◌, ◌<◌, ◌||◌, ℕ, true, IsSome, OnOk, length};
ghost use Rattle.std.specs.List.{list_any};
ghost use Rattle.graph_spec.specs.Graphs.{IsGraph};
ghost use Rattle.graph_spec.specs.Members.{has, Lists};
ghost use Rattle.label_graph.specs.GraphViews.{label_number};
ghost use Rattle.bisim_levels.specs.NeighbourSides.{is_neighbour};
ghost use Rattle.block_splitting.specs.Nodes.{AreNodes};

use crate::nodes::NodeSet;
use bisim_spec::Side;
use label_graph::{Digraph, GraphView};
use px_base::{Memory, NodeId};

/// The nodes of which this one is a neighbour on a side, each once: its neighbours on the other side. O(1), no memory.
pub fn opposite_neighbours<'a>(view: &'a GraphView<'_>, side: Side, q: NodeId) -> &'a [NodeId]
    requires graph { IsGraph view.now }
    requires node { IsSome (label_number view.now q) }
    ensures { Lists (is_neighbour side view.now q) result.now }
{
    match side {
        Side::Parents => view.children(q),
        Side::Children => view.parents(q),
    }
}

// Adds nodes.
fn add_all(set: &mut NodeSet, nodes: &[NodeId]) -> Result<(), Memory>
    requires below { (m : ℕ) → has nodes.now m ≡ true → m < set.old.size }
    ensures size { set.new.size ≡ set.old.size }
    ensures nodes { OnOk result ((m : ℕ) → has set.new.nodes m ≡ (has set.old.nodes m || has nodes.now m)) }
{
    for n in nodes {
        set.add(*n)?;
    }
    Ok(())
}

// Adds the nodes of which this one is a neighbour on a side.
fn add_opposite(
    set: &mut NodeSet,
    view: &GraphView<'_>,
    side: Side,
    q: NodeId,
) -> Result<(), Memory>
    requires graph { IsGraph view.now }
    requires node { IsSome (label_number view.now q) }
    requires size { set.old.size ≡ length view.now.allocated }
    ensures size { set.new.size ≡ set.old.size }
    ensures nodes { OnOk result ((m : ℕ) → has set.new.nodes m ≡ (has set.old.nodes m || is_neighbour side view.now q m)) }
{
    add_all(set, opposite_neighbours(view, side, q))
}

/// Adds the nodes that have one of these as a neighbour on a side.
pub(crate) fn add_around(
    set: &mut NodeSet,
    view: &GraphView<'_>,
    side: Side,
    nodes: &[NodeId],
) -> Result<(), Memory>
    requires graph { IsGraph view.now }
    requires nodes { AreNodes view.now nodes.now }
    requires size { set.old.size ≡ length view.now.allocated }
    ensures size { set.new.size ≡ set.old.size }
    ensures nodes { OnOk result ((m : ℕ) → has set.new.nodes m ≡ (has set.old.nodes m || list_any (λ q. is_neighbour side view.now q m) nodes.now)) }
{
    for q in nodes {
        add_opposite(set, view, side, *q)?;
    }
    Ok(())
}
