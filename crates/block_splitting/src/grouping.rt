// Active nodes, grouped by their keys.
ghost use Rattle.std.specs.Prelude.{◌≡◌, ◌<◌, ℕ, [], true, OnOk, IsSome, length, vec_len};
ghost use Rattle.graph_spec.specs.Graphs.{IsGraph};
ghost use Rattle.graph_spec.specs.Members.{has};
ghost use Rattle.label_graph.specs.GraphViews.{label_number};
ghost use Rattle.block_splitting.specs.Groups.{AreReady, AreGrouped, NeighbourKey};

use crate::keys::key_number;
use bisim_levels::RecentKeys;
use bisim_spec::Side;
use block_partition::Blocks;
use label_graph::GraphView;
use px_base::{Memory, NodeId};

/// Writes for each of the nodes the number of its key.
pub(crate) fn group_nodes(
    keys: &mut RecentKeys,
    key: &mut Vec<u32>,
    group: &mut Vec<u32>,
    view: &GraphView<'_>,
    side: Side,
    blocks: &Blocks,
    nodes: &[NodeId],
) -> Result<(), Memory>
    requires graph { IsGraph view.now }
    requires ready { AreReady view.now blocks.now.block_of (has nodes.now) (vec_len group.old) }
    requires none { keys.old ≡ [] }
    ensures length { vec_len group.new ≡ vec_len group.old }
    ensures grouped { OnOk result (AreGrouped (NeighbourKey view.now side blocks.now.block_of) (has nodes.now) keys.new group.new.items) }
{
    for n in nodes {
        let k = key_number(keys, key, view, side, blocks, *n)?;
        group[*n as usize] = k;
    }
    Ok(())
}
