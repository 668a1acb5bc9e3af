// Blocks that are split by groups of their members.
ghost use Rattle.std.specs.Prelude.{◌≡◌, IfOk, OnErr};
ghost use Rattle.graph_spec.specs.Members.{has};
ghost use Rattle.block_splitting.specs.Moved.{CanPart, AreParted};

use crate::choosing::choose;
use crate::moving::move_nodes;
use crate::nodes::NodeSet;
use crate::retained_groups::{note_all_retained, sizes_of};
use block_partition::Blocks;
use key_table::KeyTable;
use px_base::{Memory, NodeId};
use std::alloc::Global;

/// Splits the blocks of the active nodes by their groups, and answers which nodes went to another block. A group is
/// the number of a key, which begins with the block of the nodes that have it. The largest group of a block keeps the
/// block's number, where all members of the block are active. `retained` is memory to be reused. Where memory runs out, the
/// partition stays.
pub(crate) fn part(
    alloc: Global,
    blocks: &mut Blocks,
    active_nodes: &NodeSet,
    keys: &KeyTable,
    group: &[u32],
    retained: &mut Vec<u32>,
) -> Result<Vec<NodeId>, Memory>
    requires can { CanPart blocks.old (has active_nodes.now.nodes) keys.now group.now }
    ensures parted { IfOk result (λ moved. AreParted blocks.old blocks.new (has active_nodes.now.nodes) keys.now group.now (has moved.items)) }
    ensures err { OnErr result (blocks.new ≡ blocks.old) }
{
    let nodes = active_nodes.nodes();
    let sizes = sizes_of(alloc, keys, nodes, group)?;
    note_all_retained(retained, blocks.span(), keys, &sizes)?;
    let mut moved = Vec::with_capacity(alloc, nodes.len())?;
    let chosen = choose(alloc, blocks, active_nodes, keys, retained)?;
    move_nodes(blocks, &mut moved, nodes, group, &chosen);
    Ok(moved)
}
