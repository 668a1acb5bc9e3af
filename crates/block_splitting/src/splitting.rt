// One round over the active nodes.
ghost use Rattle.std.specs.Prelude.{◌≡◌, ◌≤◌, IfOk, OnErr, length, vec_len};
ghost use Rattle.graph_spec.specs.Graphs.{IsGraph};
ghost use Rattle.graph_spec.specs.Shapes.{shape_of};
ghost use Rattle.graph_spec.specs.Members.{has};
ghost use Rattle.bisim_spec.specs.Partitions.{IsPartition};
ghost use Rattle.block_splitting.specs.Nodes.{AreNodes};
ghost use Rattle.block_splitting.specs.Splits.{IsSplit, HasMore, AreLabelled, AreInhabited};

use crate::grouping::group_nodes;
use crate::nodes::NodeSet;
use crate::parting::part;
use bisim_levels::RecentKeys;
use bisim_spec::Side;
use block_partition::Blocks;
use label_graph::GraphView;
use px_base::{Memory, NodeId};
use std::alloc::Global;

/// Memory that each round reuses: the table of keys, one key, the group of each node, and for each block the group that
/// may keep the block's number. It takes 4 bytes for each node number, 4 to 8 for each block number, and what the keys of
/// the largest round take.
///
/// One round by parents, over the active nodes:
///
///     let mut tables = Tables::new(alloc, view.created())?;
///     let moved = split(alloc, &view, Side::Parents, &mut blocks, &active_nodes, &mut tables)?;
#[derive(Drop)]
pub struct Tables {
    pub(crate) keys: RecentKeys,
    pub(crate) key: Vec<u32>,
    pub(crate) group: Vec<u32>,
    pub(crate) retained: Vec<u32>,
}

impl Tables {
    /// Tables for nodes below a size. O(s) for a size s; it takes 4 bytes for each number below it.
    pub fn new(alloc: Global, size: u32) -> Result<Tables, Memory>
        ensures { IfOk result (λ t. vec_len t.group ≡ size) }
    {
        Ok(Tables {
            keys: RecentKeys::new(alloc)?,
            key: Vec::new(alloc),
            group: vec![in alloc; 0; size as usize]?,
            retained: Vec::new(alloc),
        })
    }
}

/// Parts the active nodes from one another by the blocks of their neighbours on a side, and from the other members of their
/// block. Returns the nodes that went to another block. Where memory runs out, the partition stays. The largest part of a block
/// keeps its number, where all members were active.
///
/// Expected O(w + m log d) for w active nodes, with m neighbours, at most d each, whose blocks are sorted, and O(b) more
/// where these tables have not been used yet and there are b block numbers; it takes O(w + m) memory.
pub fn split(
    alloc: Global,
    view: &GraphView<'_>,
    side: Side,
    blocks: &mut Blocks,
    active_nodes: &NodeSet,
    tables: &mut Tables,
) -> Result<Vec<NodeId>, Memory>
    requires graph { IsGraph view.now }
    requires partition { IsPartition (shape_of view.now) blocks.old.block_of }
    requires nodes { AreNodes view.now active_nodes.now.nodes }
    requires reserved { length view.now.allocated ≤ vec_len tables.old.group }
    ensures reserved { vec_len tables.new.group ≡ vec_len tables.old.group }
    ensures split { IfOk result (λ moved. IsSplit view.now side (has active_nodes.now.nodes) blocks.old.block_of blocks.new.block_of (has moved.items)) }
    ensures labelled { IfOk result (λ moved. AreLabelled view.now blocks.old → AreLabelled view.now blocks.new) }
    ensures inhabited { IfOk result (λ moved. AreInhabited blocks.old → AreInhabited blocks.new) }
    ensures more { IfOk result (λ moved. HasMore blocks.old blocks.new moved.items) }
    ensures err { OnErr result (blocks.new ≡ blocks.old) }
{
    // Called for its contract: nodes have live blocks.
    let _known = blocks.span();
    let nodes = active_nodes.nodes();
    let Tables {
        keys,
        key,
        group,
        retained,
    } = tables;
    keys.clear();
    group_nodes(keys, key, group, view, side, blocks, nodes)?;
    let moved = part(alloc, blocks, active_nodes, keys.table(), group, retained)?;
    Ok(moved)
}
