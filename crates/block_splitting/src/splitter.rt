// Blocks that are split by a set of nodes.
ghost use Rattle.std.specs.Prelude.{◌≡◌, ◌<◌, ◌≤◌, [], true, IsSome, IfOk, OnOk, OnErr, length, vec_len};
ghost use Rattle.graph_spec.specs.Graphs.{IsGraph};
ghost use Rattle.graph_spec.specs.Shapes.{shape_of};
ghost use Rattle.graph_spec.specs.Members.{has, at};
ghost use Rattle.key_table.specs.NumberedKeys.{AreDistinct};
ghost use Rattle.bisim_spec.specs.Partitions.{IsPartition};
ghost use Rattle.block_splitting.specs.Nodes.{AreNodes};
ghost use Rattle.block_splitting.specs.Groups.{AreReady, InternsSome};
ghost use Rattle.block_splitting.specs.Splits.{AreInhabited};
ghost use Rattle.block_splitting.specs.Splitters.{bit_of, AreTouched, IsSplitBy, KeepLabels, TouchedKey, AreTouchGroups};

use crate::nodes::NodeSet;
use crate::parting::part;
use crate::reaching::add_around;
use bisim_spec::Side;
use block_partition::Blocks;
use key_table::KeyTable;
use label_graph::{Digraph, GraphView};
use px_base::{Memory, NodeId};
use std::alloc::Global;

// What a splitter touches: the nodes that have a parent in it, those that have a child there, and both
// together.
#[derive(Drop)]
struct Touched {
    parents: NodeSet,
    children: NodeSet,
    all: NodeSet,
}

fn touch(alloc: Global, view: &GraphView<'_>, splitter: &[NodeId]) -> Result<Touched, Memory>
    requires nodes { AreNodes view.now splitter.now }
    ensures { IfOk result (λ t. AreTouched view.now splitter.now t.parents.nodes t.children.nodes t.all.nodes) }
{
    let mut parents = NodeSet::new(alloc, view.size())?;
    add_around(&mut parents, view, Side::Parents, splitter)?;
    let mut children = NodeSet::new(alloc, view.size())?;
    add_around(&mut children, view, Side::Children, splitter)?;
    let mut all = NodeSet::new(alloc, view.size())?;
    add_around(&mut all, view, Side::Parents, splitter)?;
    add_around(&mut all, view, Side::Children, splitter)?;
    Ok(Touched {
        parents,
        children,
        all,
    })
}

fn bit(flag: bool) -> u32
    ensures { result ≡ bit_of flag }
{
    if flag { 1 } else { 0 }
}

// The number of a node's key: its own block, whether it has a parent in the splitter, and whether a child.
fn flag_number(
    keys: &mut KeyTable,
    touched: &Touched,
    blocks: &Blocks,
    n: NodeId,
) -> Result<u32, Memory>
    requires has { IsSome (at blocks.now.block_of n) }
    ensures ok { IfOk result (λ k. InternsSome (TouchedKey touched.now.parents touched.now.children blocks.now.block_of n) keys.old keys.new k) }
    ensures distinct { IfOk result (λ k. AreDistinct keys.new) }
{
    let Some(number) = blocks.block_of(n) else {
        unreachable!()
    };
    let first = bit(touched.parents.contains(n));
    let second = bit(touched.children.contains(n));
    keys.intern(&[number, first, second])
}

// Writes for each touched node the number of its key.
fn group_touched(
    keys: &mut KeyTable,
    group: &mut Vec<u32>,
    touched: &Touched,
    view: &GraphView<'_>,
    blocks: &Blocks,
    nodes: &[NodeId],
) -> Result<(), Memory>
    requires ready { AreReady view.now blocks.now.block_of (has nodes.now) (vec_len group.old) }
    requires none { keys.old ≡ [] }
    ensures length { vec_len group.new ≡ vec_len group.old }
    ensures grouped { OnOk result (AreTouchGroups touched.now.parents touched.now.children blocks.now.block_of (has nodes.now) keys.new group.new.items) }
{
    for n in nodes {
        let k = flag_number(keys, touched, blocks, *n)?;
        group[*n as usize] = k;
    }
    Ok(())
}

/// Splits each block by whether its members have a parent in the splitter, and by whether they have a
/// child there. Where memory runs out, the partition stays.
///
/// Expected O(n + b + m) for n numbers of nodes, b numbers of blocks and m edges at the splitter; it takes 7 bytes for each
/// node number, 4 to 8 for each block number, and O(t) for t nodes at these edges.
pub fn split_by(
    alloc: Global,
    blocks: &mut Blocks,
    view: &GraphView<'_>,
    splitter: &[NodeId],
) -> Result<(), Memory>
    requires partition { IsPartition (shape_of view.now) blocks.old.block_of }
    requires nodes { AreNodes view.now splitter.now }
    ensures split { OnOk result (IsSplitBy view.now blocks.old.block_of blocks.new.block_of (has splitter.now)) }
    ensures partition { OnOk result (IsPartition (shape_of view.now) blocks.new.block_of) }
    ensures labels { OnOk result (KeepLabels blocks.old blocks.new) }
    ensures inhabited { OnOk result (AreInhabited blocks.old → AreInhabited blocks.new) }
    ensures err { OnErr result (blocks.new ≡ blocks.old) }
{
    // Called for its contract: nodes have live blocks.
    let _known = blocks.span();
    let touched = touch(alloc, view, splitter)?;
    let nodes = touched.all.nodes();
    let mut keys = KeyTable::new(alloc)?;
    let mut group = vec![in alloc; 0; view.size() as usize]?;
    group_touched(&mut keys, &mut group, &touched, view, blocks, nodes)?;
    let mut retained = Vec::new(alloc);
    part(alloc, blocks, &touched.all, &keys, &group, &mut retained)?;
    Ok(())
}
