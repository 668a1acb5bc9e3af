// The key of a node, read off the tables of a partition.
ghost use Rattle.std.specs.Prelude.{◌≡◌, ◌∷◌, [], ℕ, List, Some, IfOk, IfSome, IsSome};
ghost use Rattle.graph_spec.specs.Graphs.{IsGraph};
ghost use Rattle.graph_spec.specs.Members.{at};
ghost use Rattle.label_graph.specs.GraphViews.{label_number};
ghost use Rattle.key_table.specs.NumberedKeys.{AreDistinct, Interns};
ghost use Rattle.bisim_spec.specs.NodeKeys.{IsWritten};
ghost use Rattle.block_splitting.specs.Groups.{NeighbourKey, InternsSome};

use bisim_levels::{RecentKeys, neighbours, write_key};
use bisim_spec::Side;
use block_partition::Blocks;
use label_graph::GraphView;
use px_base::{Memory, NodeId};

// The block of the only node of a list, and `None` where there are more nodes, or none, or where that node has no block.
#[inline(always)]
fn single_block(blocks: &Blocks, nodes: &[NodeId]) -> Option<u32>
    ensures { IfSome result (λ b. (p : ℕ) × (nodes.now ≡ p ∷ []) × (at blocks.now.block_of p ≡ Some b)) }
{
    if nodes.len() == 1 {
        blocks.block_of(nodes[0])
    } else {
        None
    }
}

// The number of the key of a node with these neighbours, whose own block has this number. In a graph of triples most
// nodes have one neighbour on a side, and their keys are neither gathered nor sorted.
#[inline(always)]
fn find_key(
    keys: &mut RecentKeys,
    key: &mut Vec<u32>,
    blocks: &Blocks,
    nodes: &[NodeId],
    number: u32,
) -> Result<u32, Memory>
    ensures ok { IfOk result (λ k. (key : List ℕ) × IsWritten (at blocks.now.block_of) nodes.now number key × Interns keys.old keys.new key k) }
    ensures distinct { IfOk result (λ k. AreDistinct keys.new) }
{
    if let Some(around) = single_block(blocks, nodes) {
        return keys.intern_pair(number, around);
    }
    write_key(key, nodes, number, |m| blocks.block_of(m))?;
    keys.intern(key)
}

/// The number of a node's key: its own block, and then the blocks of its neighbours on a side, rising,
/// each once.
pub(crate) fn key_number(
    keys: &mut RecentKeys,
    key: &mut Vec<u32>,
    view: &GraphView<'_>,
    side: Side,
    blocks: &Blocks,
    n: NodeId,
) -> Result<u32, Memory>
    requires graph { IsGraph view.now }
    requires node { IsSome (label_number view.now n) }
    requires has { IsSome (at blocks.now.block_of n) }
    ensures ok { IfOk result (λ k. InternsSome (NeighbourKey view.now side blocks.now.block_of n) keys.old keys.new k) }
    ensures distinct { IfOk result (λ k. AreDistinct keys.new) }
{
    let Some(number) = blocks.block_of(n) else {
        unreachable!()
    };
    find_key(keys, key, blocks, neighbours(view, side, n), number)
}
