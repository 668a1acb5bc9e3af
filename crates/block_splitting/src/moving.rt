// Moving the nodes of groups.
ghost use Rattle.std.specs.Prelude.{◌≡◌, ◌+◌, ◌<◌, ◌≤◌, ℕ, [], true, Some, IsSome, length, vec_len, vec_capacity, nat_eq, if◌then◌else◌};
ghost use Rattle.graph_spec.specs.Members.{has, at};
ghost use Rattle.block_partition.specs.LabelledPartitions.{IsBlock, with_move};
ghost use Rattle.block_splitting.specs.Moved.{CanMove, NotesMove, WentToChosen};

use block_partition::Blocks;
use px_base::NodeId;

// Moves a node to a block, and puts it behind the nodes that moved, unless it is there.
fn move_one(blocks: &mut Blocks, moved: &mut Vec<NodeId>, n: NodeId, to: u32)
    requires reserved { vec_len moved.old < vec_capacity moved.old }
    requires has { IsSome (at blocks.old.block_of n) }
    requires block { IsBlock blocks.old to }
    ensures labels { blocks.new.labels ≡ blocks.old.labels }
    ensures nodes { (m : ℕ) → at blocks.new.block_of m ≡ (if nat_eq m n then Some to else at blocks.old.block_of m) }
    ensures capacity { vec_capacity moved.new ≡ vec_capacity moved.old }
    ensures len { vec_len moved.new ≤ vec_len moved.old + 1 }
    ensures moved { NotesMove blocks.old.block_of n to moved.old.items moved.new.items }
{
    if blocks.block_of(n) == Some(to) {
        return;
    }
    moved.push_reserved(n);
    blocks.move_node(n, to);
}

/// Moves nodes to the blocks that are chosen for their groups.
pub(crate) fn move_nodes(
    blocks: &mut Blocks,
    moved: &mut Vec<NodeId>,
    nodes: &[NodeId],
    group: &[u32],
    chosen: &[u32],
)
    requires can { CanMove blocks.old (has nodes.now) group.now chosen.now }
    requires none { moved.old.items ≡ [] }
    requires reserved { length nodes.now ≤ vec_capacity moved.old }
    ensures labels { blocks.new.labels ≡ blocks.old.labels }
    ensures moved { WentToChosen (has nodes.now) group.now chosen.now blocks.old.block_of blocks.new.block_of (has moved.new.items) }
{
    for n in nodes {
        let to = chosen[group[*n as usize] as usize];
        move_one(blocks, moved, *n, to);
    }
}
