// The nodes of a block that are named.
ghost use Rattle.std.specs.Prelude.{◌≡◌, ◌<◌, IfOk, length};
ghost use Rattle.block_partition.specs.LabelledPartitions.{is_member};
ghost use Rattle.index_picture.specs.DrawnBlocks.{firsts_below};

use px_base::{Memory, NodeId};
use quotient::Summary;
use std::alloc::Global;

fn is_in(summary: &Summary, b: u32, n: NodeId) -> bool
    ensures { result ≡ is_member summary.now.blocks b n }
{
    match summary.block_of(n) {
        Some(block) => b == block,
        None => false,
    }
}

/// The first members of a block, rising, at most `most` of them. O(s) for s node numbers; it takes 4 bytes a member.
pub(crate) fn first_members(
    alloc: Global,
    summary: &Summary,
    b: u32,
    most: usize,
) -> Result<Vec<NodeId>, Memory>
    ensures { IfOk result (λ l. l.items ≡ firsts_below most (is_member summary.now.blocks b) (length summary.now.blocks.block_of)) }
{
    let mut members = Vec::new(alloc);
    let mut n = 0;
    while n < summary.numbers() && members.len() < most {
        if is_in(summary, b, n) {
            members.push(n)?;
        }
        n += 1;
    }
    Ok(members)
}
