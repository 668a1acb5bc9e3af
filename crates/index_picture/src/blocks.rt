// The blocks that are drawn.
ghost use Rattle.std.specs.Prelude.{◌≡◌, ◌<◌, ◌≤◌, ◌+◌, ◌++◌, ◌∷◌, [], IsSome, OnOk, IfOk, Some, length};
ghost use Rattle.graph_spec.specs.Members as members;
ghost use Rattle.index_picture.specs.DrawnBlocks as drawn;
ghost use Rattle.index_picture.specs.DrawnBlocks.{block_begun_by, blocks_of, no_block, lightest, without_lightest, heaviest_with, drawn_blocks, labels_used, labels_with, with_label};
ghost use Rattle.index_picture.specs.MetBlocks.{AreMet};

use label_graph::Digraph;
use px_base::{Memory, NodeId};
use quotient::Summary;
use std::alloc::Global;

/// A block as it is drawn.
#[derive(Clone, Copy)]
pub(crate) struct Block {
    pub(crate) number: u32,
    /// Its least node.
    pub(crate) first: NodeId,
    /// How many nodes it has.
    pub(crate) count: u32,
    /// The number of its label.
    pub(crate) label: u32,
}

// Puts the block of the node behind the others, if no node before was of it.
fn push_begun(
    blocks: &mut Vec<Block>,
    met: &mut [bool],
    summary: &Summary,
    n: NodeId,
) -> Result<(), Memory>
    requires met { AreMet summary.now.blocks n met.old }
    ensures blocks { OnOk result (blocks.new.items ≡ blocks.old.items ++ block_begun_by summary.now.blocks n) }
    ensures met { OnOk result (AreMet summary.now.blocks (n + 1) met.new) }
{
    let Some(b) = summary.block_of(n) else {
        return Ok(());
    };
    if met[b as usize] {
        return Ok(());
    }
    met[b as usize] = true;
    blocks.push(Block {
        number: b,
        first: n,
        count: summary.member_count(b),
        label: summary.label(b),
    })?;
    Ok(())
}

// Puts all blocks behind one another, by rising least nodes.
fn push_blocks(blocks: &mut Vec<Block>, met: &mut [bool], summary: &Summary) -> Result<(), Memory>
    requires met { AreMet summary.now.blocks 0 met.old }
    requires none { blocks.old.items ≡ [] }
    ensures { OnOk result (blocks.new.items ≡ blocks_of summary.now.blocks) }
{
    for n in 0..summary.numbers() {
        push_begun(blocks, met, summary, n)?;
    }
    Ok(())
}

/// All blocks, by rising least nodes. O(s) for s node numbers; it takes 16 bytes a block, and one for each block number.
pub(crate) fn all_blocks(alloc: Global, summary: &Summary) -> Result<Vec<Block>, Memory>
    ensures { IfOk result (λ b. b.items ≡ blocks_of summary.now.blocks) }
{
    let mut met = vec![in alloc; false; summary.size() as usize]?;
    let mut blocks = Vec::new(alloc);
    push_blocks(&mut blocks, &mut met, summary)?;
    Ok(blocks)
}

// The place of the block with the fewest nodes; of equals the last.
fn smallest(blocks: &[Block]) -> usize
    ensures place { result ≡ lightest (λ b. b.count) no_block blocks.now (length blocks.now) }
    ensures within { 0 < length blocks.now → result < length blocks.now }
{
    let mut place = 0;
    for n in 0..blocks.len() {
        if blocks[n].count <= blocks[place].count {
            place = n;
        }
    }
    place
}

// Takes out the smallest block, if there are more than that many.
fn leave_smallest(blocks: &mut Vec<Block>, most: usize)
    ensures { blocks.new.items ≡ without_lightest most (λ b. b.count) no_block blocks.old.items }
{
    if blocks.len() > most {
        let place = smallest(blocks);
        blocks.remove(place);
    }
}

/// The `most` blocks with the most nodes, in their order; of equals the first. O(b n) for b blocks of which n are
/// taken; it takes 16 bytes for each of them.
pub(crate) fn largest(alloc: Global, blocks: &[Block], most: usize) -> Result<Vec<Block>, Memory>
    ensures { IfOk result (λ l. l.items ≡ drawn.heaviest most (λ b. b.count) no_block blocks.now) }
{
    let mut kept = Vec::new(alloc);
    for block in blocks {
        kept.push(*block)?;
        leave_smallest(&mut kept, most);
    }
    Ok(kept)
}

/// The numbers of the blocks' labels, each once, in the order of their first use. O(n l) for n blocks and l labels; it takes 4
/// bytes a label.
pub(crate) fn labels_of(alloc: Global, blocks: &[Block]) -> Result<Vec<u32>, Memory>
    ensures { IfOk result (λ l. l.items ≡ labels_used blocks.now) }
{
    let mut labels = Vec::new(alloc);
    for block in blocks {
        push_label(&mut labels, block.label)?;
    }
    Ok(labels)
}

// Puts a label behind the others, if it isn't there yet.
fn push_label(labels: &mut Vec<u32>, label: u32) -> Result<(), Memory>
    ensures { OnOk result (labels.new.items ≡ with_label labels.old.items label) }
{
    if !has(labels, label) {
        labels.push(label)?;
    }
    Ok(())
}

fn has(labels: &[u32], label: u32) -> bool
    ensures { result ≡ members.has labels.now label }
{
    labels.iter().any(|l| label == *l)
}
