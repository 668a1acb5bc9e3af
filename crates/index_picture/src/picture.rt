// The picture of an index.
ghost use Rattle.std.specs.Prelude.{◌≡◌, ◌<◌, ◌++◌, ◌-◌, OnOk, IfOk, length};
ghost use Rattle.graph_spec.specs.Graphs.{has_edge};
ghost use Rattle.quotient.specs.Quotients.{pair_count};
ghost use Rattle.index_picture.specs.DrawnBlocks.{blocks_of, drawn_blocks, drawn_pairs};
ghost use Rattle.index_picture.specs.Pictures as picture;
ghost use Rattle.index_picture.specs.PictureLaws.{HasDrawnLines};

use crate::blocks::{Block, all_blocks, labels_of, largest};
use crate::lines::{push_blocks, push_note, push_pairs};
use crate::names::NodeNames;
use crate::pairs::{Pair, pairs_between, strongest};
use label_graph::Graph;
use px_base::{Memory, Steps};
use quotient::Summary;
use std::alloc::Global;
use std::marker::Brand;
use std::sync::ledger::{Blank, Ledger};

const HEAD: &[u8] = b"digraph pathindex {\n  rankdir=TB; nodesep=0.25; ranksep=0.45;\n\
\x20 node [fontname=\"Helvetica\" fontsize=11 shape=box style=\"filled,rounded\" penwidth=0.8 margin=\"0.12,0.06\"];\n\
\x20 edge [fontname=\"Helvetica\" fontsize=9 arrowsize=0.7 color=\"#555555\"];\n";

// Appends the lines of blocks.
fn push_boxes(
    alloc: Global,
    out: &mut Vec<u8>,
    graph: &Graph,
    summary: &Summary,
    names: &NodeNames,
    most: u32,
    blocks: &[Block],
) -> Result<(), Memory>
    ensures { OnOk result (out.new.items ≡ out.old.items ++ picture.block_lines graph.now.graph.seen names.now most summary.now.blocks blocks.now) }
{
    let used = labels_of(alloc, blocks)?;
    push_blocks(
        alloc,
        out,
        graph.labels(),
        names,
        most,
        summary,
        &used,
        blocks,
    )
}

// Appends the lines of pairs, and counts no steps.
fn push_arrows<L: Ledger>(
    out: &mut Vec<u8>,
    graph: &Graph,
    summary: &Summary,
    pairs: &[Pair],
    blank: Blank,
) -> Result<(), Memory>
    requires name { blank.name ≡ L.name }
    requires parts { blank.parts ≡ L.parts }
    requires some { 0 < blank.parts }
    ensures { OnOk result (out.new.items ≡ out.old.items ++ picture.pair_lines (has_edge graph.now.graph) summary.now.blocks pairs.now) }
{
    let mut steps = Steps::<L>::new(blank);
    push_pairs(out, graph, summary, pairs, &mut steps)
}

// Appends what is drawn.
fn push_drawn(
    alloc: Global,
    out: &mut Vec<u8>,
    graph: &Graph,
    summary: &Summary,
    names: &NodeNames,
    most: u32,
    blocks: &[Block],
    pairs: &[Pair],
) -> Result<(), Memory>
    ensures { OnOk result (out.new.items ≡ out.old.items
        ++ (picture.block_lines graph.now.graph.seen names.now most summary.now.blocks blocks.now
        ++ picture.pair_lines (has_edge graph.now.graph) summary.now.blocks pairs.now)) }
{
    push_boxes(alloc, out, graph, summary, names, most, blocks)?;
    push_arrows::<Brand>(out, graph, summary, pairs, Blank::new(1))?;
    Ok(())
}

// The blocks that are drawn, and how many aren't.
fn choose_blocks(alloc: Global, summary: &Summary, most: usize) -> Result<(Vec<Block>, u64), Memory>
    ensures drawn { IfOk result (λ r. r.0.items ≡ drawn_blocks most summary.now.blocks) }
    ensures others { IfOk result (λ r. r.1 ≡ length (blocks_of summary.now.blocks) - length (drawn_blocks most summary.now.blocks)) }
{
    let all = all_blocks(alloc, summary)?;
    let blocks = largest(alloc, &all, most)?;
    let others = all.len().saturating_sub(blocks.len()) as u64;
    Ok((blocks, others))
}

// The pairs of these blocks that are drawn.
fn choose_pairs(
    alloc: Global,
    summary: &Summary,
    blocks: &[Block],
    most: u32,
) -> Result<Vec<Pair>, Memory>
    ensures { IfOk result (λ p. blocks.now ≡ drawn_blocks most summary.now.blocks → p.items ≡ drawn_pairs most summary.now) }
{
    let all = pairs_between(alloc, summary, blocks)?;
    let pairs = strongest(alloc, &all, most as usize * 2)?;
    Ok(pairs)
}

// How many pairs there are beside these.
fn others_of(summary: &Summary, pairs: &[Pair]) -> u64
    ensures { result ≡ pair_count summary.now.supports - length pairs.now }
{
    summary.pairs().saturating_sub(pairs.len() as u64)
}

// Appends how many blocks and pairs aren't drawn, and the end.
fn push_end(out: &mut Vec<u8>, blocks: u64, pairs: u64) -> Result<(), Memory>
    ensures { OnOk result (out.new.items ≡ out.old.items ++ (picture.note_line blocks pairs ++ picture.tail_text)) }
{
    push_note(out, blocks, pairs)?;
    out.extend_from_slice(b"}\n")?;
    Ok(())
}

// The picture in which these blocks and pairs are drawn, and so many aren't.
fn draw(
    alloc: Global,
    graph: &Graph,
    summary: &Summary,
    names: &NodeNames,
    most: u32,
    blocks: &[Block],
    pairs: &[Pair],
    other_blocks: u64,
    other_pairs: u64,
) -> Result<Vec<u8>, Memory>
    ensures { IfOk result (λ t. t.items ≡ picture.drawn_text graph.now.graph summary.now names.now most blocks.now pairs.now other_blocks other_pairs) }
{
    let mut out = Vec::new(alloc);
    out.extend_from_slice(HEAD)?;
    push_drawn(alloc, &mut out, graph, summary, names, most, blocks, pairs)?;
    push_end(&mut out, other_blocks, other_pairs)?;
    Ok(out)
}

// The picture of an index.
fn text_of(
    alloc: Global,
    graph: &Graph,
    summary: &Summary,
    names: &NodeNames,
    most_blocks: u32,
    most_members: u32,
) -> Result<Vec<u8>, Memory>
    ensures { IfOk result (λ t. t.items ≡ picture.dot_text graph.now.graph summary.now names.now most_blocks most_members) }
{
    let (blocks, others) = choose_blocks(alloc, summary, most_blocks as usize)?;
    let pairs = choose_pairs(alloc, summary, &blocks, most_blocks)?;
    let other_pairs = others_of(summary, &pairs);
    let text = draw(
        alloc,
        graph,
        summary,
        names,
        most_members,
        &blocks,
        &pairs,
        others,
        other_pairs,
    )?;
    Ok(text)
}

/// The picture of an index of a graph, as a text for Graphviz, in UTF-8 as labels and names are. Of the blocks the `most_blocks` with the
/// most nodes are drawn, and of their pairs twice as many, those of the greatest support. A box says the end of a block's label, how many
/// nodes it has if it has more than one, and the names of the first `most_members` of them, by rising numbers. An edge has its
/// support if that is more than 1, and is dashed unless each node of the lower block has a parent in the upper one.
///
/// O(b n + n s + n (s + e)) for b blocks of which n are drawn, s node numbers and e edges; it takes 16 bytes a block, 36 for each pair of
/// blocks that are drawn, and the memory of the text.
pub fn dot_text(
    alloc: Global,
    graph: &Graph,
    summary: &Summary,
    names: &NodeNames,
    most_blocks: u32,
    most_members: u32,
) -> Result<Vec<u8>, Memory>
    ensures text { IfOk result (λ t. t.items ≡ picture.dot_text graph.now.graph summary.now names.now most_blocks most_members) }
    ensures lines { IfOk result (λ t. HasDrawnLines graph.now.graph summary.now names.now most_blocks most_members t.items) }
{
    let text = text_of(alloc, graph, summary, names, most_blocks, most_members)?;
    Ok(text)
}
