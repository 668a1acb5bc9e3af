// The lines of blocks and of pairs.
ghost use Rattle.std.specs.Prelude.{◌≡◌, ◌<◌, ◌≤◌, ◌++◌, OnOk, IfOk, IsSome, length, nat_eq, unwrap_or, position};
ghost use Rattle.std.specs.List.{flat_map};
ghost use Rattle.graph_spec.specs.Graphs.{has_edge};
ghost use Rattle.graph_spec.specs.Members.{at};
ghost use Rattle.index_picture.specs.QuotedTexts.{quoted};
ghost use Rattle.index_picture.specs.ShownNames.{node_name, short_label};
ghost use Rattle.index_picture.specs.Pictures as picture;

use crate::blocks::Block;
use crate::covered::covers;
use crate::members::first_members;
use crate::names::NodeNames;
use crate::output::{push_node, push_number, push_quoted};
use crate::pairs::Pair;
use crate::shortening::push_label;
use label_graph::{Graph, Labels};
use px_base::{Memory, NodeId, Steps};
use quotient::Summary;
use std::alloc::Global;
use std::sync::ledger::Ledger;

const PALETTE: &[u8] =
    b"#cfe2f3#fce5cd#d9ead3#ead1dc#fff2cc#d9d2e9#d0e0e3#f4cccc#e2f0d9#ddebf7#ededed#fde9d9";

// Appends how a node is shown.
fn push_name(out: &mut Vec<u8>, names: &NodeNames, n: NodeId) -> Result<(), Memory>
    ensures { OnOk result (out.new.items ≡ out.old.items ++ quoted (node_name names.now n)) }
{
    let name = names.get(n);
    if name.is_empty() {
        return push_node(out, n);
    }
    push_quoted(out, name)
}

// Appends nodes, each behind a comma.
fn push_others(out: &mut Vec<u8>, names: &NodeNames, nodes: &[NodeId]) -> Result<(), Memory>
    ensures { OnOk result (out.new.items ≡ out.old.items ++ picture.others_text names.now nodes.now) }
{
    for n in nodes {
        out.extend_from_slice(b", ")?;
        push_name(out, names, *n)?;
    }
    Ok(())
}

// Appends the line of the first nodes.
fn push_members(out: &mut Vec<u8>, names: &NodeNames, nodes: &[NodeId]) -> Result<(), Memory>
    ensures { OnOk result (out.new.items ≡ out.old.items ++ picture.members_text names.now nodes.now) }
{
    match nodes.split_first() {
        Some((first, others)) => {
            out.extend_from_slice(b"\\n")?;
            push_name(out, names, *first)?;
            push_others(out, names, others)?;
            Ok(())
        }
        None => Ok(()),
    }
}

// Appends how many nodes there are beside those that are shown.
fn push_more(out: &mut Vec<u8>, count: u32, shown: usize) -> Result<(), Memory>
    ensures { OnOk result (out.new.items ≡ out.old.items ++ picture.more_text count shown) }
{
    if shown < count as usize {
        out.extend_from_slice(b" and ")?;
        push_number(out, (count as usize - shown) as u64)?;
        out.extend_from_slice(b" more")?;
    }
    Ok(())
}

// Appends the line of the number of nodes.
fn push_count(out: &mut Vec<u8>, count: u32) -> Result<(), Memory>
    ensures { OnOk result (out.new.items ≡ out.old.items ++ picture.count_text count) }
{
    if count != 1 {
        out.extend_from_slice(b"\\n")?;
        push_number(out, u64::from(count))?;
        out.extend_from_slice(b" nodes")?;
    }
    Ok(())
}

// Appends the line of the nodes of a block.
fn push_nodes(
    out: &mut Vec<u8>,
    names: &NodeNames,
    count: u32,
    shown: &[NodeId],
) -> Result<(), Memory>
    ensures { OnOk result (out.new.items ≡ out.old.items ++ picture.nodes_text names.now count shown.now) }
{
    push_members(out, names, shown)?;
    push_more(out, count, shown.len())?;
    Ok(())
}

// The text of a label, and nothing where the number is none of a label.
fn label_text(labels: &Labels, l: u32) -> &[u8]
    ensures { result.now ≡ picture.label_text labels.now.texts l }
{
    if l < labels.len() {
        return labels.text(l).as_bytes();
    }
    &[]
}

// Appends a label as it is shown.
fn push_short(alloc: Global, out: &mut Vec<u8>, label: &[u8]) -> Result<(), Memory>
    ensures { OnOk result (out.new.items ≡ out.old.items ++ quoted (short_label label.now)) }
{
    let mut short = Vec::new(alloc);
    push_label(&mut short, label)?;
    push_quoted(out, short.as_slice())?;
    Ok(())
}

// Appends what the box of a block says.
fn push_box(
    alloc: Global,
    out: &mut Vec<u8>,
    labels: &Labels,
    names: &NodeNames,
    most: u32,
    summary: &Summary,
    block: &Block,
) -> Result<(), Memory>
    ensures { OnOk result (out.new.items ≡ out.old.items ++ picture.box_text labels.now.texts names.now most summary.now.blocks block.now) }
{
    let members = first_members(alloc, summary, block.number, most as usize)?;
    push_short(alloc, out, label_text(labels, block.label))?;
    push_count(out, block.count)?;
    push_nodes(out, names, block.count, &members)?;
    Ok(())
}

// The place of a label among those that are used; 0 if it isn't there.
fn place_of(used: &[u32], l: u32) -> usize
    ensures { result ≡ unwrap_or (position (nat_eq l) used.now) 0 }
{
    match position_of(used, l) {
        Some(place) => place,
        None => 0,
    }
}

fn position_of(used: &[u32], l: u32) -> Option<usize>
    ensures { result ≡ position (nat_eq l) used.now }
{
    used.iter().position(|x| l == *x)
}

// The colour of a label.
fn colour_of(used: &[u32], l: u32) -> &'static [u8]
    ensures { result.now ≡ picture.colour_of used.now l }
{
    let place = place_of(used, l) % 12 * 7;
    &PALETTE[place..place + 7]
}

// Appends the front of a block's line.
fn push_front(
    alloc: Global,
    out: &mut Vec<u8>,
    labels: &Labels,
    names: &NodeNames,
    most: u32,
    summary: &Summary,
    block: &Block,
) -> Result<(), Memory>
    ensures { OnOk result (out.new.items ≡ out.old.items ++ picture.block_front labels.now.texts names.now most summary.now.blocks block.now) }
{
    out.extend_from_slice(b"  \"")?;
    push_node(out, block.first)?;
    out.extend_from_slice(b"\" [label=\"")?;
    push_box(alloc, out, labels, names, most, summary, block)?;
    Ok(())
}

// Appends the rest of it.
fn push_back(out: &mut Vec<u8>, labels: &Labels, used: &[u32], block: &Block) -> Result<(), Memory>
    ensures { OnOk result (out.new.items ≡ out.old.items ++ picture.block_back labels.now.texts used.now block.now) }
{
    out.extend_from_slice(b"\" tooltip=\"")?;
    push_quoted(out, label_text(labels, block.label))?;
    out.extend_from_slice(b"\" fillcolor=\"")?;
    push_quoted(out, colour_of(used, block.label))?;
    out.extend_from_slice(b"\"];\n")?;
    Ok(())
}

// Appends the line of a block.
fn push_block(
    alloc: Global,
    out: &mut Vec<u8>,
    labels: &Labels,
    names: &NodeNames,
    most: u32,
    summary: &Summary,
    used: &[u32],
    block: &Block,
) -> Result<(), Memory>
    ensures { OnOk result (out.new.items ≡ out.old.items ++ picture.block_line labels.now.texts names.now most summary.now.blocks used.now block.now) }
{
    push_front(alloc, out, labels, names, most, summary, block)?;
    push_back(out, labels, used, block)?;
    Ok(())
}

/// Appends the lines of these blocks, with labels that have these numbers.
pub(crate) fn push_blocks(
    alloc: Global,
    out: &mut Vec<u8>,
    labels: &Labels,
    names: &NodeNames,
    most: u32,
    summary: &Summary,
    used: &[u32],
    blocks: &[Block],
) -> Result<(), Memory>
    ensures { OnOk result (out.new.items ≡ out.old.items
        ++ flat_map (picture.block_line labels.now.texts names.now most summary.now.blocks used.now) blocks.now) }
{
    for block in blocks {
        push_block(alloc, out, labels, names, most, summary, used, block)?;
    }
    Ok(())
}

// Appends for how many edges a pair stands.
fn push_support(out: &mut Vec<u8>, support: u32) -> Result<(), Memory>
    ensures { OnOk result (out.new.items ≡ out.old.items ++ picture.support_text support) }
{
    if support != 1 {
        out.extend_from_slice(b" [label=\"")?;
        push_number(out, u64::from(support))?;
        out.extend_from_slice(b"\"]")?;
    }
    Ok(())
}

fn push_dash(out: &mut Vec<u8>, covered: bool) -> Result<(), Memory>
    ensures { OnOk result (out.new.items ≡ out.old.items ++ picture.dash_text covered) }
{
    if !covered {
        out.extend_from_slice(b" [style=dashed]")?;
    }
    Ok(())
}

// Appends the names of two blocks, with an arrow.
fn push_arrow(out: &mut Vec<u8>, pair: &Pair) -> Result<(), Memory>
    ensures { OnOk result (out.new.items ≡ out.old.items ++ picture.arrow_text pair.now) }
{
    out.extend_from_slice(b"  \"")?;
    push_node(out, pair.from.first)?;
    out.extend_from_slice(b"\" -> \"")?;
    push_node(out, pair.onto.first)?;
    out.extend_from_slice(b"\"")?;
    Ok(())
}

// Appends the line of a pair.
fn push_pair<L: Ledger>(
    out: &mut Vec<u8>,
    graph: &Graph,
    summary: &Summary,
    pair: &Pair,
    steps: &mut Steps<L>,
) -> Result<(), Memory>
    ensures { OnOk result (out.new.items ≡ out.old.items ++ picture.pair_line (has_edge graph.now.graph) summary.now.blocks pair.now) }
{
    let covered = covers(graph, summary, pair.from.number, pair.onto.number, steps);
    push_arrow(out, pair)?;
    push_support(out, pair.support)?;
    push_dash(out, covered)?;
    out.extend_from_slice(b";\n")?;
    Ok(())
}

/// Appends the lines of these pairs.
pub(crate) fn push_pairs<L: Ledger>(
    out: &mut Vec<u8>,
    graph: &Graph,
    summary: &Summary,
    pairs: &[Pair],
    steps: &mut Steps<L>,
) -> Result<(), Memory>
    ensures { OnOk result (out.new.items ≡ out.old.items ++ picture.pair_lines (has_edge graph.now.graph) summary.now.blocks pairs.now) }
{
    for pair in pairs {
        push_pair(out, graph, summary, pair, steps)?;
    }
    Ok(())
}

fn is_whole(blocks: u64, pairs: u64) -> bool
    ensures { result ≡ picture.is_whole blocks pairs }
{
    blocks == 0 && pairs == 0
}

// Appends how many blocks and pairs aren't drawn.
fn push_left(out: &mut Vec<u8>, blocks: u64, pairs: u64) -> Result<(), Memory>
    ensures { OnOk result (out.new.items ≡ out.old.items ++ picture.left_text blocks pairs) }
{
    out.extend_from_slice(b"  \"note\" [shape=plaintext style=\"\" label=\"not drawn: ")?;
    push_number(out, blocks)?;
    out.extend_from_slice(b" smaller blocks, ")?;
    push_number(out, pairs)?;
    out.extend_from_slice(b" pairs of blocks\"];\n")?;
    Ok(())
}

/// Appends how many blocks and pairs aren't drawn, if any.
pub(crate) fn push_note(out: &mut Vec<u8>, blocks: u64, pairs: u64) -> Result<(), Memory>
    ensures { OnOk result (out.new.items ≡ out.old.items ++ picture.note_line blocks pairs) }
{
    if is_whole(blocks, pairs) {
        return Ok(());
    }
    push_left(out, blocks, pairs)
}
