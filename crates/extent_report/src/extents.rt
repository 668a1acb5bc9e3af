// The members of the blocks, as they are printed.
ghost use Rattle.std.specs.Prelude.{◌≡◌, ◌++◌, true, Some, IsSome, OnOk, IfOk, length, string_bytes};
ghost use Rattle.graph_spec.specs.Members.{at};
ghost use Rattle.bisim_spec.specs.Tests.{together};
ghost use Rattle.bisim_spec.specs.Below.{count_below};
ghost use Rattle.extent_report.specs.ListedBlocks as printed;
ghost use Rattle.extent_report.specs.ListedBlocks.{texts_below};
ghost use Rattle.extent_report.specs.Summaries.{shape_of_blocks, LabelsHaveTexts, ListsBlocks, line_of, line_at};
ghost use Rattle.extent_report.specs.MemberChains.{is_first_member, word_with};

use crate::gathered::text_by_members;
use crate::member_chains::Chains;
use crate::output::{end_line, push_count, push_node};
use label_graph::Labels;
use px_base::{Memory, NodeId, Text};
use quotient::Summary;
use std::alloc::Global;

// Appends the nodes of a block from its first one on.
fn push_nodes(out: &mut String, chains: &Chains<'_>, first: NodeId) -> Result<(), Memory>
    requires { is_first_member chains.now first ≡ true }
    ensures { OnOk result (string_bytes out.new ≡ string_bytes out.old ++ texts_below (length chains.now.block_of) (word_with chains.now.block_of first)) }
{
    push_node(out, first)?;
    let mut last = first;
    while let Some(node) = chains.after(last) {
        push_node(out, node)?;
        last = node;
    }
    Ok(())
}

// Appends the line of a block.
fn push_block(
    out: &mut String,
    chains: &Chains<'_>,
    labels: &Labels,
    b: u32,
    first: NodeId,
) -> Result<(), Memory>
    requires is_first_member { is_first_member chains.now first ≡ true }
    requires block { at chains.now.block_of first ≡ Some b }
    requires live { IsSome (at chains.now.labels b) }
    requires labelled { LabelsHaveTexts labels.now.texts chains.now }
    ensures { OnOk result (string_bytes out.new ≡ string_bytes out.old ++ line_of labels.now.texts chains.now first) }
{
    let label = labels.text(chains.label(b));
    out.push_str(label.as_str())?;
    push_nodes(out, chains, first)?;
    end_line(out)?;
    Ok(())
}

// Appends the line of the node's block, if the node is its first.
fn push_line_at(
    out: &mut String,
    chains: &Chains<'_>,
    labels: &Labels,
    n: NodeId,
) -> Result<(), Memory>
    requires { LabelsHaveTexts labels.now.texts chains.now }
    ensures { OnOk result (string_bytes out.new ≡ string_bytes out.old ++ line_at labels.now.texts chains.now n) }
{
    match chains.block_begun_by(n) {
        Some(b) => push_block(out, chains, labels, b, n),
        None => Ok(()),
    }
}

// Appends the lines of the blocks.
fn push_blocks(out: &mut String, chains: &Chains<'_>, labels: &Labels) -> Result<(), Memory>
    requires { LabelsHaveTexts labels.now.texts chains.now }
    ensures { OnOk result (string_bytes out.new ≡ string_bytes out.old ++ texts_below (length chains.now.block_of) (line_at labels.now.texts chains.now)) }
{
    for n in 0..chains.numbers() {
        push_line_at(out, chains, labels, n)?;
    }
    Ok(())
}

// How many blocks have a first node.
fn count_begun(chains: &Chains<'_>) -> u32
    ensures { result ≡ count_below (length chains.now.block_of) (is_first_member chains.now) }
{
    let mut count = 0;
    for n in 0..chains.numbers() {
        if chains.block_begun_by(n).is_some() {
            count += 1;
        }
    }
    count
}

// The members of the blocks, as they are printed, by passes over all node numbers.
fn text_by_chains(alloc: Global, summary: &Summary, labels: &Labels) -> Result<Text, Memory>
    requires labelled { LabelsHaveTexts labels.now.texts summary.now.blocks }
    ensures { IfOk result (λ t. t ≡ printed.extents_text (shape_of_blocks labels.now.texts summary.now.blocks) (together summary.now.blocks.block_of)) }
{
    let chains = Chains::of(alloc, summary)?;
    let mut out = String::new(alloc);
    push_count(&mut out, u64::from(count_begun(&chains)))?;
    push_blocks(&mut out, &chains, labels)?;
    Ok(Text::from_string(out))
}

// Whether fewer than half of the node numbers that were allocated are those of members.
fn is_sparse(summary: &Summary) -> bool {
    let mut members: u64 = 0;
    for b in summary.live() {
        members = members.saturating_add(u64::from(summary.member_count(*b)));
    }
    members.saturating_mul(2) < u64::from(summary.numbers())
}

// The members of the blocks, as they are printed.
fn text_of(alloc: Global, summary: &Summary, labels: &Labels) -> Result<Text, Memory>
    requires labelled { LabelsHaveTexts labels.now.texts summary.now.blocks }
    ensures { IfOk result (λ t. t ≡ printed.extents_text (shape_of_blocks labels.now.texts summary.now.blocks) (together summary.now.blocks.block_of)) }
{
    if is_sparse(summary) {
        return text_by_members(alloc, summary, labels);
    }
    text_by_chains(alloc, summary, labels)
}

/// The members of the blocks of an index: `blocks B`, and then a line for each block, by rising least
/// members, with its label and its members, rising, as in `a n0 n2`. Each line ends with LF. A block
/// without members has no line.
///
/// O(m + s + t) for m members, block numbers below s and t bytes of text if at least half of the node numbers that
/// were allocated are those of members, since there is no sort then; it takes 8 bytes for each of these node numbers
/// and block numbers, plus the text. Else the members are sorted: O(b + m log m + t) for b blocks, however many blocks
/// there once were; if each block has a member, as those of an index have, that is O(m log m + t). It takes 4 to 8
/// bytes for each block and for each member of the largest one, plus the text.
pub fn extents_text(alloc: Global, summary: &Summary, labels: &Labels) -> Result<Text, Memory>
    requires labelled { LabelsHaveTexts labels.now.texts summary.now.blocks }
    ensures text { IfOk result (λ t. t ≡ printed.extents_text (shape_of_blocks labels.now.texts summary.now.blocks) (together summary.now.blocks.block_of)) }
    ensures listed { IfOk result (ListsBlocks labels.now.texts summary.now) }
{
    let text = text_of(alloc, summary, labels)?;
    Ok(text)
}
