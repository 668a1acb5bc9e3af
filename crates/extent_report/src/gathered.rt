// The lists of the blocks by their members alone, for a graph of whose node numbers few are left.
ghost use Rattle.std.specs.Prelude.{◌≡◌, ◌++◌, ◌∷◌, ℕ, true, IfOk, OnOk, length, string_bytes};
ghost use Rattle.std.specs.List.{flat_map};
ghost use Rattle.graph_spec.specs.Members.{has};
ghost use Rattle.bisim_spec.specs.Tests.{together};
ghost use Rattle.extent_report.specs.ListedBlocks as printed;
ghost use Rattle.extent_report.specs.Summaries.{shape_of_blocks, LabelsHaveTexts, line_at};
ghost use Rattle.extent_report.specs.MemberChains.{is_first_member};

use crate::is_first_member::{fill_members, first_members};
use crate::output::{end_line, push_count, push_nodes};
use label_graph::{Digraph, Labels};
use px_base::{Memory, NodeId, Text};
use quotient::Summary;
use std::alloc::Global;

// Appends the line of the block of which the node is the least member. `members` is memory to be reused.
fn push_block(
    out: &mut String,
    members: &mut Vec<NodeId>,
    summary: &Summary,
    labels: &Labels,
    n: NodeId,
) -> Result<(), Memory>
    requires is_first_member { is_first_member summary.now.blocks n ≡ true }
    requires labelled { LabelsHaveTexts labels.now.texts summary.now.blocks }
    ensures { OnOk result (string_bytes out.new ≡ string_bytes out.old ++ line_at labels.now.texts summary.now.blocks n) }
{
    let Some(b) = summary.block_of(n) else {
        unreachable!()
    };
    fill_members(members, summary, b)?;
    let label = labels.text(summary.label(b));
    out.push_str(label.as_str())?;
    push_nodes(out, members)?;
    end_line(out)?;
    Ok(())
}

// Appends the lines of the blocks of which these nodes are the least members.
fn push_blocks(
    out: &mut String,
    members: &mut Vec<NodeId>,
    summary: &Summary,
    labels: &Labels,
    nodes: &[NodeId],
) -> Result<(), Memory>
    requires is_first_member { (n : ℕ) → has nodes.now n ≡ true → is_first_member summary.now.blocks n ≡ true }
    requires labelled { LabelsHaveTexts labels.now.texts summary.now.blocks }
    ensures { OnOk result (string_bytes out.new ≡ string_bytes out.old ++ flat_map (line_at labels.now.texts summary.now.blocks) nodes.now) }
{
    for n in nodes {
        push_block(out, members, summary, labels, *n)?;
    }
    Ok(())
}

/// The members of the blocks, as they are printed. The members of each block are sorted, and the blocks by their least
/// members: O(b + m log m + t) for b blocks, m members and t bytes of text.
pub(crate) fn text_by_members(
    alloc: Global,
    summary: &Summary,
    labels: &Labels,
) -> Result<Text, Memory>
    requires labelled { LabelsHaveTexts labels.now.texts summary.now.blocks }
    ensures { IfOk result (λ t. t ≡ printed.extents_text (shape_of_blocks labels.now.texts summary.now.blocks) (together summary.now.blocks.block_of)) }
{
    let mut members = Vec::new(alloc);
    let nodes = first_members(alloc, &mut members, summary)?;
    let mut out = String::new(alloc);
    push_count(&mut out, nodes.len() as u64)?;
    push_blocks(&mut out, &mut members, summary, labels, &nodes)?;
    Ok(Text::from_string(out))
}
