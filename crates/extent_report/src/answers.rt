// The answer of a query, as it is printed.
ghost use Rattle.std.specs.Prelude.{◌≡◌, ◌<◌, ◌++◌, ◌+◌, OnOk, IfOk, codes, decimal, string_bytes};
ghost use Rattle.extent_report.specs.PrintedAnswers as printed;
ghost use Rattle.extent_report.specs.PrintedAnswers.{how_text, answer_line, nodes_line};
ghost use Rattle.extent_report.specs.NodeTexts.{members_from, others_text};

use crate::output::{end_line, push_node, push_number};
use index_api::{Answer, How};
use px_base::{Bits, Memory, NodeId, Text};
use std::alloc::Global;

// Appends how many candidates there were, and what was done with them.
fn push_candidates(out: &mut String, count: u32, done: &str) -> Result<(), Memory>
    ensures { OnOk result (string_bytes out.new ≡ string_bytes out.old ++ (codes " candidates " ++ decimal count ++ done.now)) }
{
    push_number(out, " candidates ", u64::from(count))?;
    out.push_str(done)?;
    Ok(())
}

// Appends how the answers were found.
fn push_how(out: &mut String, how: How) -> Result<(), Memory>
    ensures { OnOk result (string_bytes out.new ≡ string_bytes out.old ++ how_text how) }
{
    match how {
        How::Data => Ok(()),
        How::Exact(count) => push_candidates(out, count, " exact"),
        How::Checked(count) => push_candidates(out, count, " checked"),
    }
}

// Appends the line of the number of answers.
fn push_line(out: &mut String, count: u32, how: How) -> Result<(), Memory>
    ensures { OnOk result (string_bytes out.new ≡ string_bytes out.old ++ answer_line how count) }
{
    push_number(out, "answers ", u64::from(count))?;
    push_how(out, how)?;
    end_line(out)?;
    Ok(())
}

// Appends the nodes after the first one, each behind a space.
fn push_others(out: &mut String, nodes: &Bits, first: NodeId) -> Result<(), Memory>
    requires { first < nodes.now.size }
    ensures { OnOk result (string_bytes out.new ≡ string_bytes out.old ++ others_text (members_from nodes.now.members (first + 1))) }
{
    // Called for its contract: the members rise below the size.
    let _known = nodes.size();
    let mut from = first + 1;
    while let Some(node) = nodes.next_from(from) {
        push_node(out, node)?;
        from = node + 1;
    }
    Ok(())
}

// Appends the line of the nodes, if there are any.
fn push_nodes(out: &mut String, nodes: &Bits) -> Result<(), Memory>
    ensures { OnOk result (string_bytes out.new ≡ string_bytes out.old ++ nodes_line nodes.now.members) }
{
    // Called for its contract: the members rise below the size.
    let _known = nodes.size();
    match nodes.next_from(0) {
        Some(first) => {
            push_number(out, "n", u64::from(first))?;
            push_others(out, nodes, first)?;
            end_line(out)?;
            Ok(())
        }
        None => Ok(()),
    }
}

/// The answer of a query: `answers A` of the graph itself, and of an index `answers A candidates C exact` or `answers A
/// candidates C checked`, with the numbers of answers and of candidates. If `with_nodes` is true and there are
/// answers, a second line has the nodes, rising, as `n4 n9`. Each line ends with LF. O(s) for a set of numbers below s
/// if nodes are written, else O(1). It takes the memory of the text.
pub fn answer_text(alloc: Global, answer: &Answer, with_nodes: bool) -> Result<Text, Memory>
    ensures { IfOk result (λ t. t ≡ printed.answer_text answer.now.how with_nodes answer.now.nodes.members) }
{
    let mut out = String::new(alloc);
    push_line(&mut out, answer.nodes.count(), answer.how)?;
    if with_nodes {
        push_nodes(&mut out, &answer.nodes)?;
    }
    Ok(Text::from_string(out))
}
