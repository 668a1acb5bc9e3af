// A walk, as it is printed.
ghost use Rattle.std.specs.Prelude.{◌≡◌, ◌++◌, ◌∷◌, [], OnOk, IfOk, length, codes, decimal, string_bytes};
ghost use Rattle.extent_report.specs.PrintedAnswers as printed;
ghost use Rattle.extent_report.specs.PrintedAnswers.{nodes_line};

use crate::output::{end_line, push_nodes, push_number};
use px_base::{Memory, NodeId, Text};
use std::alloc::Global;

// Appends the line of the number of nodes.
fn push_length(out: &mut String, nodes: &[NodeId]) -> Result<(), Memory>
    ensures { OnOk result (string_bytes out.new ≡ string_bytes out.old ++ (codes "walk " ++ decimal (length nodes.now) ++ 10 ∷ [])) }
{
    push_number(out, "walk ", nodes.len() as u64)?;
    end_line(out)?;
    Ok(())
}

// Appends the line of the nodes in their order, if there are any.
fn push_line(out: &mut String, nodes: &[NodeId]) -> Result<(), Memory>
    ensures { OnOk result (string_bytes out.new ≡ string_bytes out.old ++ nodes_line nodes.now) }
{
    match nodes.split_first() {
        Some((first, others)) => {
            push_number(out, "n", u64::from(*first))?;
            push_nodes(out, others)?;
            end_line(out)?;
            Ok(())
        }
        None => Ok(()),
    }
}

/// A walk: `walk N` with the number of its nodes, and a second line with these in their order, as `n4 n9 n4`, unless
/// there are none. Each line ends with LF. O(n) for n nodes. It takes the memory of the text.
pub fn walk_text(alloc: Global, nodes: &[NodeId]) -> Result<Text, Memory>
    ensures { IfOk result (λ t. t ≡ printed.walk_text nodes.now) }
{
    let mut out = String::new(alloc);
    push_length(&mut out, nodes)?;
    push_line(&mut out, nodes)?;
    Ok(Text::from_string(out))
}
