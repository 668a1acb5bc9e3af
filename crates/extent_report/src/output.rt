// Pieces of what is printed.
ghost use Rattle.std.specs.Prelude.{◌≡◌, ◌++◌, ◌∷◌, [], OnOk, codes, decimal, string_bytes};
ghost use Rattle.std.specs.List.{flat_map};
ghost use Rattle.graph_spec.specs.Words.{node_word};

use itoa::Buffer;
use px_base::{Memory, NodeId};

/// Appends a text and a number.
pub(crate) fn push_number(out: &mut String, head: &str, number: u64) -> Result<(), Memory>
    ensures { OnOk result (string_bytes out.new ≡ string_bytes out.old ++ (head.now ++ decimal number)) }
{
    let mut buffer = Buffer::new();
    out.push_str(head)?;
    out.push_str(buffer.format(number))?;
    Ok(())
}

/// Appends a space and how the node is written.
pub(crate) fn push_node(out: &mut String, node: NodeId) -> Result<(), Memory>
    ensures { OnOk result (string_bytes out.new ≡ string_bytes out.old ++ 32 ∷ node_word node) }
{
    let mut buffer = Buffer::new();
    out.push_str(" n")?;
    out.push_str(buffer.format(node))?;
    Ok(())
}

/// Appends nodes, each behind a space.
pub(crate) fn push_nodes(out: &mut String, nodes: &[NodeId]) -> Result<(), Memory>
    ensures { OnOk result (string_bytes out.new ≡ string_bytes out.old ++ flat_map (λ n. 32 ∷ node_word n) nodes.now) }
{
    for n in nodes {
        push_node(out, *n)?;
    }
    Ok(())
}

/// Ends a line.
pub(crate) fn end_line(out: &mut String) -> Result<(), Memory>
    ensures { OnOk result (string_bytes out.new ≡ string_bytes out.old ++ 10 ∷ []) }
{
    out.push('\n')?;
    Ok(())
}

/// Appends the line of the number of blocks.
pub(crate) fn push_count(out: &mut String, blocks: u64) -> Result<(), Memory>
    ensures { OnOk result (string_bytes out.new ≡ string_bytes out.old ++ (codes "blocks " ++ decimal blocks ++ 10 ∷ [])) }
{
    push_number(out, "blocks ", blocks)?;
    end_line(out)?;
    Ok(())
}
