// Pieces of a text for Graphviz.
ghost use Rattle.std.specs.Prelude.{◌≡◌, ◌++◌, OnOk, decimal};
ghost use Rattle.graph_spec.specs.Words.{node_word};
ghost use Rattle.index_picture.specs.QuotedTexts.{quoted, quoted_byte};

use itoa::Buffer;
use px_base::{Memory, NodeId};

// Appends how a byte is written between quotes.
fn push_byte(out: &mut Vec<u8>, b: u8) -> Result<(), Memory>
    ensures { OnOk result (out.new.items ≡ out.old.items ++ quoted_byte b) }
{
    if b == b'"' || b == b'\\' {
        out.push(b'\\')?;
        out.push(b)?;
    } else if b == b'&' {
        out.extend_from_slice(b"&amp;")?;
    } else if b < 32 {
        out.push(b' ')?;
    } else {
        out.push(b)?;
    }
    Ok(())
}

/// Appends how a text is written between quotes.
pub(crate) fn push_quoted(out: &mut Vec<u8>, text: &[u8]) -> Result<(), Memory>
    ensures { OnOk result (out.new.items ≡ out.old.items ++ quoted text.now) }
{
    for b in text {
        push_byte(out, *b)?;
    }
    Ok(())
}

/// Appends a number, between quotes.
pub(crate) fn push_number(out: &mut Vec<u8>, number: u64) -> Result<(), Memory>
    ensures { OnOk result (out.new.items ≡ out.old.items ++ quoted (decimal number)) }
{
    let mut buffer = Buffer::new();
    push_quoted(out, buffer.format(number).as_bytes())?;
    Ok(())
}

/// Appends the number of a node as it is written, as `n7`, between quotes.
pub(crate) fn push_node(out: &mut Vec<u8>, node: NodeId) -> Result<(), Memory>
    ensures { OnOk result (out.new.items ≡ out.old.items ++ quoted (node_word node)) }
{
    push_byte(out, b'n')?;
    push_number(out, u64::from(node))?;
    Ok(())
}
