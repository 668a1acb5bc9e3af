// Pieces of a file.
ghost use Rattle.std.specs.Prelude.{◌≡◌, ◌++◌, ◌∷◌, [], OnOk, codes, decimal, string_bytes};
ghost use Rattle.index_file.specs.WrittenFiles.{count_line, edge_line};

use itoa::Buffer;
use px_base::Memory;

/// Appends a number.
pub(crate) fn push_decimal(out: &mut String, number: u32) -> Result<(), Memory>
    ensures { OnOk result (string_bytes out.new ≡ string_bytes out.old ++ decimal number) }
{
    let mut buffer = Buffer::new();
    out.push_str(buffer.format(number))?;
    Ok(())
}

/// Ends a line.
pub(crate) fn end_line(out: &mut String) -> Result<(), Memory>
    ensures { OnOk result (string_bytes out.new ≡ string_bytes out.old ++ 10 ∷ []) }
{
    out.push('\n')?;
    Ok(())
}

/// Appends a line of a text and a number.
pub(crate) fn push_count(out: &mut String, word: &str, number: u32) -> Result<(), Memory>
    ensures { OnOk result (string_bytes out.new ≡ string_bytes out.old ++ count_line word.now number) }
{
    out.push_str(word)?;
    push_decimal(out, number)?;
    end_line(out)?;
    Ok(())
}

/// Appends the line of an edge.
pub(crate) fn push_edge(out: &mut String, from: u32, onto: u32) -> Result<(), Memory>
    ensures { OnOk result (string_bytes out.new ≡ string_bytes out.old ++ edge_line from onto) }
{
    push_decimal(out, from)?;
    out.push(' ')?;
    push_decimal(out, onto)?;
    end_line(out)?;
    Ok(())
}
