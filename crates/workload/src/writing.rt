// Pieces of the texts.
ghost use Rattle.std.specs.Prelude.{◌≡◌, ◌++◌, ◌∷◌, [], OnOk, decimal, string_bytes};
ghost use Rattle.workload.specs.MadeTexts.{edge_line};
ghost use Rattle.workload.specs.GeneratorValues.{line_value, object_value};

use crate::triples::{Object, Triple};
use itoa::Buffer;
use px_base::Memory;

/// Appends a number between two texts.
pub(crate) fn push_number(
    out: &mut String,
    head: &str,
    number: u64,
    tail: &str,
) -> Result<(), Memory>
    ensures { OnOk result (string_bytes out.new ≡ string_bytes out.old ++ (head.now ++ decimal number ++ tail.now)) }
{
    let mut buffer = Buffer::new();
    out.push_str(head)?;
    out.push_str(buffer.format(number))?;
    out.push_str(tail)?;
    Ok(())
}

fn push_object(out: &mut String, object: Object) -> Result<(), Memory>
    ensures { OnOk result (string_bytes out.new ≡ string_bytes out.old ++ object_value object) }
{
    match object {
        Object::Node(number) => push_number(out, "<http://e/s", number, ">"),
        Object::Value(number) => push_number(out, "\"v", number, "\""),
    }
}

/// Appends a line of the graph file.
pub(crate) fn push_triple(out: &mut String, triple: Triple) -> Result<(), Memory>
    ensures { OnOk result (string_bytes out.new ≡ string_bytes out.old ++ (line_value triple ++ 10 ∷ [])) }
{
    push_number(out, "<http://e/s", triple.subject, "> ")?;
    push_number(out, "<http://e/p", triple.predicate, "> ")?;
    push_object(out, triple.object)?;
    out.push_str(" .\n")?;
    Ok(())
}

/// Appends a line that adds an edge or takes one away.
pub(crate) fn push_edge(out: &mut String, command: &str, from: u64, to: u64) -> Result<(), Memory>
    ensures { OnOk result (string_bytes out.new ≡ string_bytes out.old ++ (edge_line command.now from to ++ 10 ∷ [])) }
{
    out.push_str(command)?;
    push_number(out, " n", from, " n")?;
    push_number(out, "", to, "\n")?;
    Ok(())
}
