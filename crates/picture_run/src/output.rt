// What is written, of a picture or if nothing is drawn.
ghost use Rattle.std.specs.Prelude.{◌≡◌, ◌++◌, OnOk};
ghost use Rattle.picture_run.specs.ShownTexts.{ShowsLine, graph_line, usage_line};
ghost use Rattle.picture_run.specs.StatusCodes.{code_of};

use crate::status::Status;
use itoa::Buffer;
use px_base::{Memory, Sink, put_all};
use std::alloc::Global;

const USAGE: &str =
    "usage: pathindex_dot GRAPH [--graph-of data|aK|one|fb|bK] [--blocks N] [--members N]\n";

/// Writes a text, and answers that status if it is written.
pub(crate) fn show_text<K: Sink>(sink: &mut K, text: &[u8], status: Status) -> Status
    ensures { ShowsLine text.now (code_of status) (K.written sink.old) (K.written sink.new) (code_of result) }
{
    match put_all(sink, text) {
        Ok(()) => status,
        Err(_) => Status::NoOutput,
    }
}

/// Writes the usage line.
pub(crate) fn show_usage<K: Sink>(sink: &mut K) -> Status
    ensures { ShowsLine usage_line 2 (K.written sink.old) (K.written sink.new) (code_of result) }
{
    show_text(sink, USAGE.as_bytes(), Status::Usage)
}

// Appends which line of the graph file is refused, and why, or a prefix of that if memory runs out.
fn push_refusal(out: &mut Vec<u8>, line: u32, reason: &[u8]) -> Result<(), Memory>
    ensures { OnOk result (out.new.items ≡ out.old.items ++ graph_line line reason.now) }
{
    let mut buffer = Buffer::new();
    out.extend_from_slice(b"graph ")?;
    out.extend_from_slice(buffer.format(line).as_bytes())?;
    out.push(b' ')?;
    out.extend_from_slice(reason)?;
    out.push(b'\n')?;
    Ok(())
}

/// Writes which line of the graph file is refused, and why.
pub(crate) fn show_refusal<K: Sink>(alloc: Global, line: u32, reason: &str, sink: &mut K) -> Status
    ensures { ShowsLine (graph_line line reason.now) 3 (K.written sink.old) (K.written sink.new) (code_of result) }
{
    let mut out = Vec::new(alloc);
    match push_refusal(&mut out, line, reason.as_bytes()) {
        Ok(()) => show_text(sink, out.as_slice(), Status::FileLine),
        Err(_) => Status::NoMemory,
    }
}
