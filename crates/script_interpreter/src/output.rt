// What a run prints.
ghost use Rattle.std.specs.Prelude.{◌≡◌, ◌≤◌, ◌+◌, ◌^◌, ◌++◌, ◌∷◌, [], OnOk};
ghost use Rattle.std.specs.Prelude.{OnErr, decimal, length, nat_eq, if◌then◌else◌, true, false};
ghost use Rattle.std.specs.Io.KnownBytes.{Appends};
ghost use Rattle.px_base.specs.Causes.{HasCause};
ghost use Rattle.px_base.specs.Files.{AppendsPrefix};
ghost use Rattle.script_interpreter.specs.Rules.{if_whole, prints_nodes};
ghost use Rattle.script_interpreter.specs.LineTexts.{added_lines, made_lines, bad_line, ok_line, refused_line};
ghost use Rattle.script_interpreter.specs.Outputs.{with_printed};
ghost use Rattle.script_interpreter.specs.RunSteps.{Extends};

use crate::group::Scope;
use crate::printing::Printing;
use graph_update::Applied;
use itoa::Buffer;
use px_base::{Failed, Memory, Refusal, Sink, put_all};
use std::alloc::Global;
use std::marker::Model;

/// What was printed and isn't written yet, and whether some line of the run printed a refusal. If memory runs out,
/// nothing is gathered.
#[derive(Drop)]
pub(crate) struct Output {
    printing: Printing,
    bytes: Vec<u8>,
    refused: bool,
}

impl Model for Output {
    ghost use Rattle.script_interpreter.specs.Outputs.{Gathered};

    ghost Value = { Gathered };

    ghost view = { λ o. record { printing = o.printing; text = o.bytes.items; refused = o.refused } };
}

impl Output {
    /// Nothing was printed.
    pub(crate) fn new(alloc: Global, printing: Printing) -> Output
        ensures { result ≡ record { printing = printing; text = []; refused = false } }
    {
        Output {
            printing,
            bytes: Vec::new(alloc),
            refused: false,
        }
    }

    /// How many bytes are gathered.
    pub(crate) fn len(&self) -> usize
        ensures { result ≡ length self.now.text }
    {
        self.bytes.len()
    }

    /// Whether some line printed a refusal.
    pub(crate) fn is_refused(&self) -> bool
        ensures { result ≡ self.now.refused }
    {
        self.refused
    }

    /// Whether an answer prints its nodes.
    pub(crate) fn prints_nodes(&self) -> bool
        ensures { result ≡ prints_nodes self.now.printing }
    {
        self.printing.prints_nodes()
    }

    /// Gathers a text.
    pub(crate) fn push(&mut self, text: &[u8]) -> Result<(), Memory>
        ensures ok { OnOk result (self.new ≡ with_printed self.old text.now false) }
        ensures err { OnErr result (self.new ≡ self.old) }
    {
        self.bytes.extend_from_slice(text)?;
        Ok(())
    }

    /// Gathers what an accepted change did, if that is printed.
    pub(crate) fn push_applied(&mut self, applied: Applied, scope: Scope) -> Result<(), Memory>
        requires few { applied.first + applied.added ≤ 2 ^ 30 }
        ensures ok { OnOk result (self.new ≡ with_printed self.old (if_whole self.old.printing (made_lines scope applied)) false) }
        ensures err { OnErr result (self.new ≡ self.old) }
    {
        push_applied(&mut self.bytes, applied, scope, self.printing)
    }

    /// Gathers that a command was carried out, if that is printed.
    pub(crate) fn push_ok(&mut self) -> Result<(), Memory>
        ensures ok { OnOk result (self.new ≡ with_printed self.old (if_whole self.old.printing ok_line) false) }
        ensures err { OnErr result (self.new ≡ self.old) }
    {
        push_ok(&mut self.bytes, self.printing)
    }

    /// Gathers a line of one word.
    pub(crate) fn push_word(&mut self, word: &str) -> Result<(), Memory>
        ensures ok { OnOk result (self.new ≡ with_printed self.old (word.now ++ 10 ∷ []) false) }
        ensures err { OnErr result (self.new ≡ self.old) }
    {
        push_line(&mut self.bytes, word.as_bytes(), b"")
    }

    /// Gathers that the line of that number is bad.
    pub(crate) fn push_bad(&mut self, line: u32) -> Result<(), Memory>
        ensures ok { OnOk result (self.new ≡ with_printed self.old (bad_line line) false) }
        ensures err { OnErr result (self.new ≡ self.old) }
    {
        push_number(&mut self.bytes, b"bad ", line)
    }

    /// Gathers why something is refused.
    pub(crate) fn refuse(&mut self, refusal: Refusal) -> Result<(), Memory>
        ensures ok { OnOk result (self.new ≡ with_printed self.old (refused_line refusal) true) }
        ensures err { OnErr result (self.new ≡ self.old) }
    {
        push_line(&mut self.bytes, b"refused ", refusal.word().as_bytes())?;
        self.refused = true;
        Ok(())
    }

    /// Writes what is gathered, and leaves nothing gathered.
    pub(crate) fn flush<K: Sink>(&mut self, sink: &mut K) -> Result<(), Failed>
        ensures all { OnOk result (Appends (K.written sink.old) (K.written sink.new) self.old.text) }
        ensures empty { OnOk result (self.new ≡ record self.old { text = [] }) }
        ensures part { OnErr result (AppendsPrefix (K.written sink.old) (K.written sink.new) self.old.text) }
        ensures cause { HasCause (K.faults sink.old) (K.faults sink.new) result }
    {
        put_all(sink, self.bytes.as_slice())?;
        self.bytes.clear();
        Ok(())
    }
}

/// Appends that a command was carried out, or nothing in a brief run.
fn push_ok(out: &mut Vec<u8>, printing: Printing) -> Result<(), Memory>
    ensures ok { OnOk result (out.new.items ≡ out.old.items ++ if_whole printing ok_line) }
    ensures err { OnErr result (out.new.items ≡ out.old.items) }
{
    match printing {
        Printing::Whole => push_line(out, b"ok", b""),
        Printing::Brief => Ok(()),
    }
}

/// Appends what an accepted change did, or nothing in a brief run.
fn push_applied(
    out: &mut Vec<u8>,
    applied: Applied,
    scope: Scope,
    printing: Printing,
) -> Result<(), Memory>
    requires few { applied.first + applied.added ≤ 2 ^ 30 }
    ensures ok { OnOk result (out.new.items ≡ out.old.items ++ if_whole printing (made_lines scope applied)) }
    ensures err { OnErr result (out.new.items ≡ out.old.items) }
{
    match printing {
        Printing::Whole => push_made(out, applied, scope),
        Printing::Brief => Ok(()),
    }
}

/// Appends what an accepted change did, or nothing if memory runs out.
fn push_made(out: &mut Vec<u8>, applied: Applied, scope: Scope) -> Result<(), Memory>
    requires few { applied.first + applied.added ≤ 2 ^ 30 }
    ensures ok { OnOk result (out.new.items ≡ out.old.items ++ made_lines scope applied) }
    ensures err { OnErr result (out.new.items ≡ out.old.items) }
{
    let whole = out.len();
    match push_some(out, applied, scope) {
        Ok(()) => Ok(()),
        Err(Memory) => {
            out.truncate(whole);
            Err(Memory)
        }
    }
}

/// Appends what an accepted change did, or a prefix of that if memory runs out.
fn push_some(out: &mut Vec<u8>, applied: Applied, scope: Scope) -> Result<(), Memory>
    requires few { applied.first + applied.added ≤ 2 ^ 30 }
    ensures ok { OnOk result (out.new.items ≡ out.old.items ++ made_lines scope applied) }
    ensures err { OnErr result (Extends out.old.items out.new.items) }
{
    match scope {
        Scope::OneLine => push_one(out, applied),
        Scope::LineGroup => push_all(out, applied),
    }
}

/// Appends what a line of its own did, or a prefix of that if memory runs out.
fn push_one(out: &mut Vec<u8>, applied: Applied) -> Result<(), Memory>
    requires few { applied.first + applied.added ≤ 2 ^ 30 }
    ensures ok { OnOk result (out.new.items ≡ out.old.items ++ (if nat_eq applied.added 0 then ok_line else added_lines applied)) }
    ensures err { OnErr result (Extends out.old.items out.new.items) }
{
    if applied.added == 0 {
        push_parts(out, b"ok", b"")
    } else {
        push_added(out, applied)
    }
}

/// Appends what a group did, or a prefix of that if memory runs out.
fn push_all(out: &mut Vec<u8>, applied: Applied) -> Result<(), Memory>
    requires few { applied.first + applied.added ≤ 2 ^ 30 }
    ensures ok { OnOk result (out.new.items ≡ out.old.items ++ (added_lines applied ++ ok_line)) }
    ensures err { OnErr result (Extends out.old.items out.new.items) }
{
    push_added(out, applied)?;
    push_parts(out, b"ok", b"")
}

/// Appends the numbers that were allocated, or a prefix of that if memory runs out.
fn push_added(out: &mut Vec<u8>, applied: Applied) -> Result<(), Memory>
    requires few { applied.first + applied.added ≤ 2 ^ 30 }
    ensures ok { OnOk result (out.new.items ≡ out.old.items ++ added_lines applied) }
    ensures err { OnErr result (Extends out.old.items out.new.items) }
{
    'nodes: for i in 0..applied.added {
        push_number(out, b"added n", applied.first + i)?;
    }
    Ok(())
}

/// Appends the two texts and LF, or nothing if memory runs out.
fn push_line(out: &mut Vec<u8>, head: &[u8], tail: &[u8]) -> Result<(), Memory>
    ensures ok { OnOk result (out.new.items ≡ out.old.items ++ (head.now ++ tail.now ++ 10 ∷ [])) }
    ensures err { OnErr result (out.new.items ≡ out.old.items) }
{
    let whole = out.len();
    match push_parts(out, head, tail) {
        Ok(()) => Ok(()),
        Err(Memory) => {
            out.truncate(whole);
            Err(Memory)
        }
    }
}

/// Appends the two texts and LF, or a prefix of that if memory runs out.
fn push_parts(out: &mut Vec<u8>, head: &[u8], tail: &[u8]) -> Result<(), Memory>
    ensures ok { OnOk result (out.new.items ≡ out.old.items ++ (head.now ++ tail.now ++ 10 ∷ [])) }
    ensures err { OnErr result (Extends out.old.items out.new.items) }
{
    out.extend_from_slice(head)?;
    out.extend_from_slice(tail)?;
    out.push(b'\n')?;
    Ok(())
}

/// Appends the text, the number and LF, or nothing if memory runs out.
fn push_number(out: &mut Vec<u8>, head: &[u8], number: u32) -> Result<(), Memory>
    ensures ok { OnOk result (out.new.items ≡ out.old.items ++ (head.now ++ decimal number ++ 10 ∷ [])) }
    ensures err { OnErr result (out.new.items ≡ out.old.items) }
{
    let mut buffer = Buffer::new();
    push_line(out, head, buffer.format(number).as_bytes())
}
