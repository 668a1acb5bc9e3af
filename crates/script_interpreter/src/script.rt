// The run of a script, line by line.
ghost use Rattle.std.specs.Prelude.{◌≡◌, ◌≢◌, ◌<◌, ◌≤◌, Option, is_some, IfOk, OnOk, OnErr, IsErrOf, IsTrue, Err, false};
ghost use Rattle.std.specs.Io.KnownBytes.{Appends};
ghost use Rattle.px_base.specs.Causes.{MayHaveRisen, HasCause};
ghost use Rattle.px_base.specs.Files.{AppendsPrefix};
ghost use Rattle.px_base.specs.ReaderStates.{stream};
ghost use Rattle.index_file.specs.WholeFiles.{HasLabels};
ghost use Rattle.pathindex_core.specs.Engines.{by_meaning};
ghost use Rattle.pathindex_core.specs.EngineTerms.{engine_graph};
ghost use Rattle.script_interpreter.specs.Rules.{rules_for};
ghost use Rattle.script_interpreter.specs.RunSteps.{progress, Goes, OnTaken, CanRead, Writes};
ghost use Rattle.script_interpreter.specs.Runs.{Progress, Group, end_status, text_at_end};
ghost use Rattle.script_interpreter.specs.OpenGroups.{IsKeptAs};
ghost use Rattle.script_interpreter.specs.Endings.{status_at};
ghost use Rattle.script_interpreter.specs.EngineStates.{state_of, IsOpenForProgram, IsIn};
ghost use Rattle.script_interpreter.specs.LineTexts.{bad_line};
ghost use Rattle.script_interpreter.specs.Outputs.{with_printed};
ghost use Rattle.script_interpreter.specs.Observable.{RanObservable, PrefixObservable};
ghost use Rattle.script_interpreter.specs.declared.script.Stop.TheVariants.{Sink as SinkStop, Memory as MemoryStop};

use crate::group::OpenGroup;
use crate::interpreter::{Outcome, take};
use crate::output::Output;
use crate::printing::Printing;
use crate::saving::save;
use index_api::PathIndex;
use pathindex_core::Engine;
use px_base::{Failed, LINE_BYTES, LineFault, LineReader, Memory, SCRIPT_BYTES, Shelf, Sink};
use std::alloc::Global;
use std::marker::Brand;
use std::sync::ledger::Blank;
use triple_names::Names;

/// How many gathered bytes are written at once.
const PIECE_BYTES: usize = 65536;

/// What ends a run before its end.
#[derive(Clone, Copy, Debug, PartialEq, Eq)]
pub enum Stop {
    /// A call of the shelf failed.
    Shelf,
    /// A call of the sink failed.
    Sink,
    /// There was no memory.
    Memory,
}

impl From<Memory> for Stop {
    ghost from_gives = { λ _ e. e ≡ MemoryStop };

    fn from(_: Memory) -> Self {
        Stop::Memory
    }
}

impl From<Failed> for Stop {
    ghost from_gives = { λ _ e. e ≡ SinkStop };

    fn from(_: Failed) -> Self {
        Stop::Sink
    }
}

/// How a run came to its end.
#[derive(Clone, Copy)]
pub enum Ending {
    /// The script was read to its end, and nothing was refused.
    Done,
    /// The script was read to its end, and some line printed a refusal.
    Refused,
    /// A line was bad, or a group wasn't ended.
    Bad,
}

/// What a step of the run comes to.
#[derive(Clone, Copy)]
pub(crate) enum Next {
    Taken,
    /// The line is taken once the index file is written.
    Saves,
    AtBad,
    AtEnd,
}

/// Gathers that the line of that number is bad.
fn push_bad(output: &mut Output, line: u32) -> Result<Next, Stop>
    ensures ok { IfOk result (λ next. (next ≡ Next.AtBad) × (output.new ≡ with_printed output.old (bad_line line) false)) }
    ensures err { OnErr result (output.new ≡ output.old) }
    ensures memory { result ≢ Err Stop.Shelf }
    ensures no_sink { result ≢ Err Stop.Sink }
{
    match output.push_bad(line) {
        Ok(()) => Ok(Next::AtBad),
        Err(_) => Err(Stop::Memory),
    }
}

/// Gathers what the end of the script prints: where a group isn't ended, its first line is bad.
fn push_end(group: &Option<OpenGroup>, output: &mut Output) -> Result<Next, Stop>
    ensures ok { IfOk result (λ next. (next ≡ Next.AtEnd) × ((was : Option Group) → IsKeptAs was group.now
        → output.new ≡ with_printed output.old (text_at_end was) false)) }
    ensures err { OnErr result (output.new ≡ output.old) }
    ensures memory { result ≢ Err Stop.Shelf }
    ensures no_sink { result ≢ Err Stop.Sink }
{
    match group {
        Some(open) => match output.push_bad(open.line) {
            Ok(()) => Ok(Next::AtEnd),
            Err(_) => Err(Stop::Memory),
        },
        None => Ok(Next::AtEnd),
    }
}

/// Reads a line, and takes it.
fn next_line<B: PathIndex, H: Shelf>(
    alloc: Global,
    reader: &mut LineReader,
    engine: &mut Engine<B>,
    names: &mut Names,
    shelf: &mut H,
    group: &mut Option<OpenGroup>,
    output: &mut Output,
) -> Result<Next, Stop>
    requires can { CanRead reader.old (H.is_open shelf.old) }
    requires ready { IsOpenForProgram (by_meaning B.meaning engine.old) }
    ensures ready { IsOpenForProgram (by_meaning B.meaning engine.new) }
    ensures goes { IfOk result (λ next. (was : Option Group) → IsKeptAs was group.old → (left : Option Group) × IsKeptAs left group.new
        × (output.new.printing ≡ output.old.printing) × Goes (rules_for output.old.printing)
        (progress (state_of B.meaning engine.old names.old.names) was output.old.refused reader.old) (stream reader.old (H.left shelf.old)) output.old.text next
        (progress (state_of B.meaning engine.new names.new.names) left output.new.refused reader.new) (stream reader.new (H.left shelf.new)) output.new.text) }
    ensures can { IfOk result (λ next. OnTaken next (CanRead reader.new (H.is_open shelf.new))) }
    ensures nearer { IfOk result (λ next. OnTaken next ((reader.old.taken < reader.new.taken) × (reader.new.taken ≤ SCRIPT_BYTES))) }
    ensures gathered { OnErr result ((was : Option Group) → IsKeptAs was group.old → output.new ≡ output.old) }
    ensures files { H.files shelf.new ≡ H.files shelf.old }
    ensures fault { IsErrOf result Stop.Shelf → MayHaveRisen (H.faults shelf.old) (H.faults shelf.new) }
    ensures no_fault { result ≢ Err Stop.Shelf → H.faults shelf.new ≡ H.faults shelf.old }
    ensures no_sink { result ≢ Err Stop.Sink }
{
    match reader.next(shelf) {
        Ok(true) => match take(
            alloc,
            engine,
            names,
            reader.number(),
            reader.line(),
            group,
            output,
        ) {
            Ok(Outcome::Done) => Ok(Next::Taken),
            Ok(Outcome::Due) => Ok(Next::Saves),
            Ok(Outcome::Bad) => push_bad(output, reader.number()),
            Err(_) => Err(Stop::Memory),
        },
        Ok(false) => push_end(group, output),
        Err(LineFault::Limit) => push_bad(output, reader.number()),
        Err(LineFault::Fault) => Err(Stop::Shelf),
        Err(LineFault::Memory) => Err(Stop::Memory),
    }
}

/// Writes what is gathered if there is much of it, and before the next line is read of the shelf, so that a
/// failing read loses no line that was taken.
fn flush_if_due<K: Sink>(
    reader: &LineReader,
    output: &mut Output,
    sink: &mut K,
) -> Result<(), Failed>
    ensures written { OnOk result (Writes (K.written sink.old) (K.written sink.new) output.old.text output.new.text) }
    ensures kept { OnOk result (output.new ≡ record output.old { text = output.new.text }) }
    ensures part { OnErr result (AppendsPrefix (K.written sink.old) (K.written sink.new) output.old.text) }
    ensures cause { HasCause (K.faults sink.old) (K.faults sink.new) result }
{
    if output.len() >= PIECE_BYTES || !reader.has_line_ahead() {
        output.flush(sink)?;
    }
    Ok(())
}

/// Writes what is gathered, and ends so.
fn finish<K: Sink>(ending: Ending, output: &mut Output, sink: &mut K) -> Result<Ending, Stop>
    ensures ending { IfOk result (λ e. e ≡ ending) }
    ensures all { OnOk result (Appends (K.written sink.old) (K.written sink.new) output.old.text) }
    ensures part { OnErr result (AppendsPrefix (K.written sink.old) (K.written sink.new) output.old.text) }
    ensures sink { IsErrOf result Stop.Sink → MayHaveRisen (K.faults sink.old) (K.faults sink.new) }
    ensures no_sink { result ≢ Err Stop.Sink → K.faults sink.new ≡ K.faults sink.old }
    ensures no_shelf { result ≢ Err Stop.Shelf }
{
    match output.flush(sink) {
        Ok(()) => Ok(ending),
        Err(_) => Err(Stop::Sink),
    }
}

/// How a run ends at the end of its script.
fn ending_of(in_group: bool, refused: bool) -> Ending
    ensures { (p : Progress) → is_some p.group ≡ in_group → p.refused ≡ refused → status_at result ≡ end_status p }
{
    if in_group {
        Ending::Bad
    } else if refused {
        Ending::Refused
    } else {
        Ending::Done
    }
}

/// Runs the script that is open, on the graph of the engine, to its end or to a line that is bad. By the names triples
/// are inserted and deleted: the numbers of terms and triples in that graph. O(t) for t bytes of the script, and what the
/// commands cost (`Engine`, `Names`); it takes memory for a block of the script, its longest line, and what is gathered of
/// the output. Of an index file one part at a time is in memory: 64 KiB of the lines of the graph, or a view.
pub fn run_lines<B: PathIndex, H: Shelf, K: Sink>(
    alloc: Global,
    engine: &mut Engine<B>,
    mut names: Names,
    printing: Printing,
    shelf: &mut H,
    sink: &mut K,
) -> Result<Ending, Stop>
    requires file { IsTrue (H.is_open shelf.old) }
    requires ready { IsOpenForProgram (by_meaning B.meaning engine.old) }
    ensures ready { IsOpenForProgram (by_meaning B.meaning engine.new) }
    ensures ran { HasLabels (engine_graph engine.old) → IfOk result (λ ending. RanObservable (rules_for printing)
        (state_of B.meaning engine.old names.names) (H.left shelf.old) (K.written sink.old) (K.written sink.new) (status_at ending)
        (IsIn (by_meaning B.meaning engine.new))) }
    ensures part { HasLabels (engine_graph engine.old) → OnErr result (PrefixObservable (rules_for printing)
        (state_of B.meaning engine.old names.names) (H.left shelf.old) (K.written sink.old) (K.written sink.new)) }
    ensures files { H.files shelf.new ≡ H.files shelf.old }
    ensures shelf_fault { IsErrOf result Stop.Shelf → MayHaveRisen (H.faults shelf.old) (H.faults shelf.new) }
    ensures no_shelf_fault { result ≢ Err Stop.Shelf → H.faults shelf.new ≡ H.faults shelf.old }
    ensures sink_fault { IsErrOf result Stop.Sink → MayHaveRisen (K.faults sink.old) (K.faults sink.new) }
    ensures no_sink_fault { result ≢ Err Stop.Sink → K.faults sink.new ≡ K.faults sink.old }
{
    let mut reader = LineReader::new(alloc, LINE_BYTES, SCRIPT_BYTES)?;
    let mut output = Output::new(alloc, printing);
    let mut group: Option<OpenGroup> = None;
    'lines: loop {
        flush_if_due(&reader, &mut output, sink)?;
        match next_line(
            alloc,
            &mut reader,
            engine,
            &mut names,
            shelf,
            &mut group,
            &mut output,
        ) {
            Ok(Next::Taken) => (),
            Ok(Next::Saves) => {
                output.flush(sink)?;
                save::<B, K, Brand>(alloc, engine, sink, Blank::new(1))?;
            }
            Ok(Next::AtBad) => return finish(Ending::Bad, &mut output, sink),
            Ok(Next::AtEnd) => {
                let ending = ending_of(group.is_some(), output.is_refused());
                return finish(ending, &mut output, sink);
            }
            Err(Stop::Memory) => {
                output.flush(sink)?;
                return Err(Stop::Memory);
            }
            Err(stop) => return Err(stop),
        }
    }
}
