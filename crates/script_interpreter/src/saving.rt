// The graph and the indexes that are kept, as an index file that is written part by part.
ghost use Rattle.std.specs.Prelude.{◌≡◌, ◌≢◌, ◌<◌, ◌≤◌, Ok, Err, IsErrOf, OnOk, OnErr, true, false, length, []};
ghost use Rattle.std.specs.Io.KnownBytes.{Appends};
ghost use Rattle.px_base.specs.Causes.{MayHaveRisen};
ghost use Rattle.px_base.specs.Files.{AppendsPrefix};
ghost use Rattle.index_api.specs.declared.kinds.Via.TheVariants.{Data};
ghost use Rattle.index_api.specs.IndexOrder.{all_indexes};
ghost use Rattle.index_file.specs.WrittenFiles.{head_text};
ghost use Rattle.index_file.specs.GraphParts.{lines_left};
ghost use Rattle.index_file.specs.SavedIndexes.{SavesIndex, SavesIndexes};
ghost use Rattle.index_file.specs.WholeFiles.{HasLabels};
ghost use Rattle.pathindex_core.specs.Calls.{KeepsAllButViews};
ghost use Rattle.pathindex_core.specs.Engines.{by_meaning, kept_in};
ghost use Rattle.pathindex_core.specs.EngineTerms.{engine_graph};
ghost use Rattle.script_interpreter.specs.EngineStates.{IsOpenForProgram};
ghost use Rattle.script_interpreter.specs.Indexes.{IsSaved};
ghost use Rattle.script_interpreter.specs.Pieces.{Wrote, WrotePart, WroteNext, SavesParts};

use crate::script::Stop;
use index_api::{PathIndex, Via};
use index_file::GraphLines;
use index_saving::{count_kept, view_lines};
use label_graph::Graph;
use pathindex_core::Engine;
use px_base::{Memory, Sink, Steps, Text, put_all};
use std::alloc::Global;
use std::sync::ledger::{Blank, Ledger};

/// Writes the bytes.
fn write_bytes<K: Sink>(bytes: &[u8], sink: &mut K) -> Result<(), Stop>
    ensures all { OnOk result (Appends (K.written sink.old) (K.written sink.new) bytes.now) }
    ensures part { OnErr result (AppendsPrefix (K.written sink.old) (K.written sink.new) bytes.now) }
    ensures sink { IsErrOf result Stop.Sink → MayHaveRisen (K.faults sink.old) (K.faults sink.new) }
    ensures no_sink { result ≢ Err Stop.Sink → K.faults sink.new ≡ K.faults sink.old }
    ensures no_shelf { result ≢ Err Stop.Shelf }
{
    match put_all(sink, bytes) {
        Ok(()) => Ok(()),
        Err(_) => Err(Stop::Sink),
    }
}

/// Writes a text.
fn write_text<K: Sink>(text: &Text, sink: &mut K) -> Result<(), Stop>
    ensures all { OnOk result (Appends (K.written sink.old) (K.written sink.new) text.now) }
    ensures part { OnErr result (AppendsPrefix (K.written sink.old) (K.written sink.new) text.now) }
    ensures sink { IsErrOf result Stop.Sink → MayHaveRisen (K.faults sink.old) (K.faults sink.new) }
    ensures no_sink { result ≢ Err Stop.Sink → K.faults sink.new ≡ K.faults sink.old }
    ensures no_shelf { result ≢ Err Stop.Shelf }
{
    write_bytes(text.as_bytes(), sink)
}

/// Writes the next lines of the graph. False where no line is left behind them. `part` is memory to be used again.
fn write_part<K: Sink>(
    lines: &mut GraphLines,
    part: &mut String,
    graph: &Graph,
    sink: &mut K,
) -> Result<bool, Stop>
    ensures next { OnOk result (WroteNext (K.written sink.old) (K.written sink.new) (lines_left graph.now.graph lines.old)
        (lines_left graph.now.graph lines.new)) }
    ensures fewer { result ≡ Ok true → length (lines_left graph.now.graph lines.new) < length (lines_left graph.now.graph lines.old) }
    ensures over { result ≡ Ok false → lines_left graph.now.graph lines.new ≡ [] }
    ensures part { OnErr result (AppendsPrefix (K.written sink.old) (K.written sink.new) (lines_left graph.now.graph lines.old)) }
    ensures sink { IsErrOf result Stop.Sink → MayHaveRisen (K.faults sink.old) (K.faults sink.new) }
    ensures no_sink { result ≢ Err Stop.Sink → K.faults sink.new ≡ K.faults sink.old }
    ensures no_shelf { result ≢ Err Stop.Shelf }
{
    part.clear();
    match lines.next(graph, part) {
        Ok(more) => match write_bytes(part.as_bytes(), sink) {
            Ok(()) => Ok(more),
            Err(stop) => Err(stop),
        },
        Err(Memory) => Err(Stop::Memory),
    }
}

/// Writes the lines of the graph that are left.
fn write_lines<K: Sink>(
    lines: &mut GraphLines,
    part: &mut String,
    graph: &Graph,
    sink: &mut K,
) -> Result<(), Stop>
    ensures all { OnOk result (Appends (K.written sink.old) (K.written sink.new) (lines_left graph.now.graph lines.old)) }
    ensures part { OnErr result (AppendsPrefix (K.written sink.old) (K.written sink.new) (lines_left graph.now.graph lines.old)) }
    ensures sink { IsErrOf result Stop.Sink → MayHaveRisen (K.faults sink.old) (K.faults sink.new) }
    ensures no_sink { result ≢ Err Stop.Sink → K.faults sink.new ≡ K.faults sink.old }
    ensures no_shelf { result ≢ Err Stop.Shelf }
{
    'parts: loop {
        match write_part(lines, part, graph, sink) {
            Ok(true) => (),
            Ok(false) => return Ok(()),
            Err(stop) => return Err(stop),
        }
    }
}

/// Writes the lines of the graph, one part after another.
fn write_head<K: Sink>(
    alloc: Global,
    graph: &Graph,
    k: u32,
    count: u32,
    sink: &mut K,
) -> Result<(), Stop>
    ensures all { OnOk result (Appends (K.written sink.old) (K.written sink.new) (head_text graph.now.graph k count)) }
    ensures part { OnErr result (AppendsPrefix (K.written sink.old) (K.written sink.new) (head_text graph.now.graph k count)) }
    ensures sink { IsErrOf result Stop.Sink → MayHaveRisen (K.faults sink.old) (K.faults sink.new) }
    ensures no_sink { result ≢ Err Stop.Sink → K.faults sink.new ≡ K.faults sink.old }
    ensures no_shelf { result ≢ Err Stop.Shelf }
{
    let mut lines = GraphLines::new(alloc, k, count);
    let mut part = String::new(alloc);
    write_lines(&mut lines, &mut part, graph, sink)
}

/// Writes the view of an index, if the index is kept.
fn write_view<B: PathIndex, K: Sink, L: Ledger>(
    alloc: Global,
    engine: &mut Engine<B>,
    via: Via,
    sink: &mut K,
    steps: &mut Steps<L>,
) -> Result<(), Stop>
    requires ready { IsOpenForProgram (by_meaning B.meaning engine.old) }
    requires index { via ≢ Data }
    ensures ready { IsOpenForProgram (by_meaning B.meaning engine.new) }
    ensures asked { KeepsAllButViews (by_meaning B.meaning engine.old) (by_meaning B.meaning engine.new) }
    ensures all { OnOk result (Wrote (SavesIndex (engine_graph engine.old) (kept_in (by_meaning B.meaning engine.old)) via)
        (K.written sink.old) (K.written sink.new)) }
    ensures part { OnErr result (WrotePart (SavesIndex (engine_graph engine.old) (kept_in (by_meaning B.meaning engine.old)) via)
        (K.written sink.old) (K.written sink.new)) }
    ensures sink { IsErrOf result Stop.Sink → MayHaveRisen (K.faults sink.old) (K.faults sink.new) }
    ensures no_sink { result ≢ Err Stop.Sink → K.faults sink.new ≡ K.faults sink.old }
    ensures no_shelf { result ≢ Err Stop.Shelf }
{
    // Called for its contract: some text is the view, also where it can't be made.
    let _known = engine.graph().created();
    match view_lines(alloc, engine, via, steps) {
        Ok(lines) => write_text(&lines, sink),
        Err(Memory) => Err(Stop::Memory),
    }
}

/// Writes the view of each index with levels up to `k` that is kept.
fn write_views<B: PathIndex, K: Sink, L: Ledger>(
    alloc: Global,
    engine: &mut Engine<B>,
    k: u32,
    sink: &mut K,
    steps: &mut Steps<L>,
) -> Result<(), Stop>
    requires level { k ≤ 8 }
    requires ready { IsOpenForProgram (by_meaning B.meaning engine.old) }
    ensures ready { IsOpenForProgram (by_meaning B.meaning engine.new) }
    ensures asked { KeepsAllButViews (by_meaning B.meaning engine.old) (by_meaning B.meaning engine.new) }
    ensures all { OnOk result (Wrote (SavesIndexes (engine_graph engine.old) (kept_in (by_meaning B.meaning engine.old)) (all_indexes k))
        (K.written sink.old) (K.written sink.new)) }
    ensures part { OnErr result (WrotePart (SavesIndexes (engine_graph engine.old) (kept_in (by_meaning B.meaning engine.old)) (all_indexes k))
        (K.written sink.old) (K.written sink.new)) }
    ensures sink { IsErrOf result Stop.Sink → MayHaveRisen (K.faults sink.old) (K.faults sink.new) }
    ensures no_sink { result ≢ Err Stop.Sink → K.faults sink.new ≡ K.faults sink.old }
    ensures no_shelf { result ≢ Err Stop.Shelf }
{
    // Called for its contract: some texts are the views, also where none can be made.
    let _known = engine.graph().created();
    let mut n = 0;
    while let Some(via) = Via::nth(n, k) {
        match write_view(alloc, engine, via, sink, steps) {
            Ok(()) => n += 1,
            Err(stop) => return Err(stop),
        }
    }
    Ok(())
}

/// Writes the lines of the graph, and the views of the indexes that are kept.
fn write_file<B: PathIndex, K: Sink, L: Ledger>(
    alloc: Global,
    engine: &mut Engine<B>,
    k: u32,
    count: u32,
    sink: &mut K,
    steps: &mut Steps<L>,
) -> Result<(), Stop>
    requires level { k ≤ 8 }
    requires ready { IsOpenForProgram (by_meaning B.meaning engine.old) }
    ensures ready { IsOpenForProgram (by_meaning B.meaning engine.new) }
    ensures asked { KeepsAllButViews (by_meaning B.meaning engine.old) (by_meaning B.meaning engine.new) }
    ensures all { OnOk result (Wrote (SavesParts (engine_graph engine.old) (kept_in (by_meaning B.meaning engine.old)) k count)
        (K.written sink.old) (K.written sink.new)) }
    ensures part { OnErr result (WrotePart (SavesParts (engine_graph engine.old) (kept_in (by_meaning B.meaning engine.old)) k count)
        (K.written sink.old) (K.written sink.new)) }
    ensures sink { IsErrOf result Stop.Sink → MayHaveRisen (K.faults sink.old) (K.faults sink.new) }
    ensures no_sink { result ≢ Err Stop.Sink → K.faults sink.new ≡ K.faults sink.old }
    ensures no_shelf { result ≢ Err Stop.Shelf }
{
    // Called for its contract, as above.
    let _known = engine.graph().created();
    match write_head(alloc, engine.graph(), k, count, sink) {
        Ok(()) => write_views(alloc, engine, k, sink, steps),
        Err(stop) => Err(stop),
    }
}

/// Writes the file of the graph and of the indexes that are kept, part by part: the lines of the graph, some 64 KiB at a time, and each
/// view. The next part is made once the one before it is written.
pub(crate) fn save<B: PathIndex, K: Sink, L: Ledger>(
    alloc: Global,
    engine: &mut Engine<B>,
    sink: &mut K,
    blank: Blank,
) -> Result<(), Stop>
    requires name { blank.name ≡ L.name }
    requires parts { blank.parts ≡ L.parts }
    requires some { 0 < blank.parts }
    requires ready { IsOpenForProgram (by_meaning B.meaning engine.old) }
    ensures ready { IsOpenForProgram (by_meaning B.meaning engine.new) }
    ensures asked { KeepsAllButViews (by_meaning B.meaning engine.old) (by_meaning B.meaning engine.new) }
    ensures all { HasLabels (engine_graph engine.old) → OnOk result (Wrote (IsSaved (engine_graph engine.old)
        (kept_in (by_meaning B.meaning engine.old))) (K.written sink.old) (K.written sink.new)) }
    ensures part { HasLabels (engine_graph engine.old) → OnErr result (WrotePart (IsSaved (engine_graph engine.old)
        (kept_in (by_meaning B.meaning engine.old))) (K.written sink.old) (K.written sink.new)) }
    ensures sink { IsErrOf result Stop.Sink → MayHaveRisen (K.faults sink.old) (K.faults sink.new) }
    ensures no_sink { result ≢ Err Stop.Sink → K.faults sink.new ≡ K.faults sink.old }
    ensures no_shelf { result ≢ Err Stop.Shelf }
{
    // Called for its contract: some text is the file, also where it can't be made, and numbers fit 32 bits.
    let _known = engine.graph().created();
    let mut steps = Steps::<L>::new(blank);
    let k = engine.level();
    match count_kept(engine, k, &mut steps) {
        Ok(count) => write_file(alloc, engine, k, count, sink, &mut steps),
        Err(Memory) => Err(Stop::Memory),
    }
}
