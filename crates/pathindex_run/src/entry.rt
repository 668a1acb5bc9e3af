// The top call.
ghost use Rattle.std.specs.Prelude.{ℕ, List, [], ◌≡◌, ◌≢◌, ◌≤◌, ◌⊎◌, map, string_bytes, option_map, None, Some, IfOk};
ghost use Rattle.command_line.specs.Forms.{checks, makes, runs};
ghost use Rattle.command_line.specs.FormValues.{settings_value};
ghost use Rattle.command_line.specs.Words.{form_of};
ghost use Rattle.bisim_spec.specs.declared.kind.Kind.{Kind};
ghost use Rattle.graph_spec.specs.Graphs.{empty_graph};
ghost use Rattle.triple_names.specs.Names.{no_names};
ghost use Rattle.pathindex_core.specs.Engines.{IsSound, by_meaning};
ghost use Rattle.pathindex_core.specs.EngineTerms.{IsUnopened, engine_kinds};
ghost use Rattle.script_interpreter.specs.EngineStates.{state_of, IsOpenForProgram, IsIn};
ghost use Rattle.script_interpreter.specs.States.{BeginsRun, left_out};
ghost use Rattle.pathindex_run.specs.Headline.{RunsForm, HasStatus, ChecksWhole, Completes, NamesFile, NoFault, kinds_for};
ghost use Rattle.pathindex_run.specs.StatusCodes.{code_of};
ghost use Rattle.pathindex_run.specs.ObservableFiles.{BeginsObservable};

use crate::check::run_check;
use crate::output::{show_refusal, show_usage};
use crate::seeded::run_seeded;
use crate::status::{Status, status_of};
use command_line::{Form, Settings, read_words};
use graph_load::{LoadError, load_named};
use index_api::{Kind, PathIndex};
use label_graph::Graph;
use pathindex_core::Engine;
use px_base::{Limits, Memory, Shelf, Sink};
use script_interpreter::{Printing, Stop, run_lines};
use std::alloc::Global;
use triple_names::Names;

/// Carries out what the words ask for, and returns the exit status. The words are those after the
/// program's name: `SCRIPT [--graph FILE] [--k N] [--without-one] [--without-fb] [--with-bk]`, `--make SEED`, or `--check FILE`.
///
/// The graph file, if one is named, is loaded first; it is RDF 1.1 N-Triples. The engine drops the indexes that a
/// flag leaves out, and the bounded forward and backward ones unless a flag asks for them, and builds the others. Then
/// the script's lines are read from the shelf, and what they print is written to the sink.
///
/// With a seed, from 0 to 2^64 - 1, a graph file and a script are made from it and used instead of files: the engine keeps
/// all its indexes but the bounded forward and backward ones, k is 2, and the shelf isn't called. Changes that are accepted and indexes
/// that are forgotten print nothing then, and an answer prints its first line only.
///
/// To check a file, the engine drops all its indexes. The index file is read, and each of its views is compared with
/// the graph that it holds.
///
/// | Status | When |
/// |---|---|
/// | 0, 1 | the script was read to its end; 1 if a line printed `refused` |
/// | 0 | each view of the index file fits, and `fits` is written |
/// | 2 | the words are malformed, and the usage line is written |
/// | 3 | a line of the graph file or of the index file is refused, and `graph` or `index` with its number and the reason is written |
/// | 4 | a line is no command or passes a limit, and `bad` with its number is written |
/// | 5 | a call of the shelf failed, or a file isn't there; never with a seed |
/// | 6 | a call of the sink failed |
/// | 7 | memory runs out |
/// | 8 | a view of the index file doesn't fit, and `view` with the index of the first such view is written |
///
/// If well-formed words name a script of an observable shelf, it and the graph file, if any, are there, that file loads, no
/// line of the script is bad, no call fails and neither count of failed calls is full, the status is 0, 1 or 7. The same
/// holds with a seed if no write fails and the sink's count isn't full. If an observable shelf has the index file that is to be
/// checked, it is spelled and within limits, no call fails and neither count is full, the status is 0, 8 or 7. At 5, 6 and
/// 7 a prefix of what the run prints is written. O(b) for b bytes of both files, and what opening the engine and the
/// commands cost (`Engine`); beside the engine it takes memory for the numbers of terms and triples (`Names`), a block of
/// the script, its longest line, and what is gathered of the output. A check costs what `index_file::read` costs, and
/// `index_check::fits` for each view.
pub fn run<B: PathIndex, H: Shelf, K: Sink>(
    alloc: Global,
    words: &[String],
    engine: &mut Engine<B>,
    shelf: &mut H,
    sink: &mut K,
) -> u8
    requires closed { IsUnopened engine.old }
    requires sound { IsSound (by_meaning B.meaning engine.old) }
    ensures sound { IsSound (by_meaning B.meaning engine.new) }
    ensures does { RunsForm (form_of (map string_bytes words.now)) (engine_kinds B.meaning engine.old) (H.files shelf.old) (K.written sink.old)
        (K.written sink.new) result (IsIn (by_meaning B.meaning engine.new)) }
    ensures status { HasStatus (form_of (map string_bytes words.now)) (H.files shelf.old) (H.faults shelf.old) (H.faults shelf.new)
        (K.faults sink.old) (K.faults sink.new) result }
    ensures complete { Completes (form_of (map string_bytes words.now)) (H.files shelf.old) (H.faults shelf.old) (H.faults shelf.new)
        (K.faults sink.old) (K.faults sink.new) result }
    ensures checked { ChecksWhole (form_of (map string_bytes words.now)) (H.files shelf.old) (H.faults shelf.old) (H.faults shelf.new)
        (K.faults sink.old) (K.faults sink.new) result }
    ensures dropped { (file : List ℕ) → form_of (map string_bytes words.now) ≡ checks file → result ≢ 7
        → engine_kinds B.meaning engine.new ≡ [] }
    ensures seed { (seed : ℕ) → form_of (map string_bytes words.now) ≡ makes seed → NoFault (K.faults sink.old) (K.faults sink.new)
        → (result ≤ 1) ⊎ (result ≡ 7) }
    ensures files { H.files shelf.new ≡ H.files shelf.old }
    ensures shelf_kept { ¬ NamesFile (form_of (map string_bytes words.now)) → shelf.new ≡ shelf.old }
{
    let status = run_words(alloc, words, engine, shelf, sink);
    status.code()
}

/// Carries out what the words ask for.
fn run_words<B: PathIndex, H: Shelf, K: Sink>(
    alloc: Global,
    words: &[String],
    engine: &mut Engine<B>,
    shelf: &mut H,
    sink: &mut K,
) -> Status
    requires closed { IsUnopened engine.old }
    requires sound { IsSound (by_meaning B.meaning engine.old) }
    ensures sound { IsSound (by_meaning B.meaning engine.new) }
    ensures does { RunsForm (form_of (map string_bytes words.now)) (engine_kinds B.meaning engine.old) (H.files shelf.old) (K.written sink.old)
        (K.written sink.new) (code_of result) (IsIn (by_meaning B.meaning engine.new)) }
    ensures status { HasStatus (form_of (map string_bytes words.now)) (H.files shelf.old) (H.faults shelf.old) (H.faults shelf.new)
        (K.faults sink.old) (K.faults sink.new) (code_of result) }
    ensures complete { Completes (form_of (map string_bytes words.now)) (H.files shelf.old) (H.faults shelf.old) (H.faults shelf.new)
        (K.faults sink.old) (K.faults sink.new) (code_of result) }
    ensures checked { ChecksWhole (form_of (map string_bytes words.now)) (H.files shelf.old) (H.faults shelf.old) (H.faults shelf.new)
        (K.faults sink.old) (K.faults sink.new) (code_of result) }
    ensures dropped { (file : List ℕ) → form_of (map string_bytes words.now) ≡ checks file → code_of result ≢ 7
        → engine_kinds B.meaning engine.new ≡ [] }
    ensures seed { (seed : ℕ) → form_of (map string_bytes words.now) ≡ makes seed → NoFault (K.faults sink.old) (K.faults sink.new)
        → (code_of result ≤ 1) ⊎ (code_of result ≡ 7) }
    ensures files { H.files shelf.new ≡ H.files shelf.old }
    ensures shelf_kept { ¬ NamesFile (form_of (map string_bytes words.now)) → shelf.new ≡ shelf.old }
{
    match read_words(alloc, words) {
        Ok(Form::Run(settings)) => run_settings(alloc, &settings, engine, shelf, sink),
        Ok(Form::Make(seed)) => run_seeded(alloc, seed, engine, sink),
        Ok(Form::Check(file)) => run_check(alloc, file, engine, shelf, sink),
        Ok(Form::Neither) => show_usage(sink),
        Err(_) => Status::NoMemory,
    }
}

/// The graph without nodes, whose terms and triples have no numbers.
fn nothing_loaded(alloc: Global) -> Result<(Graph, Names), Memory>
    ensures graph { IfOk result (λ r. r.0.graph ≡ empty_graph) }
    ensures names { IfOk result (λ r. r.1.names ≡ no_names) }
{
    let graph = Graph::new(alloc)?;
    let names = Names::new(alloc)?;
    Ok((graph, names))
}

/// Loads the graph file, if one is named, and runs the script.
fn run_settings<B: PathIndex, H: Shelf, K: Sink>(
    alloc: Global,
    settings: &Settings<'_>,
    engine: &mut Engine<B>,
    shelf: &mut H,
    sink: &mut K,
) -> Status
    requires closed { IsUnopened engine.old }
    requires sound { IsSound (by_meaning B.meaning engine.old) }
    requires level { settings.now.k ≤ 8 }
    ensures sound { IsSound (by_meaning B.meaning engine.new) }
    ensures does { RunsForm (runs (settings_value settings.now)) (engine_kinds B.meaning engine.old) (H.files shelf.old) (K.written sink.old)
        (K.written sink.new) (code_of result) (IsIn (by_meaning B.meaning engine.new)) }
    ensures status { HasStatus (runs (settings_value settings.now)) (H.files shelf.old) (H.faults shelf.old) (H.faults shelf.new) (K.faults sink.old)
        (K.faults sink.new) (code_of result) }
    ensures complete { Completes (runs (settings_value settings.now)) (H.files shelf.old) (H.faults shelf.old) (H.faults shelf.new)
        (K.faults sink.old) (K.faults sink.new) (code_of result) }
    ensures files { H.files shelf.new ≡ H.files shelf.old }
{
    match settings.graph {
        Some(name) => run_loaded(alloc, settings, name, engine, shelf, sink),
        None => match nothing_loaded(alloc) {
            Ok((graph, names)) => run_script(alloc, settings, graph, names, engine, shelf, sink),
            Err(_) => Status::NoMemory,
        },
    }
}

/// Loads the graph file of that name, and runs the script.
fn run_loaded<B: PathIndex, H: Shelf, K: Sink>(
    alloc: Global,
    settings: &Settings<'_>,
    name: &str,
    engine: &mut Engine<B>,
    shelf: &mut H,
    sink: &mut K,
) -> Status
    requires named { option_map (λ t. t.now) settings.now.graph ≡ Some name.now }
    requires closed { IsUnopened engine.old }
    requires sound { IsSound (by_meaning B.meaning engine.old) }
    requires level { settings.now.k ≤ 8 }
    ensures sound { IsSound (by_meaning B.meaning engine.new) }
    ensures does { RunsForm (runs (settings_value settings.now)) (engine_kinds B.meaning engine.old) (H.files shelf.old) (K.written sink.old)
        (K.written sink.new) (code_of result) (IsIn (by_meaning B.meaning engine.new)) }
    ensures status { HasStatus (runs (settings_value settings.now)) (H.files shelf.old) (H.faults shelf.old) (H.faults shelf.new) (K.faults sink.old)
        (K.faults sink.new) (code_of result) }
    ensures complete { Completes (runs (settings_value settings.now)) (H.files shelf.old) (H.faults shelf.old) (H.faults shelf.new)
        (K.faults sink.old) (K.faults sink.new) (code_of result) }
    ensures files { H.files shelf.new ≡ H.files shelf.old }
{
    match load_named(alloc, shelf, name, &Limits::program()) {
        Ok((graph, names)) => run_script(alloc, settings, graph, names, engine, shelf, sink),
        Err(LoadError::Syntax(line)) => show_refusal(alloc, "graph ", line, "syntax", sink),
        Err(LoadError::Limit(line)) => show_refusal(alloc, "graph ", line, "limit", sink),
        Err(LoadError::Missing) => Status::NoFile,
        Err(LoadError::Fault) => Status::NoFile,
        Err(LoadError::Memory) => Status::NoMemory,
    }
}

/// Drops the index of that kind if it is left out.
pub(crate) fn leave_out<B: PathIndex>(engine: &mut Engine<B>, kind: Kind, is_left_out: bool)
    requires closed { IsUnopened engine.old }
    requires sound { IsSound (by_meaning B.meaning engine.old) }
    ensures closed { IsUnopened engine.new }
    ensures sound { IsSound (by_meaning B.meaning engine.new) }
    ensures kinds { engine_kinds B.meaning engine.new ≡ left_out is_left_out kind (engine_kinds B.meaning engine.old) }
{
    if is_left_out {
        let _ = engine.forget(kind);
    }
}

/// Opens the engine with that graph and without the indexes that a flag leaves out, and runs the script.
fn run_script<B: PathIndex, H: Shelf, K: Sink>(
    alloc: Global,
    settings: &Settings<'_>,
    graph: Graph,
    names: Names,
    engine: &mut Engine<B>,
    shelf: &mut H,
    sink: &mut K,
) -> Status
    requires begins { BeginsObservable (settings_value settings.now).graph (H.files shelf.old) graph.graph names.names }
    requires closed { IsUnopened engine.old }
    requires sound { IsSound (by_meaning B.meaning engine.old) }
    requires level { settings.now.k ≤ 8 }
    ensures sound { IsSound (by_meaning B.meaning engine.new) }
    ensures does { RunsForm (runs (settings_value settings.now)) (engine_kinds B.meaning engine.old) (H.files shelf.old) (K.written sink.old)
        (K.written sink.new) (code_of result) (IsIn (by_meaning B.meaning engine.new)) }
    ensures status { HasStatus (runs (settings_value settings.now)) (H.files shelf.old) (H.faults shelf.old) (H.faults shelf.new) (K.faults sink.old)
        (K.faults sink.new) (code_of result) }
    ensures complete { Completes (runs (settings_value settings.now)) (H.files shelf.old) (H.faults shelf.old) (H.faults shelf.new)
        (K.faults sink.old) (K.faults sink.new) (code_of result) }
    ensures files { H.files shelf.new ≡ H.files shelf.old }
{
    leave_out(engine, Kind::One, settings.without_one);
    leave_out(engine, Kind::Fb, settings.without_fb);
    leave_out(engine, Kind::B, !settings.with_bk);
    match engine.open(graph, Limits::program(), settings.k) {
        Ok(()) => run_open(alloc, settings, engine, names, shelf, sink),
        Err(_) => Status::NoMemory,
    }
}

/// Runs the script on the graph of the engine.
fn run_open<B: PathIndex, H: Shelf, K: Sink>(
    alloc: Global,
    settings: &Settings<'_>,
    engine: &mut Engine<B>,
    names: Names,
    shelf: &mut H,
    sink: &mut K,
) -> Status
    requires begins { BeginsObservable (settings_value settings.now).graph (H.files shelf.old) (state_of B.meaning engine.old names.names).graph
        names.names }
    requires ready { IsOpenForProgram (by_meaning B.meaning engine.old) }
    ensures sound { IsSound (by_meaning B.meaning engine.new) }
    ensures does { (kinds : List Kind) → BeginsRun (state_of B.meaning engine.old names.names).graph names.names
        (kinds_for (settings_value settings.now) kinds) settings.now.k (state_of B.meaning engine.old names.names)
        → RunsForm (runs (settings_value settings.now)) kinds (H.files shelf.old) (K.written sink.old) (K.written sink.new) (code_of result)
        (IsIn (by_meaning B.meaning engine.new)) }
    ensures status { HasStatus (runs (settings_value settings.now)) (H.files shelf.old) (H.faults shelf.old) (H.faults shelf.new) (K.faults sink.old)
        (K.faults sink.new) (code_of result) }
    ensures complete { Completes (runs (settings_value settings.now)) (H.files shelf.old) (H.faults shelf.old) (H.faults shelf.new)
        (K.faults sink.old) (K.faults sink.new) (code_of result) }
    ensures files { H.files shelf.new ≡ H.files shelf.old }
{
    match shelf.open(settings.script) {
        Ok(true) => match run_lines(alloc, engine, names, Printing::Whole, shelf, sink) {
            Ok(ending) => status_of(ending),
            Err(Stop::Shelf) => Status::NoFile,
            Err(Stop::Sink) => Status::NoOutput,
            Err(Stop::Memory) => Status::NoMemory,
        },
        Ok(false) => Status::NoFile,
        Err(_) => Status::NoFile,
    }
}
