// From the words to the status.
ghost use Rattle.std.specs.Prelude.{◌≡◌, ◌≢◌, ◌<◌, ◌≤◌, None, OnOk, map, string_bytes};
ghost use Rattle.graph_spec.specs.ProgramLimits.{program_limits};
ghost use Rattle.graph_load.specs.Loads.{loaded};
ghost use Rattle.graph_load.specs.LoadSteps.{LoadsObservable, NamesObservable};
ghost use Rattle.index_api.specs.declared.kinds.Via.TheVariants.{Data};
ghost use Rattle.index_picture.specs.Pictures as picture;
ghost use Rattle.pathindex_core.specs.Engines.{IsSound, by_meaning};
ghost use Rattle.pathindex_core.specs.EngineTerms.{IsUnopened, IsOpened, StaysOpened, engine_graph};
ghost use Rattle.picture_run.specs.DrawnFiles.{Draws, DrawsFile, HasDrawn, ShowsPicture};
ghost use Rattle.picture_run.specs.Settings.{AreWithin};
ghost use Rattle.picture_run.specs.SettingsValues.{settings_value};
ghost use Rattle.picture_run.specs.ShownTexts.{ShowsLine};
ghost use Rattle.picture_run.specs.StatusCodes.{code_of};
ghost use Rattle.picture_run.specs.Words.{settings_of};

use crate::output::{show_refusal, show_text, show_usage};
use crate::settings::{Settings, read_words};
use crate::status::Status;
use graph_load::{LoadError, load_named};
use index_api::{Kind, PathIndex, Via};
use index_picture::{NamesError, NodeNames, dot_text, lone_blocks, name_terms};
use label_graph::Graph;
use pathindex_core::{AskError, Engine};
use px_base::{Limits, Memory, Shelf, Sink, Steps};
use quotient::Summary;
use std::alloc::Global;
use std::marker::Brand;
use std::sync::ledger::{Blank, Ledger};
use triple_names::Names;

// Writes the picture of an index graph.
fn show_summary<K: Sink>(
    alloc: Global,
    settings: &Settings<'_>,
    graph: &Graph,
    summary: &Summary,
    names: &NodeNames,
    sink: &mut K,
) -> Status
    ensures { ShowsLine (picture.dot_text graph.now.graph summary.now names.now settings.now.blocks settings.now.members) 0
        (K.written sink.old) (K.written sink.new) (code_of result) }
{
    match dot_text(
        alloc,
        graph,
        summary,
        names,
        settings.blocks,
        settings.members,
    ) {
        Ok(text) => show_text(sink, text.as_slice(), Status::Done),
        Err(_) => Status::NoMemory,
    }
}

// Drops the index of that kind, unless it is drawn.
fn leave_out<B: PathIndex>(engine: &mut Engine<B>, kind: Kind, drawn: Kind)
    requires closed { IsUnopened engine.old }
    requires sound { IsSound (by_meaning B.meaning engine.old) }
    ensures closed { IsUnopened engine.new }
    ensures sound { IsSound (by_meaning B.meaning engine.new) }
{
    if kind != drawn {
        let _ = engine.forget(kind);
    }
}

// Builds the index that is drawn of the graph, and no other.
fn build<B: PathIndex>(
    engine: &mut Engine<B>,
    graph: Graph,
    kind: Kind,
    level: u32,
) -> Result<(), Memory>
    requires closed { IsUnopened engine.old }
    requires sound { IsSound (by_meaning B.meaning engine.old) }
    requires level { level ≤ 8 }
    ensures sound { IsSound (by_meaning B.meaning engine.new) }
    ensures opened { OnOk result (IsOpened engine.new) }
    ensures graph { OnOk result (engine_graph engine.new ≡ graph.graph) }
{
    leave_out(engine, Kind::A, kind);
    leave_out(engine, Kind::One, kind);
    leave_out(engine, Kind::Fb, kind);
    leave_out(engine, Kind::B, kind);
    engine.open(graph, Limits::program(), level)
}

// Computes the view of the index, if it isn't, and counts no steps.
fn ready<B: PathIndex, L: Ledger>(
    engine: &mut Engine<B>,
    via: Via,
    blank: Blank,
) -> Result<(), AskError>
    requires open { IsOpened engine.old }
    requires sound { IsSound (by_meaning B.meaning engine.old) }
    requires index { via ≢ Data }
    requires name { blank.name ≡ L.name }
    requires parts { blank.parts ≡ L.parts }
    requires some { 0 < blank.parts }
    ensures sound { IsSound (by_meaning B.meaning engine.new) }
    ensures same { StaysOpened engine.old engine.new }
{
    let mut steps = Steps::<L>::new(blank);
    engine.ready(via, &mut steps)
}

// Writes the picture of an index of the open engine.
fn show_ready<B: PathIndex, K: Sink>(
    alloc: Global,
    settings: &Settings<'_>,
    engine: &Engine<B>,
    names: &NodeNames,
    sink: &mut K,
) -> Status
    requires open { IsOpened engine.now }
    requires sound { IsSound (by_meaning B.meaning engine.now) }
    ensures { ShowsPicture (settings_value settings.now) (engine_graph engine.now) names.now (K.written sink.old) (K.written sink.new)
        (code_of result) }
{
    match engine.look(settings.via) {
        Some(summary) => show_summary(alloc, settings, engine.graph(), summary, names, sink),
        None => Status::NoMemory,
    }
}

// Writes the picture of an index of the graph.
fn show_index<B: PathIndex, K: Sink>(
    alloc: Global,
    settings: &Settings<'_>,
    graph: Graph,
    place: (Kind, u32),
    names: &NodeNames,
    engine: &mut Engine<B>,
    sink: &mut K,
) -> Status
    requires closed { IsUnopened engine.old }
    requires sound { IsSound (by_meaning B.meaning engine.old) }
    requires index { settings.now.via ≢ Data }
    requires level { place.1 ≤ 8 }
    ensures { ShowsPicture (settings_value settings.now) graph.graph names.now (K.written sink.old) (K.written sink.new) (code_of result) }
{
    let (kind, level) = place;
    match build(engine, graph, kind, level) {
        Ok(()) => match ready::<B, Brand>(engine, settings.via, Blank::new(1)) {
            Ok(()) => show_ready(alloc, settings, engine, names, sink),
            Err(_) => Status::NoMemory,
        },
        Err(_) => Status::NoMemory,
    }
}

// Writes the picture of the graph itself.
fn show_graph<K: Sink>(
    alloc: Global,
    settings: &Settings<'_>,
    graph: &Graph,
    names: &NodeNames,
    sink: &mut K,
) -> Status
    requires whole { settings.now.via ≡ Data }
    ensures { ShowsPicture (settings_value settings.now) graph.now.graph names.now (K.written sink.old) (K.written sink.new) (code_of result) }
{
    match lone_blocks(alloc, graph) {
        Ok(summary) => show_summary(alloc, settings, graph, &summary, names, sink),
        Err(_) => Status::NoMemory,
    }
}

// Writes the picture of the graph or of the index that is asked for.
fn show_loaded<B: PathIndex, K: Sink>(
    alloc: Global,
    settings: &Settings<'_>,
    graph: Graph,
    names: &NodeNames,
    engine: &mut Engine<B>,
    sink: &mut K,
) -> Status
    requires closed { IsUnopened engine.old }
    requires sound { IsSound (by_meaning B.meaning engine.old) }
    requires within { AreWithin (settings_value settings.now) }
    ensures { ShowsPicture (settings_value settings.now) graph.graph names.now (K.written sink.old) (K.written sink.new) (code_of result) }
{
    match settings.via.place() {
        Some(place) => show_index(alloc, settings, graph, place, names, engine, sink),
        None => show_graph(alloc, settings, &graph, names, sink),
    }
}

// Names the nodes of a graph that is loaded, and writes the picture.
fn show_named<B: PathIndex, H: Shelf, K: Sink>(
    alloc: Global,
    settings: &Settings<'_>,
    graph: Graph,
    terms: &Names,
    engine: &mut Engine<B>,
    shelf: &mut H,
    sink: &mut K,
) -> Status
    requires loads { LoadsObservable program_limits (H.files shelf.old) (settings_value settings.now).file (loaded graph.graph) }
    requires numbers { NamesObservable program_limits (H.files shelf.old) (settings_value settings.now).file graph.graph terms.now.names }
    requires closed { IsUnopened engine.old }
    requires sound { IsSound (by_meaning B.meaning engine.old) }
    requires within { AreWithin (settings_value settings.now) }
    ensures does { DrawsFile (settings_value settings.now) (H.files shelf.old) (K.written sink.old) (K.written sink.new) (code_of result) }
    ensures files { H.files shelf.new ≡ H.files shelf.old }
{
    match name_terms(alloc, shelf, settings.file, terms, graph.created()) {
        Ok(names) => show_loaded(alloc, settings, graph, &names, engine, sink),
        Err(NamesError::Missing) => Status::NoFile,
        Err(NamesError::Fault) => Status::NoFile,
        Err(NamesError::Memory) => Status::NoMemory,
    }
}

// Loads the graph, and writes the picture.
fn run_settings<B: PathIndex, H: Shelf, K: Sink>(
    alloc: Global,
    settings: &Settings<'_>,
    engine: &mut Engine<B>,
    shelf: &mut H,
    sink: &mut K,
) -> Status
    requires closed { IsUnopened engine.old }
    requires sound { IsSound (by_meaning B.meaning engine.old) }
    requires within { AreWithin (settings_value settings.now) }
    ensures does { DrawsFile (settings_value settings.now) (H.files shelf.old) (K.written sink.old) (K.written sink.new) (code_of result) }
    ensures files { H.files shelf.new ≡ H.files shelf.old }
{
    match load_named(alloc, shelf, settings.file, &Limits::program()) {
        Ok((graph, terms)) => show_named(alloc, settings, graph, &terms, engine, shelf, sink),
        Err(LoadError::Syntax(line)) => show_refusal(alloc, line, "syntax", sink),
        Err(LoadError::Limit(line)) => show_refusal(alloc, line, "limit", sink),
        Err(LoadError::Missing) => Status::NoFile,
        Err(LoadError::Fault) => Status::NoFile,
        Err(LoadError::Memory) => Status::NoMemory,
    }
}

// Writes the picture that the words ask for.
fn run_words<B: PathIndex, H: Shelf, K: Sink>(
    alloc: Global,
    words: &[String],
    engine: &mut Engine<B>,
    shelf: &mut H,
    sink: &mut K,
) -> Status
    requires closed { IsUnopened engine.old }
    requires sound { IsSound (by_meaning B.meaning engine.old) }
    ensures does { Draws (settings_of (map string_bytes words.now)) (H.files shelf.old) (K.written sink.old) (K.written sink.new) (code_of result) }
    ensures files { H.files shelf.new ≡ H.files shelf.old }
{
    match read_words(alloc, words) {
        Ok(Some(settings)) => run_settings(alloc, &settings, engine, shelf, sink),
        Ok(None) => show_usage(sink),
        Err(_) => Status::NoMemory,
    }
}

/// Writes the picture that the words ask for, and returns the exit status. The words are those after the program's name: `GRAPH
/// [--graph-of VIA] [--blocks N] [--members N]`. VIA is `data`, the graph itself, or an index: `a0` to `a8`, `one`, `fb`, `b0` to `b8`, and
/// `a1` if none is named. At most N blocks are drawn, 1 to 200 and 20 if no number is given; at most N nodes of each are named, 1 to
/// 50 and 3 if no number is given.
///
/// The engine drops the indexes that aren't drawn. The graph file is read twice: for the graph, and for the names of its terms.
///
/// | Status | When |
/// |---|---|
/// | 0 | the picture is written |
/// | 2 | the words are malformed, and the usage line is written |
/// | 3 | a line of the graph file is refused, and `graph` with its number and the reason is written |
/// | 5 | a call of the shelf failed, or the file isn't there |
/// | 6 | a call of the sink failed, and a prefix of that is written |
/// | 7 | memory runs out, or the engine doesn't have the index, and nothing is written |
///
/// It costs what the load, the build of the index and `dot_text` cost.
pub fn run<B: PathIndex, H: Shelf, K: Sink>(
    alloc: Global,
    words: &[String],
    engine: &mut Engine<B>,
    shelf: &mut H,
    sink: &mut K,
) -> u8
    requires closed { IsUnopened engine.old }
    requires sound { IsSound (by_meaning B.meaning engine.old) }
    // Status 0: the words give settings, and the picture that they ask for is written.
    ensures drawn { result ≡ 0 → HasDrawn (settings_of (map string_bytes words.now)) (H.files shelf.old) (K.written sink.old) (K.written sink.new) }
    // At each status: the picture, the usage line or which line of the file is refused, a prefix of that, or nothing.
    ensures does { Draws (settings_of (map string_bytes words.now)) (H.files shelf.old) (K.written sink.old) (K.written sink.new) result }
    ensures files { H.files shelf.new ≡ H.files shelf.old }
{
    let status = run_words(alloc, words, engine, shelf, sink);
    status.code()
}
