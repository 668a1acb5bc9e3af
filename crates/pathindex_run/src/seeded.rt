// The run of the texts that are made from a seed.
ghost use Rattle.std.specs.Prelude.{◌≡◌, ◌≢◌, Err, Some, IfOk, IfErr};
ghost use Rattle.graph_spec.specs.ProgramLimits.{program_limits};
ghost use Rattle.graph_load.specs.Loads.{Loads, LoadsNamed};
ghost use Rattle.graph_load.specs.LoadSteps.{TellsOutcome};
ghost use Rattle.workload.specs.MadeTexts.{made_graph_text};
ghost use Rattle.index_file.specs.WholeFiles.{HasLabels};
ghost use Rattle.pathindex_core.specs.Engines.{IsSound, by_meaning};
ghost use Rattle.pathindex_core.specs.EngineTerms.{IsUnopened, engine_graph, engine_kinds};
ghost use Rattle.script_interpreter.specs.declared.printing.Printing.TheVariants.{Brief};
ghost use Rattle.script_interpreter.specs.EngineStates.{state_of, IsOpenForProgram, IsIn};
ghost use Rattle.script_interpreter.specs.Rules.{rules_for};
ghost use Rattle.pathindex_run.specs.Headline.{RunsFrom, RunsLoaded, RunsScript, made_task};
ghost use Rattle.pathindex_run.specs.MadeSteps.{HasSinkStatus, text_task};
ghost use Rattle.pathindex_run.specs.StatusCodes.{code_of};

use crate::entry::leave_out;
use crate::output::show_refusal;
use crate::status::{Status, status_of};
use graph_load::{LoadError, TextShelf, load_text};
use index_api::{Kind, PathIndex};
use label_graph::Graph;
use pathindex_core::Engine;
use px_base::{Limits, Sink};
use script_interpreter::{Printing, Stop, run_lines};
use std::alloc::Global;
use triple_names::Names;
use workload::{made_graph, made_script};

/// Loads the graph file that is made from the seed.
fn load_made(alloc: Global, seed: u64) -> Result<(Graph, Names), LoadError>
    ensures named { IfOk result (λ r. LoadsNamed program_limits (made_graph_text seed) r.0.graph r.1.names) }
    ensures refused { IfErr result (TellsOutcome (Loads program_limits (made_graph_text seed))) }
    ensures found { result ≢ Err LoadError.Missing }
    ensures read { result ≢ Err LoadError.Fault }
{
    match made_graph(alloc, seed) {
        Ok(text) => load_text(alloc, text.as_bytes(), &Limits::program()),
        Err(_) => Err(LoadError::Memory),
    }
}

/// Makes the texts of the seed, loads the graph file, and runs the script. The graph file's text is dropped before the
/// script is made.
pub(crate) fn run_seeded<B: PathIndex, K: Sink>(
    alloc: Global,
    seed: u64,
    engine: &mut Engine<B>,
    sink: &mut K,
) -> Status
    requires closed { IsUnopened engine.old }
    requires sound { IsSound (by_meaning B.meaning engine.old) }
    ensures sound { IsSound (by_meaning B.meaning engine.new) }
    ensures does { RunsLoaded (made_task seed (engine_kinds B.meaning engine.old)) (Some (made_graph_text seed)) (K.written sink.old)
        (K.written sink.new) (code_of result) (IsIn (by_meaning B.meaning engine.new)) }
    ensures status { HasSinkStatus (K.faults sink.old) (K.faults sink.new) (code_of result) }
{
    match load_made(alloc, seed) {
        Ok((graph, names)) => run_script(alloc, seed, graph, names, engine, sink),
        Err(LoadError::Syntax(line)) => show_refusal(alloc, "graph ", line, "syntax", sink),
        Err(LoadError::Limit(line)) => show_refusal(alloc, "graph ", line, "limit", sink),
        Err(LoadError::Missing) => unreachable!(),
        Err(LoadError::Fault) => unreachable!(),
        Err(LoadError::Memory) => Status::NoMemory,
    }
}

/// Makes the script for the graph, and runs it from there on, without the bounded forward and backward indexes.
fn run_script<B: PathIndex, K: Sink>(
    alloc: Global,
    seed: u64,
    graph: Graph,
    names: Names,
    engine: &mut Engine<B>,
    sink: &mut K,
) -> Status
    requires labels { HasLabels graph.graph }
    requires closed { IsUnopened engine.old }
    requires sound { IsSound (by_meaning B.meaning engine.old) }
    ensures sound { IsSound (by_meaning B.meaning engine.new) }
    ensures does { RunsFrom (made_task seed (engine_kinds B.meaning engine.old)) graph.graph names.names (K.written sink.old) (K.written sink.new)
        (code_of result) (IsIn (by_meaning B.meaning engine.new)) }
    ensures status { HasSinkStatus (K.faults sink.old) (K.faults sink.new) (code_of result) }
{
    leave_out(engine, Kind::B, true);
    match made_script(alloc, seed, graph.created()) {
        Ok(script) => run_text(alloc, script.as_bytes(), graph, names, engine, sink),
        Err(_) => Status::NoMemory,
    }
}

/// Opens the engine with that graph, and runs the script with this text.
fn run_text<B: PathIndex, K: Sink>(
    alloc: Global,
    script: &[u8],
    graph: Graph,
    names: Names,
    engine: &mut Engine<B>,
    sink: &mut K,
) -> Status
    requires labels { HasLabels graph.graph }
    requires closed { IsUnopened engine.old }
    requires sound { IsSound (by_meaning B.meaning engine.old) }
    ensures sound { IsSound (by_meaning B.meaning engine.new) }
    ensures does { RunsFrom (text_task script.now (engine_kinds B.meaning engine.old)) graph.graph names.names (K.written sink.old)
        (K.written sink.new) (code_of result) (IsIn (by_meaning B.meaning engine.new)) }
    ensures status { HasSinkStatus (K.faults sink.old) (K.faults sink.new) (code_of result) }
{
    match engine.open(graph, Limits::program(), 2) {
        Ok(()) => run_open(alloc, script, engine, names, sink),
        Err(_) => Status::NoMemory,
    }
}

/// Runs the script with this text on the graph of the engine.
fn run_open<B: PathIndex, K: Sink>(
    alloc: Global,
    script: &[u8],
    engine: &mut Engine<B>,
    names: Names,
    sink: &mut K,
) -> Status
    requires labels { HasLabels (engine_graph engine.old) }
    requires ready { IsOpenForProgram (by_meaning B.meaning engine.old) }
    ensures sound { IsSound (by_meaning B.meaning engine.new) }
    ensures does { RunsScript (rules_for Brief) (state_of B.meaning engine.old names.names) (Some script.now) (K.written sink.old)
        (K.written sink.new) (code_of result) (IsIn (by_meaning B.meaning engine.new)) }
    ensures status { HasSinkStatus (K.faults sink.old) (K.faults sink.new) (code_of result) }
{
    let mut shelf = TextShelf::new(script);
    match run_lines(alloc, engine, names, Printing::Brief, &mut shelf, sink) {
        Ok(ending) => status_of(ending),
        Err(Stop::Shelf) => unreachable!(),
        Err(Stop::Sink) => Status::NoOutput,
        Err(Stop::Memory) => Status::NoMemory,
    }
}
