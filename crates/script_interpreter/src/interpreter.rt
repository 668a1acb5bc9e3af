// Carrying out the lines of a script.
ghost use Rattle.std.specs.Prelude.{◌≡◌, ◌≢◌, ◌<◌, ◌↔◌, ℕ, List, Option, Some};
ghost use Rattle.std.specs.Prelude.{None, Ok, Err, IfOk, IfSome, IfNone, OnOk, OnErr, IsTrue, IsSome, not};
ghost use Rattle.graph_spec.specs.Graphs.{is_live};
ghost use Rattle.graph_spec.specs.Shapes.{shape_of};
ghost use Rattle.change_spec.specs.Steps.{Step as Value_of_step};
ghost use Rattle.graph_steps.specs.StepLists.{step_of};
ghost use Rattle.index_api.specs.declared.kinds.Via.TheVariants.{Data};
ghost use Rattle.branch_query.specs.Queries.{query_of};
ghost use Rattle.script_read.specs.Commands.{change as changing, begin as beginning, end as ending, why as asking_why, check as checking};
ghost use Rattle.script_read.specs.Commands.{extents as listing, sizes as measuring, forget as forgetting};
ghost use Rattle.script_read.specs.ReadLines.{command_of, ReadsCommand};
ghost use Rattle.script_read.specs.Commands.{IsSpelled, PassesLimit};
ghost use Rattle.graph_spec.specs.ProgramLimits.{program_limits};
ghost use Rattle.triple_names.specs.Names.{Names as Numbers};
ghost use Rattle.pathindex_core.specs.Engines.{by_meaning};
ghost use Rattle.script_interpreter.specs.EngineStates.{state_of, IsOpenForProgram};
ghost use Rattle.script_interpreter.specs.Outputs.{Gathered};
ghost use Rattle.script_interpreter.specs.States.{State};
ghost use Rattle.script_interpreter.specs.Walks.{ShowsLast};
ghost use Rattle.script_interpreter.specs.RunSteps.{query_command, IsAlone, Changed, Obeyed, LineComes};
ghost use Rattle.script_interpreter.specs.Runs.{Group, with_step, StandsInGroup};
ghost use Rattle.script_interpreter.specs.OpenGroups.{IsKeptAs};

use crate::changes::{change, delete, insert, make};
use crate::group::{OpenGroup, Scope};
use crate::output::Output;
use branch_query::Query;
use extent_report::{answer_text, walk_text};
use graph_update::Step;
use index_api::{Kind, PathIndex, Via};
use label_graph::Graph;
use path_query::PathExpr;
use pathindex_core::{AskError, Engine};
use px_base::{Limits, Memory, NodeId, Refusal, Steps};
use script_read::{Command, ScriptError, read};
use std::alloc::Global;
use std::marker::Brand;
use std::sync::ledger::{Blank, Ledger};
use triple_names::Names;
use walk_check::holds;
use walk_proof::{Walk, find};

/// What a line came to.
#[derive(Clone, Copy)]
pub(crate) enum Outcome {
    /// The line was taken.
    Done,
    /// The line is taken once the file that it asks for is written.
    Due,
    /// The line is no command, and neither blank nor a comment.
    Bad,
}

/// Gathers the answers of a query, asked through an index or of the graph itself.
fn ask<B: PathIndex, L: Ledger>(
    alloc: Global,
    engine: &mut Engine<B>,
    via: Via,
    query: &Query<'_>,
    output: &mut Output,
    steps: &mut Steps<L>,
) -> Result<(), Memory>
    requires ready { IsOpenForProgram (by_meaning B.meaning engine.old) }
    ensures ready { IsOpenForProgram (by_meaning B.meaning engine.new) }
    ensures ok { (n : Numbers) → OnOk result (Obeyed (state_of B.meaning engine.old n) (query_command via (query_of query.now)) output.old
        (state_of B.meaning engine.new n) output.new) }
    ensures err { OnErr result (output.new ≡ output.old) }
{
    match engine.ask(alloc, via, query, steps) {
        Ok(answer) => {
            let text = answer_text(alloc, &answer, output.prints_nodes())?;
            output.push(text.as_bytes())
        }
        Err(AskError::NoIndex) => output.refuse(Refusal::NoIndex),
        Err(AskError::Memory) => Err(Memory),
    }
}

/// Gathers the least walk that shows why a live node answers, or that none does.
fn show_walk<L: Ledger>(
    alloc: Global,
    graph: &Graph,
    node: NodeId,
    expr: &PathExpr,
    output: &mut Output,
    steps: &mut Steps<L>,
) -> Result<(), Memory>
    requires live { IsTrue (is_live graph.now.graph node) }
    ensures ok { OnOk result ((s : State) → s.graph ≡ graph.now.graph → Obeyed s (asking_why node expr.now) output.old s output.new) }
    ensures err { OnErr result (output.new ≡ output.old) }
{
    match find(alloc, graph, expr, node, steps) {
        Ok(Some(walk)) => {
            let text = walk_text(alloc, walk.nodes())?;
            output.push(text.as_bytes())
        }
        Ok(None) => output.push_word("none"),
        Err(_) => Err(Memory),
    }
}

/// Gathers why a node answers. A node that isn't live is refused.
fn explain<B: PathIndex, L: Ledger>(
    alloc: Global,
    engine: &Engine<B>,
    node: NodeId,
    expr: &PathExpr,
    output: &mut Output,
    steps: &mut Steps<L>,
) -> Result<(), Memory>
    requires ready { IsOpenForProgram (by_meaning B.meaning engine.now) }
    ensures ok { (n : Numbers) → OnOk result (Obeyed (state_of B.meaning engine.now n) (asking_why node expr.now) output.old
        (state_of B.meaning engine.now n) output.new) }
    ensures err { OnErr result (output.new ≡ output.old) }
{
    let graph = engine.graph();
    if graph.is_live(node) {
        show_walk(alloc, graph, node, expr, output, steps)
    } else {
        output.refuse(Refusal::NoNode)
    }
}

/// Whether the nodes show why the last of them answers.
fn shows_last(alloc: Global, graph: &Graph, walk: &Walk, expr: &PathExpr) -> Result<bool, Memory>
    ensures { IfOk result (λ b. IsTrue b ↔ ShowsLast (shape_of graph.now.graph) expr.now walk.now) }
{
    let nodes = walk.nodes();
    match nodes.last() {
        Some(last) => {
            let right = holds(alloc, graph, expr, *last, nodes)?;
            Ok(right)
        }
        None => Ok(false),
    }
}

/// Gathers whether the nodes show why the last of them answers.
fn check<B: PathIndex>(
    alloc: Global,
    engine: &Engine<B>,
    walk: &Walk,
    expr: &PathExpr,
    output: &mut Output,
) -> Result<(), Memory>
    requires ready { IsOpenForProgram (by_meaning B.meaning engine.now) }
    ensures ok { (n : Numbers) → OnOk result (Obeyed (state_of B.meaning engine.now n) (checking walk.now expr.now) output.old
        (state_of B.meaning engine.now n) output.new) }
    ensures err { OnErr result (output.new ≡ output.old) }
{
    let right = shows_last(alloc, engine.graph(), walk, expr)?;
    if right {
        output.push_word("yes")
    } else {
        output.push_word("no")
    }
}

/// Gathers the list of an index, and nothing of the graph itself.
fn list_index<B: PathIndex, L: Ledger>(
    alloc: Global,
    engine: &mut Engine<B>,
    via: Via,
    output: &mut Output,
    steps: &mut Steps<L>,
) -> Result<(), Memory>
    requires ready { IsOpenForProgram (by_meaning B.meaning engine.old) }
    requires index { via ≢ Data }
    ensures ready { IsOpenForProgram (by_meaning B.meaning engine.new) }
    ensures ok { (n : Numbers) → OnOk result (Obeyed (state_of B.meaning engine.old n) (listing via) output.old
        (state_of B.meaning engine.new n) output.new) }
    ensures err { OnErr result (output.new ≡ output.old) }
{
    match engine.extents(alloc, via, steps) {
        Ok(text) => output.push(text.as_bytes()),
        Err(AskError::NoIndex) => output.refuse(Refusal::NoIndex),
        Err(AskError::Memory) => Err(Memory),
    }
}

/// Gathers the list of an index. A list of the graph itself is refused.
fn list<B: PathIndex, L: Ledger>(
    alloc: Global,
    engine: &mut Engine<B>,
    via: Via,
    output: &mut Output,
    steps: &mut Steps<L>,
) -> Result<(), Memory>
    requires ready { IsOpenForProgram (by_meaning B.meaning engine.old) }
    ensures ready { IsOpenForProgram (by_meaning B.meaning engine.new) }
    ensures ok { (n : Numbers) → OnOk result (Obeyed (state_of B.meaning engine.old n) (listing via) output.old
        (state_of B.meaning engine.new n) output.new) }
    ensures err { OnErr result (output.new ≡ output.old) }
{
    match via {
        Via::Data => output.refuse(Refusal::NoIndex),
        _ => list_index(alloc, engine, via, output, steps),
    }
}

/// Gathers the sizes of the graph and of the indexes that are kept.
fn measure<B: PathIndex, L: Ledger>(
    alloc: Global,
    engine: &mut Engine<B>,
    output: &mut Output,
    steps: &mut Steps<L>,
) -> Result<(), Memory>
    requires ready { IsOpenForProgram (by_meaning B.meaning engine.old) }
    ensures ready { IsOpenForProgram (by_meaning B.meaning engine.new) }
    ensures ok { (n : Numbers) → OnOk result (Obeyed (state_of B.meaning engine.old n) measuring output.old
        (state_of B.meaning engine.new n) output.new) }
    ensures err { OnErr result (output.new ≡ output.old) }
{
    let text = engine.sizes(alloc, steps)?;
    output.push(text.as_bytes())
}

/// Forgets the index of a kind, and gathers that.
fn forget<B: PathIndex>(
    engine: &mut Engine<B>,
    kind: Kind,
    output: &mut Output,
) -> Result<(), Memory>
    requires ready { IsOpenForProgram (by_meaning B.meaning engine.old) }
    ensures ready { IsOpenForProgram (by_meaning B.meaning engine.new) }
    ensures ok { (n : Numbers) → OnOk result (Obeyed (state_of B.meaning engine.old n) (forgetting kind) output.old
        (state_of B.meaning engine.new n) output.new) }
    ensures err { OnErr result (output.new ≡ output.old) }
{
    match engine.forget(kind) {
        Ok(()) => output.push_ok(),
        Err(refusal) => output.refuse(refusal),
    }
}

/// Carries out a command that stands alone, and gathers what it prints.
fn obey<B: PathIndex, L: Ledger>(
    alloc: Global,
    engine: &mut Engine<B>,
    names: &mut Names,
    command: Command,
    output: &mut Output,
    blank: Blank,
) -> Result<(), Memory>
    requires name { blank.name ≡ L.name }
    requires parts { blank.parts ≡ L.parts }
    requires some { 0 < blank.parts }
    requires alone { IsAlone (command_of command) }
    requires ready { IsOpenForProgram (by_meaning B.meaning engine.old) }
    ensures ready { IsOpenForProgram (by_meaning B.meaning engine.new) }
    ensures ok { OnOk result (Obeyed (state_of B.meaning engine.old names.old.names) (command_of command) output.old
        (state_of B.meaning engine.new names.new.names) output.new) }
    ensures err { OnErr result (output.new ≡ output.old) }
{
    let mut steps = Steps::<L>::new(blank);
    match command {
        Command::Node(label) => change(alloc, engine, Step::Node(label), output),
        Command::Link(from, to) => change(alloc, engine, Step::Link(from, to), output),
        Command::Unlink(from, to) => change(alloc, engine, Step::Unlink(from, to), output),
        Command::Drop(node) => change(alloc, engine, Step::Drop(node), output),
        Command::Relabel(node, label) => change(alloc, engine, Step::Relabel(node, label), output),
        Command::Begin => unreachable!(),
        Command::End => unreachable!(),
        Command::Insert(triple) => insert(alloc, engine, names, triple, output),
        Command::Delete(triple) => delete(alloc, engine, names, &triple, output),
        Command::Path(via, expr) => {
            ask(alloc, engine, via, &Query::Path(&expr), output, &mut steps)
        }
        Command::Branch(via, query) => {
            ask(
                alloc,
                engine,
                via,
                &Query::Branch(&query),
                output,
                &mut steps,
            )
        }
        Command::Why(node, expr) => explain(alloc, engine, node, &expr, output, &mut steps),
        Command::Check(walk, expr) => check(alloc, engine, &walk, &expr, output),
        Command::Extents(via) => list(alloc, engine, via, output, &mut steps),
        Command::Sizes => measure(alloc, engine, output, &mut steps),
        Command::Save => unreachable!(),
        Command::Forget(kind) => forget(engine, kind, output),
    }
}

/// Whether a command is the first line of a group.
fn is_begin(command: &Command) -> bool
    ensures { IsTrue result ↔ (command_of command.now ≡ beginning) }
{
    matches!(*command, Command::Begin)
}

/// Whether a command is the last line of a group.
fn is_end(command: &Command) -> bool
    ensures { IsTrue result ↔ (command_of command.now ≡ ending) }
{
    matches!(*command, Command::End)
}

/// Whether a command is carried out where it stands, and what it prints is gathered.
fn is_alone(command: &Command) -> bool
    ensures { IsTrue result ↔ IsAlone (command_of command.now) }
{
    !matches!(*command, Command::Begin | Command::End | Command::Save)
}

/// The step that a command is, if it is one.
fn step(command: Command) -> Option<Step>
    ensures found { IfSome result (λ step. command_of command ≡ changing (step_of step)) }
    ensures absent { IfNone result ((step : Value_of_step) → command_of command ≢ changing step) }
{
    match command {
        Command::Node(label) => Some(Step::Node(label)),
        Command::Link(from, to) => Some(Step::Link(from, to)),
        Command::Unlink(from, to) => Some(Step::Unlink(from, to)),
        Command::Drop(node) => Some(Step::Drop(node)),
        Command::Relabel(node, label) => Some(Step::Relabel(node, label)),
        Command::Begin => None,
        Command::End => None,
        Command::Insert(_) => None,
        Command::Delete(_) => None,
        Command::Path(_, _) => None,
        Command::Branch(_, _) => None,
        Command::Why(_, _) => None,
        Command::Check(_, _) => None,
        Command::Extents(_) => None,
        Command::Sizes => None,
        Command::Save => None,
        Command::Forget(_) => None,
    }
}

/// Takes the first or last line of a group, or one that asks for an index file, which is written later.
fn take_mark(
    alloc: Global,
    number: u32,
    command: &Command,
    group: &mut Option<OpenGroup>,
) -> Result<Outcome, Memory>
    requires mark { ¬ IsAlone (command_of command.now) }
    requires none { group.old ≡ None }
    ensures { IfOk result (λ outcome. (s : State) (old : Gathered) (line : List ℕ) → IsSpelled line (command_of command.now)
        → ¬ PassesLimit program_limits line → (left : Option Group) × IsKeptAs left group.new × LineComes s number line None old outcome s left old) }
{
    if is_begin(command) {
        *group = Some(OpenGroup::begin(alloc, number)?);
        Ok(Outcome::Done)
    } else if is_end(command) {
        Ok(Outcome::Bad)
    } else {
        Ok(Outcome::Due)
    }
}

/// Carries out the command of a line that stands in no group.
fn take_command<B: PathIndex>(
    alloc: Global,
    engine: &mut Engine<B>,
    names: &mut Names,
    number: u32,
    command: Command,
    group: &mut Option<OpenGroup>,
    output: &mut Output,
) -> Result<Outcome, Memory>
    requires ready { IsOpenForProgram (by_meaning B.meaning engine.old) }
    requires none { group.old ≡ None }
    ensures ready { IsOpenForProgram (by_meaning B.meaning engine.new) }
    ensures ok { IfOk result (λ outcome. (line : List ℕ) → ReadsCommand program_limits line (Ok (Some command))
        → (left : Option Group) × IsKeptAs left group.new
        × LineComes (state_of B.meaning engine.old names.old.names) number line None output.old outcome
        (state_of B.meaning engine.new names.new.names) left output.new) }
    ensures err { OnErr result (output.new ≡ output.old) }
{
    if is_alone(&command) {
        obey::<B, Brand>(alloc, engine, names, command, output, Blank::new(1))?;
        Ok(Outcome::Done)
    } else {
        take_mark(alloc, number, &command, group)
    }
}

/// Takes a line in no group that spells no command: a query whose expression passes a limit is refused.
fn fail_outside(error: ScriptError, output: &mut Output) -> Result<Outcome, Memory>
    ensures ok { IfOk result (λ outcome. (s : State) (number : ℕ) (line : List ℕ) → ReadsCommand program_limits line (Err error)
        → LineComes s number line None output.old outcome s None output.new) }
    ensures err { OnErr result (output.new ≡ output.old) }
{
    match error {
        ScriptError::Limit => {
            output.refuse(Refusal::Limit)?;
            Ok(Outcome::Done)
        }
        ScriptError::Bad => Ok(Outcome::Bad),
        ScriptError::Memory => Err(Memory),
    }
}

/// Takes a line that stands in no group.
fn take_outside<B: PathIndex>(
    alloc: Global,
    engine: &mut Engine<B>,
    names: &mut Names,
    number: u32,
    read: Result<Option<Command>, ScriptError>,
    group: &mut Option<OpenGroup>,
    output: &mut Output,
) -> Result<Outcome, Memory>
    requires ready { IsOpenForProgram (by_meaning B.meaning engine.old) }
    requires none { group.old ≡ None }
    ensures ready { IsOpenForProgram (by_meaning B.meaning engine.new) }
    ensures ok { IfOk result (λ outcome. (line : List ℕ) → ReadsCommand program_limits line read
        → (left : Option Group) × IsKeptAs left group.new
        × LineComes (state_of B.meaning engine.old names.old.names) number line None output.old outcome
        (state_of B.meaning engine.new names.new.names) left output.new) }
    ensures err { OnErr result (output.new ≡ output.old) }
{
    match read {
        Ok(Some(command)) => take_command(alloc, engine, names, number, command, group, output),
        Ok(None) => Ok(Outcome::Done),
        Err(error) => fail_outside(error, output),
    }
}

/// Makes the change of a group that ends, and tells whether it is accepted.
fn end<B: PathIndex>(
    alloc: Global,
    engine: &mut Engine<B>,
    group: &mut Option<OpenGroup>,
    output: &mut Output,
) -> Result<bool, Memory>
    requires ready { IsOpenForProgram (by_meaning B.meaning engine.old) }
    requires some { IsSome group.old }
    ensures ready { IsOpenForProgram (by_meaning B.meaning engine.new) }
    ensures ok { (n : Numbers) → IfOk result (λ accepted. (g : Group) → IsKeptAs (Some g) group.old
        → Changed Scope.LineGroup (state_of B.meaning engine.old n) g.steps output.old (not accepted) (state_of B.meaning engine.new n) output.new) }
    ensures ended { OnOk result (group.new ≡ None) }
    ensures err { OnErr result (output.new ≡ output.old) }
{
    match group.take() {
        Some(open) => make(alloc, engine, open.change, Scope::LineGroup, output),
        None => unreachable!(),
    }
}

/// Keeps a step of the group that is open.
fn keep(group: &mut Option<OpenGroup>, step: Step) -> Result<(), Memory>
    requires some { IsSome group.old }
    ensures ok { OnOk result ((g : Group) → IsKeptAs (Some g) group.old → IsKeptAs (Some (with_step g (step_of step))) group.new) }
{
    match group {
        Some(open) => open.keep(step),
        None => unreachable!(),
    }
}

/// Takes the command of a line that stands in a group.
fn take_inner<B: PathIndex>(
    alloc: Global,
    engine: &mut Engine<B>,
    command: Command,
    group: &mut Option<OpenGroup>,
    output: &mut Output,
) -> Result<Outcome, Memory>
    requires ready { IsOpenForProgram (by_meaning B.meaning engine.old) }
    requires some { IsSome group.old }
    ensures ready { IsOpenForProgram (by_meaning B.meaning engine.new) }
    ensures ok { (n : Numbers) → IfOk result (λ outcome. (number : ℕ) (line : List ℕ) (g : Group) → IsSpelled line (command_of command)
        → IsKeptAs (Some g) group.old → (left : Option Group) × IsKeptAs left group.new
        × LineComes (state_of B.meaning engine.old n) number line (Some g) output.old outcome (state_of B.meaning engine.new n) left output.new) }
    ensures err { OnErr result (output.new ≡ output.old) }
{
    if is_end(&command) {
        end(alloc, engine, group, output)?;
        return Ok(Outcome::Done);
    }
    match step(command) {
        Some(step) => {
            keep(group, step)?;
            Ok(Outcome::Done)
        }
        None => Ok(Outcome::Bad),
    }
}

/// Takes a line in a group that spells no command.
fn fail_inside(error: ScriptError) -> Result<Outcome, Memory>
    ensures outcome { IfOk result (λ outcome. outcome ≡ Outcome.Bad) }
    ensures bad { OnOk result ((line : List ℕ) → ReadsCommand program_limits line (Err error) → ¬ StandsInGroup line) }
{
    match error {
        ScriptError::Limit => Ok(Outcome::Bad),
        ScriptError::Bad => Ok(Outcome::Bad),
        ScriptError::Memory => Err(Memory),
    }
}

/// Takes a line that stands in a group.
fn take_inside<B: PathIndex>(
    alloc: Global,
    engine: &mut Engine<B>,
    read: Result<Option<Command>, ScriptError>,
    group: &mut Option<OpenGroup>,
    output: &mut Output,
) -> Result<Outcome, Memory>
    requires ready { IsOpenForProgram (by_meaning B.meaning engine.old) }
    requires some { IsSome group.old }
    ensures ready { IsOpenForProgram (by_meaning B.meaning engine.new) }
    ensures ok { (n : Numbers) → IfOk result (λ outcome. (number : ℕ) (line : List ℕ) (g : Group) → ReadsCommand program_limits line read
        → IsKeptAs (Some g) group.old → (left : Option Group) × IsKeptAs left group.new
        × LineComes (state_of B.meaning engine.old n) number line (Some g) output.old outcome (state_of B.meaning engine.new n) left output.new) }
    ensures err { OnErr result (output.new ≡ output.old) }
{
    match read {
        Ok(Some(command)) => take_inner(alloc, engine, command, group, output),
        Ok(None) => Ok(Outcome::Done),
        Err(error) => fail_inside(error),
    }
}

/// Takes the line of that number, and gathers what it prints.
pub(crate) fn take<B: PathIndex>(
    alloc: Global,
    engine: &mut Engine<B>,
    names: &mut Names,
    number: u32,
    line: &[u8],
    group: &mut Option<OpenGroup>,
    output: &mut Output,
) -> Result<Outcome, Memory>
    requires ready { IsOpenForProgram (by_meaning B.meaning engine.old) }
    ensures ready { IsOpenForProgram (by_meaning B.meaning engine.new) }
    ensures ok { IfOk result (λ outcome. (was : Option Group) → IsKeptAs was group.old
        → (left : Option Group) × IsKeptAs left group.new
        × LineComes (state_of B.meaning engine.old names.old.names) number line.now was output.old outcome
        (state_of B.meaning engine.new names.new.names) left output.new) }
    ensures err { OnErr result (output.new ≡ output.old) }
{
    let read = read(alloc, line, &Limits::program());
    if group.is_some() {
        take_inside(alloc, engine, read, group, output)
    } else {
        take_outside(alloc, engine, names, number, read, group, output)
    }
}
