// The automaton of an expression.
ghost use Rattle.std.specs.Prelude.{◌≡◌, ◌<◌, ◌≤◌, ℕ, List, length, drop, Option, Some, IfSome, IfOk, OnOk};
ghost use Rattle.path_automaton.specs.Programs.{state_at};
ghost use Rattle.path_expr.specs.ExprAutomata.{Stands, StandsSeq, StandsItem, StandsAtom, ReadsLabel};
ghost use Rattle.path_expr.specs.ExprTrees.{seq_of, signed_by, atom_of};
ghost use Rattle.path_expr.specs.Compiled.{Grows, HasFork, HasSep, StandRest};

use crate::tree::{Atom, Expr, Sep, Seq, Sign};
use label_graph::Labels;
use path_automaton::{Program, State};
use px_base::{Memory, Text};

/// The state that reads the label and goes on to the next one.
fn label_state(labels: &Labels, label: &Text, next: u32) -> State
    ensures { ReadsLabel labels.now.texts (Some result) label.now next }
{
    match labels.find(label) {
        Some(number) => State::Label(number, next),
        None => State::Stuck,
    }
}

/// The state from which both are entered, where there is a second one.
pub(crate) fn join(program: &mut Program, first: u32, second: Option<u32>) -> Result<u32, Memory>
    requires first { first < length program.old }
    requires second { IfSome second (λ s. s < length program.old) }
    ensures number { IfOk result (λ i. i < length program.new) }
    ensures grows { OnOk result (Grows program.old program.new) }
    ensures fork { IfOk result (λ i. HasFork program.old program.new first second i) }
{
    match second {
        None => Ok(first),
        Some(second) => program.push(State::Fork(first, second)),
    }
}

/// The state from which what follows the separator is read.
fn compile_sep(program: &mut Program, sep: Sep, next: u32) -> Result<u32, Memory>
    requires next { next < length program.old }
    ensures number { IfOk result (λ i. i < length program.new) }
    ensures grows { OnOk result (Grows program.old program.new) }
    ensures gap { IfOk result (λ i. HasSep sep program.old program.new next i) }
{
    match sep {
        Sep::Child => Ok(next),
        Sep::Below => {
            let fork = program.push(State::Fork(next, next))?;
            let gap = program.push(State::Any(fork))?;
            program.set(fork, State::Fork(gap, next));
            Ok(fork)
        }
    }
}

#[cycle(compile)]
fn compile_atom(
    labels: &Labels,
    program: &mut Program,
    atom: &Atom,
    next: u32,
) -> Result<u32, Memory>
    requires next { next < length program.old }
    ensures number { IfOk result (λ i. i < length program.new) }
    ensures grows { OnOk result (Grows program.old program.new) }
    ensures stands { IfOk result (λ i. StandsAtom labels.now.texts (state_at program.new) (atom_of atom.now) (length program.old) i next) }
{
    match atom {
        Atom::Label(label) => program.push(label_state(labels, label, next)),
        Atom::Any => program.push(State::Any(next)),
        Atom::Group(expr) => compile_expr(labels, program, expr, next),
    }
}

#[cycle(compile)]
pub(crate) fn compile_item(
    labels: &Labels,
    program: &mut Program,
    atom: &Atom,
    sign: Option<Sign>,
    next: u32,
) -> Result<u32, Memory>
    requires next { next < length program.old }
    ensures number { IfOk result (λ i. i < length program.new) }
    ensures grows { OnOk result (Grows program.old program.new) }
    ensures stands { IfOk result (λ i. StandsItem labels.now.texts (state_at program.new) (signed_by (atom_of atom.now) sign) (length program.old) i next) }
{
    match sign {
        None => compile_atom(labels, program, atom, next),
        Some(Sign::Star) => {
            let fork = program.push(State::Fork(next, next))?;
            let first = compile_atom(labels, program, atom, fork)?;
            program.set(fork, State::Fork(first, next));
            Ok(fork)
        }
        Some(Sign::Plus) => {
            let fork = program.push(State::Fork(next, next))?;
            let first = compile_atom(labels, program, atom, fork)?;
            program.set(fork, State::Fork(first, next));
            Ok(first)
        }
        Some(Sign::Opt) => {
            let first = compile_atom(labels, program, atom, next)?;
            program.push(State::Fork(next, first))
        }
    }
}

/// The state from which the items behind the separators are read, from the separator with the number on.
#[cycle(compile)]
pub(crate) fn compile_rest(
    labels: &Labels,
    program: &mut Program,
    seq: &Seq,
    from: usize,
    next: u32,
) -> Result<u32, Memory>
    requires from { from ≤ length seq.now.rest.items }
    requires next { next < length program.old }
    ensures number { IfOk result (λ i. i < length program.new) }
    ensures grows { OnOk result (Grows program.old program.new) }
    ensures stands { IfOk result (λ i. StandRest labels.now.texts program.new (length program.old) (drop from seq.now.rest.items) next i) }
{
    let mut after = next;
    for j in (from..seq.rest.len()).rev() {
        let step = &seq.rest[j];
        let first = compile_item(labels, program, &step.item.atom, step.item.sign, after)?;
        after = compile_sep(program, step.sep, first)?;
    }
    Ok(after)
}

#[cycle(compile)]
fn compile_seq(labels: &Labels, program: &mut Program, seq: &Seq, next: u32) -> Result<u32, Memory>
    requires next { next < length program.old }
    ensures number { IfOk result (λ i. i < length program.new) }
    ensures grows { OnOk result (Grows program.old program.new) }
    ensures stands { IfOk result (λ i. StandsSeq labels.now.texts (state_at program.new) (seq_of seq.now) (length program.old) i next) }
{
    let after = compile_rest(labels, program, seq, 0, next)?;
    compile_item(labels, program, &seq.first.atom, seq.first.sign, after)
}

/// The state from which the expression is read, with the state `next` behind it. An alternative, an item, a sign and a
/// separator take at most two states each. `Memory` comes only where memory runs out, or the states pass 2^32 - 1. O(m)
/// for m tokens, and each label is looked up once for each place where it stands, in expected O(1) for each of its bytes;
/// it takes O(m) memory.
#[cycle(compile)]
pub fn compile_expr(
    labels: &Labels,
    program: &mut Program,
    expr: &Expr,
    next: u32,
) -> Result<u32, Memory>
    requires next { next < length program.old }
    ensures number { IfOk result (λ i. i < length program.new) }
    ensures grows { OnOk result (Grows program.old program.new) }
    ensures stands { IfOk result (λ i. Stands labels.now.texts (state_at program.new) expr.now (length program.old) i next) }
{
    let mut behind = None;
    for j in (0..expr.more.len()).rev() {
        let first = compile_seq(labels, program, &expr.more[j], next)?;
        behind = Some(join(program, first, behind)?);
    }
    let first = compile_seq(labels, program, &expr.first, next)?;
    join(program, first, behind)
}
