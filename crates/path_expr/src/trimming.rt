// The automaton of what is left of an expression at its front.
ghost use Rattle.std.specs.Prelude.{◌≡◌, ◌<◌, ◌≤◌, length, slice_get, Some, IfOk, OnOk};
ghost use Rattle.path_spec.specs.Trees.{Atom as TreeAtom};
ghost use Rattle.path_spec.specs.Trimmed.{trimmed_item, first_trimmed, from_required, trimmed_seq, trimmed};
ghost use Rattle.path_automaton.specs.Programs.{state_at};
ghost use Rattle.path_expr.specs.ExprAutomata.{Stands, StandsSeq};
ghost use Rattle.path_expr.specs.ExprTrees.{signed_by, item_of, seq_of};
ghost use Rattle.path_expr.specs.TreeParts.{items, separators, without_first};
ghost use Rattle.path_expr.specs.Compiled.{Grows};

use crate::compile::{compile_item, compile_rest, join};
use crate::nullable::{item_is_nullable, seq_is_nullable};
use crate::tree::{Expr, Item, Seq, Sign};
use label_graph::Labels;
use path_automaton::Program;
use px_base::Memory;

/// The sign that a first item keeps.
fn trimmed_sign(sign: Option<Sign>) -> Option<Sign>
    ensures { (a : TreeAtom) → signed_by a result ≡ trimmed_item (signed_by a sign) }
{
    match sign {
        None => None,
        Some(Sign::Plus) => None,
        Some(Sign::Star) => Some(Sign::Opt),
        Some(Sign::Opt) => Some(Sign::Opt),
    }
}

/// The item with the number, from 0.
fn item_at(seq: &Seq, number: usize) -> &Item
    requires { number ≤ length (separators (seq_of seq.now)) }
    ensures { slice_get (items (seq_of seq.now)) number ≡ Some (item_of result.now) }
{
    if number == 0 {
        &seq.first
    } else {
        &seq.rest[number - 1].item
    }
}

/// The number of the first item that the empty word doesn't match, or of the last one.
fn first_required(seq: &Seq) -> usize
    ensures inside { result ≤ length (separators (seq_of seq.now)) }
    ensures required { from_required (seq_of seq.now) ≡ without_first result (seq_of seq.now) }
{
    for number in 0..seq.rest.len() {
        if !item_is_nullable(item_at(seq, number)) {
            return number;
        }
    }
    seq.rest.len()
}

/// How many leading items change no answer: those before the first that the empty word doesn't match, if there is one.
fn lead_len(seq: &Seq) -> usize
    ensures inside { result ≤ length (separators (seq_of seq.now)) }
    ensures trimmed { trimmed_seq (seq_of seq.now) ≡ first_trimmed (without_first result (seq_of seq.now)) }
{
    if seq_is_nullable(seq) {
        0
    } else {
        first_required(seq)
    }
}

/// The state from which a sequence is read without the leading items that change no answer.
fn compile_first(
    labels: &Labels,
    program: &mut Program,
    seq: &Seq,
    next: u32,
) -> Result<u32, Memory>
    requires next { next < length program.old }
    ensures number { IfOk result (λ i. i < length program.new) }
    ensures grows { OnOk result (Grows program.old program.new) }
    ensures stands { IfOk result (λ i. StandsSeq labels.now.texts (state_at program.new) (trimmed_seq (seq_of seq.now)) (length program.old) i next) }
{
    let lead = lead_len(seq);
    let item = item_at(seq, lead);
    let after = compile_rest(labels, program, seq, lead, next)?;
    compile_item(labels, program, &item.atom, trimmed_sign(item.sign), after)
}

/// The state from which each alternative is read without what changes no answer at its front.
pub(crate) fn compile_trimmed(
    labels: &Labels,
    program: &mut Program,
    expr: &Expr,
    next: u32,
) -> Result<u32, Memory>
    requires next { next < length program.old }
    ensures number { IfOk result (λ i. i < length program.new) }
    ensures grows { OnOk result (Grows program.old program.new) }
    ensures stands { IfOk result (λ i. Stands labels.now.texts (state_at program.new) (trimmed expr.now) (length program.old) i next) }
{
    let mut behind = None;
    for j in (0..expr.more.len()).rev() {
        let first = compile_first(labels, program, &expr.more[j], next)?;
        behind = Some(join(program, first, behind)?);
    }
    let first = compile_first(labels, program, &expr.first, next)?;
    join(program, first, behind)
}
