// The grammar of branching queries, over tokens.
ghost use Rattle.std.specs.Prelude.{◌≡◌, ◌<◌, ◌≤◌, List, ◌∷◌, length, IfOk, IsErrOf};
ghost use Rattle.branch_spec.specs.Trees as tree;
ghost use Rattle.branch_spec.specs.Tokens as tokens;
ghost use Rattle.branch_expr.specs.QueryTrees.{test_of, step_of, chain_of, rel_of, cond_of, and_of};
ghost use Rattle.branch_text.specs.BranchTokens.{seen};
ghost use Rattle.branch_text.specs.Heads.{HasNoTest, HasNoPred, HasNoGroup, HasNoStep, HasNoChain, HasNoRel, HasNoUnit, HasNoCond, HasNoAnd, HasNoOr, EndsUnitBefore, EndsCondBefore};

use crate::token::{Mark, Token, after, ends_cond, ends_step, first_axis, first_label};
use branch_expr::{And, BranchTree, Cond, Hop, Or, Rel, Step, Test};
use path_query::ReadError;
use std::alloc::Global;

/// The test at the front, and what follows it.
fn read_test<'t>(alloc: Global, left: &'t [Token]) -> Result<(Test, &'t [Token]), ReadError>
    ensures ok { IfOk result (λ r. seen left.now ≡ tokens.test_onto (test_of r.0) (seen r.1.now)) }
    ensures shorter { IfOk result (λ r. length r.1.now < length left.now) }
    ensures syntax { IsErrOf result ReadError.Syntax → HasNoTest (seen left.now) }
{
    if let Some(rest) = after(left, Mark::Any) {
        return Ok((Test::Any, rest));
    }
    let Some((label, rest)) = first_label(left) else {
        return Err(ReadError::Syntax);
    };
    Ok((Test::Label(label.copy(alloc)?), rest))
}

/// What stands in brackets at the front, and what follows them.
#[cycle(read)]
fn read_pred<'t>(alloc: Global, left: &'t [Token]) -> Result<(Or, &'t [Token]), ReadError>
    ensures ok { IfOk result (λ r. seen left.now ≡ tokens.or_onto r.0 (tokens.right ∷ seen r.1.now)) }
    ensures shorter { IfOk result (λ r. length r.1.now < length left.now) }
    ensures syntax { IsErrOf result ReadError.Syntax → HasNoPred (seen left.now) }
{
    let (or, inside) = read_or(alloc, left)?;
    let Some(rest) = after(inside, Mark::Right) else {
        return Err(ReadError::Syntax);
    };
    Ok((or, rest))
}

/// The step at the front, and what follows it.
#[cycle(read)]
fn read_step<'t>(alloc: Global, left: &'t [Token]) -> Result<(Step, &'t [Token]), ReadError>
    ensures ok { IfOk result (λ r. seen left.now ≡ tokens.step_onto (step_of r.0) (seen r.1.now)) }
    ensures ends { IfOk result (λ r. tokens.EndsStep (seen r.1.now)) }
    ensures shorter { IfOk result (λ r. length r.1.now < length left.now) }
    ensures syntax { IsErrOf result ReadError.Syntax → HasNoStep (seen left.now) }
{
    let (test, mut behind) = read_test(alloc, left)?;
    let mut preds = Vec::new(alloc);
    'predicates: while let Some(start) = after(behind, Mark::Left) {
        let (pred, next) = read_pred(alloc, start)?;
        preds.push(pred)?;
        behind = next;
    }
    if ends_step(behind) {
        Ok((Step { test, preds }, behind))
    } else {
        Err(ReadError::Syntax)
    }
}

/// The steps at the front, each after its axis, none or more, and what follows them.
#[cycle(read)]
fn read_hops<'t>(alloc: Global, left: &'t [Token]) -> Result<(Vec<Hop>, &'t [Token]), ReadError>
    requires { tokens.EndsStep (seen left.now) }
    ensures ok { IfOk result (λ r. seen left.now ≡ tokens.chain_onto (chain_of r.0.items) (seen r.1.now)) }
    ensures ends { IfOk result (λ r. tokens.EndsChain (seen r.1.now)) }
    ensures shorter { IfOk result (λ r. length r.1.now ≤ length left.now) }
    ensures syntax { IsErrOf result ReadError.Syntax → HasNoChain (seen left.now) }
{
    let mut hops = Vec::new(alloc);
    let mut behind = left;
    'steps: while let Some((axis, after)) = first_axis(behind) {
        let (step, next) = read_step(alloc, after)?;
        hops.push(Hop { axis, step })?;
        behind = next;
    }
    Ok((hops, behind))
}

/// One or more steps at the front, each after its axis, and what follows them.
#[cycle(read)]
fn read_rel<'t>(alloc: Global, left: &'t [Token]) -> Result<(Rel, &'t [Token]), ReadError>
    ensures ok { IfOk result (λ r. seen left.now ≡ tokens.chain_onto (rel_of r.0) (seen r.1.now)) }
    ensures ends { IfOk result (λ r. tokens.EndsChain (seen r.1.now)) }
    ensures shorter { IfOk result (λ r. length r.1.now < length left.now) }
    ensures syntax { IsErrOf result ReadError.Syntax → HasNoRel (seen left.now) }
{
    let Some((axis, after)) = first_axis(left) else {
        return Err(ReadError::Syntax);
    };
    let (step, behind) = read_step(alloc, after)?;
    let (rest, next) = read_hops(alloc, behind)?;
    let first = Hop { axis, step };
    Ok((Rel { first, rest }, next))
}

/// What stands in parentheses at the front, and what follows them.
#[cycle(read)]
fn read_group<'t>(alloc: Global, left: &'t [Token]) -> Result<(Or, &'t [Token]), ReadError>
    ensures ok { IfOk result (λ r. seen left.now ≡ tokens.opening ∷ tokens.or_onto r.0 (tokens.closing ∷ seen r.1.now)) }
    ensures shorter { IfOk result (λ r. length r.1.now < length left.now) }
    ensures syntax { IsErrOf result ReadError.Syntax → HasNoGroup (seen left.now) }
{
    let Some(start) = after(left, Mark::Open) else {
        return Err(ReadError::Syntax);
    };
    let (or, inside) = read_or(alloc, start)?;
    let Some(rest) = after(inside, Mark::Close) else {
        return Err(ReadError::Syntax);
    };
    Ok((or, rest))
}

/// What is denied at the front, after its `not`, and what follows it.
#[cycle(read)]
fn read_not<'t>(alloc: Global, left: &'t [Token]) -> Result<(Cond, &'t [Token]), ReadError>
    ensures ok { IfOk result (λ r. tokens.not_word ∷ seen left.now ≡ tokens.cond_onto (cond_of r.0) (seen r.1.now)) }
    ensures shorter { IfOk result (λ r. length r.1.now < length left.now) }
    ensures only { IfOk result (λ p. EndsUnitBefore (tokens.not_word ∷ seen left.now) (seen p.1.now)) }
    ensures syntax { IsErrOf result ReadError.Syntax → HasNoUnit (tokens.not_word ∷ seen left.now) }
{
    let (or, after) = read_group(alloc, left)?;
    Ok((Cond::Not(Box::new(alloc, or)?), after))
}

/// The condition in parentheses at the front, and what follows it.
#[cycle(read)]
fn read_parentheses<'t>(alloc: Global, left: &'t [Token]) -> Result<(Cond, &'t [Token]), ReadError>
    requires { (q : List tokens.Token) × (seen left.now ≡ tokens.opening ∷ q) }
    ensures ok { IfOk result (λ r. seen left.now ≡ tokens.cond_onto (cond_of r.0) (seen r.1.now)) }
    ensures shorter { IfOk result (λ r. length r.1.now < length left.now) }
    ensures only { IfOk result (λ p. EndsUnitBefore (seen left.now) (seen p.1.now)) }
    ensures syntax { IsErrOf result ReadError.Syntax → HasNoUnit (seen left.now) }
{
    let (or, after) = read_group(alloc, left)?;
    Ok((Cond::Group(Box::new(alloc, or)?), after))
}

/// The steps at the front, as a condition, and what follows them.
#[cycle(read)]
fn read_steps<'t>(alloc: Global, left: &'t [Token]) -> Result<(Cond, &'t [Token]), ReadError>
    requires { (a : tree.Axis) × (q : List tokens.Token) × (seen left.now ≡ tokens.axis a ∷ q) }
    ensures ok { IfOk result (λ r. seen left.now ≡ tokens.cond_onto (cond_of r.0) (seen r.1.now)) }
    ensures shorter { IfOk result (λ r. length r.1.now < length left.now) }
    ensures only { IfOk result (λ p. EndsCondBefore (seen left.now) (seen p.1.now)) }
    ensures syntax { IsErrOf result ReadError.Syntax → HasNoCond (seen left.now) }
{
    let (rel, after) = read_rel(alloc, left)?;
    Ok((Cond::Rel(rel), after))
}

/// The condition at the front, and what follows it, whatever that is.
#[cycle(read)]
fn read_unit<'t>(alloc: Global, left: &'t [Token]) -> Result<(Cond, &'t [Token]), ReadError>
    ensures ok { IfOk result (λ r. seen left.now ≡ tokens.cond_onto (cond_of r.0) (seen r.1.now)) }
    ensures shorter { IfOk result (λ r. length r.1.now < length left.now) }
    ensures only { IfOk result (λ p. EndsCondBefore (seen left.now) (seen p.1.now)) }
    ensures syntax { IsErrOf result ReadError.Syntax → HasNoCond (seen left.now) }
{
    if let Some(denied) = after(left, Mark::Not) {
        return read_not(alloc, denied);
    }
    if after(left, Mark::Open).is_some() {
        return read_parentheses(alloc, left);
    }
    if first_axis(left).is_some() {
        return read_steps(alloc, left);
    }
    Err(ReadError::Syntax)
}

/// The condition at the front, and what follows it.
#[cycle(read)]
fn read_cond<'t>(alloc: Global, left: &'t [Token]) -> Result<(Cond, &'t [Token]), ReadError>
    ensures ok { IfOk result (λ r. seen left.now ≡ tokens.cond_onto (cond_of r.0) (seen r.1.now)) }
    ensures ends { IfOk result (λ r. tokens.EndsChain (seen r.1.now)) }
    ensures shorter { IfOk result (λ r. length r.1.now < length left.now) }
    ensures syntax { IsErrOf result ReadError.Syntax → HasNoCond (seen left.now) }
{
    let (cond, behind) = read_unit(alloc, left)?;
    if ends_cond(behind) {
        Ok((cond, behind))
    } else {
        Err(ReadError::Syntax)
    }
}

/// The conditions at the front, with `and` between them, and what follows them.
#[cycle(read)]
fn read_and<'t>(alloc: Global, left: &'t [Token]) -> Result<(And, &'t [Token]), ReadError>
    ensures ok { IfOk result (λ r. seen left.now ≡ tokens.and_onto (and_of r.0) (seen r.1.now)) }
    ensures ends { IfOk result (λ r. tokens.EndsAnd (seen r.1.now)) }
    ensures shorter { IfOk result (λ r. length r.1.now < length left.now) }
    ensures syntax { IsErrOf result ReadError.Syntax → HasNoAnd (seen left.now) }
{
    let (first, mut behind) = read_cond(alloc, left)?;
    let mut more = Vec::new(alloc);
    'conditions: while let Some(start) = after(behind, Mark::And) {
        let (cond, next) = read_cond(alloc, start)?;
        more.push(cond)?;
        behind = next;
    }
    Ok((And { first, more }, behind))
}

/// The alternatives at the front, with `or` between them, and what follows them.
#[cycle(read)]
fn read_or<'t>(alloc: Global, left: &'t [Token]) -> Result<(Or, &'t [Token]), ReadError>
    ensures ok { IfOk result (λ r. seen left.now ≡ tokens.or_onto r.0 (seen r.1.now)) }
    ensures ends { IfOk result (λ r. tokens.EndsOr (seen r.1.now)) }
    ensures shorter { IfOk result (λ r. length r.1.now < length left.now) }
    ensures syntax { IsErrOf result ReadError.Syntax → HasNoOr (seen left.now) }
{
    let (first, mut behind) = read_and(alloc, left)?;
    let mut more = Vec::new(alloc);
    'alternatives: while let Some(start) = after(behind, Mark::Or) {
        let (and, next) = read_and(alloc, start)?;
        more.push(and)?;
        behind = next;
    }
    Ok((Or { first, more }, behind))
}

/// The query of which these are the tokens.
pub(crate) fn read_tokens(alloc: Global, all: &[Token]) -> Result<BranchTree, ReadError>
    ensures ok { IfOk result (λ q. seen all.now ≡ tokens.tokens q) }
    ensures syntax { IsErrOf result ReadError.Syntax → (q : tree.Branch) → seen all.now ≡ tokens.tokens q → ⊥ }
{
    let (first, behind) = read_step(alloc, all)?;
    let (rest, last) = read_hops(alloc, behind)?;
    if last.is_empty() {
        Ok(BranchTree { first, rest })
    } else {
        Err(ReadError::Syntax)
    }
}
