// Relaxed forms of queries.
ghost use Rattle.std.specs.Prelude.{◌≡◌, IfOk};
ghost use Rattle.branch_spec.specs.Relaxed.{relax_step, relax_chain, relax_cond, relax_and, relax_or, relax};
ghost use Rattle.branch_expr.specs.Axes.{axis_of};
ghost use Rattle.branch_expr.specs.QueryTrees.{test_of, step_of, rel_of, cond_of, and_of};

use crate::tree::{And, BranchTree, Cond, Hop, Or, Rel, Step, Test};
use px_base::Memory;
use std::alloc::Global;

fn copy_test(alloc: Global, test: &Test) -> Result<Test, Memory>
    ensures { IfOk result (λ t. test_of t ≡ test_of test.now) }
{
    match test {
        Test::Label(text) => Ok(Test::Label(text.copy(alloc)?)),
        Test::Any => Ok(Test::Any),
    }
}

#[cycle(relax)]
fn relax_step(alloc: Global, step: &Step) -> Result<Step, Memory>
    ensures { IfOk result (λ s. step_of s ≡ relax_step (step_of step.now)) }
{
    let mut preds = Vec::new(alloc);
    for j in 0..step.preds.len() {
        let pred = relax_or(alloc, &step.preds[j])?;
        preds.push(pred)?;
    }
    let test = copy_test(alloc, &step.test)?;
    Ok(Step { test, preds })
}

#[cycle(relax)]
fn relax_hop(alloc: Global, hop: &Hop) -> Result<Hop, Memory>
    ensures axis { IfOk result (λ h. axis_of h.axis ≡ axis_of hop.now.axis) }
    ensures step { IfOk result (λ h. step_of h.step ≡ relax_step (step_of hop.now.step)) }
{
    let step = relax_step(alloc, &hop.step)?;
    Ok(Hop {
        axis: hop.axis,
        step,
    })
}

#[cycle(relax)]
fn relax_rel(alloc: Global, rel: &Rel) -> Result<Rel, Memory>
    ensures { IfOk result (λ r. rel_of r ≡ relax_chain (rel_of rel.now)) }
{
    let mut rest = Vec::new(alloc);
    for j in 0..rel.rest.len() {
        let hop = relax_hop(alloc, &rel.rest[j])?;
        rest.push(hop)?;
    }
    let first = relax_hop(alloc, &rel.first)?;
    Ok(Rel { first, rest })
}

#[cycle(relax)]
fn relax_cond(alloc: Global, cond: &Cond) -> Result<Cond, Memory>
    ensures { IfOk result (λ c. cond_of c ≡ relax_cond (cond_of cond.now)) }
{
    match cond {
        Cond::Not(_) => Ok(Cond::True),
        Cond::Group(or) => {
            let inside = relax_or(alloc, or)?;
            Ok(Cond::Group(Box::new(alloc, inside)?))
        }
        Cond::Rel(rel) => {
            let relaxed = relax_rel(alloc, rel)?;
            Ok(Cond::Rel(relaxed))
        }
        Cond::True => Ok(Cond::True),
    }
}

#[cycle(relax)]
fn relax_and(alloc: Global, and: &And) -> Result<And, Memory>
    ensures { IfOk result (λ a. and_of a ≡ relax_and (and_of and.now)) }
{
    let mut more = Vec::new(alloc);
    for j in 0..and.more.len() {
        let cond = relax_cond(alloc, &and.more[j])?;
        more.push(cond)?;
    }
    let first = relax_cond(alloc, &and.first)?;
    Ok(And { first, more })
}

#[cycle(relax)]
fn relax_or(alloc: Global, or: &Or) -> Result<Or, Memory>
    ensures { IfOk result (λ o. o ≡ relax_or or.now) }
{
    let mut more = Vec::new(alloc);
    for j in 0..or.more.len() {
        let and = relax_and(alloc, &or.more[j])?;
        more.push(and)?;
    }
    let first = relax_and(alloc, &or.first)?;
    Ok(Or { first, more })
}

/// The query with `True` for each outermost `not`, also in the steps of a predicate. Each answer of the query is
/// an answer of this one, even where more edges are seen than there are. `Memory` comes only where memory runs out. O(m)
/// for a query with m tokens and the bytes of its labels; it takes the memory of such a query.
pub fn relax(alloc: Global, query: &BranchTree) -> Result<BranchTree, Memory>
    ensures { IfOk result (λ q. q ≡ relax query.now) }
{
    let mut rest = Vec::new(alloc);
    for j in 0..query.rest.len() {
        let hop = relax_hop(alloc, &query.rest[j])?;
        rest.push(hop)?;
    }
    let first = relax_step(alloc, &query.first)?;
    Ok(BranchTree { first, rest })
}
