// The canonical text of a query.
ghost use Rattle.std.specs.Prelude.{◌≡◌, [], ◌∷◌, ◌++◌, string_bytes, codes, OnOk};
ghost use Rattle.branch_spec.specs.Spelling.{axis_text};
ghost use Rattle.branch_expr.specs.Axes.{axis_of};
ghost use Rattle.branch_expr.specs.QueryTrees.{test_of, step_of, chain_of, cond_of, and_of};
ghost use Rattle.branch_text.specs.BranchTexts.{branch_text, test_text, step_text, or_text, and_text, cond_text, chain_text};

use branch_expr::{And, Axis, BranchTree, Cond, Hop, Or, Rel, Step, Test};
use px_base::Memory;

/// How the axis is written.
fn axis_str(axis: Axis) -> &'static str
    ensures { result.now ≡ axis_text (axis_of axis) }
{
    match axis {
        Axis::Child => "/",
        Axis::Below => "//",
        Axis::Parent => "\\",
        Axis::Above => "\\\\",
    }
}

fn write_test(out: &mut String, test: &Test) -> Result<(), Memory>
    ensures { OnOk result (string_bytes out.new ≡ string_bytes out.old ++ test_text (test_of test.now)) }
{
    match test {
        Test::Label(label) => out.push_str(label.as_str())?,
        Test::Any => out.push_str("_")?,
    }
    Ok(())
}

#[cycle(write)]
fn write_step(out: &mut String, step: &Step) -> Result<(), Memory>
    ensures { OnOk result (string_bytes out.new ≡ string_bytes out.old ++ step_text (step_of step.now)) }
{
    write_test(out, &step.test)?;
    for j in 0..step.preds.len() {
        write_pred(out, &step.preds[j])?;
    }
    Ok(())
}

#[cycle(write)]
fn write_pred(out: &mut String, or: &Or) -> Result<(), Memory>
    ensures { OnOk result (string_bytes out.new ≡ string_bytes out.old ++ (91 ∷ (or_text or.now ++ 93 ∷ []))) }
{
    out.push_str("[")?;
    write_or(out, or)?;
    out.push_str("]")?;
    Ok(())
}

#[cycle(write)]
fn write_hop(out: &mut String, hop: &Hop) -> Result<(), Memory>
    ensures { OnOk result (string_bytes out.new ≡ string_bytes out.old ++ (axis_text (axis_of hop.now.axis) ++ step_text (step_of hop.now.step))) }
{
    out.push_str(axis_str(hop.axis))?;
    write_step(out, &hop.step)
}

#[cycle(write)]
fn write_rel(out: &mut String, rel: &Rel) -> Result<(), Memory>
    ensures { OnOk result (string_bytes out.new ≡ string_bytes out.old ++ chain_text (chain_of (rel.now.first ∷ rel.now.rest.items))) }
{
    write_hop(out, &rel.first)?;
    for j in 0..rel.rest.len() {
        write_hop(out, &rel.rest[j])?;
    }
    Ok(())
}

#[cycle(write)]
fn write_group(out: &mut String, or: &Or) -> Result<(), Memory>
    ensures { OnOk result (string_bytes out.new ≡ string_bytes out.old ++ (40 ∷ (or_text or.now ++ 41 ∷ []))) }
{
    out.push_str("(")?;
    write_or(out, or)?;
    out.push_str(")")?;
    Ok(())
}

#[cycle(write)]
fn write_cond(out: &mut String, cond: &Cond) -> Result<(), Memory>
    ensures { OnOk result (string_bytes out.new ≡ string_bytes out.old ++ cond_text (cond_of cond.now)) }
{
    match cond {
        Cond::Not(or) => {
            out.push_str("not")?;
            write_group(out, or)
        }
        Cond::Group(or) => write_group(out, or),
        Cond::Rel(rel) => write_rel(out, rel),
        Cond::True => Ok(()),
    }
}

#[cycle(write)]
fn write_further_cond(out: &mut String, cond: &Cond) -> Result<(), Memory>
    ensures { OnOk result (string_bytes out.new ≡ string_bytes out.old ++ (codes " and " ++ cond_text (cond_of cond.now))) }
{
    out.push_str(" and ")?;
    write_cond(out, cond)
}

#[cycle(write)]
fn write_and(out: &mut String, and: &And) -> Result<(), Memory>
    ensures { OnOk result (string_bytes out.new ≡ string_bytes out.old ++ and_text (and_of and.now)) }
{
    write_cond(out, &and.first)?;
    for j in 0..and.more.len() {
        write_further_cond(out, &and.more[j])?;
    }
    Ok(())
}

#[cycle(write)]
fn write_further_and(out: &mut String, and: &And) -> Result<(), Memory>
    ensures { OnOk result (string_bytes out.new ≡ string_bytes out.old ++ (codes " or " ++ and_text (and_of and.now))) }
{
    out.push_str(" or ")?;
    write_and(out, and)
}

#[cycle(write)]
fn write_or(out: &mut String, or: &Or) -> Result<(), Memory>
    ensures { OnOk result (string_bytes out.new ≡ string_bytes out.old ++ or_text or.now) }
{
    write_and(out, &or.first)?;
    for j in 0..or.more.len() {
        write_further_and(out, &or.more[j])?;
    }
    Ok(())
}

/// Appends the canonical text.
pub(crate) fn write_branch(out: &mut String, query: &BranchTree) -> Result<(), Memory>
    ensures { OnOk result (string_bytes out.new ≡ string_bytes out.old ++ branch_text query.now) }
{
    write_step(out, &query.first)?;
    for j in 0..query.rest.len() {
        write_hop(out, &query.rest[j])?;
    }
    Ok(())
}
