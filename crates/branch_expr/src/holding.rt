// Where the parts of a query hold.
ghost use Rattle.std.specs.Prelude.{◌≡◌, ◌<◌, ℕ, ◌∷◌, [], Some, length, IsTrue, IsSome, IfOk, OnOk};
ghost use Rattle.graph_spec.specs.Members.{has};
ghost use Rattle.path_automaton.specs.Digraphs.{shape_through};
ghost use Rattle.branch_spec.specs.BranchAnswers.{Meets, HoldsOr, HoldsAnd, HoldsCond, Goes};
ghost use Rattle.branch_expr.specs.Images.{Keeps, Loses};
ghost use Rattle.branch_expr.specs.QueryTrees.{step_of, chain_of, rel_of, cond_of, and_of};
ghost use Rattle.branch_expr.specs.Sets.{IsSetOf, HopsTo};

use crate::leading::along;
use crate::meeting::{axis_leading, deny_axis, keep_test, test_set};
use crate::sets::{intersect, passing, subtract, unite};
use crate::tree::{And, Cond, Hop, Or, Rel, Step};
use label_graph::{Digraph, Labels};
use px_base::{Bits, Memory};
use std::alloc::Global;

/// The nodes that meet the step. Its label is tested last, when the fewest nodes are left.
#[cycle(holds)]
pub(crate) fn step_set<G: Digraph>(
    alloc: Global,
    g: &G,
    labels: &Labels,
    step: &Step,
) -> Result<Bits, Memory>
    requires labelled { (n l : ℕ) → G.label_at g.now n ≡ Some l → l < length labels.now.texts }
    ensures size { IfOk result (λ b. b.size ≡ G.span g.now) }
    ensures set { IfOk result (λ b. IsSetOf (G.label_at g.now) b.members (Meets (shape_through G.Digraph labels.now g.now) (step_of step.now))) }
{
    if step.preds.is_empty() {
        return test_set(alloc, g, labels, &step.test);
    }
    let mut set = or_set(alloc, g, labels, &step.preds[0])?;
    for j in 1..step.preds.len() {
        keep_or(alloc, g, labels, &step.preds[j], &mut set)?;
    }
    keep_test(alloc, g, labels, &step.test, &mut set)?;
    Ok(set)
}

/// The nodes from which the hop leads to a member.
#[cycle(holds)]
fn hop_set<G: Digraph>(
    alloc: Global,
    g: &G,
    labels: &Labels,
    hop: &Hop,
    behind: &Bits,
) -> Result<Bits, Memory>
    requires labelled { (n l : ℕ) → G.label_at g.now n ≡ Some l → l < length labels.now.texts }
    ensures size { IfOk result (λ b. b.size ≡ G.span g.now) }
    ensures set { IfOk result (λ b. IsSetOf (G.label_at g.now) b.members (HopsTo (shape_through G.Digraph labels.now g.now) hop.now behind.now.members)) }
{
    let mut ends = step_set(alloc, g, labels, &hop.step)?;
    intersect(&mut ends, behind);
    along(alloc, g, hop.axis.turned(), &ends)
}

/// The nodes from which the hop leads to any node that meets its step.
#[cycle(holds)]
fn last_set<G: Digraph>(alloc: Global, g: &G, labels: &Labels, hop: &Hop) -> Result<Bits, Memory>
    requires labelled { (n l : ℕ) → G.label_at g.now n ≡ Some l → l < length labels.now.texts }
    ensures size { IfOk result (λ b. b.size ≡ G.span g.now) }
    ensures set { IfOk result (λ b. IsSetOf (G.label_at g.now) b.members (Goes (shape_through G.Digraph labels.now g.now) (chain_of (hop.now ∷ [])))) }
{
    if hop.step.preds.is_empty() {
        return axis_leading(alloc, g, labels, hop.axis.turned(), &hop.step.test);
    }
    let met = step_set(alloc, g, labels, &hop.step)?;
    along(alloc, g, hop.axis.turned(), &met)
}

/// The nodes from which the hops lead on.
#[cycle(holds)]
fn rel_set<G: Digraph>(alloc: Global, g: &G, labels: &Labels, rel: &Rel) -> Result<Bits, Memory>
    requires labelled { (n l : ℕ) → G.label_at g.now n ≡ Some l → l < length labels.now.texts }
    ensures size { IfOk result (λ b. b.size ≡ G.span g.now) }
    ensures set { IfOk result (λ b. IsSetOf (G.label_at g.now) b.members (Goes (shape_through G.Digraph labels.now g.now) (rel_of rel.now))) }
{
    let count = rel.rest.len();
    if count == 0 {
        return last_set(alloc, g, labels, &rel.first);
    }
    let mut set = last_set(alloc, g, labels, &rel.rest[count - 1])?;
    for j in (0..count - 1).rev() {
        set = hop_set(alloc, g, labels, &rel.rest[j], &set)?;
    }
    hop_set(alloc, g, labels, &rel.first, &set)
}

/// Keeps the members at which the condition holds.
#[cycle(holds)]
fn keep_cond<G: Digraph>(
    alloc: Global,
    g: &G,
    labels: &Labels,
    cond: &Cond,
    set: &mut Bits,
) -> Result<(), Memory>
    requires labelled { (n l : ℕ) → G.label_at g.now n ≡ Some l → l < length labels.now.texts }
    requires nodes { (v : ℕ) → IsTrue (has set.old.members v) → IsSome (G.label_at g.now v) }
    requires size { set.old.size ≡ G.span g.now }
    ensures size { OnOk result (set.new.size ≡ set.old.size) }
    ensures keeps { OnOk result (Keeps set.old.members set.new.members (HoldsCond (shape_through G.Digraph labels.now g.now) (cond_of cond.now))) }
{
    match cond {
        Cond::Not(or) => deny_or(alloc, g, labels, or, set),
        Cond::Group(or) => keep_or(alloc, g, labels, or, set),
        Cond::Rel(rel) => {
            let from = rel_set(alloc, g, labels, rel)?;
            intersect(set, &from);
            Ok(())
        }
        Cond::True => Ok(()),
    }
}

/// Keeps the members at which each condition holds.
#[cycle(holds)]
fn keep_and<G: Digraph>(
    alloc: Global,
    g: &G,
    labels: &Labels,
    and: &And,
    set: &mut Bits,
) -> Result<(), Memory>
    requires labelled { (n l : ℕ) → G.label_at g.now n ≡ Some l → l < length labels.now.texts }
    requires nodes { (v : ℕ) → IsTrue (has set.old.members v) → IsSome (G.label_at g.now v) }
    requires size { set.old.size ≡ G.span g.now }
    ensures size { OnOk result (set.new.size ≡ set.old.size) }
    ensures keeps { OnOk result (Keeps set.old.members set.new.members (HoldsAnd (shape_through G.Digraph labels.now g.now) (and_of and.now))) }
{
    keep_cond(alloc, g, labels, &and.first, set)?;
    for j in 0..and.more.len() {
        keep_cond(alloc, g, labels, &and.more[j], set)?;
    }
    Ok(())
}

/// Keeps the members at which one of the alternatives holds.
#[cycle(holds)]
fn keep_or<G: Digraph>(
    alloc: Global,
    g: &G,
    labels: &Labels,
    or: &Or,
    set: &mut Bits,
) -> Result<(), Memory>
    requires labelled { (n l : ℕ) → G.label_at g.now n ≡ Some l → l < length labels.now.texts }
    requires nodes { (v : ℕ) → IsTrue (has set.old.members v) → IsSome (G.label_at g.now v) }
    requires size { set.old.size ≡ G.span g.now }
    ensures size { OnOk result (set.new.size ≡ set.old.size) }
    ensures keeps { OnOk result (Keeps set.old.members set.new.members (HoldsOr (shape_through G.Digraph labels.now g.now) or.now)) }
{
    if or.more.is_empty() {
        return keep_and(alloc, g, labels, &or.first, set);
    }
    let found = or_set(alloc, g, labels, or)?;
    intersect(set, &found);
    Ok(())
}

/// The nodes at which the condition holds.
#[cycle(holds)]
fn cond_set<G: Digraph>(alloc: Global, g: &G, labels: &Labels, cond: &Cond) -> Result<Bits, Memory>
    requires labelled { (n l : ℕ) → G.label_at g.now n ≡ Some l → l < length labels.now.texts }
    ensures size { IfOk result (λ b. b.size ≡ G.span g.now) }
    ensures set { IfOk result (λ b. IsSetOf (G.label_at g.now) b.members (HoldsCond (shape_through G.Digraph labels.now g.now) (cond_of cond.now))) }
{
    match cond {
        Cond::Not(or) => {
            let mut set = passing(alloc, g, None)?;
            deny_or(alloc, g, labels, or, &mut set)?;
            Ok(set)
        }
        Cond::Group(or) => or_set(alloc, g, labels, or),
        Cond::Rel(rel) => rel_set(alloc, g, labels, rel),
        Cond::True => passing(alloc, g, None),
    }
}

/// The nodes at which each condition holds.
#[cycle(holds)]
fn and_set<G: Digraph>(alloc: Global, g: &G, labels: &Labels, and: &And) -> Result<Bits, Memory>
    requires labelled { (n l : ℕ) → G.label_at g.now n ≡ Some l → l < length labels.now.texts }
    ensures size { IfOk result (λ b. b.size ≡ G.span g.now) }
    ensures set { IfOk result (λ b. IsSetOf (G.label_at g.now) b.members (HoldsAnd (shape_through G.Digraph labels.now g.now) (and_of and.now))) }
{
    let mut set = cond_set(alloc, g, labels, &and.first)?;
    for j in 0..and.more.len() {
        keep_cond(alloc, g, labels, &and.more[j], &mut set)?;
    }
    Ok(set)
}

/// The nodes at which one of the alternatives holds.
#[cycle(holds)]
fn or_set<G: Digraph>(alloc: Global, g: &G, labels: &Labels, or: &Or) -> Result<Bits, Memory>
    requires labelled { (n l : ℕ) → G.label_at g.now n ≡ Some l → l < length labels.now.texts }
    ensures size { IfOk result (λ b. b.size ≡ G.span g.now) }
    ensures set { IfOk result (λ b. IsSetOf (G.label_at g.now) b.members (HoldsOr (shape_through G.Digraph labels.now g.now) or.now)) }
{
    let mut set = and_set(alloc, g, labels, &or.first)?;
    for j in 0..or.more.len() {
        let next = and_set(alloc, g, labels, &or.more[j])?;
        unite(&mut set, &next);
    }
    Ok(set)
}

/// Takes out the members from which the hop leads to any node that meets its step.
#[cycle(holds)]
fn deny_last<G: Digraph>(
    alloc: Global,
    g: &G,
    labels: &Labels,
    hop: &Hop,
    set: &mut Bits,
) -> Result<(), Memory>
    requires labelled { (n l : ℕ) → G.label_at g.now n ≡ Some l → l < length labels.now.texts }
    requires nodes { (v : ℕ) → IsTrue (has set.old.members v) → IsSome (G.label_at g.now v) }
    requires size { set.old.size ≡ G.span g.now }
    ensures size { OnOk result (set.new.size ≡ set.old.size) }
    ensures keeps { OnOk result (Loses set.old.members set.new.members (Goes (shape_through G.Digraph labels.now g.now) (chain_of (hop.now ∷ [])))) }
{
    if hop.step.preds.is_empty() {
        return deny_axis(alloc, g, labels, hop.axis.turned(), &hop.step.test, set);
    }
    let from = last_set(alloc, g, labels, hop)?;
    subtract(set, &from);
    Ok(())
}

/// Takes out the members from which the hops lead on.
#[cycle(holds)]
fn deny_rel<G: Digraph>(
    alloc: Global,
    g: &G,
    labels: &Labels,
    rel: &Rel,
    set: &mut Bits,
) -> Result<(), Memory>
    requires labelled { (n l : ℕ) → G.label_at g.now n ≡ Some l → l < length labels.now.texts }
    requires nodes { (v : ℕ) → IsTrue (has set.old.members v) → IsSome (G.label_at g.now v) }
    requires size { set.old.size ≡ G.span g.now }
    ensures size { OnOk result (set.new.size ≡ set.old.size) }
    ensures keeps { OnOk result (Loses set.old.members set.new.members (Goes (shape_through G.Digraph labels.now g.now) (rel_of rel.now))) }
{
    if rel.rest.is_empty() {
        return deny_last(alloc, g, labels, &rel.first, set);
    }
    let from = rel_set(alloc, g, labels, rel)?;
    subtract(set, &from);
    Ok(())
}

/// Takes out the members at which the condition holds.
#[cycle(holds)]
fn deny_cond<G: Digraph>(
    alloc: Global,
    g: &G,
    labels: &Labels,
    cond: &Cond,
    set: &mut Bits,
) -> Result<(), Memory>
    requires labelled { (n l : ℕ) → G.label_at g.now n ≡ Some l → l < length labels.now.texts }
    requires nodes { (v : ℕ) → IsTrue (has set.old.members v) → IsSome (G.label_at g.now v) }
    requires size { set.old.size ≡ G.span g.now }
    ensures size { OnOk result (set.new.size ≡ set.old.size) }
    ensures keeps { OnOk result (Loses set.old.members set.new.members (HoldsCond (shape_through G.Digraph labels.now g.now) (cond_of cond.now))) }
{
    match cond {
        Cond::Rel(rel) => deny_rel(alloc, g, labels, rel, set),
        _ => {
            let satisfied = cond_set(alloc, g, labels, cond)?;
            subtract(set, &satisfied);
            Ok(())
        }
    }
}

/// Takes out the members at which each condition holds.
#[cycle(holds)]
fn deny_and<G: Digraph>(
    alloc: Global,
    g: &G,
    labels: &Labels,
    and: &And,
    set: &mut Bits,
) -> Result<(), Memory>
    requires labelled { (n l : ℕ) → G.label_at g.now n ≡ Some l → l < length labels.now.texts }
    requires nodes { (v : ℕ) → IsTrue (has set.old.members v) → IsSome (G.label_at g.now v) }
    requires size { set.old.size ≡ G.span g.now }
    ensures size { OnOk result (set.new.size ≡ set.old.size) }
    ensures keeps { OnOk result (Loses set.old.members set.new.members (HoldsAnd (shape_through G.Digraph labels.now g.now) (and_of and.now))) }
{
    if and.more.is_empty() {
        return deny_cond(alloc, g, labels, &and.first, set);
    }
    let satisfied = and_set(alloc, g, labels, and)?;
    subtract(set, &satisfied);
    Ok(())
}

/// Takes out the members at which one of the alternatives holds.
#[cycle(holds)]
fn deny_or<G: Digraph>(
    alloc: Global,
    g: &G,
    labels: &Labels,
    or: &Or,
    set: &mut Bits,
) -> Result<(), Memory>
    requires labelled { (n l : ℕ) → G.label_at g.now n ≡ Some l → l < length labels.now.texts }
    requires nodes { (v : ℕ) → IsTrue (has set.old.members v) → IsSome (G.label_at g.now v) }
    requires size { set.old.size ≡ G.span g.now }
    ensures size { OnOk result (set.new.size ≡ set.old.size) }
    ensures keeps { OnOk result (Loses set.old.members set.new.members (HoldsOr (shape_through G.Digraph labels.now g.now) or.now)) }
{
    deny_and(alloc, g, labels, &or.first, set)?;
    for j in 0..or.more.len() {
        deny_and(alloc, g, labels, &or.more[j], set)?;
    }
    Ok(())
}
