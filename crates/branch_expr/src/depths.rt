// The depth of a branching query.
ghost use Rattle.std.specs.Prelude.{◌∷◌, ℕ, Option};
ghost use Rattle.path_spec.specs.Longest.{greater};
ghost use Rattle.branch_expr.specs.Axes.{axis_of};
ghost use Rattle.branch_expr.specs.QueryTrees.{step_of, chain_of, cond_of, and_of};
ghost use Rattle.branch_spec.specs.Depths.{one_more, further, step_depth, chain_depth, cond_depth, and_depth, or_depth, depth};
ghost use Rattle.branch_expr.specs.CappedDepths.{IsCappedDepth};

use crate::axis::Axis;
use crate::tree::{And, BranchTree, Cond, Hop, Or, Rel, Step};

/// The greater depth, and none where one of them has no bound.
fn greater_of(a: Option<u32>, b: Option<u32>) -> Option<u32>
    ensures { (x y : Option ℕ) → IsCappedDepth x a → IsCappedDepth y b → IsCappedDepth (greater x y) result }
{
    match (a, b) {
        (Some(m), Some(n)) => Some(m.max(n)),
        _ => None,
    }
}

/// One edge further.
fn one_more(depth: Option<u32>) -> Option<u32>
    ensures { (x : Option ℕ) → IsCappedDepth x depth → IsCappedDepth (one_more x) result }
{
    match depth {
        Some(d) => Some(d.saturating_add(1)),
        None => None,
    }
}

/// One axis further.
fn further(axis: Axis, depth: Option<u32>) -> Option<u32>
    ensures { (x : Option ℕ) → IsCappedDepth x depth → IsCappedDepth (further (axis_of axis) x) result }
{
    match axis {
        Axis::Child => one_more(depth),
        Axis::Below => None,
        Axis::Parent => one_more(depth),
        Axis::Above => None,
    }
}

#[cycle(looks)]
fn step_depth(step: &Step) -> Option<u32>
    ensures { IsCappedDepth (step_depth (step_of step.now)) result }
{
    let mut depth = Some(0);
    for j in 0..step.preds.len() {
        depth = greater_of(depth, or_depth(&step.preds[j]));
    }
    depth
}

/// The depth of a hop, and of what follows it from its end on.
#[cycle(looks)]
fn hop_depth(hop: &Hop, behind: Option<u32>) -> Option<u32>
    ensures { (x : Option ℕ) → IsCappedDepth x behind
        → IsCappedDepth (further (axis_of hop.now.axis) (greater (step_depth (step_of hop.now.step)) x)) result }
{
    let depth = greater_of(step_depth(&hop.step), behind);
    further(hop.axis, depth)
}

#[cycle(looks)]
fn rel_depth(rel: &Rel) -> Option<u32>
    ensures { IsCappedDepth (chain_depth (chain_of (rel.now.first ∷ rel.now.rest.items))) result }
{
    let mut depth = Some(0);
    for j in (0..rel.rest.len()).rev() {
        depth = hop_depth(&rel.rest[j], depth);
    }
    hop_depth(&rel.first, depth)
}

#[cycle(looks)]
fn cond_depth(cond: &Cond) -> Option<u32>
    ensures { IsCappedDepth (cond_depth (cond_of cond.now)) result }
{
    match cond {
        Cond::Not(or) => or_depth(or),
        Cond::Group(or) => or_depth(or),
        Cond::Rel(rel) => rel_depth(rel),
        Cond::True => Some(0),
    }
}

#[cycle(looks)]
fn and_depth(and: &And) -> Option<u32>
    ensures { IsCappedDepth (and_depth (and_of and.now)) result }
{
    let mut depth = cond_depth(&and.first);
    for j in 0..and.more.len() {
        depth = greater_of(depth, cond_depth(&and.more[j]));
    }
    depth
}

#[cycle(looks)]
fn or_depth(or: &Or) -> Option<u32>
    ensures { IsCappedDepth (or_depth or.now) result }
{
    let mut depth = and_depth(&or.first);
    for j in 0..or.more.len() {
        depth = greater_of(depth, and_depth(&or.more[j]));
    }
    depth
}

/// The depth where one more hop leads on from where the steps before, which look so far, have led.
fn led_on(before: Option<u32>, hop: &Hop) -> Option<u32>
    ensures { (x : Option ℕ) → IsCappedDepth x before
        → IsCappedDepth (greater (further (axis_of hop.now.axis) x) (step_depth (step_of hop.now.step))) result }
{
    let off = further(hop.axis, before);
    greater_of(off, step_depth(&hop.step))
}

/// How far from its answers the query looks, None exactly where there is no bound. Past 2^32 - 1, which no query within
/// the limits reaches, it is that number. O(m) for m tokens, no memory.
pub fn depth(query: &BranchTree) -> Option<u32>
    ensures { IsCappedDepth (depth query.now) result }
{
    let mut depth = step_depth(&query.first);
    for j in 0..query.rest.len() {
        depth = led_on(depth, &query.rest[j]);
    }
    depth
}
