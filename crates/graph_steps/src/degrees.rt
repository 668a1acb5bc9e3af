// How many edges a node has once some steps are made.
ghost use Rattle.std.specs.Prelude.{◌≡◌, ◌<◌, ◌≤◌, ◌+◌, ◌-◌, ◌^◌, ◌&&◌, not, ℕ, false, length, IsTrue};
ghost use Rattle.std.specs.List.{list_any};
ghost use Rattle.graph_spec.specs.Graphs.{is_live, has_edge as edge_in};
ghost use Rattle.change_spec.specs.Steps.{after};
ghost use Rattle.change_spec.specs.Named.{takes_away, is_dropped};
ghost use Rattle.change_spec.specs.Places.{CanMakeAll};
ghost use Rattle.graph_steps.specs.StepLists.{step_of, steps_of};
ghost use Rattle.graph_steps.specs.Counted.{touching};
ghost use Rattle.graph_steps.specs.Degrees.{stays_at, staying, one_for, lost_by, counted_behind};

use crate::changes::Step;
use crate::prefix::Prefix;
use crate::reads::{edge_before, has_edge};
use label_graph::Graph;
use px_base::{NodeId, Steps};
use std::marker::Brand;
use std::sync::ledger::{Blank, Ledger};

// Parents and children of a node together; a loop is counted twice.
fn counted_edges<L: Ledger>(graph: &Graph, u: NodeId, blank: Blank) -> usize
    requires name { blank.name ≡ L.name }
    requires parts { blank.parts ≡ L.parts }
    requires some { 0 < blank.parts }
    ensures { result ≡ touching graph.now.graph u + one_for (edge_in graph.now.graph u u) }
{
    // Called for its contract: edges are few.
    let _known = graph.edge_count();
    let mut steps = Steps::<L>::new(blank);
    let parents = graph.parents(u, &mut steps);
    let children = graph.children(u, &mut steps);
    sum_of(parents.len(), children.len())
}

fn sum_of(a: usize, b: usize) -> usize
    requires { a + b < 2 ^ 63 }
    ensures { result ≡ a + b }
{
    a + b
}

// How many edges begin or end at the node in the graph as it is. A loop is one of them.
fn edges_before(graph: &Graph, u: NodeId) -> usize
    ensures { result ≡ touching graph.now.graph u }
{
    let both = counted_edges::<Brand>(graph, u, Blank::new(1));
    both.saturating_sub(usize::from(edge_before(graph, u, u)))
}

// Whether the step takes the node away.
fn takes_away(step: &Step, n: NodeId) -> bool
    ensures { result ≡ takes_away (step_of step.now) n }
{
    match step {
        Step::Drop(w) => n == *w,
        _ => false,
    }
}

// Whether one of the steps does so.
fn any_takes(steps: &[Step], n: NodeId) -> bool
    ensures { result ≡ list_any (λ s. takes_away (step_of s) n) steps.now }
{
    steps.iter().any(|s| takes_away(s, n))
}

/// Whether one of the steps takes the node away. O(s) for s steps, no memory.
pub fn is_dropped(steps: &[Step], n: NodeId) -> bool
    ensures { result ≡ is_dropped (steps_of steps.now) n }
{
    any_takes(steps, n)
}

// How many edges join the two nodes in the graph as it is, which are distinct.
fn joining(graph: &Graph, u: NodeId, w: NodeId) -> usize
    ensures { result ≡ one_for (edge_in graph.now.graph u w) + one_for (edge_in graph.now.graph w u) }
{
    usize::from(edge_before(graph, u, w)) + usize::from(edge_before(graph, w, u))
}

// The edges of the graph at a node that stay after a step which takes another node away.
fn count_left(graph: &Graph, step: &Step, u: NodeId, count: usize) -> usize
    ensures { result ≡ count - lost_by graph.now.graph u (step_of step.now) }
{
    match step {
        Step::Drop(w) => count.saturating_sub(joining(graph, u, *w)),
        _ => count,
    }
}

// Whether the edge is at the node, and none of the steps takes one of its ends away.
fn is_counted(prefix: &[Step], u: NodeId, a: NodeId, b: NodeId) -> bool
    ensures { result ≡ stays_at u (is_dropped (steps_of prefix.now)) (a, b) }
{
    (a == u || b == u) && (!is_dropped(prefix, a) && !is_dropped(prefix, b))
}

// Whether an edge that a link names comes, and is counted.
fn is_gained(
    graph: &Graph,
    prefix: &Prefix<'_>,
    all_steps: &[Step],
    u: NodeId,
    a: NodeId,
    b: NodeId,
) -> bool
    requires within { (n : ℕ) → is_dropped (steps_of all_steps.now) n ≡ false → is_dropped prefix.now n ≡ false }
    ensures { result ≡ (stays_at u (is_dropped (steps_of all_steps.now)) (a, b) && not (edge_in (after prefix.now graph.now.graph) a b)) }
{
    if is_counted(all_steps, u, a, b) {
        return !has_edge(graph, prefix, a, b);
    }
    false
}

// The count once the next step is made, of the edges whose ends all steps leave.
fn count_on(
    graph: &Graph,
    prefix: &Prefix<'_>,
    step: &Step,
    all_steps: &[Step],
    u: NodeId,
    count: usize,
) -> usize
    requires few { count < 2 ^ 63 }
    requires within { (n : ℕ) → is_dropped (steps_of all_steps.now) n ≡ false → is_dropped prefix.now n ≡ false }
    ensures { result ≡ counted_behind (after prefix.now graph.now.graph) u (is_dropped (steps_of all_steps.now)) (step_of step.now) count }
{
    match step {
        Step::Link(a, b) => count + usize::from(is_gained(graph, prefix, all_steps, u, *a, *b)),
        Step::Unlink(a, b) => count.saturating_sub(usize::from(is_counted(all_steps, u, *a, *b))),
        _ => count,
    }
}

// The edges of the graph as it is at a node, without those that go with other nodes.
fn edges_left(graph: &Graph, prefix: &[Step], u: NodeId) -> usize
    requires can { CanMakeAll (steps_of prefix.now) graph.now.graph }
    requires live { IsTrue (is_live (after (steps_of prefix.now) graph.now.graph) u) }
    ensures { result ≡ staying graph.now.graph u (is_dropped (steps_of prefix.now)) }
{
    let mut count = edges_before(graph, u);
    for i in 0..prefix.len() {
        count = count_left(graph, &prefix[i], u, count);
    }
    count
}

/// How many edges begin or end at a node that is live once the first steps are made; a loop is one. Its edges are not gone
/// through one by one: O(s) for s steps, O(s) more for each of them that names the node, and what it takes to look up its
/// loop, two edges for each node that is taken away, and each edge at it that is linked. No memory.
pub fn edges_at(graph: &Graph, prefix: &Prefix<'_>, u: NodeId) -> usize
    requires few { length prefix.now ≤ 1024 }
    requires can { CanMakeAll prefix.now graph.now.graph }
    requires live { IsTrue (is_live (after prefix.now graph.now.graph) u) }
    ensures { result ≡ touching (after prefix.now graph.now.graph) u }
{
    edges_behind(graph, prefix, prefix.steps(), u)
}

// The same, of these steps.
fn edges_behind(graph: &Graph, prefix: &Prefix<'_>, steps: &[Step], u: NodeId) -> usize
    requires same { steps_of steps.now ≡ prefix.now }
    requires few { length steps.now ≤ 1024 }
    requires can { CanMakeAll (steps_of steps.now) graph.now.graph }
    requires live { IsTrue (is_live (after (steps_of steps.now) graph.now.graph) u) }
    ensures { result ≡ touching (after (steps_of steps.now) graph.now.graph) u }
{
    // Called for its contract: edges are few.
    let _known = graph.edge_count();
    let mut count = edges_left(graph, steps, u);
    for i in 0..steps.len() {
        count = count_on(graph, &prefix.prefix(i), &steps[i], steps, u, count);
    }
    count
}
