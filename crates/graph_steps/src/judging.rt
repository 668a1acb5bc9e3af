// Whether a change is accepted.
ghost use Rattle.std.specs.Prelude.{◌-◌, ◌≡◌, ◌≢◌, ◌<◌, Ok, Err, ◌≤◌, true, false, not, length, take, IsTrue, if◌then◌else◌};
ghost use Rattle.graph_spec.specs.Graphs.{is_live as live_in, is_seen as seen_in};
ghost use Rattle.change_spec.specs.Steps.{node, link, unlink, drop, relabel, after};
ghost use Rattle.change_spec.specs.Places.{CanMakeAll};
ghost use Rattle.graph_steps.specs.StepLists.{step_of, steps_of};
ghost use Rattle.graph_steps.specs.NewChanges.{IsNew, AreHighest};
ghost use Rattle.graph_steps.specs.Counted.{touching, AreCounts, StepComes, ComesAt};
ghost use Rattle.graph_steps.specs.Verdicts.{Judges};

use crate::changes::{Change, Step, Verdict};
use crate::counting::{Counts, Exact, Taken, counts_of, exact_for};
use crate::degrees::edges_at;
use crate::labels::has_label;
use crate::prefix::Prefix;
use crate::reads::{either, has_edge, is_live, is_seen};
use label_graph::Graph;
use px_base::{Limits, NodeId, Refusal, Text};

// How many steps a change may have.
const MOST_STEPS: usize = 1024;

// Whether the label isn't one yet once the first steps are made.
fn is_unseen(graph: &Graph, prefix: &Prefix<'_>, label: &Text) -> bool
    ensures { result ≡ not (seen_in (after prefix.now graph.now.graph).seen label.now) }
{
    !is_seen(graph, prefix.steps(), label)
}

// Whether the label may be one more: where labels aren't counted, it is taken for one.
fn is_more(graph: &Graph, prefix: &Prefix<'_>, label: &Text, exact: Exact) -> bool
    ensures counted { exact.labels ≡ true → result ≡ not (seen_in (after prefix.now graph.now.graph).seen label.now) }
    ensures uncounted { exact.labels ≡ false → result ≡ true }
{
    if exact.labels {
        return is_unseen(graph, prefix, label);
    }
    true
}

fn judge_node(
    graph: &Graph,
    prefix: &Prefix<'_>,
    label: &Text,
    limits: &Limits,
    exact: Exact,
    counts: Counts,
) -> Result<Taken, Refusal>
    requires counts { AreCounts exact counts (after prefix.now graph.now.graph) }
    requires labels { exact.labels ≡ false → counts.labels < limits.now.labels }
    ensures { StepComes exact counts (node label.now) (after prefix.now graph.now.graph) limits.now result }
{
    if counts.created >= limits.nodes {
        return Err(Refusal::Limit);
    }
    let more = is_more(graph, prefix, label, exact);
    if more && counts.labels >= limits.labels {
        return Err(Refusal::Limit);
    }
    Ok(Taken {
        counts: Counts {
            created: counts.created + 1,
            edges: counts.edges,
            labels: counts.labels + u32::from(more),
        },
        alters: true,
    })
}

fn judge_link(
    graph: &Graph,
    prefix: &Prefix<'_>,
    u: NodeId,
    v: NodeId,
    limits: &Limits,
    exact: Exact,
    counts: Counts,
) -> Result<Taken, Refusal>
    requires can { CanMakeAll prefix.now graph.now.graph }
    requires counts { AreCounts exact counts (after prefix.now graph.now.graph) }
    requires edges { exact.edges ≡ false → counts.edges < limits.now.edges }
    ensures { StepComes exact counts (link u v) (after prefix.now graph.now.graph) limits.now result }
{
    if !is_live(graph, prefix, counts.created, u) || !is_live(graph, prefix, counts.created, v) {
        return Err(Refusal::NoNode);
    }
    if has_edge(graph, prefix, u, v) {
        return Ok(Taken {
            counts,
            alters: false,
        });
    }
    if counts.edges >= limits.edges {
        return Err(Refusal::Limit);
    }
    Ok(Taken {
        counts: Counts {
            created: counts.created,
            edges: counts.edges + 1,
            labels: counts.labels,
        },
        alters: true,
    })
}

fn judge_unlink(
    graph: &Graph,
    prefix: &Prefix<'_>,
    u: NodeId,
    v: NodeId,
    exact: Exact,
    counts: Counts,
) -> Result<Taken, Refusal>
    requires can { CanMakeAll prefix.now graph.now.graph }
    requires counts { AreCounts exact counts (after prefix.now graph.now.graph) }
    ensures { (limits : Limits) → StepComes exact counts (unlink u v) (after prefix.now graph.now.graph) limits result }
{
    if !is_live(graph, prefix, counts.created, u) || !is_live(graph, prefix, counts.created, v) {
        return Err(Refusal::NoNode);
    }
    if !has_edge(graph, prefix, u, v) {
        return Err(Refusal::NoEdge);
    }
    Ok(Taken {
        counts: Counts {
            created: counts.created,
            edges: counts.edges - u32::from(exact.edges),
            labels: counts.labels,
        },
        alters: true,
    })
}

// How many edges go with a node, where they are counted.
fn going(graph: &Graph, prefix: &Prefix<'_>, u: NodeId, exact: Exact) -> usize
    requires few { length prefix.now ≤ 1024 }
    requires can { CanMakeAll prefix.now graph.now.graph }
    requires live { IsTrue (live_in (after prefix.now graph.now.graph) u) }
    ensures counted { exact.edges ≡ true → result ≡ touching (after prefix.now graph.now.graph) u }
    ensures uncounted { exact.edges ≡ false → result ≡ 0 }
{
    if exact.edges {
        return edges_at(graph, prefix, u);
    }
    0
}

fn fewer(count: u32, gone: usize) -> u32
    requires { gone ≤ count }
    ensures { result ≡ count - gone }
{
    count - gone as u32
}

fn judge_drop(
    graph: &Graph,
    prefix: &Prefix<'_>,
    u: NodeId,
    exact: Exact,
    counts: Counts,
) -> Result<Taken, Refusal>
    requires few { length prefix.now ≤ 1024 }
    requires can { CanMakeAll prefix.now graph.now.graph }
    requires counts { AreCounts exact counts (after prefix.now graph.now.graph) }
    ensures { (limits : Limits) → StepComes exact counts (drop u) (after prefix.now graph.now.graph) limits result }
{
    if !is_live(graph, prefix, counts.created, u) {
        return Err(Refusal::NoNode);
    }
    let gone = going(graph, prefix, u, exact);
    Ok(Taken {
        counts: Counts {
            created: counts.created,
            edges: fewer(counts.edges, gone),
            labels: counts.labels,
        },
        alters: true,
    })
}

fn judge_relabel(
    graph: &Graph,
    prefix: &Prefix<'_>,
    u: NodeId,
    label: &Text,
    limits: &Limits,
    exact: Exact,
    counts: Counts,
) -> Result<Taken, Refusal>
    requires can { CanMakeAll prefix.now graph.now.graph }
    requires counts { AreCounts exact counts (after prefix.now graph.now.graph) }
    requires labels { exact.labels ≡ false → counts.labels < limits.now.labels }
    ensures { StepComes exact counts (relabel u label.now) (after prefix.now graph.now.graph) limits.now result }
{
    if !is_live(graph, prefix, counts.created, u) {
        return Err(Refusal::NoNode);
    }
    let more = is_more(graph, prefix, label, exact);
    if more && counts.labels >= limits.labels {
        return Err(Refusal::Limit);
    }
    Ok(Taken {
        counts: Counts {
            created: counts.created,
            edges: counts.edges,
            labels: counts.labels + u32::from(more),
        },
        alters: !has_label(graph, prefix, u, label),
    })
}

/// Whether a change is accepted, and if so, whether some step isn't idle: idle is a link of an edge that is there already,
/// or a label for a node that has it. Steps are judged in their order, each in the graph that those before it leave. A
/// refusal is that of the first step that is refused, and of this step the first that holds: `NoNode` exactly where a node
/// that it names isn't live; then `NoEdge` exactly where an edge to be unlinked isn't present, and `Limit` exactly where
/// the step needs one more of what is at its limit. A change of more than 1,024 steps is refused before all these, with
/// `Limit`.
///
/// One step is expected O(b) for a label of b bytes, O(min(c, p)) for an edge that leads from a node with c children to
/// one with p parents, and O(1) for a node to be dropped. Of more steps, one that names an edge also goes through those
/// before it that name an end, for the end that fewer of them name, and one that gives a label through those that name its
/// node. Only where so many steps could reach the limit of labels, it compares a label with those of all steps before it;
/// and where they could reach that of edges, the edges at a node to be dropped are counted: see `edges_at`. No memory.
pub fn judge(graph: &Graph, change: &Change, limits: &Limits) -> Result<Verdict, Refusal>
    ensures judges { Judges change.now graph.now.graph limits.now result }
    ensures new { result ≡ Ok Verdict.New → IsNew change.now graph.now.graph }
    ensures highest { AreHighest limits.now → IsNew change.now graph.now.graph → result ≡ Ok Verdict.New }
    ensures index { result ≢ Err Refusal.NoIndex }
{
    judge_steps(graph, change, change.steps(), limits)
}

fn judge_steps(
    graph: &Graph,
    change: &Change,
    steps: &[Step],
    limits: &Limits,
) -> Result<Verdict, Refusal>
    requires same { steps_of steps.now ≡ change.now }
    ensures judges { Judges (steps_of steps.now) graph.now.graph limits.now result }
{
    if steps.len() > MOST_STEPS {
        return Err(Refusal::Limit);
    }
    let mut counts = counts_of(graph);
    let exact = exact_for(counts, limits, steps.len());
    let mut new = false;
    for i in 0..steps.len() {
        match judge_at(graph, change, steps, i, limits, exact, counts) {
            Ok(taken) => {
                counts = taken.counts;
                new = either(new, taken.alters);
            }
            Err(refusal) => return Err(refusal),
        }
    }
    Ok(verdict_of(new))
}

fn verdict_of(new: bool) -> Verdict
    ensures { result ≡ (if new then Verdict.New else Verdict.Same) }
{
    if new { Verdict::New } else { Verdict::Same }
}

// What the step at a place comes to, where those before it are accepted.
fn judge_at(
    graph: &Graph,
    change: &Change,
    steps: &[Step],
    i: usize,
    limits: &Limits,
    exact: Exact,
    counts: Counts,
) -> Result<Taken, Refusal>
    requires same { steps_of steps.now ≡ change.now }
    requires place { i < length steps.now }
    requires few { length steps.now ≤ 1024 }
    requires can { CanMakeAll (steps_of (take i steps.now)) graph.now.graph }
    requires counts { AreCounts exact counts (after (steps_of (take i steps.now)) graph.now.graph) }
    requires edges { exact.edges ≡ false → counts.edges < limits.now.edges }
    requires labels { exact.labels ≡ false → counts.labels < limits.now.labels }
    ensures { ComesAt exact counts steps.now i graph.now.graph limits.now result }
{
    judge_step(graph, &change.prefix(i), &steps[i], limits, exact, counts)
}

// What a step comes to, where those before it are accepted.
fn judge_step(
    graph: &Graph,
    prefix: &Prefix<'_>,
    step: &Step,
    limits: &Limits,
    exact: Exact,
    counts: Counts,
) -> Result<Taken, Refusal>
    requires few { length prefix.now ≤ 1024 }
    requires can { CanMakeAll prefix.now graph.now.graph }
    requires counts { AreCounts exact counts (after prefix.now graph.now.graph) }
    requires edges { exact.edges ≡ false → counts.edges < limits.now.edges }
    requires labels { exact.labels ≡ false → counts.labels < limits.now.labels }
    ensures { StepComes exact counts (step_of step.now) (after prefix.now graph.now.graph) limits.now result }
{
    match step {
        Step::Node(label) => judge_node(graph, prefix, label, limits, exact, counts),
        Step::Link(u, v) => judge_link(graph, prefix, *u, *v, limits, exact, counts),
        Step::Unlink(u, v) => judge_unlink(graph, prefix, *u, *v, exact, counts),
        Step::Drop(u) => judge_drop(graph, prefix, *u, exact, counts),
        Step::Relabel(u, label) => judge_relabel(graph, prefix, *u, label, limits, exact, counts),
    }
}
