// A graph as the first steps of a change will leave it.
ghost use Rattle.std.specs.Prelude.{◌≡◌, ◌<◌, ◌+◌, ◌&&◌, ◌||◌, ◌∷◌, not, false, nat_eq, nat_lt, bytes_eq, length, drop};
ghost use Rattle.graph_spec.specs.Graphs.{Graph as Seen, is_live, has_edge, is_seen};
ghost use Rattle.change_spec.specs.Steps.{Step as Made, made, after};
ghost use Rattle.change_spec.specs.Places.{CanMakeAll};
ghost use Rattle.change_spec.specs.Named.{is_dropped};
ghost use Rattle.change_spec.specs.EdgesAfter.{edge_by, edge_after};
ghost use Rattle.graph_steps.specs.StepLists.{step_of, steps_of};
ghost use Rattle.graph_steps.specs.NamedSteps.{IsNextNamed};

use crate::changes::Step;
use crate::prefix::Prefix;
use label_graph::{Graph, Labels};
use px_base::{NodeId, Steps, Text};
use std::marker::Brand;
use std::sync::ledger::{Blank, Ledger};

// Whether the number is one that steps allocate, where so many are allocated behind them.
fn is_added(graph: &Graph, created: u32, n: NodeId) -> bool
    ensures { result ≡ (not (nat_lt n (length graph.now.graph.allocated)) && nat_lt n created) }
{
    !(n < graph.created()) && n < created
}

/// Whether the number is that of a live node once the first steps are made, which leave so many numbers allocated. Expected
/// O(1), no memory.
pub(crate) fn is_live(graph: &Graph, prefix: &Prefix<'_>, created: u32, n: NodeId) -> bool
    requires can { CanMakeAll prefix.now graph.now.graph }
    requires created { created ≡ length (after prefix.now graph.now.graph).allocated }
    ensures { result ≡ is_live (after prefix.now graph.now.graph) n }
{
    let there = either(graph.is_live(n), is_added(graph, created, n));
    is_left(there, prefix.is_dropped(n))
}

// Whether both are those.
fn is_pair(u: NodeId, v: NodeId, a: NodeId, b: NodeId) -> bool
    ensures { result ≡ (nat_eq u a && nat_eq v b) }
{
    u == a && v == b
}

// Whether one of both is that.
fn is_end(u: NodeId, v: NodeId, w: NodeId) -> bool
    ensures { result ≡ (nat_eq u w || nat_eq v w) }
{
    u == w || v == w
}

pub(crate) fn either(a: bool, b: bool) -> bool
    ensures { result ≡ (a || b) }
{
    a || b
}

fn is_left(present: bool, goes: bool) -> bool
    ensures { result ≡ (present && not goes) }
{
    present && !goes
}

// Whether the edge is there behind the step, where it was or wasn't.
fn edge_by(step: &Step, u: NodeId, v: NodeId, present: bool) -> bool
    ensures { result ≡ edge_by (step_of step.now) u v present }
{
    match step {
        Step::Link(a, b) => is_pair(u, v, *a, *b) || present,
        Step::Unlink(a, b) => !is_pair(u, v, *a, *b) && present,
        Step::Drop(w) => present && !is_end(u, v, *w),
        _ => present,
    }
}

// The place of a step that names an end of an edge, and whether the edge is there once those before it are made.
#[derive(Clone, Copy, Drop)]
struct EdgeBefore {
    place: usize,
    there: bool,
}

// The first such step.
fn begun(prefix: &Prefix<'_>, n: NodeId, present: bool) -> EdgeBefore
    ensures place { IsNextNamed n prefix.now 0 result.place }
    ensures there { result.there ≡ present }
{
    EdgeBefore {
        place: prefix.next_naming(0, n),
        there: present,
    }
}

// The next one.
fn moved(prefix: &Prefix<'_>, at: EdgeBefore, u: NodeId, v: NodeId, n: NodeId) -> EdgeBefore
    requires { at.place < length prefix.now }
    ensures place { IsNextNamed n prefix.now (at.place + 1) result.place }
    ensures there { (s : Made) → drop at.place prefix.now ≡ s ∷ drop (at.place + 1) prefix.now → result.there ≡ edge_by s u v at.there }
{
    // Called for its contract: places are numbers of 64 bits.
    let _known = prefix.len();
    EdgeBefore {
        place: prefix.next_naming(at.place + 1, n),
        there: edge_by(prefix.step(at.place), u, v, at.there),
    }
}

/// Whether an edge is there once the first steps are made, none of which takes an end of it away, where it was or wasn't
/// before. Expected O(1), and the steps that name an end are gone through, for the end that fewer of them name; no memory.
pub fn edge_after(prefix: &Prefix<'_>, u: NodeId, v: NodeId, present: bool) -> bool
    requires from { is_dropped prefix.now u ≡ false }
    requires onto { is_dropped prefix.now v ≡ false }
    ensures { result ≡ edge_after prefix.now u v present }
{
    let len = prefix.len();
    let mut from = begun(prefix, u, present);
    let mut onto = begun(prefix, v, present);
    // Along both at once, until there are no more of one.
    while from.place < len && onto.place < len {
        from = moved(prefix, from, u, v, u);
        onto = moved(prefix, onto, u, v, v);
    }
    if from.place < len {
        onto.there
    } else {
        from.there
    }
}

fn counted_edge<L: Ledger>(graph: &Graph, from: NodeId, to: NodeId, blank: Blank) -> bool
    requires name { blank.name ≡ L.name }
    requires parts { blank.parts ≡ L.parts }
    requires some { 0 < blank.parts }
    ensures { result ≡ has_edge graph.now.graph from to }
{
    let mut steps = Steps::<L>::new(blank);
    graph.has_edge(from, to, &mut steps)
}

/// Whether the edge is present in the graph as it is. O(min(c, p)) where the one node has c children and the other p
/// parents; no memory.
pub fn edge_before(graph: &Graph, from: NodeId, to: NodeId) -> bool
    ensures { result ≡ has_edge graph.now.graph from to }
{
    counted_edge::<Brand>(graph, from, to, Blank::new(1))
}

/// Whether an edge is present once the first steps are made, none of which takes an end of it away. It takes what
/// `edge_before` and `edge_after` take; no memory.
pub fn has_edge(graph: &Graph, prefix: &Prefix<'_>, u: NodeId, v: NodeId) -> bool
    requires from { is_dropped prefix.now u ≡ false }
    requires onto { is_dropped prefix.now v ≡ false }
    ensures { result ≡ has_edge (after prefix.now graph.now.graph) u v }
{
    edge_after(prefix, u, v, edge_before(graph, u, v))
}

/// Whether the texts are the same.
pub(crate) fn is_same(a: &Text, b: &Text) -> bool
    ensures { result ≡ bytes_eq a.now b.now }
{
    *a == *b
}

// Whether the text is a label once a step is made.
fn seen_after(seen: bool, step: &Step, text: &Text) -> bool
    ensures { (h : Seen) → seen ≡ is_seen h.seen text.now → result ≡ is_seen (made (step_of step.now) h).seen text.now }
{
    match step {
        Step::Node(label) => either(seen, is_same(text, label)),
        Step::Relabel(_, label) => either(seen, is_same(text, label)),
        _ => seen,
    }
}

// Whether the text is a label already.
fn seen_before(labels: &Labels, text: &Text) -> bool
    ensures { result ≡ is_seen labels.now.texts text.now }
{
    labels.find(text).is_some()
}

/// Whether the text is a label once the first steps are made. Expected O(b) for a text of b bytes, and O(s) compares for s
/// steps; no memory.
pub fn is_seen(graph: &Graph, prefix: &[Step], text: &Text) -> bool
    ensures { result ≡ is_seen (after (steps_of prefix.now) graph.now.graph).seen text.now }
{
    if seen_before(graph.labels(), text) {
        return true;
    }
    let mut seen = false;
    for i in 0..prefix.len() {
        seen = seen_after(seen, &prefix[i], text);
    }
    seen
}
