// A graph as a change will leave it.
ghost use Rattle.std.specs.Prelude.{◌≡◌, ◌<◌, ◌≤◌, ◌+◌, ◌-◌, ◌^◌, ◌||◌, ◌&&◌, not, ℕ, true, false, length, take, IsTrue, IfSome, Some, slice_get, position, bytes_eq, if◌then◌else◌, option_map};
ghost use Rattle.std.specs.Option.{option_or};
ghost use Rattle.std.specs.FinSet as set;
ghost use Rattle.graph_spec.specs.Graphs.{Graph as Seen, IsGraph, is_live, label_of, has_edge, is_seen};
ghost use Rattle.graph_spec.specs.Changes.{with_label};
ghost use Rattle.graph_spec.specs.Members.{Lists};
ghost use Rattle.label_graph.specs.GraphViews.{label_number, edge_count};
ghost use Rattle.label_graph.specs.LabelTable.{entries};
ghost use Rattle.change_spec.specs.Lost.{lost_onto, lost_from};
ghost use Rattle.change_spec.specs.Steps.{made, after};
ghost use Rattle.change_spec.specs.Places.{CanMake, CanMakeAll};
ghost use Rattle.change_spec.specs.Named.{takes_away, is_dropped};
ghost use Rattle.graph_steps.specs.StepLists.{step_of, steps_of};
ghost use Rattle.graph_steps.specs.NamedSteps.{DropsLast};
ghost use Rattle.graph_steps.specs.NewChanges.{IsNew};
ghost use Rattle.graph_update.specs.ShownNeighbours.{leads_between};
ghost use Rattle.graph_update.specs.PendingChanges.{graph_after, lost_at, is_added, AreAhead, IsShownPast};

use crate::neighbours::{Neighbours, fresh_count};
use bisim_spec::Side;
use graph_steps::{Change, Prefix, Step, edge_after, edges_at, has_edge, is_seen, label_after};
use label_graph::{Graph, Labels};
use px_base::{NodeId, Steps, Text};
use std::marker::Model;
use std::sync::ledger::Ledger;

/// A graph as a change will leave it. It is read from the graph as it is, and nothing is copied. It is seen as the
/// graph before and the change; the graph after is a function of the two.
///
/// The children that node 5 will have once a change is made:
///
///     if judge(&graph, &change, &limits) == Ok(Verdict::New) {
///         let after = After::new(&graph, &change);
///         take(after.children(5, &mut steps));
///     }
#[derive(Drop)]
pub struct After<'a> {
    graph: &'a Graph,
    labels: &'a Labels,
    change: &'a Change,
    created: u32,
    drops: bool,
    ahead: bool,
}

impl<'a> Model for After<'a> {
    ghost use Rattle.graph_update.specs.PendingChanges.{Pending, pending_code, IsPending};

    ghost Value = { Pending };

    ghost coded = { pending_code };

    ghost view = { λ a. record { before = a.graph.now.graph; change = a.change.now } };

    ghost invariant = { λ a. IsPending a.change.now a.graph.now.graph a.labels.now a.created a.drops a.ahead };
}

impl<'a> After<'a> {
    /// The graph after a change that `judge` accepts as new within some limits. Expected O(s + b) for s steps with labels of b
    /// bytes together; no memory.
    pub fn new(graph: &'a Graph, change: &'a Change) -> After<'a>
        requires new { IsNew change.now graph.now.graph }
        ensures pending { result ≡ record { before = graph.now.graph; change = change.now } }
        ensures new { IsNew result.change result.before }
        ensures before { IsGraph result.before }
        ensures after { IsGraph (graph_after result) }
    {
        let labels = graph.labels();
        After {
            graph,
            labels,
            change,
            created: created_after(graph, change),
            drops: any_drops(change.steps()),
            ahead: are_ahead(labels, change),
        }
    }

    /// Whether the number is that of a live node. Expected O(1), no memory.
    pub fn is_live(&self, n: NodeId) -> bool
        ensures { result ≡ is_live (graph_after self.now) n }
    {
        let there = either(self.graph.is_live(n), self.is_added(n));
        is_left(there, self.is_dropped(n))
    }

    /// The number of a live node's label. Labels that are not seen yet have the next numbers, in the order of the steps
    /// that bring them. Expected O(1), and the steps that name the node are gone through; where a step gives it a label of b
    /// bytes, expected O(b) more. Where that isn't seen yet, and the graph isn't staged for the change either, it takes s
    /// look-ups of labels and at most s^2 / 2 comparisons of them for s steps; no memory.
    pub fn label(&self, n: NodeId) -> u32
        requires live { IsTrue (is_live (graph_after self.now) n) }
        ensures text { slice_get (graph_after self.now).seen result ≡ label_of (graph_after self.now) n }
        ensures number { label_number (graph_after self.now) n ≡ Some result }
    {
        // Called for its contract: numbers of labels fit.
        let _known = self.labels.len();
        match self.label_after(n) {
            Some(label) => self.number_of(label),
            None => self.graph.label(n),
        }
    }

    // The number that a label will have.
    fn number_of(&self, label: &Text) -> u32
        requires seen { is_seen (graph_after self.now).seen label.now ≡ true }
        requires few { length (graph_after self.now).seen < 2 ^ 32 }
        ensures { position (bytes_eq label.now) (graph_after self.now).seen ≡ Some result }
    {
        match self.entry_of(label) {
            Some(number) => number,
            None => added_number(self.graph, self.change.steps(), label),
        }
    }

    // The same by the graph's table, where the labels to come lie ahead there.
    fn entry_of(&self, label: &Text) -> Option<u32>
        requires { is_seen (graph_after self.now).seen label.now ≡ true }
        ensures { IfSome result (λ n. position (bytes_eq label.now) (graph_after self.now).seen ≡ Some n) }
    {
        if self.ahead {
            return self.labels.entry(label);
        }
        None
    }

    // The label that a step gives the node, the last one where several do.
    fn label_after(&self, n: NodeId) -> Option<&Text>
        requires live { IsTrue (is_live (graph_after self.now) n) }
        ensures { label_of (graph_after self.now) n ≡ option_or (option_map (λ t. t.now) result) (label_of self.now.before n) }
    {
        label_after(self.graph, &self.change.as_prefix(), n)
    }

    /// How many node numbers will have been allocated: at most 2^30. O(1), no memory.
    pub fn created(&self) -> u32
        ensures count { result ≡ length (graph_after self.now).allocated }
        ensures few { result ≤ 2 ^ 30 }
        ensures few_edges { set.len (graph_after self.now).edges ≤ 2 ^ 30 }
        ensures new { IsNew self.now.change self.now.before }
        ensures before { IsGraph self.now.before }
        ensures after { IsGraph (graph_after self.now) }
    {
        // Called for its contract: the edges are few.
        let _known = self.graph.edge_count();
        self.created
    }

    /// How many edges there will be: at most 2^30. Expected O(s) for s steps, and for each of them what it takes to look up
    /// an edge of the graph, and the steps before it that name its nodes; where it takes a node away, O(s) more, and more
    /// for each that names this node; no memory.
    pub fn edge_count(&self) -> u32
        ensures count { result ≡ edge_count (graph_after self.now) }
        ensures few { result ≤ 2 ^ 30 }
    {
        edges_after(self.graph, self.change, self.change.steps())
    }

    /// The nodes from which an edge leads to this one, each once, in no stated order; none where the number isn't that
    /// of a live node. It is one step, one for each of them, and one for each edge to the node that the change takes
    /// away. Expected O(1). Where steps name the node, these are gone through, and for each of its parents in the graph, and
    /// each that a step links, what `Neighbours` says; no memory.
    pub fn parents<L: Ledger>(&self, n: NodeId, steps: &mut Steps<L>) -> Neighbours<'_>
        ensures parents { Lists (λ u. has_edge (graph_after self.now) u n) result }
        ensures cost { steps.new ≡ steps.old + 1 + length result + lost_onto self.now.before (graph_after self.now) n }
    {
        self.neighbours(self.graph.parents(n, steps), Side::Parents, n, steps)
    }

    /// The nodes to which an edge leads from this one, each once, in no stated order; none where the number isn't that
    /// of a live node. It is one step, one for each of them, and one for each edge from the node that the change takes
    /// away. Expected O(1). Where steps name the node, these are gone through, and for each of its children in the graph, and
    /// each that a step links, what `Neighbours` says; no memory.
    pub fn children<L: Ledger>(&self, n: NodeId, steps: &mut Steps<L>) -> Neighbours<'_>
        ensures children { Lists (has_edge (graph_after self.now) n) result }
        ensures cost { steps.new ≡ steps.old + 1 + length result + lost_from self.now.before (graph_after self.now) n }
    {
        self.neighbours(self.graph.children(n, steps), Side::Children, n, steps)
    }

    /// Whether an edge will lead from the first node to the second, where one does so already or doesn't. Expected O(1);
    /// the steps that name an end are gone through, for the end where these are fewer; no memory.
    pub fn edge_after(&self, u: NodeId, v: NodeId, present: bool) -> bool
        requires { present ≡ has_edge self.now.before u v }
        ensures { result ≡ has_edge (graph_after self.now) u v }
    {
        if self.are_live(u, v) {
            return edge_after(&self.change.as_prefix(), u, v, present);
        }
        false
    }

    // Whether both numbers are those of live nodes.
    fn are_live(&self, u: NodeId, v: NodeId) -> bool
        ensures { result ≡ (is_live (graph_after self.now) u && is_live (graph_after self.now) v) }
    {
        self.is_live(u) && self.is_live(v)
    }

    // The neighbours that a node will have, where it has these, which were read.
    fn neighbours<L: Ledger>(
        &self,
        items: &'a [NodeId],
        side: Side,
        n: NodeId,
        steps: &mut Steps<L>,
    ) -> Neighbours<'_>
        requires lists { Lists (leads_between side self.now.before n) items.now }
        ensures neighbours { Lists (leads_between side (graph_after self.now) n) result }
        ensures cost { steps.new + length items.now ≡ steps.old + length result + lost_at side self.now n }
    {
        if !self.drops && !self.change.may_name(n) {
            return Neighbours::of(items, self.change);
        }
        if self.is_dropped(n) {
            return Neighbours::of(&[], self.change);
        }
        steps.tick_by(fresh_count(self.graph, self.change, side, n));
        Neighbours::shown(items, self.change, side, n)
    }

    // Whether a step adds the node.
    fn is_added(&self, n: NodeId) -> bool
        ensures { result ≡ is_added self.now.before (graph_after self.now) n }
    {
        !(n < self.graph.created()) && n < self.created
    }

    // Whether a step takes the node away.
    fn is_dropped(&self, n: NodeId) -> bool
        ensures { result ≡ is_dropped self.now.change n }
    {
        self.drops && drops(self.change, n)
    }
}

// Whether a step takes the node away.
fn drops(change: &Change, n: NodeId) -> bool
    requires { DropsLast change.now }
    ensures { result ≡ is_dropped change.now n }
{
    change.drops_from(0, n)
}

fn either(a: bool, b: bool) -> bool
    ensures { result ≡ (a || b) }
{
    a || b
}

fn is_left(there: bool, gone: bool) -> bool
    ensures { result ≡ (there && not gone) }
{
    there && !gone
}

// How many numbers are allocated once all steps are made.
fn created_after(graph: &Graph, change: &Change) -> u32
    requires few { length change.now ≤ 1024 }
    ensures created { result ≡ length (after change.now graph.now.graph).allocated }
    ensures before { length graph.now.graph.allocated ≤ 2 ^ 30 }
{
    graph.created() + change.added() as u32
}

fn is_drop(step: &Step) -> bool
    ensures { result ≡ false → (n : ℕ) → takes_away (step_of step.now) n ≡ false }
{
    match step {
        Step::Drop(_) => true,
        _ => false,
    }
}

// Whether some step takes a node away.
fn any_drops(steps: &[Step]) -> bool
    ensures { result ≡ false → (n : ℕ) → is_dropped (steps_of steps.now) n ≡ false }
{
    let mut drops = false;
    for i in 0..steps.len() {
        drops = drops || is_drop(&steps[i]);
    }
    drops
}

// How many edges there are once the next step is made.
fn edges_by(graph: &Graph, prefix: &Prefix<'_>, step: &Step, edges: u32) -> u32
    requires few { length prefix.now ≤ 1024 }
    requires few_edges { edges < 2 ^ 31 }
    requires can { CanMakeAll prefix.now graph.now.graph }
    requires can_step { CanMake (step_of step.now) (after prefix.now graph.now.graph) }
    requires edges { edges ≡ set.len (after prefix.now graph.now.graph).edges }
    ensures edges { result ≡ set.len (made (step_of step.now) (after prefix.now graph.now.graph)).edges }
    ensures most { result ≤ edges + 1 }
{
    match step {
        Step::Link(u, v) => edges + one_if(!has_edge(graph, prefix, *u, *v)),
        Step::Unlink(_, _) => edges - 1,
        Step::Drop(u) => fewer(edges, edges_at(graph, prefix, *u)),
        _ => edges,
    }
}

// How many there are once all steps are made.
fn edges_after(graph: &Graph, change: &Change, steps: &[Step]) -> u32
    requires same { steps_of steps.now ≡ change.now }
    requires few { length steps.now ≤ 1024 }
    requires can { CanMakeAll (steps_of steps.now) graph.now.graph }
    ensures edges { result ≡ set.len (after (steps_of steps.now) graph.now.graph).edges }
    ensures before { set.len graph.now.graph.edges ≤ 2 ^ 30 }
{
    let mut edges = graph.edge_count();
    for i in 0..steps.len() {
        edges = edges_by(graph, &change.prefix(i), &steps[i], edges);
    }
    edges
}

fn fewer(edges: u32, gone: usize) -> u32
    requires { gone ≤ edges }
    ensures { result ≡ edges - gone }
{
    edges - gone as u32
}

fn one_if(b: bool) -> u32
    ensures { result ≡ (if b then 1 else 0) }
{
    if b { 1 } else { 0 }
}

// ---- labels that lie ahead

// How many of the entries are labels once the text is one, where so many were; none where it is ahead behind others.
fn shown_with(labels: &Labels, text: &Text, shown: u32) -> Option<u32>
    ensures { IfSome result (λ n. with_label (take shown (entries labels.now)) text.now ≡ take n (entries labels.now)) }
{
    match labels.entry(text) {
        Some(number) => shown_past(number, shown),
        None => None,
    }
}

// The same of the entry with this number.
fn shown_past(number: u32, shown: u32) -> Option<u32>
    ensures { IfSome result (λ n. IsShownPast number shown n) }
{
    if number < shown {
        return Some(shown);
    }
    if number == shown {
        return shown.checked_add(1);
    }
    None
}

// The same once a step is made.
fn shown_by(labels: &Labels, step: &Step, shown: u32) -> Option<u32>
    ensures { IfSome result (λ n. (h : Seen) → h.seen ≡ take shown (entries labels.now)
        → (made (step_of step.now) h).seen ≡ take n (entries labels.now)) }
{
    match step {
        Step::Node(text) => shown_with(labels, text, shown),
        Step::Relabel(_, text) => shown_with(labels, text, shown),
        _ => Some(shown),
    }
}

// Whether the labels that steps bring lie ahead, in the order in which they come.
fn each_ahead(labels: &Labels, steps: &[Step]) -> bool
    ensures { result ≡ true → (g : Seen) → labels.now.texts ≡ g.seen → AreAhead (steps_of steps.now) g labels.now }
{
    let mut shown = labels.len();
    for i in 0..steps.len() {
        match shown_by(labels, &steps[i], shown) {
            Some(more) => shown = more,
            None => return false,
        }
    }
    true
}

// The same of a change: so they do once the graph is staged for it. A single step isn't asked.
fn are_ahead(labels: &Labels, change: &Change) -> bool
    ensures { result ≡ true → (g : Seen) → labels.now.texts ≡ g.seen → AreAhead change.now g labels.now }
{
    if change.steps().len() <= 1 {
        return false;
    }
    each_ahead(labels, change.steps())
}

// ---- labels that are looked for among the steps

// Whether the step brings the label, if it isn't seen yet.
fn brings(step: &Step, label: &Text) -> bool
    ensures some { result ≡ true → (h : Seen) → (made (step_of step.now) h).seen ≡ with_label h.seen label.now }
    ensures none { result ≡ false → (h : Seen) → is_seen (made (step_of step.now) h).seen label.now ≡ is_seen h.seen label.now }
{
    match step {
        Step::Node(text) => *label == *text,
        Step::Relabel(_, text) => *label == *text,
        _ => false,
    }
}

// How many labels are seen once the next step is made.
fn labels_by(graph: &Graph, prefix: &[Step], step: &Step, labels: u32) -> u32
    requires labels { labels ≡ length (after (steps_of prefix.now) graph.now.graph).seen }
    requires few { length (made (step_of step.now) (after (steps_of prefix.now) graph.now.graph)).seen < 2 ^ 32 }
    ensures { result ≡ length (made (step_of step.now) (after (steps_of prefix.now) graph.now.graph)).seen }
{
    match step {
        Step::Node(text) => labels + one_if(!is_seen(graph, prefix, text)),
        Step::Relabel(_, text) => labels + one_if(!is_seen(graph, prefix, text)),
        _ => labels,
    }
}

// The number that a label will have which isn't seen yet: so many are seen before the step that brings it.
fn new_number(graph: &Graph, steps: &[Step], label: &Text) -> u32
    requires unseen { is_seen graph.now.graph.seen label.now ≡ false }
    requires seen { is_seen (after (steps_of steps.now) graph.now.graph).seen label.now ≡ true }
    requires few { length (after (steps_of steps.now) graph.now.graph).seen < 2 ^ 32 }
    ensures { position (bytes_eq label.now) (after (steps_of steps.now) graph.now.graph).seen ≡ Some result }
{
    let mut labels = graph.labels().len();
    for i in 0..steps.len() {
        if brings(&steps[i], label) {
            return labels;
        }
        labels = labels_by(graph, &steps[..i], &steps[i], labels);
    }
    labels
}

// The number that a label will have.
fn added_number(graph: &Graph, steps: &[Step], label: &Text) -> u32
    requires seen { is_seen (after (steps_of steps.now) graph.now.graph).seen label.now ≡ true }
    requires few { length (after (steps_of steps.now) graph.now.graph).seen < 2 ^ 32 }
    ensures { position (bytes_eq label.now) (after (steps_of steps.now) graph.now.graph).seen ≡ Some result }
{
    match graph.labels().find(label) {
        Some(number) => number,
        None => new_number(graph, steps, label),
    }
}
