// The neighbours of a node in a graph that is shown.
ghost use Rattle.std.specs.Prelude.{◌≡◌, ◌<◌, ◌≤◌, ◌||◌, ◌&&◌, ◌∷◌, ◌+◌, nat_eq, [], IfSome, IfNone, Some, None, Option, false, length, drop, if◌then◌else◌};
ghost use Rattle.change_spec.specs.EdgesAfter.{concerns as concerning};
ghost use Rattle.change_spec.specs.Named.{is_dropped};
ghost use Rattle.change_spec.specs.Counts.{tally};
ghost use Rattle.graph_steps.specs.StepLists.{step_of};
ghost use Rattle.graph_steps.specs.NamedSteps.{IsNextNamed, DropsLast};
ghost use Rattle.graph_update.specs.NamedSteps.{AreLeft};
ghost use Rattle.graph_update.specs.ShownNeighbours.{concerns_at as concerns_on, concerned_at as concerned_on, other_end, linked_at, unless_later, with_first, new_at, kept_at, shown_at, is_fresh, IsFirstKept, IsFirstAdded, AreShown};

use bisim_spec::Side;
use graph_steps::{Change, Step, edge_before};
use label_graph::Graph;
use px_base::NodeId;
use std::marker::Model;

fn step_count(change: &Change) -> usize
    ensures { result ≡ length change.now }
{
    change.steps().len()
}

// The step at a place.
fn step_at(change: &Change, i: usize) -> &Step
    requires { i < length change.now }
    ensures { drop i change.now ≡ step_of result.now ∷ drop (i + 1) change.now }
{
    change.as_prefix().step(i)
}

// Whether both are those.
fn is_pair(p: NodeId, n: NodeId, u: NodeId, v: NodeId) -> bool
    ensures { result ≡ (nat_eq p u && nat_eq n v) }
{
    p == u && n == v
}

// Whether one of both is that.
fn is_end(p: NodeId, n: NodeId, u: NodeId) -> bool
    ensures { result ≡ (nat_eq p u || nat_eq n u) }
{
    p == u || n == u
}

// Whether the step names the edge, or takes one of its ends away.
fn concerns(step: &Step, p: NodeId, n: NodeId) -> bool
    ensures { result ≡ concerning p n (step_of step.now) }
{
    match step {
        Step::Link(u, v) => is_pair(p, n, *u, *v),
        Step::Unlink(u, v) => is_pair(p, n, *u, *v),
        Step::Drop(u) => is_end(p, n, *u),
        _ => false,
    }
}

// Whether the step concerns the edge that joins a node to its neighbour.
fn concerns_at(step: &Step, side: Side, n: NodeId, m: NodeId) -> bool
    ensures { result ≡ concerns_on side (step_of step.now) n m }
{
    match side {
        Side::Parents => concerns(step, m, n),
        Side::Children => concerns(step, n, m),
    }
}

// Whether the step at a place does so.
fn is_concerned_by(change: &Change, i: usize, side: Side, n: NodeId, m: NodeId) -> bool
    requires { i < length change.now }
    ensures { concerned_on side (drop i change.now) n m ≡ (result || concerned_on side (drop (i + 1) change.now) n m) }
{
    concerns_at(step_at(change, i), side, n, m)
}

// Whether a step from a place on concerns the edge that joins a node to its neighbour, where both stay; the first step that
// names the neighbour is known. It names both, so the steps that name the one and those that name the other are gone
// through side by side, until either end.
fn concerned_at_either(
    change: &Change,
    from: usize,
    first: usize,
    side: Side,
    n: NodeId,
    m: NodeId,
) -> bool
    requires place { from ≤ length change.now }
    requires first { IsNextNamed m change.now from first }
    requires stays { is_dropped change.now n ≡ false }
    requires both { is_dropped (drop from change.now) m ≡ false }
    ensures { result ≡ concerned_on side (drop from change.now) n m }
{
    let len = step_count(change);
    let mut i = change.next_naming(from, n);
    let mut j = first;
    'steps: while i < len && j < len {
        if is_concerned_by(change, i, side, n, m) {
            return true;
        }
        if is_concerned_by(change, j, side, n, m) {
            return true;
        }
        i = change.next_naming(i + 1, n);
        j = change.next_naming(j + 1, m);
    }
    false
}

// The same of a neighbour that a step may drop.
fn concerned_from(change: &Change, from: usize, side: Side, n: NodeId, m: NodeId) -> bool
    requires place { from ≤ length change.now }
    requires stays { is_dropped change.now n ≡ false }
    requires last { DropsLast change.now }
    ensures { result ≡ concerned_on side (drop from change.now) n m }
{
    let first = change.next_naming(from, m);
    // Most neighbours are named by no step.
    if first >= step_count(change) {
        return false;
    }
    if change.drops_from(from, m) {
        return true;
    }
    concerned_at_either(change, from, first, side, n, m)
}

// The same of all steps.
fn is_concerned(change: &Change, side: Side, n: NodeId, m: NodeId) -> bool
    requires stays { is_dropped change.now n ≡ false }
    requires last { DropsLast change.now }
    ensures { result ≡ concerned_on side change.now n m }
{
    concerned_from(change, 0, side, n, m)
}

// The first of the neighbours that no step concerns, and those behind it.
fn first_kept<'a>(
    items: &'a [NodeId],
    change: &Change,
    side: Side,
    n: NodeId,
) -> Option<(NodeId, &'a [NodeId])>
    requires shown { AreShown change.now n items.now }
    requires last { DropsLast change.now }
    ensures some { IfSome result (λ f. IsFirstKept side change.now n f.0 items.now f.1.now) }
    ensures rest { IfSome result (λ f. AreShown change.now n f.1.now) }
    ensures none { IfNone result (kept_at side change.now n items.now ≡ []) }
{
    let mut left = items;
    while let Some((m, rest)) = left.split_first() {
        left = rest;
        if !is_concerned(change, side, n, *m) {
            return Some((*m, rest));
        }
    }
    None
}

// The other end, where the first is the node.
fn other_if(n: NodeId, end: NodeId, other: NodeId) -> Option<NodeId>
    ensures { result ≡ (if nat_eq n end then Some other else None) }
{
    if n == end { Some(other) } else { None }
}

// The neighbour that an edge from u to v joins to the node.
fn other_end(side: Side, n: NodeId, u: NodeId, v: NodeId) -> Option<NodeId>
    ensures { result ≡ other_end side n u v }
{
    match side {
        Side::Parents => other_if(n, v, u),
        Side::Children => other_if(n, u, v),
    }
}

// The neighbour that the step links to the node.
fn linked_to(step: &Step, side: Side, n: NodeId) -> Option<NodeId>
    ensures { result ≡ linked_at side (step_of step.now) n }
{
    match step {
        Step::Link(u, v) => other_end(side, n, *u, *v),
        _ => None,
    }
}

// The neighbour, unless a step from a place on concerns its edge.
fn unless_concerned(
    change: &Change,
    from: usize,
    side: Side,
    n: NodeId,
    m: NodeId,
) -> Option<NodeId>
    requires place { from ≤ length change.now }
    requires stays { is_dropped change.now n ≡ false }
    requires last { DropsLast change.now }
    ensures { result ≡ unless_later side (drop from change.now) n (Some m) }
{
    if concerned_from(change, from, side, n, m) {
        None
    } else {
        Some(m)
    }
}

// The neighbour that comes with the step at a place, behind which the next one stands.
fn linked(change: &Change, i: usize, next: usize, side: Side, n: NodeId) -> Option<NodeId>
    requires place { i < length change.now }
    requires next { next ≡ i + 1 }
    requires stays { is_dropped change.now n ≡ false }
    requires last { DropsLast change.now }
    ensures { new_at side (drop i change.now) n ≡ with_first result (new_at side (drop next change.now) n) }
{
    match linked_to(step_at(change, i), side, n) {
        Some(m) => unless_concerned(change, next, side, n, m),
        None => None,
    }
}

// The first of the neighbours that come with the steps from a place on, and the place of the next step behind its own that
// names the node.
fn first_added(change: &Change, side: Side, n: NodeId, from: usize) -> Option<(NodeId, usize)>
    requires left { AreLeft change.now n from }
    requires last { DropsLast change.now }
    ensures some { IfSome result (λ f. IsFirstAdded side change.now n f.0 from f.1) }
    ensures left { IfSome result (λ f. AreLeft change.now n f.1) }
    ensures none { IfNone result (new_at side (drop from change.now) n ≡ []) }
{
    let len = step_count(change);
    let mut i = from;
    while i < len {
        let next = change.next_naming(i + 1, n);
        if let Some(m) = linked(change, i, i + 1, side, n) {
            return Some((m, next));
        }
        i = next;
    }
    None
}

// Whether the graph has no edge that joins a node to its neighbour.
fn is_fresh(graph: &Graph, side: Side, n: NodeId, m: NodeId) -> bool
    ensures { result ≡ is_fresh side graph.now.graph n m }
{
    match side {
        Side::Parents => !edge_before(graph, m, n),
        Side::Children => !edge_before(graph, n, m),
    }
}

fn one_if(b: bool) -> usize
    ensures { result ≡ (if b then 1 else 0) }
{
    if b { 1 } else { 0 }
}

// 1 if there is a neighbour that the node hasn't yet, else 0.
fn count_fresh(graph: &Graph, side: Side, n: NodeId, m: Option<NodeId>) -> usize
    ensures { result ≡ tally (is_fresh side graph.now.graph n) (with_first m []) }
{
    match m {
        Some(m) => one_if(is_fresh(graph, side, n, m)),
        None => 0,
    }
}

/// How many of the neighbours that come with the steps a node hasn't yet. The steps that name the node are gone through,
/// and for each link at it those behind that name one of both ends, as `Neighbours` says; it takes O(min(c, p)) more for
/// each link, where its one end has c children and the other p parents.
pub(crate) fn fresh_count(graph: &Graph, change: &Change, side: Side, n: NodeId) -> usize
    requires stays { is_dropped change.now n ≡ false }
    requires last { DropsLast change.now }
    ensures { result ≡ tally (is_fresh side graph.now.graph n) (new_at side change.now n) }
{
    let len = step_count(change);
    let mut count = 0;
    let mut i = change.next_naming(0, n);
    while i < len {
        count += count_fresh(graph, side, n, linked(change, i, i + 1, side, n));
        i = change.next_naming(i + 1, n);
    }
    count
}

/// The neighbours of a node, each once, in no stated order; seen as the list of those that are left. They are read from
/// the graph's own lists, and then from the steps of the change. No memory. The next one is O(1) where the change neither
/// names the node nor drops another. Else each step that names the node is gone through once, to find the links, and for
/// each neighbour of the graph and each link it takes two look-ups, and goes through the steps that name the neighbour, or
/// those that name the node where these are fewer.
#[derive(Drop)]
pub struct Neighbours<'a> {
    // As they are.
    first: &'a [NodeId],
    // Those that no step concerns.
    second: &'a [NodeId],
    // Those that the steps add from a place on, that of the next step which names the node.
    from: usize,
    change: &'a Change,
    side: Side,
    node: NodeId,
}

impl<'a> Model for Neighbours<'a> {
    ghost use Rattle.std.specs.Prelude.{List, ℕ, ◌++◌, drop};
    ghost use Rattle.graph_steps.specs.NamedSteps.{DropsLast};
    ghost use Rattle.graph_update.specs.NamedSteps.{AreLeft};
    ghost use Rattle.graph_update.specs.ShownNeighbours.{kept_at, new_at, AreShown};

    ghost Value = { List ℕ };

    ghost view = { λ n. n.first.now ++ (kept_at n.side n.change.now n.node n.second.now ++ new_at n.side (drop n.from n.change.now) n.node) };

    ghost invariant = { λ n. AreShown n.change.now n.node n.second.now × AreLeft n.change.now n.node n.from × DropsLast n.change.now };
}

impl<'a> Neighbours<'a> {
    // The nodes of a list.
    pub(crate) fn of(nodes: &'a [NodeId], change: &'a Change) -> Neighbours<'a>
        requires { DropsLast change.now }
        ensures { result ≡ nodes.now }
    {
        Neighbours {
            first: nodes,
            second: &[],
            from: step_count(change),
            change,
            side: Side::Parents,
            node: 0,
        }
    }

    // The neighbours that a node will have, where it has these.
    pub(crate) fn shown(
        nodes: &'a [NodeId],
        change: &'a Change,
        side: Side,
        node: NodeId,
    ) -> Neighbours<'a>
        requires stays { is_dropped change.now node ≡ false }
        requires last { DropsLast change.now }
        ensures { result ≡ shown_at side change.now node nodes.now }
    {
        Neighbours {
            first: &[],
            second: nodes,
            from: change.next_naming(0, node),
            change,
            side,
            node,
        }
    }
}

impl<'a> Iterator for Neighbours<'a> {
    ghost use Rattle.std.specs.Iterator.{YieldsFirst, item_count};

    type Item = NodeId;

    ghost next_gives = { YieldsFirst (λ rest. rest) };

    ghost remaining = { item_count (λ rest. rest) };

    fn next(&mut self) -> Option<NodeId> {
        if let Some((node, rest)) = self.first.split_first() {
            self.first = rest;
            return Some(*node);
        }
        if let Some((node, rest)) = first_kept(self.second, self.change, self.side, self.node) {
            self.second = rest;
            return Some(node);
        }
        self.second = &[];
        if let Some((node, next)) = first_added(self.change, self.side, self.node, self.from) {
            self.from = next;
            return Some(node);
        }
        None
    }
}
