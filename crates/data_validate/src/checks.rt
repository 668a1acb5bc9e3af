// The answers among some candidates.
ghost use Rattle.std.specs.Prelude.{◌≡◌, ◌<◌, ◌&&◌, ◌||◌, ℕ, length, Some, IfOk, nat_eq};
ghost use Rattle.std.specs.List.Sorted.{IsStrictlyIncreasing};
ghost use Rattle.graph_spec.specs.Members.{has};
ghost use Rattle.graph_spec.specs.Shapes.{shape_of};
ghost use Rattle.path_automaton.specs.Digraphs.{shape_through};
ghost use Rattle.path_spec.specs.PathAnswers.{IsAnswer};
ghost use Rattle.path_spec.specs.Matches.{Word, Matches};
ghost use Rattle.branch_query.specs.Queries.{query_of, IsQueryAnswer};
ghost use Rattle.data_validate.specs.Checks.{AreAnswersAmong, AreAll, AreAllOf, AreAnswersIfCovered};
ghost use Rattle.data_validate.specs.Ancestors.{IsFew};

use crate::ancestors::ancestors;
use branch_query::Query;
use label_graph::{Digraph, Graph, Labels};
use path_query::{PathExpr, eval, eval_within};
use px_base::{Bits, Memory, Steps};
use std::alloc::Global;
use std::sync::ledger::Ledger;

/// Makes the number a member where it is to be one.
fn insert_if(set: &mut Bits, n: u32, wanted: bool)
    requires within { n < set.old.size }
    requires rising { IsStrictlyIncreasing set.old.members }
    ensures size { set.new.size ≡ set.old.size }
    ensures rising { IsStrictlyIncreasing set.new.members }
    ensures members { (m : ℕ) → has set.new.members m ≡ ((nat_eq m n && wanted) || has set.old.members m) }
{
    if wanted {
        set.insert(n);
    }
}

/// The members of both sets.
fn common(alloc: Global, set: &Bits, other: &Bits) -> Result<Bits, Memory>
    ensures size { IfOk result (λ both. both.size ≡ set.now.size) }
    ensures rising { IfOk result (λ both. IsStrictlyIncreasing both.members) }
    ensures members { IfOk result (λ both. (n : ℕ) → has both.members n ≡ (has set.now.members n && has other.now.members n)) }
{
    let mut both = Bits::new(alloc, set.size())?;
    let mut from = 0;
    while let Some(n) = set.next_from(from) {
        insert_if(&mut both, n, other.contains(n));
        from = n + 1;
    }
    Ok(both)
}

/// How many edges a walk has at most whose word matches, and none where there is no bound.
fn most_edges(expr: &PathExpr) -> Option<u32>
    ensures { (w : Word) (k : ℕ) → Matches expr.now w → k < length w → IsFew result k }
{
    match expr.longest() {
        Some(len) => Some(len.saturating_sub(1)),
        None => None,
    }
}

/// Answers of the path expression, with all those in the set among them. A walk that ends in the set lies in what leads
/// to the set. So where that is small, the expression is asked over it alone, and otherwise over the whole graph.
fn path_answers<G: Digraph>(
    alloc: Global,
    g: &G,
    labels: &Labels,
    expr: &PathExpr,
    set: &Bits,
) -> Result<Bits, Memory>
    requires labelled { (n l : ℕ) → G.label_at g.now n ≡ Some l → l < length labels.now.texts }
    ensures sound { IfOk result (λ b. AreAll (IsAnswer (shape_through G.Digraph labels.now g.now) expr.now) b.members) }
    ensures complete { IfOk result (λ b. AreAllOf (IsAnswer (shape_through G.Digraph labels.now g.now) expr.now) set.now.members b.members) }
{
    match ancestors(alloc, g, set, most_edges(expr))? {
        Some(near) => eval_within(alloc, g, labels, expr, &near),
        None => eval(alloc, g, labels, expr),
    }
}

/// Answers of the query, with all those in the set among them.
fn answers_for<G: Digraph>(
    alloc: Global,
    g: &G,
    labels: &Labels,
    q: &Query<'_>,
    set: &Bits,
) -> Result<Bits, Memory>
    requires labelled { (n l : ℕ) → G.label_at g.now n ≡ Some l → l < length labels.now.texts }
    ensures sound { IfOk result (λ b. AreAll (IsQueryAnswer (shape_through G.Digraph labels.now g.now) (query_of q.now)) b.members) }
    ensures complete { IfOk result (λ b. AreAllOf (IsQueryAnswer (shape_through G.Digraph labels.now g.now) (query_of q.now)) set.now.members b.members) }
{
    match *q {
        Query::Path(expr) => path_answers(alloc, g, labels, expr, set),
        Query::Branch(_) => q.answers(alloc, g, labels),
    }
}

/// The members of the set that answer the query in the graph: a set of numbers below the size of the one that is handed
/// in. It takes a view of the graph; of an empty set it asks nothing. `Memory` comes only where memory runs out. O(m (n
/// + e + s)) for a path expression with m tokens, where n nodes lead to members by no more edges than a matching walk
/// has, e edges are at these, and s is the greater of the graph's size and the set's: for each part of the expression
/// that may come first the marks of s numbers are passed over. Where these nodes are many, and for a branching query,
/// it takes the time of asking the graph, and O(s). Beside the memory of asking it takes two bytes for each number
/// below a size, and 8 for each of the n nodes.
pub fn check<L: Ledger>(
    alloc: Global,
    graph: &Graph,
    q: &Query<'_>,
    set: &Bits,
    steps: &mut Steps<L>,
) -> Result<Bits, Memory>
    ensures size { IfOk result (λ kept. kept.size ≡ set.now.size) }
    ensures answers { IfOk result (λ kept. AreAnswersAmong (shape_of graph.now.graph) (query_of q.now) set.now.members kept.members) }
    ensures all { IfOk result (λ kept. AreAnswersIfCovered (shape_of graph.now.graph) (query_of q.now) set.now.members kept.members) }
{
    if set.count() == 0 {
        return Bits::new(alloc, set.size());
    }
    let view = graph.view(steps);
    let answers = answers_for(alloc, &view, graph.labels(), q, set)?;
    common(alloc, set, &answers)
}
