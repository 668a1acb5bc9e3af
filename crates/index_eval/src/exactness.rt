// Which queries an index answers exactly.
ghost use Rattle.std.specs.Prelude.{◌↔◌, ◌+◌, IsTrue};
ghost use Rattle.branch_spec.specs.Depths.{depth, IsUpTo};
ghost use Rattle.branch_query.specs.Queries.{query_of};
ghost use Rattle.index_eval.specs.Exactness.{IsExact, HasLongestWithin};

use branch_query::Query;
use branch_text::Branch;
use index_api::Via;
use path_query::PathExpr;

/// Whether there is a longest matching word, of at most one label more than the level.
fn is_short(expr: &PathExpr, level: u32) -> bool
    ensures { IsTrue result ↔ HasLongestWithin expr.now (level + 1) }
{
    match expr.longest() {
        Some(len) => u64::from(len) <= u64::from(level) + 1,
        None => false,
    }
}

/// Whether the query has a depth, of at most the level.
fn is_shallow(query: &Branch, level: u32) -> bool
    ensures { IsTrue result ↔ IsUpTo (depth query.now) level }
{
    match query.depth() {
        Some(edges) => edges <= level,
        None => false,
    }
}

/// Whether the candidates of the query through the index are its answers, whatever the graph: a path expression through
/// the 1-index, any query through the forward and backward index, through the A(i)- and the B(i)-index a path expression
/// that has a longest matching word, of at most i + 1 labels, and through the B(i)-index a branching query that has a
/// depth, of at most i. False for the graph itself, which has no candidates. O(m) for a query with m tokens, no memory.
pub fn is_exact(via: Via, q: &Query<'_>) -> bool
    ensures { IsTrue result ↔ IsExact via (query_of q.now) }
{
    match via {
        Via::Data => false,
        Via::A(level) => match *q {
            Query::Path(expr) => is_short(expr, level),
            Query::Branch(_) => false,
        },
        Via::One => matches!(*q, Query::Path(_)),
        Via::Fb => true,
        Via::B(level) => match *q {
            Query::Path(expr) => is_short(expr, level),
            Query::Branch(query) => is_shallow(query, level),
        },
    }
}
