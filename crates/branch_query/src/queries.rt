// Queries of every language.
ghost use Rattle.std.specs.Prelude.{◌≡◌, ◌<◌, ℕ, length, Some, IfOk};
ghost use Rattle.path_automaton.specs.Digraphs.{shape_through};
ghost use Rattle.branch_query.specs.Queries.{query_of, relaxed, AreQueryAnswers};

use branch_text::Branch;
use label_graph::{Digraph, Labels};
use path_query::{PathExpr, eval};
use px_base::{Bits, Memory};
use std::alloc::Global;

/// A query, by its language.
///
/// The answers of a path expression over a graph:
///
///     let query = Query::Path(&expr);
///     let nodes = query.answers(alloc, &graph.view(&mut steps), graph.labels())?;
#[derive(Clone, Copy)]
pub enum Query<'a> {
    /// The last nodes of the walks that the path expression matches.
    Path(&'a PathExpr),
    /// The last nodes of the lists of nodes that lead along the axes of the branching query, each node meeting its step.
    Branch(&'a Branch),
}

impl Query<'_> {
    /// The nodes of a graph that answer the query: a set of numbers below the graph's size. `Memory` comes only where memory
    /// runs out. O(m (n + e)) for m tokens, n node numbers and e edges, beside the look-ups of the labels; it takes O(m n)
    /// memory for a path expression, and O((d + 1) n) for a branching query where brackets nest d deep.
    pub fn answers<G: Digraph>(&self, alloc: Global, g: &G, labels: &Labels) -> Result<Bits, Memory>
        requires labelled { (n l : ℕ) → G.label_at g.now n ≡ Some l → l < length labels.now.texts }
        ensures size { IfOk result (λ b. b.size ≡ G.span g.now) }
        ensures answers { IfOk result (λ b. AreQueryAnswers (shape_through G.Digraph labels.now g.now) (query_of self.now) b.members) }
    {
        match *self {
            Query::Path(expr) => eval(alloc, g, labels, expr),
            Query::Branch(query) => branch_text::eval(alloc, g, labels, query),
        }
    }

    /// The nodes of a graph that answer the query's relaxed form, likewise. A path expression is its own relaxed form; that
    /// of a branching query is made first. O(m (n + e)), beside the look-ups of the labels; it takes the memory that
    /// `answers` takes for that form.
    pub fn relaxed_answers<G: Digraph>(
        &self,
        alloc: Global,
        g: &G,
        labels: &Labels,
    ) -> Result<Bits, Memory>
        requires labelled { (n l : ℕ) → G.label_at g.now n ≡ Some l → l < length labels.now.texts }
        ensures size { IfOk result (λ b. b.size ≡ G.span g.now) }
        ensures answers { IfOk result (λ b. AreQueryAnswers (shape_through G.Digraph labels.now g.now) (relaxed (query_of self.now)) b.members) }
    {
        match *self {
            Query::Path(_) => self.answers(alloc, g, labels),
            Query::Branch(query) => {
                let relaxed = query.relax(alloc)?;
                branch_text::eval(alloc, g, labels, &relaxed)
            }
        }
    }
}
