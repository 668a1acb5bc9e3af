// The answers of a path expression over a graph.
ghost use Rattle.std.specs.Prelude.{◌≡◌, ◌<◌, ℕ, length, Some, IfOk};
ghost use Rattle.graph_spec.specs.Members.{has};
ghost use Rattle.path_automaton.specs.Digraphs.{shape_through};
ghost use Rattle.path_spec.specs.PathAnswers.{AreAnswers};
ghost use Rattle.path_spec.specs.PartialGraphs.{part_of};

use crate::tree::Expr;
use crate::trimming::compile_trimmed;
use label_graph::{Digraph, Labels};
use path_automaton::{Program, search, search_within};
use px_base::{Bits, Memory};
use std::alloc::Global;

/// The nodes in which a walk ends whose labels, in order, match the expression: a set of numbers below the graph's
/// size. `Memory` comes only where memory runs out. O(m (n + e)) for m tokens, n node numbers and e edges, and each
/// label is looked up at most once for each place where it stands, in expected O(1) for each of its bytes; it takes
/// memory as `path_automaton::search` does, and O(m) for the automaton.
pub fn eval<G: Digraph>(alloc: Global, g: &G, labels: &Labels, expr: &Expr) -> Result<Bits, Memory>
    requires labelled { (n l : ℕ) → G.label_at g.now n ≡ Some l → l < length labels.now.texts }
    ensures size { IfOk result (λ b. b.size ≡ G.span g.now) }
    ensures answers { IfOk result (λ b. AreAnswers (shape_through G.Digraph labels.now g.now) expr.now b.members) }
{
    // Called for its contract: the labels are distinct.
    let _known = labels.len();
    let mut program = Program::new(alloc)?;
    let start = compile_trimmed(labels, &mut program, expr, 0)?;
    let places = [g.size()];
    search(alloc, g, &program, start, &places)
}

/// The answers over the part of the graph that has only the members of a set and the edges between them: a set of
/// numbers below the graph's size. `Memory` comes only where memory runs out. O(m (n + e + s)) for m tokens, n members,
/// e edges from them, and the greater s of the graph's size and the set's, beside the look-ups of the labels; it takes
/// memory as `eval` does.
pub fn eval_within<G: Digraph>(
    alloc: Global,
    g: &G,
    labels: &Labels,
    expr: &Expr,
    set: &Bits,
) -> Result<Bits, Memory>
    requires labelled { (n l : ℕ) → G.label_at g.now n ≡ Some l → l < length labels.now.texts }
    ensures size { IfOk result (λ b. b.size ≡ G.span g.now) }
    ensures answers { IfOk result (λ b. AreAnswers (part_of (has set.now.members) (shape_through G.Digraph labels.now g.now)) expr.now b.members) }
{
    // Called for its contract: the labels are distinct.
    let _known = labels.len();
    let mut program = Program::new(alloc)?;
    let start = compile_trimmed(labels, &mut program, expr, 0)?;
    let places = [g.size()];
    search_within(alloc, g, set, &program, start, &places)
}
