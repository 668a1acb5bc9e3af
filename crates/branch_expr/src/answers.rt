// The answers of a branching query over a graph.
ghost use Rattle.std.specs.Prelude.{◌≡◌, ◌<◌, ℕ, Some, length, IfOk};
ghost use Rattle.path_automaton.specs.Digraphs.{shape_through};
ghost use Rattle.branch_spec.specs.BranchAnswers.{AreBranchAnswers};

use crate::holding::step_set;
use crate::leading::along;
use crate::sets::intersect;
use crate::tree::BranchTree;
use label_graph::{Digraph, Labels};
use px_base::{Bits, Memory};
use std::alloc::Global;

/// The last nodes of the lists of nodes that lead along the axes, each node meeting its step: a set of numbers below
/// the graph's size. `Memory` comes only where memory runs out. O(m (n + e)) for m tokens, n node numbers and e edges,
/// beside the look-ups of the labels; it takes O((d + 1) n) memory where brackets nest d deep: a byte for each number
/// in each set that is held, and what the searches along `//` and `\\` take.
pub fn eval<G: Digraph>(
    alloc: Global,
    g: &G,
    labels: &Labels,
    query: &BranchTree,
) -> Result<Bits, Memory>
    requires labelled { (n l : ℕ) → G.label_at g.now n ≡ Some l → l < length labels.now.texts }
    ensures size { IfOk result (λ b. b.size ≡ G.span g.now) }
    ensures answers { IfOk result (λ b. AreBranchAnswers (shape_through G.Digraph labels.now g.now) query.now b.members) }
{
    let mut set = step_set(alloc, g, labels, &query.first)?;
    for j in 0..query.rest.len() {
        let hop = &query.rest[j];
        let reached = along(alloc, g, hop.axis, &set)?;
        set = step_set(alloc, g, labels, &hop.step)?;
        intersect(&mut set, &reached);
    }
    // Called for its contract: the members rise.
    let _known = set.size();
    Ok(set)
}
