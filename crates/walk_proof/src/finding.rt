// The least walk that ends in a node.
ghost use Rattle.std.specs.Prelude.{◌≡◌, ◌<◌, ◌+◌, ◌-◌, ◌^◌, ℕ, Some, length, IsSome, IsTrue, IfOk, MatchOption};
ghost use Rattle.graph_spec.specs.Graphs.{is_live};
ghost use Rattle.graph_spec.specs.Shapes.{shape_of};
ghost use Rattle.label_graph.specs.GraphViews.{live_count, edge_count};
ghost use Rattle.path_spec.specs.PathAnswers.{IsAnswer};
ghost use Rattle.path_automaton.specs.Programs.{state_at};
ghost use Rattle.path_automaton.specs.Digraphs.{shape_through};
ghost use Rattle.walk_spec.specs.LeastWalks.{IsLeast};
ghost use Rattle.walk_proof.specs.Marking.{IsMarked, HasMarkRows};
ghost use Rattle.walk_proof.specs.Sources.{AreSources};
ghost use Rattle.walk_proof.specs.Layering.{IsFound, IsFoundWay};

use crate::layering::layers_to;
use crate::marks::{is_marked, new_rows};
use crate::row::Row;
use crate::sources::{Sources, sources_of};
use crate::tracing::trace;
use crate::walk::Walk;
use label_graph::{Digraph, Graph, Labels};
use path_automaton::Program;
use path_query::{PathExpr, compile_expr};
use px_base::{Memory, NodeId, Steps};
use std::alloc::Global;
use std::sync::ledger::Ledger;

/// The least list of nodes that is read, with rows for marks.
fn search_with<G: Digraph>(
    alloc: Global,
    g: &G,
    program: &Program,
    sources: &[Sources],
    rows: &mut Vec<Row>,
    start: u32,
    end: u32,
) -> Result<Option<Walk>, Memory>
    requires small { G.span g.now < 2 ^ 32 - 1 }
    requires count { length sources.now ≡ length program.now }
    requires sources { AreSources (state_at program.now) sources.now }
    requires wide { HasMarkRows (length program.now) (G.span g.now + 1) rows.old.items }
    requires unmarked { (s c : ℕ) → IsMarked rows.old.items s c → ⊥ }
    requires start { start < length program.now }
    requires end { IsSome (G.label_at g.now end) }
    ensures { IfOk result (IsFoundWay G.Digraph g.now program.now start end) }
{
    let layers = layers_to(alloc, g, program, sources, rows, start, end)?;
    if !is_marked(rows, start, g.size()) {
        return Ok(None);
    }
    let nodes = trace(alloc, g, program, sources, rows, &layers, start, end)?;
    Ok(Some(Walk::from_vec(nodes)))
}

/// The least list of nodes that is read from the state on.
fn search<G: Digraph>(
    alloc: Global,
    g: &G,
    program: &Program,
    start: u32,
    end: u32,
) -> Result<Option<Walk>, Memory>
    requires start { start < length program.now }
    requires end { IsSome (G.label_at g.now end) }
    requires small { G.span g.now < 2 ^ 32 - 1 }
    ensures { IfOk result (IsFoundWay G.Digraph g.now program.now start end) }
{
    let sources = sources_of(alloc, program)?;
    let mut rows = new_rows(alloc, program.len(), g.size() + 1)?;
    let found = search_with(alloc, g, program, &sources, &mut rows, start, end)?;
    Ok(found)
}

/// The least walk that ends in the node and whose word matches, over any graph; None exactly where the node is no
/// answer. `Memory` comes only where memory runs out, or the graph has 2^32 - 1 numbers. Expected O(m (n + e)) for m tokens
/// and the n nodes and e edges from which the end is reached by as many labels as the walk has, or fewer, O(m c) for each
/// node of the walk, which has c children, and a look-up for each label of the expression. It takes up to some 100 bytes for
/// each pair of a state and a node that is reached, and some 250 for each state.
pub fn find_in<G: Digraph>(
    alloc: Global,
    g: &G,
    labels: &Labels,
    e: &PathExpr,
    v: NodeId,
) -> Result<Option<Walk>, Memory>
    requires labelled { (n l : ℕ) → G.label_at g.now n ≡ Some l → l < length labels.now.texts }
    requires node { IsSome (G.label_at g.now v) }
    ensures { IfOk result (IsFound (shape_through G.Digraph labels.now g.now) e.now v) }
{
    if g.size() == u32::MAX {
        return Err(Memory);
    }
    // Called for its contract: the labels are distinct.
    let _known = labels.len();
    let mut program = Program::new(alloc)?;
    let start = compile_expr(labels, &mut program, e.tree(), 0)?;
    let found = search(alloc, g, &program, start, v)?;
    Ok(found)
}

/// The least walk that ends in the node and whose word matches: the shortest, and of several of that length the one
/// with the least first node, then the least second one, and so on. It may have a node more than once. None comes
/// exactly where the node is no answer. `Memory` comes only where memory runs out. Time and memory are those of
/// `find_in`; it reads the whole graph once.
pub fn find<L: Ledger>(
    alloc: Global,
    g: &Graph,
    e: &PathExpr,
    v: NodeId,
    steps: &mut Steps<L>,
) -> Result<Option<Walk>, Memory>
    requires { IsTrue (is_live g.now.graph v) }
    ensures found { IfOk result (λ o. MatchOption o (IsAnswer (shape_of g.now.graph) e.now v → ⊥) (λ w. IsLeast (shape_of g.now.graph) e.now v w)) }
    ensures cost { steps.new ≡ steps.old + 1 + live_count g.now.graph + edge_count g.now.graph }
{
    let view = g.view(steps);
    let found = find_in(alloc, &view, g.labels(), e, v)?;
    Ok(found)
}
