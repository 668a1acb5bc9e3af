// Whether a list of nodes shows why a node answers.
ghost use Rattle.std.specs.Prelude.{◌≡◌, ◌<◌, ◌↔◌, ℕ, Some, length, IsTrue, IsSome, IfOk};
ghost use Rattle.graph_spec.specs.Members.{has};
ghost use Rattle.graph_spec.specs.Shapes.{shape_of};
ghost use Rattle.path_automaton.specs.Digraphs.{shape_through};
ghost use Rattle.path_automaton.specs.NewMarks.{IsPlace};
ghost use Rattle.path_automaton.specs.Programs.{state_at};
ghost use Rattle.path_automaton.specs.ProductSteps.{leads};
ghost use Rattle.walk_spec.specs.LeastWalks.{Shows};
ghost use Rattle.walk_spec.specs.Ways.{WayThrough};
ghost use Rattle.state_sets.specs.StateSets.{AreClosed};

use label_graph::{Digraph, Graph, Labels};
use path_automaton::Program;
use path_query::{PathExpr, compile_expr};
use px_base::{Memory, NodeId, Steps};
use state_sets::{States, begin, has_end, read};
use std::alloc::Global;
use std::marker::Brand;
use std::sync::ledger::{Blank, Ledger};

/// Whether the number is listed.
fn lists(nodes: &[u32], n: u32) -> bool
    ensures { result ≡ has nodes.now n }
{
    nodes.contains(&n)
}

/// Whether an edge leads from the first node to the second: it stands in the lists of both, and the shorter is read.
fn is_edge<G: Digraph>(g: &G, from: u32, to: u32) -> bool
    requires from { IsSome (G.label_at g.now from) }
    requires to { IsSome (G.label_at g.now to) }
    ensures { result ≡ G.edge g.now from to }
{
    let children = g.children(from);
    let parents = g.parents(to);
    if children.len() <= parents.len() {
        lists(children, to)
    } else {
        lists(parents, from)
    }
}

/// Whether the number is that of a node which comes next to the place. A place is a node, or the graph's size, which
/// stands for the place before all nodes.
fn leads<G: Digraph>(g: &G, place: u32, node: u32) -> bool
    requires { IsPlace (G.span g.now) (G.label_at g.now) place }
    ensures leads { result ≡ leads (G.span g.now) (G.label_at g.now) (G.edge g.now) place node }
    ensures node { IsTrue result → IsSome (G.label_at g.now node) }
{
    if place == g.size() {
        g.is_node(node)
    } else {
        g.is_node(node) && is_edge(g, place, node)
    }
}

/// Whether the automaton reads the nodes from the start to the end of a word, and the last is the wanted one. `states`
/// are those in which it can be at first.
fn reads_to_end<G: Digraph>(
    g: &G,
    program: &Program,
    start: u32,
    v: NodeId,
    walk: &[NodeId],
    states: &mut States,
    next: &mut States,
) -> Result<bool, Memory>
    requires states { states.old.0 ≡ length program.now }
    requires next { next.old.0 ≡ length program.now }
    requires begun { AreClosed (state_at program.now) (λ s. s ≡ start) states.old.1 }
    ensures { IfOk result (λ b. IsTrue b ↔ WayThrough G.Digraph g.now program.now start v walk.now) }
{
    let mut place = g.size();
    'nodes: for i in 0..walk.len() {
        let node = walk[i];
        if !leads(g, place, node) {
            return Ok(false);
        }
        read(program, states.list(), g.label(node), next)?;
        std::mem::swap(states, next);
        place = node;
    }
    Ok(place == v && has_end(program, states.list()))
}

/// Whether the nodes are a walk that ends in `v` and whose word matches, over any graph.
fn holds_in<G: Digraph>(
    alloc: Global,
    g: &G,
    labels: &Labels,
    e: &PathExpr,
    v: NodeId,
    walk: &[NodeId],
) -> Result<bool, Memory>
    requires { (n l : ℕ) → G.label_at g.now n ≡ Some l → l < length labels.now.texts }
    ensures { IfOk result (λ b. IsTrue b ↔ Shows (shape_through G.Digraph labels.now g.now) e.now v walk.now) }
{
    if !g.is_node(v) {
        return Ok(false);
    }
    // Called for its contract: the labels are distinct.
    let _known = labels.len();
    let mut program = Program::new(alloc)?;
    let start = compile_expr(labels, &mut program, e.tree(), 0)?;
    let mut states = States::new(alloc, program.len())?;
    let mut next = States::new(alloc, program.len())?;
    begin(&program, &mut states, start)?;
    let right = reads_to_end(g, &program, start, v, walk, &mut states, &mut next)?;
    Ok(right)
}

fn counted_holds<L: Ledger>(
    alloc: Global,
    g: &Graph,
    e: &PathExpr,
    v: NodeId,
    walk: &[NodeId],
    blank: Blank,
) -> Result<bool, Memory>
    requires name { blank.name ≡ L.name }
    requires parts { blank.parts ≡ L.parts }
    requires some { 0 < blank.parts }
    ensures { IfOk result (λ b. IsTrue b ↔ Shows (shape_of g.now.graph) e.now v walk.now) }
{
    let mut steps = Steps::<L>::new(blank);
    let view = g.view(&mut steps);
    let right = holds_in(alloc, &view, g.labels(), e, v, walk)?;
    Ok(right)
}

/// Whether the numbers are the nodes of a walk that ends in `v` and whose word matches the expression. It reads them
/// once, in order, and searches nothing. Neither `v` nor they need be live; a walk of no node shows nothing. `Memory`
/// comes only where memory runs out. For m tokens it is O(m) for each node, and O(min(c, p)) for each edge from a node
/// with c children to one with p parents; it takes O(m) memory, however long the walk is.
///
///     let found = holds(alloc, &graph, &expr, 2, &[0, 1, 2])?;
pub fn holds(
    alloc: Global,
    g: &Graph,
    e: &PathExpr,
    v: NodeId,
    walk: &[NodeId],
) -> Result<bool, Memory>
    ensures { IfOk result (λ b. IsTrue b ↔ Shows (shape_of g.now.graph) e.now v walk.now) }
{
    let right = counted_holds::<Brand>(alloc, g, e, v, walk, Blank::new(1))?;
    Ok(right)
}
