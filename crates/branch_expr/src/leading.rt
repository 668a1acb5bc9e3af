// Where a set of nodes leads along an axis.
ghost use Rattle.std.specs.Prelude.{◌≡◌, ℕ, IsTrue, IsSome, IfOk, OnOk};
ghost use Rattle.graph_spec.specs.Members.{has};
ghost use Rattle.path_automaton.specs.NewMarks.{Gains, Passes};
ghost use Rattle.branch_spec.specs.BranchAnswers.{Along, Reaches};
ghost use Rattle.branch_expr.specs.Axes.{axis_of};
ghost use Rattle.branch_expr.specs.EdgeAutomata.{descendant_states};
ghost use Rattle.branch_expr.specs.Images.{IsMember, HasJust, Loses, HasParent, Image};

use crate::axis::Axis;
use crate::mirror::Mirror;
use crate::runs::{RUN, end_of_run, note_passing};
use label_graph::Digraph;
use path_automaton::{Program, State, search};
use px_base::{Bits, Memory};
use std::alloc::Global;

/// The automaton that reads one or more labels from state 1 on.
fn descendant_program(alloc: Global) -> Result<Program, Memory>
    ensures { IfOk result (λ p. p ≡ descendant_states) }
{
    let mut program = Program::new(alloc)?;
    program.push(State::Any(0))?;
    program.push(State::Fork(0, 1))?;
    program.set(1, State::Any(2));
    Ok(program)
}

/// Puts the children of a node into a set.
fn insert_children<G: Digraph>(g: &G, n: u32, set: &mut Bits)
    requires node { IsSome (G.label_at g.now n) }
    requires size { set.old.size ≡ G.span g.now }
    ensures size { set.new.size ≡ set.old.size }
    ensures members { Gains set.old.members set.new.members (λ c. IsTrue (G.edge g.now n c)) }
{
    let children = g.children(n);
    for i in 0..children.len() {
        set.insert(children[i]);
    }
}

/// The children of the members. Each member's children are read once.
fn children_of_set<G: Digraph>(alloc: Global, g: &G, set: &Bits) -> Result<Bits, Memory>
    requires { (v : ℕ) → IsTrue (has set.now.members v) → IsSome (G.label_at g.now v) }
    ensures size { IfOk result (λ b. b.size ≡ G.span g.now) }
    ensures image { IfOk result (λ b. HasJust b.members (HasParent (G.edge g.now) (IsMember set.now.members))) }
{
    let mut image = Bits::new(alloc, g.size())?;
    // Called for its contract: the members are below the size.
    let _known = set.size();
    let mut from = 0;
    while let Some(n) = set.next_from(from) {
        insert_children(g, n, &mut image);
        from = n + 1;
    }
    Ok(image)
}

/// Puts the children of the listed nodes into a set.
fn insert_children_of<G: Digraph>(g: &G, nodes: &[u32], set: &mut Bits)
    requires nodes { (n : ℕ) → IsTrue (has nodes.now n) → IsSome (G.label_at g.now n) }
    requires size { set.old.size ≡ G.span g.now }
    ensures size { set.new.size ≡ set.old.size }
    ensures members { Gains set.old.members set.new.members (HasParent (G.edge g.now) (IsMember nodes.now)) }
{
    for i in 0..nodes.len() {
        insert_children(g, nodes[i], set);
    }
}

/// The children of the nodes whose label passes: any one, or the one with the number. They are a set of numbers below
/// the graph's size. `Memory` comes only where memory runs out. O(n + e) for n node numbers and the e edges that lead
/// from those nodes; each node is read once. It takes a byte for each number.
pub(crate) fn passing_children<G: Digraph>(
    alloc: Global,
    g: &G,
    test: Option<u32>,
) -> Result<Bits, Memory>
    ensures size { IfOk result (λ b. b.size ≡ G.span g.now) }
    ensures image { IfOk result (λ b. HasJust b.members (HasParent (G.edge g.now) (Passes (G.label_at g.now) test))) }
{
    let mut image = Bits::new(alloc, g.size())?;
    let mut noted = [0; RUN];
    let mut from = 0;
    while from < g.size() {
        let to = end_of_run(from, g.size());
        let count = note_passing(g, test, from, to, &mut noted);
        insert_children_of(g, &noted[..count], &mut image);
        from = to;
    }
    Ok(image)
}

/// Takes the children of a node out of a set.
fn remove_children<G: Digraph>(g: &G, n: u32, set: &mut Bits)
    requires node { IsSome (G.label_at g.now n) }
    requires size { set.old.size ≡ G.span g.now }
    ensures size { set.new.size ≡ set.old.size }
    ensures members { Loses set.old.members set.new.members (λ c. IsTrue (G.edge g.now n c)) }
{
    let children = g.children(n);
    for i in 0..children.len() {
        set.remove(children[i]);
    }
}

/// Takes the children of the listed nodes out of a set.
fn remove_children_of<G: Digraph>(g: &G, nodes: &[u32], set: &mut Bits)
    requires nodes { (n : ℕ) → IsTrue (has nodes.now n) → IsSome (G.label_at g.now n) }
    requires size { set.old.size ≡ G.span g.now }
    ensures size { set.new.size ≡ set.old.size }
    ensures members { Loses set.old.members set.new.members (HasParent (G.edge g.now) (IsMember nodes.now)) }
{
    for i in 0..nodes.len() {
        remove_children(g, nodes[i], set);
    }
}

/// Takes out of a set of numbers below the graph's size the children of the nodes whose label passes: any label, or the
/// one with the number. O(n + e) for n node numbers and the e edges that lead from those nodes; each node is read once.
pub(crate) fn remove_passing_children<G: Digraph>(g: &G, test: Option<u32>, set: &mut Bits)
    requires { set.old.size ≡ G.span g.now }
    ensures size { set.new.size ≡ set.old.size }
    ensures members { Loses set.old.members set.new.members (HasParent (G.edge g.now) (Passes (G.label_at g.now) test)) }
{
    let mut noted = [0; RUN];
    let mut from = 0;
    while from < g.size() {
        let to = end_of_run(from, g.size());
        let count = note_passing(g, test, from, to, &mut noted);
        remove_children_of(g, &noted[..count], set);
        from = to;
    }
}

/// What one or more edges lead to from a member.
fn descendants_of_set<G: Digraph>(alloc: Global, g: &G, set: &Bits) -> Result<Bits, Memory>
    requires { (v : ℕ) → IsTrue (has set.now.members v) → IsSome (G.label_at g.now v) }
    ensures size { IfOk result (λ b. b.size ≡ G.span g.now) }
    ensures image { IfOk result (λ b. HasJust b.members (Image (Reaches (G.edge g.now)) (IsMember set.now.members))) }
{
    let program = descendant_program(alloc)?;
    let places = set.list(alloc)?;
    search(alloc, g, &program, 1, &places)
}

/// The nodes to which the axis leads from a member of the set: a set of numbers below the graph's size. `Memory` comes
/// only where memory runs out. O(n + e) for n node numbers and the e edges that are followed, each of which is read
/// once at most; it takes a byte for each number, and a few more along `Below` and `Above`.
pub(crate) fn along<G: Digraph>(
    alloc: Global,
    g: &G,
    axis: Axis,
    set: &Bits,
) -> Result<Bits, Memory>
    requires { (v : ℕ) → IsTrue (has set.now.members v) → IsSome (G.label_at g.now v) }
    ensures size { IfOk result (λ b. b.size ≡ G.span g.now) }
    ensures image { IfOk result (λ b. HasJust b.members (Image (Along (G.edge g.now) (axis_of axis)) (IsMember set.now.members))) }
{
    match axis {
        Axis::Child => children_of_set(alloc, g, set),
        Axis::Below => descendants_of_set(alloc, g, set),
        Axis::Parent => children_of_set(alloc, &Mirror { graph: g }, set),
        Axis::Above => descendants_of_set(alloc, &Mirror { graph: g }, set),
    }
}
