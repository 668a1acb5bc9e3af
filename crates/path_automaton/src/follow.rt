// What comes next to places, marked in a row.
ghost use Rattle.std.specs.Prelude.{◌≡◌, ◌↔◌, ◌<◌, ◌≤◌, ◌+◌, ℕ, true, length, IsSome, IsTrue, OnOk};
ghost use Rattle.graph_spec.specs.Members.{has};
ghost use Rattle.path_automaton.specs.MarkRows.{IsSet};
ghost use Rattle.path_automaton.specs.NewMarks.{Gathers, Gains, Passes};
ghost use Rattle.path_automaton.specs.Digraphs.{PassesWithin, PassesAmong, NextWithin, NextOfWithin, IsPlaceWithin, ArePlacesWithin};

use crate::frontier::{mark, mark_if, push};
use crate::row::Row;
use crate::scope::Scope;
use label_graph::Digraph;
use px_base::{Memory, NodeId};
use std::alloc::Global;

/// Whether the node's label passes: any one, or the one with the number. O(1), no memory.
#[inline(always)]
pub fn has_label<G: Digraph>(g: &G, test: Option<u32>, n: NodeId) -> bool
    requires { IsSome (G.label_at g.now n) }
    ensures { IsTrue result ↔ Passes (G.label_at g.now) test n }
{
    match test {
        None => true,
        Some(label) => g.label(n) == label,
    }
}

/// Whether the node is within and its label passes.
#[inline(always)]
fn passes<G: Digraph, S: Scope>(g: &G, scope: &S, test: Option<u32>, n: NodeId) -> bool
    requires { IsSome (G.label_at g.now n) }
    ensures { IsTrue result ↔ PassesWithin G.Digraph g.now (S.keeps scope.now) test n }
{
    scope.contains(n) && has_label(g, test, n)
}

/// Whether the number is that of a node that is within and whose label passes.
#[inline(always)]
fn is_passing<G: Digraph, S: Scope>(g: &G, scope: &S, test: Option<u32>, n: NodeId) -> bool
    ensures { IsTrue result ↔ PassesWithin G.Digraph g.now (S.keeps scope.now) test n }
{
    g.is_node(n) && passes(g, scope, test, n)
}

/// The least node from this number on that is within and whose label passes, or a number that is at least the size. It
/// writes nothing, so that what it reads of the graph stays in registers.
#[inline(always)]
fn next_passing<G: Digraph, S: Scope>(
    g: &G,
    scope: &S,
    test: Option<u32>,
    from: u32,
    size: u32,
) -> u32
    requires { from ≤ size }
    ensures from { from ≤ result }
    ensures passes { result < size → PassesWithin G.Digraph g.now (S.keeps scope.now) test result }
    ensures passed { (k : ℕ) → from ≤ k → k < result → PassesWithin G.Digraph g.now (S.keeps scope.now) test k → ⊥ }
{
    let mut place = scope.first_from(from, size);
    'nodes: while place < size && !is_passing(g, scope, test, place) {
        place = scope.first_from(place + 1, size);
    }
    place
}

/// Marks each node that is within and whose label passes.
fn mark_nodes<G: Digraph, S: Scope>(
    alloc: Global,
    g: &G,
    scope: &S,
    test: Option<u32>,
    row: &mut Row,
    found: &mut Vec<u32>,
) -> Result<(), Memory>
    requires { G.span g.now + 1 ≤ length row.old }
    ensures gathers { OnOk result (Gathers (PassesWithin G.Digraph g.now (S.keeps scope.now) test) row.old row.new found.old.items found.new.items) }
    ensures marked { OnOk result ((c : ℕ) → PassesWithin G.Digraph g.now (S.keeps scope.now) test c → IsSet row.new c) }
{
    let size = g.size();
    let mut place = next_passing(g, scope, test, 0, size);
    'nodes: while place < size {
        mark(alloc, row, found, place)?;
        place = next_passing(g, scope, test, place + 1, size);
    }
    Ok(())
}

/// Marks each of the nodes that is within and whose label passes.
#[inline(always)]
fn mark_among<G: Digraph, S: Scope>(
    alloc: Global,
    g: &G,
    scope: &S,
    test: Option<u32>,
    row: &mut Row,
    found: &mut Vec<u32>,
    nodes: &[NodeId],
) -> Result<(), Memory>
    requires nodes { (c : ℕ) → has nodes.now c ≡ true → IsSome (G.label_at g.now c) }
    requires wide { G.span g.now + 1 ≤ length row.old }
    ensures gathers { OnOk result (Gathers (PassesAmong G.Digraph g.now (S.keeps scope.now) test nodes.now) row.old row.new found.old.items found.new.items) }
    ensures marked { OnOk result ((c : ℕ) → IsTrue (has nodes.now c) → PassesWithin G.Digraph g.now (S.keeps scope.now) test c → IsSet row.new c) }
{
    for node in nodes {
        let place = *node;
        mark_if(alloc, row, found, place, passes(g, scope, test, place))?;
    }
    Ok(())
}

/// Marks each node within that comes next to the place and whose label passes.
#[inline(always)]
fn mark_next<G: Digraph, S: Scope>(
    alloc: Global,
    g: &G,
    scope: &S,
    test: Option<u32>,
    row: &mut Row,
    found: &mut Vec<u32>,
    place: u32,
) -> Result<(), Memory>
    requires place { IsPlaceWithin G.Digraph g.now (S.keeps scope.now) place }
    requires wide { G.span g.now + 1 ≤ length row.old }
    ensures gathers { OnOk result (Gathers (NextWithin G.Digraph g.now (S.keeps scope.now) test place) row.old row.new found.old.items found.new.items) }
    ensures marked { OnOk result ((c : ℕ) → NextWithin G.Digraph g.now (S.keeps scope.now) test place c → IsSet row.new c) }
{
    if place == g.size() {
        mark_nodes(alloc, g, scope, test, row, found)
    } else {
        mark_among(alloc, g, scope, test, row, found, g.children(place))
    }
}

/// Marks each node within that comes next to one of the places and whose label passes.
pub(crate) fn follow<G: Digraph, S: Scope>(
    alloc: Global,
    g: &G,
    scope: &S,
    test: Option<u32>,
    row: &mut Row,
    found: &mut Vec<u32>,
    places: &[u32],
) -> Result<(), Memory>
    requires places { ArePlacesWithin G.Digraph g.now (S.keeps scope.now) places.now }
    requires wide { G.span g.now + 1 ≤ length row.old }
    ensures gathers { OnOk result (Gathers (NextOfWithin G.Digraph g.now (S.keeps scope.now) test places.now) row.old row.new found.old.items found.new.items) }
    ensures marked { OnOk result ((v c : ℕ) → IsTrue (has places.now v) → NextWithin G.Digraph g.now (S.keeps scope.now) test v c → IsSet row.new c) }
{
    for p in places {
        let place = *p;
        mark_next(alloc, g, scope, test, row, found, place)?;
    }
    Ok(())
}

/// Puts the place behind the others where the test holds.
#[inline(always)]
fn note_if(noted: &mut Vec<u32>, place: u32, holds: bool) -> Result<(), Memory>
    ensures { OnOk result (Gains noted.old.items noted.new.items (λ v. IsTrue holds × (v ≡ place))) }
{
    if holds { push(noted, place) } else { Ok(()) }
}

/// Notes each node that is within and whose label passes.
fn note_nodes<G: Digraph, S: Scope>(
    g: &G,
    scope: &S,
    test: Option<u32>,
    noted: &mut Vec<u32>,
) -> Result<(), Memory>
    ensures { OnOk result (Gains noted.old.items noted.new.items (PassesWithin G.Digraph g.now (S.keeps scope.now) test)) }
{
    let size = g.size();
    let mut place = next_passing(g, scope, test, 0, size);
    'nodes: while place < size {
        push(noted, place)?;
        place = next_passing(g, scope, test, place + 1, size);
    }
    Ok(())
}

/// Marks each of the nodes that is within and whose label passes, and notes each whose label passes another test.
#[inline(always)]
fn mark_and_note_among<G: Digraph, S: Scope>(
    alloc: Global,
    g: &G,
    scope: &S,
    tests: (Option<u32>, Option<u32>),
    row: &mut Row,
    found: &mut Vec<u32>,
    noted: &mut Vec<u32>,
    nodes: &[NodeId],
) -> Result<(), Memory>
    requires nodes { (c : ℕ) → has nodes.now c ≡ true → IsSome (G.label_at g.now c) }
    requires wide { G.span g.now + 1 ≤ length row.old }
    ensures gathers { OnOk result
        (Gathers (PassesAmong G.Digraph g.now (S.keeps scope.now) tests.0 nodes.now) row.old row.new found.old.items found.new.items) }
    ensures marked { OnOk result ((c : ℕ) → IsTrue (has nodes.now c) → PassesWithin G.Digraph g.now (S.keeps scope.now) tests.0 c → IsSet row.new c) }
    ensures noted { OnOk result (Gains noted.old.items noted.new.items (PassesAmong G.Digraph g.now (S.keeps scope.now) tests.1 nodes.now)) }
{
    for node in nodes {
        let place = *node;
        mark_if(alloc, row, found, place, passes(g, scope, tests.0, place))?;
        note_if(noted, place, passes(g, scope, tests.1, place))?;
    }
    Ok(())
}

/// Marks each node within that comes next to the place and whose label passes, and notes each whose label passes another
/// test.
#[inline(always)]
fn mark_and_note_next<G: Digraph, S: Scope>(
    alloc: Global,
    g: &G,
    scope: &S,
    tests: (Option<u32>, Option<u32>),
    row: &mut Row,
    found: &mut Vec<u32>,
    noted: &mut Vec<u32>,
    place: u32,
) -> Result<(), Memory>
    requires place { IsPlaceWithin G.Digraph g.now (S.keeps scope.now) place }
    requires wide { G.span g.now + 1 ≤ length row.old }
    ensures gathers { OnOk result (Gathers (NextWithin G.Digraph g.now (S.keeps scope.now) tests.0 place) row.old row.new found.old.items found.new.items) }
    ensures marked { OnOk result ((c : ℕ) → NextWithin G.Digraph g.now (S.keeps scope.now) tests.0 place c → IsSet row.new c) }
    ensures noted { OnOk result (Gains noted.old.items noted.new.items (NextWithin G.Digraph g.now (S.keeps scope.now) tests.1 place)) }
{
    if place == g.size() {
        mark_nodes(alloc, g, scope, tests.0, row, found)?;
        note_nodes(g, scope, tests.1, noted)
    } else {
        mark_and_note_among(alloc, g, scope, tests, row, found, noted, g.children(place))
    }
}

/// Marks each node within that comes next to one of the places and whose label passes, and notes each whose label passes
/// another test. What comes next to a place is read once.
pub(crate) fn follow_both<G: Digraph, S: Scope>(
    alloc: Global,
    g: &G,
    scope: &S,
    tests: (Option<u32>, Option<u32>),
    row: &mut Row,
    found: &mut Vec<u32>,
    noted: &mut Vec<u32>,
    places: &[u32],
) -> Result<(), Memory>
    requires places { ArePlacesWithin G.Digraph g.now (S.keeps scope.now) places.now }
    requires wide { G.span g.now + 1 ≤ length row.old }
    ensures gathers { OnOk result
        (Gathers (NextOfWithin G.Digraph g.now (S.keeps scope.now) tests.0 places.now) row.old row.new found.old.items found.new.items) }
    ensures marked { OnOk result ((v c : ℕ) → IsTrue (has places.now v) → NextWithin G.Digraph g.now (S.keeps scope.now) tests.0 v c
        → IsSet row.new c) }
    ensures noted { OnOk result (Gains noted.old.items noted.new.items (NextOfWithin G.Digraph g.now (S.keeps scope.now) tests.1 places.now)) }
{
    for p in places {
        let place = *p;
        mark_and_note_next(alloc, g, scope, tests, row, found, noted, place)?;
    }
    Ok(())
}
