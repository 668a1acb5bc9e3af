// The least walk along layers.
ghost use Rattle.std.specs.Prelude.{◌≡◌, ◌<◌, ◌≤◌, ◌+◌, ◌⊎◌, ◌↔◌, ℕ, [], Some, length, slice_get, IsTrue, IsSome, IfSome, IfOk, OnOk};
ghost use Rattle.graph_spec.specs.Members.{has};
ghost use Rattle.path_automaton.specs.Programs.{state_at};
ghost use Rattle.path_automaton.specs.NewMarks.{IsPlace};
ghost use Rattle.walk_spec.specs.Ways.{Takes};
ghost use Rattle.state_sets.specs.StateSets.{AreClosed, Behind};
ghost use Rattle.walk_proof.specs.Marking.{row, IsMarked, Among, HasMarkRows};
ghost use Rattle.walk_proof.specs.Sources.{AreSources};
ghost use Rattle.walk_proof.specs.Layering.{layer_at, IsPassing, IsLeastOf, IsLayered, IsLeastWay, IsCandidate, BehindIn, IsSource, IsFirstNode, IsLeastNext, HaveSameNext};

use crate::layering::{behind, takes};
use crate::marks::{Layer, Pair, clear, is_marked};
use crate::row::Row;
use crate::sources::Sources;
use label_graph::Digraph;
use path_automaton::Program;
use px_base::{Bits, Memory};
use state_sets::{States, begin, read};
use std::alloc::Global;

/// Whether the state leads by the label of the node to a state that is marked there.
#[inline(always)]
fn leads_on<G: Digraph>(g: &G, program: &Program, rows: &[Row], state: u32, node: u32) -> bool
    requires state { state < length program.now }
    requires node { IsSome (G.label_at g.now node) }
    requires rows { length rows.now ≡ length program.now }
    ensures yes { IsTrue result → (k : ℕ) × Takes (G.label_at g.now) (state_at program.now state) node k × IsMarked rows.now k node }
    ensures all { (k : ℕ) → Takes (G.label_at g.now) (state_at program.now state) node k → IsMarked rows.now k node → IsTrue result }
{
    match behind(g, program, state, node) {
        None => false,
        Some(next) => is_marked(rows, next, node),
    }
}

/// Whether one of the states does.
fn is_passing<G: Digraph>(g: &G, program: &Program, rows: &[Row], states: &[u32], node: u32) -> bool
    requires states { (s : ℕ) → IsTrue (has states.now s) → s < length program.now }
    requires node { IsSome (G.label_at g.now node) }
    requires rows { length rows.now ≡ length program.now }
    ensures yes { IsTrue result → IsPassing (state_at program.now) (G.label_at g.now) (IsMarked rows.now) states.now node }
    ensures all { IsPassing (state_at program.now) (G.label_at g.now) (IsMarked rows.now) states.now node → IsTrue result }
{
    for i in 0..states.len() {
        if leads_on(g, program, rows, states[i], node) {
            return true;
        }
    }
    false
}

/// The lesser of both, where there are two.
fn lesser(best: Option<u32>, n: u32) -> u32
    ensures bound { result ≤ n }
    ensures best { IfSome best (λ m. result ≤ m) }
    ensures one { (result ≡ n) ⊎ (best ≡ Some result) }
{
    match best {
        None => n,
        Some(m) => m.min(n),
    }
}

/// The least of the nodes that passes.
fn least_among<G: Digraph>(
    g: &G,
    program: &Program,
    rows: &[Row],
    states: &[u32],
    nodes: &[u32],
) -> Option<u32>
    requires states { (s : ℕ) → IsTrue (has states.now s) → s < length program.now }
    requires nodes { (c : ℕ) → IsTrue (has nodes.now c) → IsSome (G.label_at g.now c) }
    requires rows { length rows.now ≡ length program.now }
    ensures { IsLeastOf (λ c. IsTrue (has nodes.now c) × IsPassing (state_at program.now) (G.label_at g.now) (IsMarked rows.now) states.now c) result }
{
    let mut best = None;
    for i in 0..nodes.len() {
        if is_passing(g, program, rows, states, nodes[i]) {
            best = Some(lesser(best, nodes[i]));
        }
    }
    best
}

/// Whether the state is in the set and the label of the node leads from it to the other one.
fn takes_in<G: Digraph>(
    g: &G,
    program: &Program,
    states: &Bits,
    source: u32,
    node: u32,
    next: u32,
) -> bool
    requires source { source < length program.now }
    requires node { IsSome (G.label_at g.now node) }
    ensures { IsTrue result ↔ (IsTrue (has states.now.members source) × Takes (G.label_at g.now) (state_at program.now source) node next) }
{
    states.contains(source) && takes(g, program, source, node, next)
}

/// Whether one of the listed states is.
fn takes_one<G: Digraph>(
    g: &G,
    program: &Program,
    sources: &[u32],
    states: &Bits,
    node: u32,
    next: u32,
) -> bool
    requires sources { (s : ℕ) → IsTrue (has sources.now s) → s < length program.now }
    requires node { IsSome (G.label_at g.now node) }
    ensures yes { IsTrue result → BehindIn G.Digraph g.now program.now states.now.members node next }
    ensures all { (s : ℕ) → IsTrue (has sources.now s) → IsSource G.Digraph g.now program.now states.now.members node next s → IsTrue result }
{
    for i in 0..sources.len() {
        if takes_in(g, program, states, sources[i], node, next) {
            return true;
        }
    }
    false
}

/// Whether the place of the pair is a node, and one of the states leads by its label to the pair's state.
fn is_first<G: Digraph>(
    g: &G,
    program: &Program,
    sources: &[Sources],
    states: &Bits,
    pair: Pair,
) -> bool
    requires count { length sources.now ≡ length program.now }
    requires sources { AreSources (state_at program.now) sources.now }
    requires pair { pair.state < length program.now }
    ensures yes { IsTrue result → IsSome (G.label_at g.now pair.place) × BehindIn G.Digraph g.now program.now states.now.members pair.place pair.state }
    ensures all { IsSome (G.label_at g.now pair.place) → BehindIn G.Digraph g.now program.now states.now.members pair.place pair.state → IsTrue result }
{
    g.is_node(pair.place)
        && takes_one(
            g,
            program,
            sources[pair.state as usize].states(),
            states,
            pair.place,
            pair.state,
        )
}

/// The least node to whose pair in the layer one of the states leads.
fn least_first<G: Digraph>(
    g: &G,
    program: &Program,
    sources: &[Sources],
    layer: &[Pair],
    states: &Bits,
) -> Option<u32>
    requires count { length sources.now ≡ length program.now }
    requires sources { AreSources (state_at program.now) sources.now }
    requires layer { (s c : ℕ) → Among layer.now s c → s < length program.now }
    ensures { IsLeastOf (IsFirstNode G.Digraph g.now program.now (Among layer.now) states.now.members) result }
{
    let mut best = None;
    for i in 0..layer.len() {
        if is_first(g, program, sources, states, layer[i]) {
            best = Some(lesser(best, layer[i].place));
        }
    }
    best
}

/// The set of the listed states.
fn set_of(alloc: Global, count: u32, states: &[u32]) -> Result<Bits, Memory>
    requires { (s : ℕ) → IsTrue (has states.now s) → s < count }
    ensures { IfOk result (λ b. (s : ℕ) → has b.members s ≡ has states.now s) }
{
    let mut set = Bits::new(alloc, count)?;
    for i in 0..states.len() {
        set.insert(states[i]);
    }
    Ok(set)
}

/// The least first node.
fn first_node<G: Digraph>(
    alloc: Global,
    g: &G,
    program: &Program,
    sources: &[Sources],
    layer: &[Pair],
    states: &[u32],
) -> Result<Option<u32>, Memory>
    requires count { length sources.now ≡ length program.now }
    requires sources { AreSources (state_at program.now) sources.now }
    requires layer { (s c : ℕ) → Among layer.now s c → s < length program.now }
    requires states { (s : ℕ) → IsTrue (has states.now s) → s < length program.now }
    ensures { IfOk result (IsLeastOf (IsFirstNode G.Digraph g.now program.now (Among layer.now) states.now)) }
{
    let Ok(count) = u32::try_from(program.len()) else {
        return Err(Memory);
    };
    let set = set_of(alloc, count, states)?;
    Ok(least_first(g, program, sources, layer, &set))
}

/// The least node that comes next to the place, and to whose pair in the layer one of the states leads. The marked
/// pairs are those of the layer, as far as one of the states leads to them.
fn least_next<G: Digraph>(
    alloc: Global,
    g: &G,
    program: &Program,
    sources: &[Sources],
    rows: &[Row],
    layer: &[Pair],
    states: &[u32],
    place: u32,
) -> Result<Option<u32>, Memory>
    requires count { length sources.now ≡ length program.now }
    requires sources { AreSources (state_at program.now) sources.now }
    requires layer { (s c : ℕ) → Among layer.now s c → s < length program.now }
    requires states { (s : ℕ) → IsTrue (has states.now s) → s < length program.now }
    requires place { IsPlace (G.span g.now) (G.label_at g.now) place }
    requires rows { length rows.now ≡ length program.now }
    ensures first { IfOk result (λ o. place ≡ G.span g.now → IsLeastNext G.Digraph g.now program.now (Among layer.now) states.now place o) }
    ensures next { IfOk result (λ o. (place ≡ G.span g.now → ⊥) → IsLeastNext G.Digraph g.now program.now (IsMarked rows.now) states.now place o) }
{
    if place == g.size() {
        first_node(alloc, g, program, sources, layer, states)
    } else {
        Ok(least_among(g, program, rows, states, g.children(place)))
    }
}

/// The same where there is one.
fn next_node<G: Digraph>(
    alloc: Global,
    g: &G,
    program: &Program,
    sources: &[Sources],
    rows: &[Row],
    layer: &[Pair],
    states: &[u32],
    place: u32,
) -> Result<u32, Memory>
    requires count { length sources.now ≡ length program.now }
    requires sources { AreSources (state_at program.now) sources.now }
    requires layer { (s c : ℕ) → Among layer.now s c → s < length program.now }
    requires states { (s : ℕ) → IsTrue (has states.now s) → s < length program.now }
    requires place { IsPlace (G.span g.now) (G.label_at g.now) place }
    requires rows { length rows.now ≡ length program.now }
    requires some { (c : ℕ) × IsCandidate G.Digraph g.now program.now (Among layer.now) states.now place c }
    requires marked { HaveSameNext G.Digraph g.now program.now (Among layer.now) (IsMarked rows.now) states.now place }
    ensures candidate { IfOk result (IsCandidate G.Digraph g.now program.now (Among layer.now) states.now place) }
    ensures least { IfOk result (λ n. (c : ℕ) → IsCandidate G.Digraph g.now program.now (Among layer.now) states.now place c → n ≤ c) }
    ensures node { IfOk result (λ n. IsSome (G.label_at g.now n)) }
{
    let found = least_next(alloc, g, program, sources, rows, layer, states, place)?;
    match found {
        Some(node) => Ok(node),
        None => unreachable!(),
    }
}

/// Of the listed states those that are marked at the place.
fn keep_marked(
    rows: &[Row],
    listed: &[u32],
    place: u32,
    states: &mut Vec<u32>,
) -> Result<(), Memory>
    requires { (s : ℕ) → IsTrue (has listed.now s) → s < length rows.now }
    ensures { OnOk result ((s : ℕ) → IsTrue (has states.new.items s) ↔ (IsTrue (has listed.now s) × IsMarked rows.now s place)) }
{
    states.clear();
    for i in 0..listed.len() {
        if is_marked(rows, listed[i], place) {
            states.push(listed[i])?;
        }
    }
    Ok(())
}

/// Traces the walk from the place before all nodes on.
fn trace_on<G: Digraph>(
    alloc: Global,
    g: &G,
    program: &Program,
    sources: &[Sources],
    rows: &mut Vec<Row>,
    layers: &[Layer],
    start: u32,
    end: u32,
    behind: &mut States,
    states: &mut Vec<u32>,
    walk: &mut Vec<u32>,
) -> Result<(), Memory>
    requires count { length sources.now ≡ length program.now }
    requires sources { AreSources (state_at program.now) sources.now }
    requires wide { HasMarkRows (length program.now) (G.span g.now + 1) rows.old.items }
    requires layered { IsLayered G.Digraph g.now program.now end layers.now rows.old.items }
    requires first { (d : ℕ) → d + 1 ≡ length layers.now → Among (layer_at layers.now d) start (G.span g.now) }
    requires behind { behind.old.0 ≡ length program.now }
    requires begun { AreClosed (state_at program.now) (λ s. s ≡ start) behind.old.1 }
    requires empty { walk.old.items ≡ [] }
    ensures { OnOk result (IsLeastWay G.Digraph g.now program.now start end walk.new.items) }
{
    let mut place = g.size();
    let mut left = layers.len() - 1;
    keep_marked(rows, behind.list(), place, states)?;
    'nodes: while left > 0 {
        clear(rows, layers[left].pairs());
        left -= 1;
        let node = next_node(
            alloc,
            g,
            program,
            sources,
            rows,
            layers[left].pairs(),
            states,
            place,
        )?;
        walk.push(node)?;
        read(program, states, g.label(node), behind)?;
        keep_marked(rows, behind.list(), node, states)?;
        place = node;
    }
    Ok(())
}

/// The nodes of the least walk.
pub(crate) fn trace<G: Digraph>(
    alloc: Global,
    g: &G,
    program: &Program,
    sources: &[Sources],
    rows: &mut Vec<Row>,
    layers: &[Layer],
    start: u32,
    end: u32,
) -> Result<Vec<u32>, Memory>
    requires count { length sources.now ≡ length program.now }
    requires sources { AreSources (state_at program.now) sources.now }
    requires wide { HasMarkRows (length program.now) (G.span g.now + 1) rows.old.items }
    requires layered { IsLayered G.Digraph g.now program.now end layers.now rows.old.items }
    requires first { (d : ℕ) → d + 1 ≡ length layers.now → Among (layer_at layers.now d) start (G.span g.now) }
    requires start { start < length program.now }
    ensures { IfOk result (λ w. IsLeastWay G.Digraph g.now program.now start end w.items) }
{
    let mut walk = Vec::new(alloc);
    let mut states = Vec::new(alloc);
    let mut behind = States::new(alloc, program.len())?;
    begin(program, &mut behind, start)?;
    trace_on(
        alloc,
        g,
        program,
        sources,
        rows,
        layers,
        start,
        end,
        &mut behind,
        &mut states,
        &mut walk,
    )?;
    Ok(walk)
}
