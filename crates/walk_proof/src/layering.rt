// The pairs of a state and a place from which the end is reached, in layers by how many labels are read.
ghost use Rattle.std.specs.Prelude.{◌≡◌, ◌<◌, ◌+◌, ◌-◌, ◌^◌, ◌↔◌, ◌⊎◌, ℕ, List, [], ◌∷◌, ◌++◌, false, Some, length, slice_get, slice_index_or, IsTrue, IsSome, IfSome, IfOk, OnOk};
ghost use Rattle.graph_spec.specs.Members.{has};
ghost use Rattle.path_automaton.specs.Programs.{state_at};
ghost use Rattle.path_automaton.specs.declared.state.State.TheVariants.{End};
ghost use Rattle.path_automaton.specs.ProductSteps.{leads};
ghost use Rattle.path_automaton.specs.NewMarks.{Enters, IsPlace};
ghost use Rattle.walk_spec.specs.Ways.{Takes};
ghost use Rattle.walk_proof.specs.Marking.{row, IsMarked, Among, HasMarkRows, Notes};
ghost use Rattle.walk_proof.specs.Sources.{AreSources};
ghost use Rattle.walk_proof.specs.declared.marks.Pair.{Pair};
ghost use Rattle.walk_proof.specs.Layering.{ForkedInto, EntersOne, EntersFrom, AreInside, IsFirst, Into, IsLayered, ReadsOne, ReadsFrom, leads_through, LeadsAt, HasEmptyLast};

use crate::marks::{Layer, Pair, is_marked, note};
use crate::row::Row;
use crate::sources::Sources;
use label_graph::Digraph;
use path_automaton::{Program, State};
use px_base::Memory;
use std::alloc::Global;

/// The state that comes behind the label of the node, if the state reads it.
#[inline(always)]
pub(crate) fn behind<G: Digraph>(g: &G, program: &Program, state: u32, node: u32) -> Option<u32>
    requires state { state < length program.now }
    requires node { IsSome (G.label_at g.now node) }
    ensures inside { IfSome result (λ k. k < length program.now) }
    ensures yes { (k : ℕ) → result ≡ Some k → Takes (G.label_at g.now) (state_at program.now state) node k }
    ensures all { (k : ℕ) → Takes (G.label_at g.now) (state_at program.now state) node k → result ≡ Some k }
{
    match program.state(state) {
        State::Any(next) => Some(next),
        State::Label(label, next) => {
            if g.label(node) == label {
                Some(next)
            } else {
                None
            }
        }
        State::End | State::Stuck | State::Fork(_, _) => None,
    }
}

/// Whether the label of the node leads from one state to the other.
#[inline(always)]
pub(crate) fn takes<G: Digraph>(g: &G, program: &Program, state: u32, node: u32, next: u32) -> bool
    requires state { state < length program.now }
    requires node { IsSome (G.label_at g.now node) }
    ensures { IsTrue result ↔ Takes (G.label_at g.now) (state_at program.now state) node next }
{
    match program.state(state) {
        State::Any(k) => k == next,
        State::Label(label, k) => k == next && g.label(node) == label,
        State::End | State::Stuck | State::Fork(_, _) => false,
    }
}

/// Whether the state is entered from the other one with no label read.
fn enters(program: &Program, state: u32, next: u32) -> bool
    requires { state < length program.now }
    ensures { IsTrue result ↔ Enters (state_at program.now state) next }
{
    match program.state(state) {
        State::Fork(first, second) => first == next || second == next,
        State::End | State::Stuck | State::Any(_) | State::Label(_, _) => false,
    }
}

fn is_end(program: &Program, state: u32) -> bool
    requires { state < length program.now }
    ensures { IsTrue result ↔ (state_at program.now state ≡ Some End) }
{
    matches!(program.state(state), State::End)
}

/// Marks the state at each place that leads to the node.
fn note_led<G: Digraph>(
    alloc: Global,
    g: &G,
    rows: &mut Vec<Row>,
    layer: &mut Layer,
    state: u32,
    node: u32,
) -> Result<(), Memory>
    requires state { state < length rows.old.items }
    requires node { IsSome (G.label_at g.now node) }
    requires wide { (row rows.old.items state).size ≡ G.span g.now + 1 }
    ensures notes { OnOk result (Notes (LeadsAt G.Digraph g.now state node) rows.old.items rows.new.items layer.old layer.new) }
    ensures marked { OnOk result ((c : ℕ) → IsTrue (leads_through G.Digraph g.now c node) → IsMarked rows.new.items state c) }
{
    note(alloc, rows, layer, state, g.size())?;
    let parents = g.parents(node);
    for i in 0..parents.len() {
        note(alloc, rows, layer, state, parents[i])?;
    }
    Ok(())
}

/// Marks what leads to one pair by the label of its node, from one state.
fn spread_source<G: Digraph>(
    alloc: Global,
    g: &G,
    program: &Program,
    source: u32,
    rows: &mut Vec<Row>,
    layer: &mut Layer,
    state: u32,
    node: u32,
) -> Result<(), Memory>
    requires source { source < length program.now }
    requires node { IsSome (G.label_at g.now node) }
    requires wide { HasMarkRows (length program.now) (G.span g.now + 1) rows.old.items }
    ensures notes { OnOk result (Notes (ReadsOne G.Digraph g.now program.now source state node) rows.old.items rows.new.items layer.old layer.new) }
    ensures marked { OnOk result ((s c : ℕ) → ReadsOne G.Digraph g.now program.now source state node s c → IsMarked rows.new.items s c) }
{
    if takes(g, program, source, node, state) {
        note_led(alloc, g, rows, layer, source, node)
    } else {
        Ok(())
    }
}

/// The same from each of the states.
fn spread_one<G: Digraph>(
    alloc: Global,
    g: &G,
    program: &Program,
    sources: &[u32],
    rows: &mut Vec<Row>,
    layer: &mut Layer,
    state: u32,
    node: u32,
) -> Result<(), Memory>
    requires sources { (s : ℕ) → IsTrue (has sources.now s) → s < length program.now }
    requires node { IsSome (G.label_at g.now node) }
    requires wide { HasMarkRows (length program.now) (G.span g.now + 1) rows.old.items }
    ensures notes { OnOk result (Notes (ReadsFrom G.Digraph g.now program.now sources.now state node) rows.old.items rows.new.items layer.old layer.new) }
    ensures marked { OnOk result ((s c : ℕ) → ReadsFrom G.Digraph g.now program.now sources.now state node s c → IsMarked rows.new.items s c) }
{
    for i in 0..sources.len() {
        spread_source(alloc, g, program, sources[i], rows, layer, state, node)?;
    }
    Ok(())
}

/// The same where the place is a node.
fn spread_from<G: Digraph>(
    alloc: Global,
    g: &G,
    program: &Program,
    sources: &[u32],
    rows: &mut Vec<Row>,
    layer: &mut Layer,
    state: u32,
    place: u32,
) -> Result<(), Memory>
    requires sources { (s : ℕ) → IsTrue (has sources.now s) → s < length program.now }
    requires wide { HasMarkRows (length program.now) (G.span g.now + 1) rows.old.items }
    ensures notes { OnOk result (Notes (ReadsFrom G.Digraph g.now program.now sources.now state place) rows.old.items rows.new.items layer.old layer.new) }
    ensures marked { OnOk result ((s c : ℕ) → ReadsFrom G.Digraph g.now program.now sources.now state place s c → IsMarked rows.new.items s c) }
{
    if g.is_node(place) {
        spread_one(alloc, g, program, sources, rows, layer, state, place)
    } else {
        Ok(())
    }
}

/// Marks what leads to the pairs by a label.
fn spread<G: Digraph>(
    alloc: Global,
    g: &G,
    program: &Program,
    sources: &[Sources],
    rows: &mut Vec<Row>,
    last: &[Pair],
    layer: &mut Layer,
) -> Result<(), Memory>
    requires count { length sources.now ≡ length program.now }
    requires sources { AreSources (state_at program.now) sources.now }
    requires last { (s c : ℕ) → Among last.now s c → s < length program.now }
    requires wide { HasMarkRows (length program.now) (G.span g.now + 1) rows.old.items }
    ensures notes { OnOk result (Notes (Into G.Digraph g.now program.now last.now) rows.old.items rows.new.items layer.old layer.new) }
    ensures marked { OnOk result ((s c : ℕ) → Into G.Digraph g.now program.now last.now s c → IsMarked rows.new.items s c) }
{
    for i in 0..last.len() {
        let pair = last[i];
        spread_from(
            alloc,
            g,
            program,
            sources[pair.state as usize].states(),
            rows,
            layer,
            pair.state,
            pair.place,
        )?;
    }
    Ok(())
}

/// Marks one state at the place, where it enters the other one.
fn close_source(
    alloc: Global,
    program: &Program,
    source: u32,
    rows: &mut Vec<Row>,
    layer: &mut Layer,
    state: u32,
    place: u32,
) -> Result<(), Memory>
    requires source { source < length program.now }
    requires there { source < length rows.old.items }
    requires place { place < (row rows.old.items source).size }
    ensures notes { OnOk result (Notes (EntersOne (state_at program.now) source state place) rows.old.items rows.new.items layer.old layer.new) }
    ensures marked { OnOk result (Enters (state_at program.now source) state → IsMarked rows.new.items source place) }
{
    if enters(program, source, state) {
        note(alloc, rows, layer, source, place)
    } else {
        Ok(())
    }
}

/// Marks what leads to one pair by no label.
fn close_one(
    alloc: Global,
    program: &Program,
    sources: &[u32],
    rows: &mut Vec<Row>,
    width: u32,
    layer: &mut Layer,
    state: u32,
    place: u32,
) -> Result<(), Memory>
    requires sources { (s : ℕ) → IsTrue (has sources.now s) → s < length program.now }
    requires wide { HasMarkRows (length program.now) width rows.old.items }
    requires place { place < width }
    ensures notes { OnOk result (Notes (EntersFrom (state_at program.now) sources.now state place) rows.old.items rows.new.items layer.old layer.new) }
    ensures marked { OnOk result ((s : ℕ) → IsTrue (has sources.now s) → Enters (state_at program.now s) state → IsMarked rows.new.items s place) }
{
    for i in 0..sources.len() {
        close_source(alloc, program, sources[i], rows, layer, state, place)?;
    }
    Ok(())
}

/// Marks all that leads to pairs of the layer by no label.
fn close(
    alloc: Global,
    program: &Program,
    sources: &[Sources],
    rows: &mut Vec<Row>,
    width: u32,
    layer: &mut Layer,
) -> Result<(), Memory>
    requires count { length sources.now ≡ length program.now }
    requires sources { AreSources (state_at program.now) sources.now }
    requires wide { HasMarkRows (length program.now) width rows.old.items }
    requires layer { AreInside (length program.now) width layer.old }
    ensures notes { OnOk result (Notes (ForkedInto (state_at program.now) layer.old) rows.old.items rows.new.items layer.old layer.new) }
    ensures closed { OnOk result ((k s c : ℕ) → Among layer.new k c → Enters (state_at program.now s) k → IsMarked rows.new.items s c) }
{
    let mut i = 0;
    'pairs: while i < layer.pairs().len() {
        let pair = layer.pairs()[i];
        close_one(
            alloc,
            program,
            sources[pair.state as usize].states(),
            rows,
            width,
            layer,
            pair.state,
            pair.place,
        )?;
        i += 1;
    }
    Ok(())
}

/// Marks the state at the place, where it is an end.
fn note_end(
    alloc: Global,
    program: &Program,
    state: u32,
    rows: &mut Vec<Row>,
    layer: &mut Layer,
    place: u32,
) -> Result<(), Memory>
    requires state { state < length program.now }
    requires there { state < length rows.old.items }
    requires place { place < (row rows.old.items state).size }
    ensures notes { OnOk result (Notes (λ s c. (state_at program.now s ≡ Some End) × (c ≡ place)) rows.old.items rows.new.items layer.old layer.new) }
    ensures marked { OnOk result (state_at program.now state ≡ Some End → IsMarked rows.new.items state place) }
{
    if is_end(program, state) {
        note(alloc, rows, layer, state, place)
    } else {
        Ok(())
    }
}

/// Marks each end at the place.
fn note_ends(
    alloc: Global,
    program: &Program,
    rows: &mut Vec<Row>,
    width: u32,
    layer: &mut Layer,
    place: u32,
) -> Result<(), Memory>
    requires wide { HasMarkRows (length program.now) width rows.old.items }
    requires place { place < width }
    ensures notes { OnOk result (Notes (λ s c. (state_at program.now s ≡ Some End) × (c ≡ place)) rows.old.items rows.new.items layer.old layer.new) }
    ensures marked { OnOk result ((s : ℕ) → state_at program.now s ≡ Some End → IsMarked rows.new.items s place) }
{
    let Ok(count) = u32::try_from(program.len()) else {
        return Err(Memory);
    };
    for state in 0..count {
        note_end(alloc, program, state, rows, layer, place)?;
    }
    Ok(())
}

/// The first layer.
fn first_layer<G: Digraph>(
    alloc: Global,
    g: &G,
    program: &Program,
    sources: &[Sources],
    rows: &mut Vec<Row>,
    end: u32,
) -> Result<Vec<Layer>, Memory>
    requires small { G.span g.now < 2 ^ 32 - 1 }
    requires count { length sources.now ≡ length program.now }
    requires sources { AreSources (state_at program.now) sources.now }
    requires wide { HasMarkRows (length program.now) (G.span g.now + 1) rows.old.items }
    requires unmarked { (s c : ℕ) → IsMarked rows.old.items s c → ⊥ }
    requires end { IsSome (G.label_at g.now end) }
    ensures single { IfOk result (λ layers. length layers.items ≡ 1) }
    ensures wide { IfOk result (λ layers. HasMarkRows (length program.now) (G.span g.now + 1) rows.new.items) }
    ensures layered { IfOk result (λ layers. IsLayered G.Digraph g.now program.now end layers.items rows.new.items) }
{
    let mut layer = Layer::new(alloc);
    note_ends(alloc, program, rows, g.size() + 1, &mut layer, end)?;
    close(alloc, program, sources, rows, g.size() + 1, &mut layer)?;
    let layers = vec![in alloc; layer]?;
    Ok(layers)
}

/// One more layer.
fn next_layer<G: Digraph>(
    alloc: Global,
    g: &G,
    program: &Program,
    sources: &[Sources],
    rows: &mut Vec<Row>,
    layers: &mut Vec<Layer>,
    end: u32,
) -> Result<(), Memory>
    requires small { G.span g.now < 2 ^ 32 - 1 }
    requires count { length sources.now ≡ length program.now }
    requires sources { AreSources (state_at program.now) sources.now }
    requires wide { HasMarkRows (length program.now) (G.span g.now + 1) rows.old.items }
    requires layered { IsLayered G.Digraph g.now program.now end layers.old.items rows.old.items }
    ensures longer { OnOk result ((layer : List Pair) × (layers.new.items ≡ layers.old.items ++ layer ∷ [])) }
    ensures wide { OnOk result (HasMarkRows (length program.now) (G.span g.now + 1) rows.new.items) }
    ensures layered { OnOk result (IsLayered G.Digraph g.now program.now end layers.new.items rows.new.items) }
{
    let mut layer = Layer::new(alloc);
    let last = layers.len() - 1;
    spread(
        alloc,
        g,
        program,
        sources,
        rows,
        layers[last].pairs(),
        &mut layer,
    )?;
    close(alloc, program, sources, rows, g.size() + 1, &mut layer)?;
    layers.push(layer)?;
    Ok(())
}

/// Whether the last layer has pairs, and the first state isn't marked at the place before all nodes.
fn goes_on(layers: &[Layer], rows: &[Row], start: u32, size: u32) -> bool
    requires some { 0 < length layers.now }
    requires start { start < length rows.now }
    ensures on { IsTrue result → IsMarked rows.now start size → ⊥ }
    ensures end { (result ≡ false) → IsMarked rows.now start size ⊎ HasEmptyLast layers.now }
{
    if is_marked(rows, start, size) {
        return false;
    }
    !layers[layers.len() - 1].pairs().is_empty()
}

/// The layers up to the first one that has the first state at the place before all nodes, or an empty one where there
/// is none.
pub(crate) fn layers_to<G: Digraph>(
    alloc: Global,
    g: &G,
    program: &Program,
    sources: &[Sources],
    rows: &mut Vec<Row>,
    start: u32,
    end: u32,
) -> Result<Vec<Layer>, Memory>
    requires small { G.span g.now < 2 ^ 32 - 1 }
    requires count { length sources.now ≡ length program.now }
    requires sources { AreSources (state_at program.now) sources.now }
    requires wide { HasMarkRows (length program.now) (G.span g.now + 1) rows.old.items }
    requires unmarked { (s c : ℕ) → IsMarked rows.old.items s c → ⊥ }
    requires start { start < length program.now }
    requires end { IsSome (G.label_at g.now end) }
    ensures wide { IfOk result (λ layers. HasMarkRows (length program.now) (G.span g.now + 1) rows.new.items) }
    ensures layered { IfOk result (λ layers. IsLayered G.Digraph g.now program.now end layers.items rows.new.items) }
    ensures first { IfOk result (λ layers. IsFirst layers.items start (G.span g.now)) }
    ensures end { IfOk result (λ layers. IsMarked rows.new.items start (G.span g.now) ⊎ HasEmptyLast layers.items) }
{
    let mut layers = first_layer(alloc, g, program, sources, rows, end)?;
    'layers: while goes_on(&layers, rows, start, g.size()) {
        next_layer(alloc, g, program, sources, rows, &mut layers, end)?;
    }
    Ok(layers)
}
