// The search of the product of an automaton and a graph.
ghost use Rattle.std.specs.Prelude.{◌≡◌, ◌↔◌, ◌≤◌, ◌<◌, ◌+◌, ◌⊎◌, ℕ, Some, false, length, IsTrue, IfOk, IfSome, OnOk};
ghost use Rattle.std.specs.List.Sorted.{IsStrictlyIncreasing};
ghost use Rattle.graph_spec.specs.Members.{has};
ghost use Rattle.path_automaton.specs.Programs.{state_at, IsEnd};
ghost use Rattle.path_automaton.specs.MarkRows.{row, IsMarked, HasRows};
ghost use Rattle.path_automaton.specs.NewMarks.{Spreads, SpreadsAt, AreMarked, AddsOnly, Enters, EndsHere, IsNoFork, reading};
ghost use Rattle.path_automaton.specs.Digraphs.{ArePlaces, AreEndsFrom, NextOfWithin, ArePlacesWithin, SucceedsWithin, EntersWithin, IsEnteredWithin, MarksWithin, AreEndsWithin};

use crate::follow::{follow, follow_both};
use crate::frontier::Frontier;
use crate::program::Program;
use crate::scope::{Everywhere, Inside, Scope};
use crate::shared::shared_states;
use crate::state::State;
use label_graph::Digraph;
use px_base::{Bits, Memory};
use std::alloc::Global;

/// Marks the state at each node within that comes next to one of the places and whose label passes. The buffer holds
/// what was found.
fn advance<G: Digraph, S: Scope>(
    g: &G,
    scope: &S,
    frontier: &mut Frontier,
    found: &mut Vec<u32>,
    test: Option<u32>,
    state: u32,
    places: &[u32],
) -> Result<(), Memory>
    requires there { state < length frontier.old.rows.items }
    requires places { ArePlacesWithin G.Digraph g.now (S.keeps scope.now) places.now }
    requires wide { G.span g.now + 1 ≤ length (row frontier.old.rows.items state) }
    ensures spreads { OnOk result (SpreadsAt state (NextOfWithin G.Digraph g.now (S.keeps scope.now) test places.now) frontier.old frontier.new) }
    ensures marked { OnOk result ((c : ℕ) → NextOfWithin G.Digraph g.now (S.keeps scope.now) test places.now c
        → IsMarked frontier.new.rows.items state c) }
{
    found.clear();
    let alloc = frontier.alloc;
    follow(
        alloc,
        g,
        scope,
        test,
        &mut frontier.rows[state as usize],
        found,
        places,
    )?;
    frontier.worklist.push(state, found)?;
    Ok(())
}

/// Marks two states at each node within that comes next to one of the places and whose label passes, each by its own test.
/// What comes next to a place is read once.
fn advance_both<G: Digraph, S: Scope>(
    g: &G,
    scope: &S,
    frontier: &mut Frontier,
    found: &mut Vec<u32>,
    tests: (Option<u32>, Option<u32>),
    states: (u32, u32),
    places: &[u32],
) -> Result<(), Memory>
    requires first { states.0 < length frontier.old.rows.items }
    requires second { states.1 < length frontier.old.rows.items }
    requires places { ArePlacesWithin G.Digraph g.now (S.keeps scope.now) places.now }
    requires first_wide { G.span g.now + 1 ≤ length (row frontier.old.rows.items states.0) }
    requires second_wide { G.span g.now + 1 ≤ length (row frontier.old.rows.items states.1) }
    ensures spreads { OnOk result (Spreads (λ s c. ((s ≡ states.0) × NextOfWithin G.Digraph g.now (S.keeps scope.now) tests.0 places.now c)
        ⊎ ((s ≡ states.1) × NextOfWithin G.Digraph g.now (S.keeps scope.now) tests.1 places.now c)) frontier.old frontier.new) }
    ensures first { OnOk result ((c : ℕ) → NextOfWithin G.Digraph g.now (S.keeps scope.now) tests.0 places.now c
        → IsMarked frontier.new.rows.items states.0 c) }
    ensures second { OnOk result ((c : ℕ) → NextOfWithin G.Digraph g.now (S.keeps scope.now) tests.1 places.now c
        → IsMarked frontier.new.rows.items states.1 c) }
{
    found.clear();
    let alloc = frontier.alloc;
    let mut noted = Vec::new(alloc);
    follow_both(
        alloc,
        g,
        scope,
        tests,
        &mut frontier.rows[states.0 as usize],
        found,
        &mut noted,
        places,
    )?;
    frontier.worklist.push(states.0, found)?;
    frontier.mark_all(found, states.1, &noted)?;
    Ok(())
}

/// Marks what the state reads next to the places.
fn read<G: Digraph, S: Scope>(
    g: &G,
    scope: &S,
    program: &Program,
    frontier: &mut Frontier,
    found: &mut Vec<u32>,
    state: u32,
    places: &[u32],
) -> Result<(), Memory>
    requires state { state < length program.now }
    requires places { ArePlacesWithin G.Digraph g.now (S.keeps scope.now) places.now }
    requires wide { HasRows (length program.now) (G.span g.now + 1) frontier.old.rows.items }
    ensures spreads { OnOk result (Spreads (SucceedsWithin G.Digraph g.now (S.keeps scope.now) program.now state places.now) frontier.old frontier.new) }
    ensures marked { OnOk result (IsNoFork (state_at program.now state)
        → AreMarked (SucceedsWithin G.Digraph g.now (S.keeps scope.now) program.now state places.now) frontier.new) }
{
    match program.state(state) {
        State::End | State::Stuck | State::Fork(_, _) => Ok(()),
        State::Any(next) => advance(g, scope, frontier, found, None, next, places),
        State::Label(label, next) => advance(g, scope, frontier, found, Some(label), next, places),
    }
}

/// Whether a state is marked where a fork enters it: another fork, or a state that is shared.
fn is_listed(program: &Program, shared: &Bits, state: u32) -> bool
    requires { state < length program.now }
    ensures { result ≡ false → IsNoFork (state_at program.now state) }
{
    match program.state(state) {
        State::Fork(_, _) => true,
        State::End | State::Stuck | State::Any(_) | State::Label(_, _) => shared.contains(state),
    }
}

/// Enters the state from a fork. An end isn't marked: its places were noted when the fork was visited. Nor is a state
/// that only this fork leads to: it reads on at once, so its places aren't listed again.
fn enter<G: Digraph, S: Scope>(
    g: &G,
    scope: &S,
    program: &Program,
    frontier: &mut Frontier,
    found: &mut Vec<u32>,
    state: u32,
    places: &[u32],
) -> Result<(), Memory>
    requires state { state < length program.now }
    requires places { ArePlacesWithin G.Digraph g.now (S.keeps scope.now) places.now }
    requires wide { HasRows (length program.now) (G.span g.now + 1) frontier.old.rows.items }
    ensures spreads { OnOk result (Spreads (EntersWithin G.Digraph g.now (S.keeps scope.now) program.now state places.now) frontier.old frontier.new) }
    ensures entered { OnOk result (IsEnteredWithin G.Digraph g.now (S.keeps scope.now) program.now state places.now frontier.new.rows.items) }
{
    if is_end(program, state) {
        Ok(())
    } else if is_listed(program, &frontier.shared, state) {
        frontier.mark_all(found, state, places)
    } else {
        read(g, scope, program, frontier, found, state, places)
    }
}

/// The label that the state reads, or none where it reads any one, and the state that follows. A state that reads nothing has
/// neither, nor has one that is marked where a fork enters it.
fn read_from_fork(program: &Program, shared: &Bits, state: u32) -> Option<(Option<u32>, u32)>
    requires { state < length program.now }
    ensures reads { IfSome result (λ r. state_at program.now state ≡ Some (reading r.0 r.1)) }
    ensures below { IfSome result (λ r. r.1 < length program.now) }
{
    if shared.contains(state) {
        return None;
    }
    match program.state(state) {
        State::Any(next) => Some((None, next)),
        State::Label(label, next) => Some((Some(label), next)),
        State::End | State::Stuck | State::Fork(_, _) => None,
    }
}

/// Enters two states, one after the other.
fn enter_each<G: Digraph, S: Scope>(
    g: &G,
    scope: &S,
    program: &Program,
    frontier: &mut Frontier,
    found: &mut Vec<u32>,
    states: (u32, u32),
    places: &[u32],
) -> Result<(), Memory>
    requires first { states.0 < length program.now }
    requires second { states.1 < length program.now }
    requires places { ArePlacesWithin G.Digraph g.now (S.keeps scope.now) places.now }
    requires wide { HasRows (length program.now) (G.span g.now + 1) frontier.old.rows.items }
    ensures spreads { OnOk result (Spreads (λ s c. EntersWithin G.Digraph g.now (S.keeps scope.now) program.now states.0 places.now s c
        ⊎ EntersWithin G.Digraph g.now (S.keeps scope.now) program.now states.1 places.now s c) frontier.old frontier.new) }
    ensures first { OnOk result (IsEnteredWithin G.Digraph g.now (S.keeps scope.now) program.now states.0 places.now frontier.new.rows.items) }
    ensures second { OnOk result (IsEnteredWithin G.Digraph g.now (S.keeps scope.now) program.now states.1 places.now frontier.new.rows.items) }
{
    enter(g, scope, program, frontier, found, states.0, places)?;
    enter(g, scope, program, frontier, found, states.1, places)
}

/// Enters both states from a fork. Where both read on at once, what comes next to a place is read once.
fn fork<G: Digraph, S: Scope>(
    g: &G,
    scope: &S,
    program: &Program,
    frontier: &mut Frontier,
    found: &mut Vec<u32>,
    states: (u32, u32),
    places: &[u32],
) -> Result<(), Memory>
    requires first { states.0 < length program.now }
    requires second { states.1 < length program.now }
    requires places { ArePlacesWithin G.Digraph g.now (S.keeps scope.now) places.now }
    requires wide { HasRows (length program.now) (G.span g.now + 1) frontier.old.rows.items }
    ensures spreads { OnOk result (Spreads (λ s c. EntersWithin G.Digraph g.now (S.keeps scope.now) program.now states.0 places.now s c
        ⊎ EntersWithin G.Digraph g.now (S.keeps scope.now) program.now states.1 places.now s c) frontier.old frontier.new) }
    ensures first { OnOk result (IsEnteredWithin G.Digraph g.now (S.keeps scope.now) program.now states.0 places.now frontier.new.rows.items) }
    ensures second { OnOk result (IsEnteredWithin G.Digraph g.now (S.keeps scope.now) program.now states.1 places.now frontier.new.rows.items) }
{
    let first = read_from_fork(program, &frontier.shared, states.0);
    let second = read_from_fork(program, &frontier.shared, states.1);
    match (first, second) {
        (Some((test, next)), Some((other, last))) => advance_both(
            g,
            scope,
            frontier,
            found,
            (test, other),
            (next, last),
            places,
        ),
        _ => enter_each(g, scope, program, frontier, found, states, places),
    }
}

/// Marks what succeeds the state, or what succeeds a state that it enters.
fn visit<G: Digraph, S: Scope>(
    g: &G,
    scope: &S,
    program: &Program,
    frontier: &mut Frontier,
    found: &mut Vec<u32>,
    state: u32,
    places: &[u32],
) -> Result<(), Memory>
    requires state { state < length program.now }
    requires places { ArePlacesWithin G.Digraph g.now (S.keeps scope.now) places.now }
    requires wide { HasRows (length program.now) (G.span g.now + 1) frontier.old.rows.items }
    ensures spreads { OnOk result (Spreads (MarksWithin G.Digraph g.now (S.keeps scope.now) program.now state places.now) frontier.old frontier.new) }
    ensures marked { OnOk result (IsNoFork (state_at program.now state)
        → AreMarked (SucceedsWithin G.Digraph g.now (S.keeps scope.now) program.now state places.now) frontier.new) }
    ensures entered { OnOk result ((k : ℕ) → Enters (state_at program.now state) k
        → IsEnteredWithin G.Digraph g.now (S.keeps scope.now) program.now k places.now frontier.new.rows.items) }
{
    match program.state(state) {
        State::Fork(first, second) => fork(
            g,
            scope,
            program,
            frontier,
            found,
            (first, second),
            places,
        ),
        State::End | State::Stuck | State::Any(_) | State::Label(_, _) => {
            read(g, scope, program, frontier, found, state, places)
        }
    }
}

/// Whether a word ends in the state.
fn is_end(program: &Program, state: u32) -> bool
    requires { state < length program.now }
    ensures { IsTrue result ↔ IsEnd program.now state }
{
    matches!(program.state(state), State::End)
}

/// Whether a word ends in the state, or in one that is entered from it.
fn ends(program: &Program, state: u32) -> bool
    requires { state < length program.now }
    ensures { IsTrue result ↔ EndsHere (state_at program.now) state }
{
    match program.state(state) {
        State::End => true,
        State::Fork(first, second) => is_end(program, first) || is_end(program, second),
        State::Stuck | State::Any(_) | State::Label(_, _) => false,
    }
}

/// Adds to the answers each of the places that is below their size.
fn note_each(answers: &mut Bits, places: &[u32])
    requires rising { IsStrictlyIncreasing answers.old.members }
    ensures size { answers.new.size ≡ answers.old.size }
    ensures kept { (v : ℕ) → IsTrue (has answers.old.members v) → IsTrue (has answers.new.members v) }
    ensures noted { (v : ℕ) → IsTrue (has places.now v) → v < answers.old.size → IsTrue (has answers.new.members v) }
    ensures source { AddsOnly (λ v. (v < answers.old.size) × IsTrue (has places.now v)) answers.old answers.new }
    ensures rising { IsStrictlyIncreasing answers.new.members }
{
    for p in places {
        note(answers, *p);
    }
}

/// Adds the place to the answers, if it is below their size.
#[inline(always)]
fn note(answers: &mut Bits, place: u32)
    requires rising { IsStrictlyIncreasing answers.old.members }
    ensures size { answers.new.size ≡ answers.old.size }
    ensures kept { (v : ℕ) → IsTrue (has answers.old.members v) → IsTrue (has answers.new.members v) }
    ensures noted { place < answers.old.size → IsTrue (has answers.new.members place) }
    ensures source { AddsOnly (λ v. (v < answers.old.size) × (v ≡ place)) answers.old answers.new }
    ensures rising { IsStrictlyIncreasing answers.new.members }
{
    if place < answers.size() {
        answers.insert(place);
    }
}

/// Adds the nodes among the places to the answers where a word ends in the state, or in one that is entered from it.
fn note_ends(program: &Program, answers: &mut Bits, state: u32, places: &[u32])
    requires state { state < length program.now }
    requires rising { IsStrictlyIncreasing answers.old.members }
    ensures size { answers.new.size ≡ answers.old.size }
    ensures kept { (v : ℕ) → IsTrue (has answers.old.members v) → IsTrue (has answers.new.members v) }
    ensures noted { EndsHere (state_at program.now) state → (v : ℕ) → IsTrue (has places.now v)
        → v < answers.old.size → IsTrue (has answers.new.members v) }
    ensures source { AddsOnly (λ v. EndsHere (state_at program.now) state × (v < answers.old.size) × IsTrue (has places.now v)) answers.old answers.new }
    ensures rising { IsStrictlyIncreasing answers.new.members }
{
    if ends(program, state) {
        note_each(answers, places);
    }
}

/// The nodes within at which a word can end that is read from the state `start` on after one of the places, where each
/// node on the way is within.
fn search_in<G: Digraph, S: Scope>(
    alloc: Global,
    g: &G,
    scope: &S,
    program: &Program,
    start: u32,
    places: &[u32],
) -> Result<Bits, Memory>
    requires start { start < length program.now }
    requires places { ArePlacesWithin G.Digraph g.now (S.keeps scope.now) places.now }
    ensures size { IfOk result (λ b. b.size ≡ G.span g.now) }
    ensures ends { IfOk result (λ b. AreEndsWithin G.Digraph g.now (S.keeps scope.now) program.now start places.now b.members) }
{
    let size = g.size();
    let shared = shared_states(alloc, program)?;
    let mut frontier = Frontier::new(alloc, shared, program.count(), size as usize + 1)?;
    let mut answers = Bits::new(alloc, size)?;
    let mut found = Vec::new(alloc);
    let mut current = Vec::new(alloc);
    frontier.mark_all(&mut found, start, places)?;
    'runs: while let Some(state) = frontier.worklist.take(&mut current)? {
        note_ends(program, &mut answers, state, &current);
        visit(
            g,
            scope,
            program,
            &mut frontier,
            &mut found,
            state,
            &current,
        )?;
    }
    Ok(answers)
}

/// The nodes at which a word can end that is read from the state `start` on after one of the places, where the graph's
/// size is the place before all nodes: a set of numbers below that size. `Memory` comes only where memory runs out. O(m
/// (n + e)) for m states, n node numbers and e edges; it takes a bit for each state that is entered and each number, 4
/// bytes for each place at which a state is listed and 16 for each run of such places, a few bytes for each number, and
/// O(m) for the heads of rows.
pub fn search<G: Digraph>(
    alloc: Global,
    g: &G,
    program: &Program,
    start: u32,
    places: &[u32],
) -> Result<Bits, Memory>
    requires start { start < length program.now }
    requires places { ArePlaces G.Digraph g.now places.now }
    ensures size { IfOk result (λ b. b.size ≡ G.span g.now) }
    ensures ends { IfOk result (λ b. AreEndsFrom G.Digraph g.now program.now start places.now b.members) }
{
    search_in(alloc, g, &Everywhere, program, start, places)
}

/// The same where only members of the set are entered, as if the graph had no other nodes. O(m (n + e + s)) for m
/// states, n members, e edges from them, and the greater s of the graph's size and the set's. The set is passed over
/// once for each state that is entered before all nodes, and no other number is read. It takes memory as `search` does.
pub fn search_within<G: Digraph>(
    alloc: Global,
    g: &G,
    set: &Bits,
    program: &Program,
    start: u32,
    places: &[u32],
) -> Result<Bits, Memory>
    requires start { start < length program.now }
    requires places { ArePlacesWithin G.Digraph g.now (has set.now.members) places.now }
    ensures size { IfOk result (λ b. b.size ≡ G.span g.now) }
    ensures ends { IfOk result (λ b. AreEndsWithin G.Digraph g.now (has set.now.members) program.now start places.now b.members) }
{
    search_in(alloc, g, &Inside { set }, program, start, places)
}
