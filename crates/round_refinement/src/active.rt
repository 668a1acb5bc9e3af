// Full bisimilarity by parents and children, by rounds over the active nodes.
ghost use Rattle.std.specs.Prelude.{◌≡◌, ◌&&◌, ◌||◌, ℕ, List, Option, IfOk, OnOk, length};
ghost use Rattle.std.specs.List.Sorted.{IsStrictlyIncreasing};
ghost use Rattle.graph_spec.specs.Members.{at, has};
ghost use Rattle.graph_spec.specs.Shapes.{Shape, IsShape};
ghost use Rattle.bisim_spec.specs.Bisimilarity.{FB};
ghost use Rattle.round_refinement.specs.NumberedShapes.{digraph_shape};
ghost use Rattle.round_refinement.specs.Active.{
  IsClosed,
  IsCoarse,
  IsNextWay,
  IsOnTheWay,
  AreAllNodes,
  AreLevels,
  AreGrouped,
  AreAround,
  is_shared,
  is_beside,
};
ghost use Rattle.round_refinement.specs.Changes.{AreBlocksOf};
ghost use Rattle.round_refinement.specs.Listing.{IsListed};
ghost use Rattle.round_refinement.specs.Watches.{IsWatched};

use crate::changes::{Keys, blocks_of, group};
use crate::keys::block_of;
use crate::levels::first_levels;
use crate::listing::{list_all, list_moved, with_rest};
use crate::moves::{Parts, catch_up, moved_nodes, rename};
use crate::part_sizes::{Sizes, is_shared, name_groups};
use hash_index::HashIndex;
use key_table::sort_dedup;
use label_graph::Digraph;
use px_base::Memory;
use std::alloc::Global;

// How many levels are made of all nodes at first, at most, and then the one above them. In most graphs few nodes part later, so that the lists
// of blocks stay short.
const FIRST: u32 = 3;

// What is known beside a partition: the sizes of its blocks, lists of their nodes, and what keys are found by.
#[derive(Drop)]
struct Books {
    sizes: Sizes,
    lists: HashIndex<u32>,
    keys: Keys,
}

// Puts those of the nodes behind the others whose blocks are shared.
fn push_shared(
    next: &mut Vec<u32>,
    block: &[Option<u32>],
    members: &[u32],
    nodes: &[u32],
) -> Result<(), Memory>
    ensures { OnOk result ((m : ℕ) → has next.new.items m
        ≡ (has next.old.items m || (has nodes.now m && is_shared members.now (at block.now m)))) }
{
    for n in nodes {
        if is_shared(members, block_of(block, *n)) {
            next.push(*n)?;
        }
    }
    Ok(())
}

// Puts the neighbours of a node behind the others, where their blocks are shared.
fn push_around<G: Digraph>(
    next: &mut Vec<u32>,
    g: &G,
    block: &[Option<u32>],
    members: &[u32],
    q: u32,
) -> Result<(), Memory>
    ensures { OnOk result ((m : ℕ) → has next.new.items m
        ≡ (has next.old.items m || (is_beside (G.edge g.now) q m && is_shared members.now (at block.now m)))) }
{
    if !g.is_node(q) {
        return Ok(());
    }
    push_shared(next, block, members, g.parents(q))?;
    push_shared(next, block, members, g.children(q))?;
    Ok(())
}

// The nodes that are active next: the neighbours of those that moved, unless they are alone in their block, which no round can part.
fn around<G: Digraph>(
    alloc: Global,
    g: &G,
    block: &[Option<u32>],
    members: &[u32],
    moved: &[u32],
) -> Result<Vec<u32>, Memory>
    ensures { IfOk result (λ next. AreAround (G.edge g.now) block.now members.now moved.now next.items) }
{
    let mut next = Vec::new(alloc);
    for q in moved {
        push_around(&mut next, g, block, members, *q)?;
    }
    sort_dedup(&mut next);
    Ok(next)
}

// The active nodes of a round: the neighbours of those that moved, and with them all members of a block of which more are active than not.
fn next_active<G: Digraph>(
    alloc: Global,
    g: &G,
    parts: &Parts,
    books: &mut Books,
) -> Result<Vec<u32>, Memory>
    requires way { IsOnTheWay (digraph_shape G.Digraph g.now) parts.now.before.items parts.now.block.items parts.now.moved.items }
    requires listed { IsListed parts.now.block.items books.old.lists }
    ensures rising { IfOk result (λ l. IsStrictlyIncreasing l.items) }
    ensures closed { IfOk result (λ l. IsClosed (digraph_shape G.Digraph g.now) l.items) }
    ensures listed { OnOk result (IsListed parts.now.block.items books.new.lists) }
    ensures keys { books.new.keys ≡ books.old.keys }
{
    let near = around(alloc, g, &parts.block, &books.sizes.members, &parts.moved)?;
    let active = with_rest(alloc, &books.lists, &parts.block, &mut books.sizes, &near)?;
    Ok(active)
}

// Puts the active nodes into blocks by their groups.
fn move_nodes(
    alloc: Global,
    parts: &mut Parts,
    sizes: &mut Sizes,
    active: &[u32],
    groups: &[u32],
) -> Result<(), Memory>
    requires rising { IsStrictlyIncreasing active.now }
    requires groups { length groups.now ≡ length active.now }
    ensures { OnOk result ((s : Shape) → IsShape s → IsOnTheWay s parts.old.before.items parts.old.block.items parts.old.moved.items
        → IsClosed s active.now → AreGrouped (FB s) active.now groups.now
        → IsNextWay s parts.old.block.items parts.new.before.items parts.new.block.items parts.new.moved.items) }
{
    let names = name_groups(alloc, sizes, &parts.block, active, groups)?;
    let moved = moved_nodes(alloc, &parts.block, active, groups, &names)?;
    catch_up(&mut parts.before, &parts.block, &parts.moved);
    rename(&mut parts.block, active, groups, &names);
    parts.moved = moved;
    Ok(())
}

// Writes down which nodes went to other blocks.
fn note_moves<G: Digraph>(g: &G, parts: &Parts, books: &mut Books) -> Result<(), Memory>
    ensures { OnOk result ((old : List (Option ℕ)) → IsNextWay (digraph_shape G.Digraph g.now) old parts.now.before.items parts.now.block.items
        parts.now.moved.items → IsListed old books.old.lists → IsWatched (G.edge g.now) old books.old.keys.watches
        → IsListed parts.now.block.items books.new.lists × IsWatched (G.edge g.now) parts.now.block.items books.new.keys.watches) }
{
    list_moved(&mut books.lists, &parts.block, &parts.moved)?;
    books.keys.watches.follow(g, &parts.block, &parts.moved)?;
    Ok(())
}

// A round after the first one: it parts the active nodes by what the last round changed about their neighbours.
fn part_again<G: Digraph>(
    alloc: Global,
    g: &G,
    parts: &mut Parts,
    books: &mut Books,
) -> Result<(), Memory>
    requires way { IsOnTheWay (digraph_shape G.Digraph g.now) parts.old.before.items parts.old.block.items parts.old.moved.items }
    requires listed { IsListed parts.old.block.items books.old.lists }
    requires watched { IsWatched (G.edge g.now) parts.old.block.items books.old.keys.watches }
    ensures way { OnOk result (IsOnTheWay (digraph_shape G.Digraph g.now) parts.new.before.items parts.new.block.items parts.new.moved.items) }
    ensures listed { OnOk result (IsListed parts.new.block.items books.new.lists) }
    ensures watched { OnOk result (IsWatched (G.edge g.now) parts.new.block.items books.new.keys.watches) }
{
    let active = next_active(alloc, g, parts, books)?;
    let groups = group(alloc, &mut books.keys, g, parts, &active)?;
    move_nodes(alloc, parts, &mut books.sizes, &active, &groups)?;
    note_moves(g, parts, books)?;
    Ok(())
}

// Rounds until none moves a node. Each that does leaves more blocks, of which there are at most as many as nodes.
fn part_all<G: Digraph>(
    alloc: Global,
    g: &G,
    parts: &mut Parts,
    books: &mut Books,
) -> Result<(), Memory>
    requires way { IsOnTheWay (digraph_shape G.Digraph g.now) parts.old.before.items parts.old.block.items parts.old.moved.items }
    requires listed { IsListed parts.old.block.items books.old.lists }
    requires watched { IsWatched (G.edge g.now) parts.old.block.items books.old.keys.watches }
    ensures { OnOk result (IsCoarse (digraph_shape G.Digraph g.now) parts.new.block.items) }
{
    for round in 0..g.size() {
        if parts.moved.is_empty() {
            return Ok(());
        }
        part_again(alloc, g, parts, books)?;
    }
    Ok(())
}

// All nodes.
fn all_nodes(alloc: Global, size: u32, block: &[Option<u32>]) -> Result<Vec<u32>, Memory>
    ensures rising { IfOk result (λ l. IsStrictlyIncreasing l.items) }
    ensures all { IfOk result (λ l. AreAllNodes block.now size l.items) }
{
    let mut nodes = Vec::new(alloc);
    for n in 0..size {
        if block_of(block, n).is_some() {
            nodes.push(n)?;
        }
    }
    sort_dedup(&mut nodes);
    Ok(nodes)
}

// The groups of the nodes in the first round: their blocks in the next level, which isn't needed any more.
fn first_groups(alloc: Global, next: Vec<Option<u32>>, nodes: &[u32]) -> Result<Vec<u32>, Memory>
    ensures { IfOk result (λ l. AreBlocksOf next.items nodes.now l.items) }
{
    let groups = blocks_of(alloc, &next, nodes)?;
    Ok(groups)
}

// The first round, in which all nodes are active.
fn part_first<G: Digraph>(
    alloc: Global,
    g: &G,
    parts: &mut Parts,
    sizes: &mut Sizes,
    next: Vec<Option<u32>>,
) -> Result<(), Memory>
    requires levels { AreLevels (digraph_shape G.Digraph g.now) parts.old.block.items next.items }
    requires way { IsOnTheWay (digraph_shape G.Digraph g.now) parts.old.before.items parts.old.block.items parts.old.moved.items }
    ensures { OnOk result (IsOnTheWay (digraph_shape G.Digraph g.now) parts.new.before.items parts.new.block.items parts.new.moved.items) }
{
    let nodes = all_nodes(alloc, g.size(), &parts.block)?;
    let groups = first_groups(alloc, next, &nodes)?;
    move_nodes(alloc, parts, sizes, &nodes, &groups)?;
    Ok(())
}

// All rounds after the first one.
fn part_on<G: Digraph>(alloc: Global, g: &G, parts: &mut Parts, sizes: Sizes) -> Result<(), Memory>
    requires { IsOnTheWay (digraph_shape G.Digraph g.now) parts.old.before.items parts.old.block.items parts.old.moved.items }
    ensures { OnOk result (IsCoarse (digraph_shape G.Digraph g.now) parts.new.block.items) }
{
    let lists = list_all(alloc, &parts.block, g.size())?;
    let keys = Keys::new(alloc)?;
    let mut books = Books { sizes, lists, keys };
    part_all(alloc, g, parts, &mut books)
}

// All rounds.
fn part_rounds<G: Digraph>(
    alloc: Global,
    g: &G,
    parts: &mut Parts,
    next: Vec<Option<u32>>,
) -> Result<(), Memory>
    requires levels { AreLevels (digraph_shape G.Digraph g.now) parts.old.block.items next.items }
    requires way { IsOnTheWay (digraph_shape G.Digraph g.now) parts.old.before.items parts.old.block.items parts.old.moved.items }
    ensures { OnOk result (IsCoarse (digraph_shape G.Digraph g.now) parts.new.block.items) }
{
    let mut sizes = Sizes::new(alloc, &parts.block)?;
    part_first(alloc, g, parts, &mut sizes, next)?;
    part_on(alloc, g, parts, sizes)
}

// The same list once more.
fn copy(alloc: Global, block: &[Option<u32>]) -> Result<Vec<Option<u32>>, Memory>
    ensures { IfOk result (λ l. l.items ≡ block.now) }
{
    let mut copy = Vec::with_capacity(alloc, block.len())?;
    copy.extend_from_slice(block)?;
    Ok(copy)
}

/// A partition that is no finer than full bisimilarity by parents and children. It is that, once a round moves no node.
///
/// The first levels are made of all nodes, until one adds few blocks, and the first round parts all nodes by one level more. Later a round
/// parts the neighbours of nodes that went to another block, unless these are alone in theirs, and with them their whole block if more of it
/// are active than not, and it has at least an eighth as many members, rounded down, as there are nodes on its list. Before a round nodes of
/// one block had neighbours in the same blocks, so it is enough to compare to which blocks neighbours came, and which blocks all of them left.
/// The largest part of a block whose members are all active keeps its number, so nodes go to another block O(n log n) times together (J.
/// Hopcroft, 1971), and an edge is read O(log n) times. Expected O(n + m log m) for n node numbers and m edges, beside sorts of the active
/// nodes and of the numbers in their keys; with these at most O(n + m log² m).
///
/// The first levels take 24 bytes a number, and a table of keys. Then it takes 16 bytes a number, 12 for each block, 20 for each number and for
/// each time that a node goes to another block, and in a round 28 bytes for each neighbour of those that went to another block, and 32 and
/// the key for each active node. A table that grows may take twice as much. `Watches` says what lists of neighbours take.
pub fn part_active<G: Digraph>(alloc: Global, g: &G) -> Result<Vec<Option<u32>>, Memory>
    ensures { IfOk result (λ l. IsCoarse (digraph_shape G.Digraph g.now) l.items) }
{
    let (block, next) = first_levels(alloc, g, FIRST)?;
    let before = copy(alloc, &block)?;
    let mut parts = Parts {
        block,
        before,
        moved: Vec::new(alloc),
    };
    part_rounds(alloc, g, &mut parts, next)?;
    Ok(parts.block)
}
