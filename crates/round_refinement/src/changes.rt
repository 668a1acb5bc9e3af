// Active nodes, parted by what the last round changed about their neighbours.
ghost use Rattle.std.specs.Prelude.{◌≡◌, ℕ, Bool, List, Option, Some, IsSome, IfOk, OnOk, length};
ghost use Rattle.graph_spec.specs.Members.{at, has};
ghost use Rattle.key_table.specs.NumberedKeys.{AreDistinct};
ghost use Rattle.round_refinement.specs.NeighbourSides.{is_neighbour};
ghost use Rattle.round_refinement.specs.Active.{AreAlike, AreGrouped, AreMoves};
ghost use Rattle.round_refinement.specs.Changes.{AreBlocksOf, AreChanges, AreNear, AreOn, AreParted, LosesSome, PushesIfNear, PutsNear, TakesNumber, spread_of};
ghost use Rattle.round_refinement.specs.Watches.{IsWatched};

use crate::keys::{block_of, write_set};
use crate::moves::Parts;
use crate::neighbour_lists::neighbours;
use crate::watches::Watches;
use bisim_spec::Side;
use hash_index::HashIndex;
use key_table::{KeyTable, sort_dedup};
use label_graph::Digraph;
use px_base::Memory;
use std::alloc::Global;

/// What keys are written into, and what they are found by.
#[derive(Drop)]
pub(crate) struct Keys {
    pub(crate) watches: Watches,
    // nodes, each with a neighbour on one side that moved
    near: HashIndex<(u32, u32)>,
    table: KeyTable,
    around: Vec<u32>,
    key: Vec<u32>,
    left: Vec<u32>,
}

impl Keys {
    /// No keys.
    pub(crate) fn new(alloc: Global) -> Result<Keys, Memory>
        ensures { IfOk result (λ keys. (edge : ℕ → ℕ → Bool) (block : List (Option ℕ)) → IsWatched edge block keys.watches) }
    {
        let watches = Watches::new(alloc)?;
        let near = HashIndex::new(alloc)?;
        let table = KeyTable::new(alloc)?;
        Ok(Keys {
            watches,
            near,
            table,
            around: Vec::new(alloc),
            key: Vec::new(alloc),
            left: Vec::new(alloc),
        })
    }
}

// The side on which a node is that has a neighbour on this one.
fn across(side: Side) -> Side
    ensures { (edge : ℕ → ℕ → Bool) (p n : ℕ) → is_neighbour result edge p n ≡ is_neighbour side edge n p }
{
    match side {
        Side::Parents => Side::Children,
        Side::Children => Side::Parents,
    }
}

// The number by which the list of a node is found.
fn spread(n: u32) -> u32
    ensures { result ≡ spread_of n }
{
    ((n as u64).wrapping_mul(0x2545_F491_4F6C_DD1D) >> 32) as u32
}

// Puts a node on the lists of the others.
fn put_near(near: &mut HashIndex<(u32, u32)>, nodes: &[u32], q: u32) -> Result<(), Memory>
    ensures { OnOk result (PutsNear (has nodes.now) q near.old near.new) }
{
    for n in nodes {
        // Called for its contract: each item has a number by which it is found.
        let _known = near.len();
        near.push(spread(*n), (*n, q))?;
    }
    Ok(())
}

// Puts a node on the lists of those whose neighbour it is on this side.
fn put_beside<G: Digraph>(
    near: &mut HashIndex<(u32, u32)>,
    g: &G,
    side: Side,
    q: u32,
) -> Result<(), Memory>
    ensures { OnOk result (PutsNear (is_neighbour side (G.edge g.now) q) q near.old near.new) }
{
    if !g.is_node(q) {
        return Ok(());
    }
    put_near(near, neighbours(g, across(side), q), q)?;
    Ok(())
}

// Makes for each node a list of those of its neighbours on one side that moved.
fn find_near<G: Digraph>(
    near: &mut HashIndex<(u32, u32)>,
    g: &G,
    side: Side,
    moved: &[u32],
) -> Result<(), Memory>
    ensures { OnOk result ((before now : List (Option ℕ)) → AreMoves before now moved.now
        → AreNear (is_neighbour side (G.edge g.now)) before now near.new) }
{
    near.clear();
    for q in moved {
        put_beside(near, g, side, *q)?;
    }
    Ok(())
}

// Puts what stands beside the node behind the others, if the item is on the list of that node.
fn push_if_near(around: &mut Vec<u32>, n: u32, item: (u32, u32)) -> Result<(), Memory>
    ensures { OnOk result (PushesIfNear n item around.old.items around.new.items) }
{
    if item.0 == n {
        around.push(item.1)?;
    }
    Ok(())
}

// Reads the list of a node.
fn read_near(around: &mut Vec<u32>, near: &HashIndex<(u32, u32)>, n: u32) -> Result<(), Memory>
    ensures { OnOk result (AreOn near.now n around.new.items) }
{
    // Called for its contract: each item has a number by which it is found.
    let _known = near.len();
    around.clear();
    let mut next = near.newest(spread(n));
    'walk: while let Some(i) = next {
        push_if_near(around, n, near.item(i))?;
        next = near.older(i);
    }
    Ok(())
}

// Puts those of the blocks behind the others in which the node has no neighbour on this side.
fn push_lost<G: Digraph>(
    key: &mut Vec<u32>,
    watches: &mut Watches,
    g: &G,
    block: &[Option<u32>],
    side: Side,
    n: u32,
    left: &[u32],
) -> Result<(), Memory>
    requires node { IsSome (G.label_at g.now n) }
    requires watched { IsWatched (G.edge g.now) block.now watches.old }
    ensures watched { OnOk result (IsWatched (G.edge g.now) block.now watches.new) }
    ensures lost { OnOk result (LosesSome (is_neighbour side (G.edge g.now)) block.now n left.now key.old.items key.new.items) }
{
    for b in left {
        let stays = watches.has_neighbour(g, block, side, n, *b)?;
        if !stays {
            key.push(*b)?;
        }
    }
    Ok(())
}

// Writes the blocks to which neighbours of the node on this side came, and those which all of them left.
fn write_changes<G: Digraph>(
    keys: &mut Keys,
    g: &G,
    parts: &Parts,
    side: Side,
    n: u32,
) -> Result<(), Memory>
    requires node { IsSome (G.label_at g.now n) }
    requires near { AreNear (is_neighbour side (G.edge g.now)) parts.now.before.items parts.now.block.items keys.old.near }
    requires watched { IsWatched (G.edge g.now) parts.now.block.items keys.old.watches }
    ensures near { OnOk result (keys.new.near ≡ keys.old.near) }
    ensures table { OnOk result (keys.new.table ≡ keys.old.table) }
    ensures watched { OnOk result (IsWatched (G.edge g.now) parts.now.block.items keys.new.watches) }
    ensures changes { OnOk result (AreChanges (is_neighbour side (G.edge g.now)) parts.now.before.items parts.now.block.items n keys.new.key.items) }
{
    read_near(&mut keys.around, &keys.near, n)?;
    write_set(&mut keys.key, &keys.around, &parts.block)?;
    write_set(&mut keys.left, &keys.around, &parts.before)?;
    push_lost(
        &mut keys.key,
        &mut keys.watches,
        g,
        &parts.block,
        side,
        n,
        &keys.left,
    )?;
    sort_dedup(&mut keys.key);
    Ok(())
}

// The number of a node's key: its own number, and what changed about its neighbours on this side.
fn find_number<G: Digraph>(
    keys: &mut Keys,
    g: &G,
    parts: &Parts,
    side: Side,
    n: u32,
    own: u32,
) -> Result<u32, Memory>
    requires node { IsSome (G.label_at g.now n) }
    requires near { AreNear (is_neighbour side (G.edge g.now)) parts.now.before.items parts.now.block.items keys.old.near }
    requires watched { IsWatched (G.edge g.now) parts.now.block.items keys.old.watches }
    ensures near { OnOk result (keys.new.near ≡ keys.old.near) }
    ensures watched { OnOk result (IsWatched (G.edge g.now) parts.now.block.items keys.new.watches) }
    ensures number { IfOk result (λ k. TakesNumber (is_neighbour side (G.edge g.now)) parts.now.before.items parts.now.block.items
        keys.old.table keys.new.table n own k) }
    ensures distinct { IfOk result (λ k. AreDistinct keys.new.table) }
{
    write_changes(keys, g, parts, side, n)?;
    keys.key.insert(0, own)?;
    let k = keys.table.intern(&keys.key)?;
    Ok(k)
}

// The number of an active node.
fn number_of<G: Digraph>(
    keys: &mut Keys,
    g: &G,
    parts: &Parts,
    side: Side,
    n: u32,
    own: u32,
) -> Result<u32, Memory>
    requires node { IsSome (at parts.now.block.items n) → IsSome (G.label_at g.now n) }
    requires distinct { AreDistinct keys.old.table }
    requires near { AreNear (is_neighbour side (G.edge g.now)) parts.now.before.items parts.now.block.items keys.old.near }
    requires watched { IsWatched (G.edge g.now) parts.now.block.items keys.old.watches }
    ensures near { OnOk result (keys.new.near ≡ keys.old.near) }
    ensures watched { OnOk result (IsWatched (G.edge g.now) parts.now.block.items keys.new.watches) }
    ensures number { IfOk result (λ k. TakesNumber (is_neighbour side (G.edge g.now)) parts.now.before.items parts.now.block.items
        keys.old.table keys.new.table n own k) }
    ensures distinct { IfOk result (λ k. AreDistinct keys.new.table) }
{
    match block_of(&parts.block, n) {
        Some(_) => find_number(keys, g, parts, side, n, own),
        None => Ok(0),
    }
}

// The numbers of the active nodes, by their own ones, and by an empty table.
fn number_all<G: Digraph>(
    alloc: Global,
    keys: &mut Keys,
    g: &G,
    parts: &Parts,
    side: Side,
    active: &[u32],
    own: &[u32],
) -> Result<Vec<u32>, Memory>
    requires nodes { (n : ℕ) → IsSome (at parts.now.block.items n) → IsSome (G.label_at g.now n) }
    requires own { length own.now ≡ length active.now }
    requires distinct { AreDistinct keys.old.table }
    requires near { AreNear (is_neighbour side (G.edge g.now)) parts.now.before.items parts.now.block.items keys.old.near }
    requires watched { IsWatched (G.edge g.now) parts.now.block.items keys.old.watches }
    ensures watched { OnOk result (IsWatched (G.edge g.now) parts.now.block.items keys.new.watches) }
    ensures parted { IfOk result (λ l. AreParted (is_neighbour side (G.edge g.now)) parts.now.before.items parts.now.block.items active.now own.now l.items) }
{
    let mut numbers = Vec::with_capacity(alloc, active.len())?;
    for i in 0..active.len() {
        let k = number_of(keys, g, parts, side, active[i], own[i])?;
        numbers.push(k)?;
    }
    Ok(numbers)
}

// The active nodes parted by their neighbours on one side, and by numbers of their own.
fn part_side<G: Digraph>(
    alloc: Global,
    keys: &mut Keys,
    g: &G,
    parts: &Parts,
    side: Side,
    active: &[u32],
    own: &[u32],
) -> Result<Vec<u32>, Memory>
    requires nodes { (n : ℕ) → IsSome (at parts.now.block.items n) → IsSome (G.label_at g.now n) }
    requires moves { AreMoves parts.now.before.items parts.now.block.items parts.now.moved.items }
    requires own { length own.now ≡ length active.now }
    requires watched { IsWatched (G.edge g.now) parts.now.block.items keys.old.watches }
    ensures watched { OnOk result (IsWatched (G.edge g.now) parts.now.block.items keys.new.watches) }
    ensures parted { IfOk result (λ l. AreParted (is_neighbour side (G.edge g.now)) parts.now.before.items parts.now.block.items active.now own.now l.items) }
{
    keys.table.clear();
    find_near(&mut keys.near, g, side, &parts.moved)?;
    number_all(alloc, keys, g, parts, side, active, own)
}

// The number of a node's block, and 0 where it has none.
fn number_at_block(block: &[Option<u32>], n: u32) -> u32
    ensures { (b : ℕ) → at block.now n ≡ Some b → result ≡ b }
{
    match block_of(block, n) {
        Some(b) => b,
        None => 0,
    }
}

/// The numbers of the nodes' blocks.
pub(crate) fn blocks_of(
    alloc: Global,
    block: &[Option<u32>],
    nodes: &[u32],
) -> Result<Vec<u32>, Memory>
    ensures { IfOk result (λ l. AreBlocksOf block.now nodes.now l.items) }
{
    let mut numbers = Vec::with_capacity(alloc, nodes.len())?;
    for i in 0..nodes.len() {
        numbers.push(number_at_block(block, nodes[i]))?;
    }
    Ok(numbers)
}

/// The groups of the active nodes: those of one block about whose neighbours the last round changed the same. Where nodes of one block had
/// neighbours in the same blocks before, those of one group have.
pub(crate) fn group<G: Digraph>(
    alloc: Global,
    keys: &mut Keys,
    g: &G,
    parts: &Parts,
    active: &[u32],
) -> Result<Vec<u32>, Memory>
    requires nodes { (n : ℕ) → IsSome (at parts.now.block.items n) → IsSome (G.label_at g.now n) }
    requires moves { AreMoves parts.now.before.items parts.now.block.items parts.now.moved.items }
    requires watched { IsWatched (G.edge g.now) parts.now.block.items keys.old.watches }
    ensures watched { OnOk result (IsWatched (G.edge g.now) parts.now.block.items keys.new.watches) }
    ensures grouped { IfOk result (λ l. AreGrouped (AreAlike (G.edge g.now) parts.now.before.items parts.now.block.items) active.now l.items) }
{
    let own = blocks_of(alloc, &parts.block, active)?;
    let mid = part_side(alloc, keys, g, parts, Side::Parents, active, &own)?;
    let groups = part_side(alloc, keys, g, parts, Side::Children, active, &mid)?;
    Ok(groups)
}
