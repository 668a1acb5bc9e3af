// Whether a node with many neighbours has one in a block, without a read of all of them.
ghost use Rattle.std.specs.Prelude.{◌≡◌, ◌≢◌, ◌<◌, ◌≤◌, ◌↔◌, [], ◌∷◌, ℕ, Bool, List, Option, Some, IsSome, IsTrue, IfOk, IfSome, IfNone, OnOk, true, length, slice_get};
ghost use Rattle.graph_spec.specs.Members.{at, has};
ghost use Rattle.hash_index.specs.Items.{hash_at, no_items};
ghost use Rattle.key_table.specs.NumberedKeys.{AreDistinct};
ghost use Rattle.round_refinement.specs.Active.{mark_in};
ghost use Rattle.round_refinement.specs.NeighbourSides.{is_neighbour};
ghost use Rattle.round_refinement.specs.Watches.{AreOrdered, DiffersOnlyAt, IsAsked, IsWatched, PutsBeside, PutsHead, PutsMoved, PutsNodes, PutsOne, SkipsTo, place_key, side_in_key};

use crate::keys::block_of;
use crate::neighbour_lists::neighbours;
use crate::part_sizes::{number_at, put_at};
use bisim_spec::Side;
use hash_index::HashIndex;
use key_table::KeyTable;
use label_graph::Digraph;
use px_base::Memory;
use std::alloc::Global;

// A node with more neighbours than this on a side is watched once they were looked through often.
const MANY: usize = 16;

// How often that is.
const OFTEN: usize = 16;

// Lists of neighbours, each of a place: a node, a side of it, and a block. A neighbour that goes to another block stays where it was, until a
// question comes upon it.
#[derive(Drop)]
struct Places {
    keys: KeyTable,
    // the neighbours, each with the number of its place as its hash
    nodes: HashIndex<u32>,
    // by the number of a place: the newest neighbour on its list that may still be in the block
    heads: Vec<Option<u32>>,
}

/// For nodes with many neighbours: lists of these by their blocks.
///
/// A neighbour on a list takes up to 64 bytes: 16 to 20 for the item, and 40 to 44 for its place, if that is new. On lists are at most three
/// times as many as watched nodes have neighbours and there are node numbers, and those that came in one call of `follow`. A mark takes a byte,
/// and a count of nodes passed by 4, for each node number.
#[derive(Drop)]
pub(crate) struct Watches {
    places: Places,
    // by node: whether its neighbours are on lists
    watched: Vec<bool>,
    // how many neighbours the watched nodes have
    neighbours: usize,
    // by node: how many neighbours were passed by in looks at those that aren't watched
    passed: Vec<u32>,
}

// How a side stands in the key of a place.
fn side_number(side: Side) -> u32
    ensures { result ≡ side_in_key side }
{
    match side {
        Side::Parents => 0,
        Side::Children => 1,
    }
}

// Whether there is a mark at the place, and none past the end.
fn is_on(marks: &[bool], n: u32) -> bool
    ensures { result ≡ mark_in marks.now n }
{
    if (n as usize) < marks.len() {
        marks[n as usize]
    } else {
        false
    }
}

// Adds empty heads, up to that of place k.
fn reach(heads: &mut Vec<Option<u32>>, k: u32) -> Result<(), Memory>
    ensures same { OnOk result ((j : ℕ) → at heads.new.items j ≡ at heads.old.items j) }
    ensures within { OnOk result (k < length heads.new.items) }
{
    if k as usize >= heads.len() {
        heads.resize(k as usize + 1, None)?;
    }
    Ok(())
}

// Puts the head of a place.
fn put_head(heads: &mut Vec<Option<u32>>, k: u32, head: Option<u32>) -> Result<(), Memory>
    ensures { OnOk result (PutsHead k head heads.old.items heads.new.items) }
{
    reach(heads, k)?;
    heads[k as usize] = head;
    Ok(())
}

// From the head of place k on, the newest item that is in the block.
fn skip(
    nodes: &HashIndex<u32>,
    block: &[Option<u32>],
    b: u32,
    k: u32,
    head: Option<u32>,
) -> Option<u32>
    requires within { (h : ℕ) → head ≡ Some h → h < length nodes.now.hashes }
    requires hash { (h : ℕ) → head ≡ Some h → hash_at nodes.now.hashes h ≡ k }
    ensures { SkipsTo nodes.now block.now b k head result }
{
    // Called for its contract: each item has a hash.
    let _known = nodes.len();
    let mut next = head;
    'walk: while let Some(i) = next {
        if block_of(block, nodes.item(i)) == Some(b) {
            return Some(i);
        }
        next = nodes.older(i);
    }
    None
}

// How many of the nodes stand before the first that is in the block.
fn find_in(nodes: &[u32], block: &[Option<u32>], b: u32) -> Option<usize>
    ensures some { IfSome result (λ i. (p : ℕ) × IsTrue (has nodes.now p) × (at block.now p ≡ Some b)) }
    ensures none { IfNone result ((p : ℕ) → IsTrue (has nodes.now p) → at block.now p ≢ Some b) }
{
    for i in 0..nodes.len() {
        if block_of(block, nodes[i]) == Some(b) {
            return Some(i);
        }
    }
    None
}

// The same from an index on, and past the end from the first on.
fn find_from(nodes: &[u32], block: &[Option<u32>], b: u32, from: usize) -> Option<usize>
    requires { from ≤ length nodes.now }
    ensures some { IfSome result (λ i. (p : ℕ) × IsTrue (has nodes.now p) × (at block.now p ≡ Some b)) }
    ensures none { IfNone result ((p : ℕ) → IsTrue (has nodes.now p) → at block.now p ≢ Some b) }
{
    let (before, behind) = nodes.split_at(from);
    match find_in(behind, block, b) {
        Some(i) => Some(i),
        None => match find_in(before, block, b) {
            Some(i) => Some(behind.len().saturating_add(i)),
            None => None,
        },
    }
}

// The index at which a look begins, once so many nodes were passed by.
fn turn(passed: u32, len: usize) -> usize
    ensures { result ≤ len }
{
    if len == 0 { 0 } else { passed as usize % len }
}

impl Places {
    // Puts a neighbour of a node on the list of a block.
    fn put(&mut self, n: u32, side: Side, b: u32, p: u32) -> Result<(), Memory>
        ensures { OnOk result (PutsOne n side (Some b) p self.old self.new) }
    {
        // Called for its contract: each item has a hash.
        let _known = self.nodes.len();
        let k = self.keys.intern(&[n, side_number(side), b])?;
        let i = self.nodes.push(k, p)?;
        put_head(&mut self.heads, k, Some(i))?;
        Ok(())
    }

    // Puts a neighbour of a node on the list of its block, if it has one.
    fn put_in(&mut self, n: u32, side: Side, block: Option<u32>, p: u32) -> Result<(), Memory>
        ensures { OnOk result (PutsOne n side block p self.old self.new) }
    {
        if let Some(b) = block {
            self.put(n, side, b, p)?;
        }
        Ok(())
    }

    // Puts neighbours of a node on the lists of their blocks.
    fn put_nodes(
        &mut self,
        block: &[Option<u32>],
        n: u32,
        side: Side,
        nodes: &[u32],
    ) -> Result<(), Memory>
        ensures { OnOk result (PutsNodes n side block.now nodes.now self.old self.new) }
    {
        for p in nodes {
            self.put_in(n, side, block_of(block, *p), *p)?;
        }
        Ok(())
    }

    // Puts a neighbour of a node on the list of its block, if the node is watched.
    fn put_if(
        &mut self,
        watched: &[bool],
        n: u32,
        side: Side,
        block: Option<u32>,
        q: u32,
    ) -> Result<(), Memory>
        ensures { OnOk result (PutsBeside watched.now (n ∷ []) side block q self.old self.new) }
    {
        if is_on(watched, n) {
            self.put_in(n, side, block, q)?;
        }
        Ok(())
    }

    // Puts a neighbour of the nodes on the lists of its block, for those that are watched.
    fn put_beside(
        &mut self,
        watched: &[bool],
        nodes: &[u32],
        side: Side,
        block: Option<u32>,
        q: u32,
    ) -> Result<(), Memory>
        ensures { OnOk result (PutsBeside watched.now nodes.now side block q self.old self.new) }
    {
        for n in nodes {
            self.put_if(watched, *n, side, block, q)?;
        }
        Ok(())
    }

    // Puts a node on the lists of its block, for the watched nodes next to it.
    fn put_moved<G: Digraph>(
        &mut self,
        g: &G,
        block: &[Option<u32>],
        watched: &[bool],
        q: u32,
    ) -> Result<(), Memory>
        ensures { OnOk result (PutsMoved (G.edge g.now) block.now watched.now (q ∷ []) self.old self.new) }
    {
        if g.is_node(q) {
            let own = block_of(block, q);
            self.put_beside(watched, g.children(q), Side::Parents, own, q)?;
            self.put_beside(watched, g.parents(q), Side::Children, own, q)?;
        }
        Ok(())
    }

    // The same for nodes.
    fn put_all_moved<G: Digraph>(
        &mut self,
        g: &G,
        block: &[Option<u32>],
        watched: &[bool],
        moved: &[u32],
    ) -> Result<(), Memory>
        ensures { OnOk result (PutsMoved (G.edge g.now) block.now watched.now moved.now self.old self.new) }
    {
        for q in moved {
            self.put_moved(g, block, watched, *q)?;
        }
        Ok(())
    }

    // Whether a neighbour of place k is in the block. Those that it comes upon before are passed by for good.
    fn ask_at(&mut self, block: &[Option<u32>], b: u32, k: u32) -> Result<bool, Memory>
        requires ordered { AreOrdered self.old }
        ensures ordered { OnOk result (AreOrdered self.new) }
        ensures asked { IfOk result (λ yes. (n : ℕ) (side : Side) → slice_get self.old.keys k ≡ Some (place_key n side b)
            → AreDistinct self.old.keys → IsAsked block.now n side b yes self.old self.new) }
    {
        let next = skip(&self.nodes, block, b, k, block_of(&self.heads, k));
        put_head(&mut self.heads, k, next)?;
        Ok(next.is_some())
    }

    // Whether a neighbour of the node is on the list of the block, and in it.
    fn ask(&mut self, block: &[Option<u32>], n: u32, side: Side, b: u32) -> Result<bool, Memory>
        requires ordered { AreOrdered self.old }
        ensures ordered { OnOk result (AreOrdered self.new) }
        ensures asked { IfOk result (λ yes. IsAsked block.now n side b yes self.old self.new) }
    {
        match self.keys.find(&[n, side_number(side), b]) {
            Some(k) => {
                let found = self.ask_at(block, b, k)?;
                Ok(found)
            }
            None => Ok(false),
        }
    }

    // Empties the lists.
    fn clear(&mut self)
        ensures keys { self.new.keys ≡ [] }
        ensures nodes { self.new.nodes ≡ no_items }
        ensures heads { self.new.heads.items ≡ [] }
    {
        self.keys.clear();
        self.nodes.clear();
        self.heads.clear();
    }
}

// Makes the marks of nodes, if there are none.
fn make_marks(marks: &mut Vec<bool>, size: u32) -> Result<(), Memory>
    ensures { OnOk result ((n : ℕ) → mark_in marks.new.items n ≡ mark_in marks.old.items n) }
{
    if marks.is_empty() {
        marks.resize(size as usize, false)?;
    }
    Ok(())
}

// Marks a node, unless its number is past the end.
fn mark(marks: &mut [bool], n: u32)
    ensures { (m : ℕ) → m ≢ n → mark_in marks.new m ≡ mark_in marks.old m }
{
    if (n as usize) < marks.len() {
        marks[n as usize] = true;
    }
}

impl Watches {
    /// No node is watched. O(1).
    pub(crate) fn new(alloc: Global) -> Result<Watches, Memory>
        ensures { IfOk result (λ w. (edge : ℕ → ℕ → Bool) (block : List (Option ℕ)) → IsWatched edge block w) }
    {
        let keys = KeyTable::new(alloc)?;
        let nodes = HashIndex::new(alloc)?;
        Ok(Watches {
            places: Places {
                keys,
                nodes,
                heads: Vec::new(alloc),
            },
            watched: Vec::new(alloc),
            neighbours: 0,
            passed: Vec::new(alloc),
        })
    }

    // Puts the neighbours of a node on lists, and marks it as watched.
    fn watch<G: Digraph>(&mut self, g: &G, block: &[Option<u32>], n: u32) -> Result<(), Memory>
        requires node { IsSome (G.label_at g.now n) }
        requires watched { IsWatched (G.edge g.now) block.now self.old }
        ensures { OnOk result (IsWatched (G.edge g.now) block.now self.new) }
    {
        let parents = neighbours(g, Side::Parents, n);
        let children = neighbours(g, Side::Children, n);
        make_marks(&mut self.watched, g.size())?;
        self.places.put_nodes(block, n, Side::Parents, parents)?;
        self.places.put_nodes(block, n, Side::Children, children)?;
        self.neighbours = self
            .neighbours
            .saturating_add(parents.len())
            .saturating_add(children.len());
        mark(&mut self.watched, n);
        Ok(())
    }

    // Whether one of the nodes, which are neighbours of n, is in the block. It begins where the last look ended.
    fn look(&mut self, nodes: &[u32], block: &[Option<u32>], n: u32, b: u32) -> bool
        ensures places { self.new.places ≡ self.old.places }
        ensures watched { self.new.watched ≡ self.old.watched }
        ensures found { IsTrue result ↔ ((p : ℕ) × IsTrue (has nodes.now p) × (at block.now p ≡ Some b)) }
    {
        let passed = number_at(&self.passed, n);
        let found = find_from(nodes, block, b, turn(passed, nodes.len()));
        let more = u32::try_from(found.unwrap_or(nodes.len())).unwrap_or(u32::MAX);
        put_at(&mut self.passed, n, passed.saturating_add(more));
        found.is_some()
    }

    // Makes the numbers of nodes passed by, if there are none.
    fn make_passed(&mut self, size: u32) -> Result<(), Memory>
        ensures places { OnOk result (self.new.places ≡ self.old.places) }
        ensures watched { OnOk result (self.new.watched ≡ self.old.watched) }
    {
        if self.passed.is_empty() {
            self.passed.resize(size as usize, 0)?;
        }
        Ok(())
    }

    // Whether the neighbours of a node were looked through often.
    fn is_due(&self, n: u32, count: usize) -> bool {
        number_at(&self.passed, n) as usize / OFTEN >= count
    }

    // Watches a node with many neighbours once they were looked through often.
    fn watch_if_due<G: Digraph>(
        &mut self,
        g: &G,
        block: &[Option<u32>],
        n: u32,
        count: usize,
    ) -> Result<(), Memory>
        requires node { IsSome (G.label_at g.now n) }
        requires watched { IsWatched (G.edge g.now) block.now self.old }
        ensures { OnOk result (IsWatched (G.edge g.now) block.now self.new) }
    {
        self.make_passed(g.size())?;
        if self.is_due(n, count) && !is_on(&self.watched, n) {
            self.watch(g, block, n)?;
        }
        Ok(())
    }

    // The answer by the lists, if the node is watched, and else by its neighbours.
    fn answer<G: Digraph>(
        &mut self,
        g: &G,
        block: &[Option<u32>],
        side: Side,
        n: u32,
        b: u32,
    ) -> Result<bool, Memory>
        requires node { IsSome (G.label_at g.now n) }
        requires watched { IsWatched (G.edge g.now) block.now self.old }
        ensures watched { OnOk result (IsWatched (G.edge g.now) block.now self.new) }
        ensures found { IfOk result (λ yes. IsTrue yes ↔ ((p : ℕ) × IsTrue (is_neighbour side (G.edge g.now) p n) × (at block.now p ≡ Some b))) }
    {
        if is_on(&self.watched, n) {
            let found = self.places.ask(block, n, side, b)?;
            Ok(found)
        } else {
            Ok(self.look(neighbours(g, side, n), block, n, b))
        }
    }

    /// Whether the node has a neighbour on that side in the block. A node with many is watched once they were looked through often. Expected O(1),
    /// amortized over the neighbours of watched nodes, and over those of the nodes that `follow` takes.
    pub(crate) fn has_neighbour<G: Digraph>(
        &mut self,
        g: &G,
        block: &[Option<u32>],
        side: Side,
        n: u32,
        b: u32,
    ) -> Result<bool, Memory>
        requires node { IsSome (G.label_at g.now n) }
        requires watched { IsWatched (G.edge g.now) block.now self.old }
        ensures watched { OnOk result (IsWatched (G.edge g.now) block.now self.new) }
        ensures found { IfOk result (λ yes. IsTrue yes ↔ ((p : ℕ) × IsTrue (is_neighbour side (G.edge g.now) p n) × (at block.now p ≡ Some b))) }
    {
        let count = neighbours(g, side, n).len();
        if count > MANY {
            self.watch_if_due(g, block, n, count)?;
        }
        let found = self.answer(g, block, side, n, b)?;
        Ok(found)
    }

    // Empties the lists, and watches no node.
    fn forget(&mut self)
        ensures { (edge : ℕ → ℕ → Bool) (block : List (Option ℕ)) → IsWatched edge block self.new }
    {
        self.places.clear();
        self.watched.clear();
        self.neighbours = 0;
    }

    // Watches no node any more, once most neighbours on lists went to other blocks.
    fn trim(&mut self)
        ensures { (edge : ℕ → ℕ → Bool) (block : List (Option ℕ)) → IsWatched edge block self.old → IsWatched edge block self.new }
    {
        let most = self.neighbours.saturating_add(self.watched.len());
        if self.places.nodes.len() as usize / 3 > most {
            self.forget();
        }
    }

    /// Notes nodes that went to other blocks. O(d), amortized, for nodes with d neighbours together. Nodes whose lists grew too long are watched
    /// no more.
    pub(crate) fn follow<G: Digraph>(
        &mut self,
        g: &G,
        block: &[Option<u32>],
        moved: &[u32],
    ) -> Result<(), Memory>
        ensures { OnOk result ((old : List (Option ℕ)) → IsWatched (G.edge g.now) old self.old → DiffersOnlyAt old block.now moved.now
            → IsWatched (G.edge g.now) block.now self.new) }
    {
        if !self.watched.is_empty() {
            self.places.put_all_moved(g, block, &self.watched, moved)?;
            self.trim();
        }
        Ok(())
    }
}
