// Moves that are drafted.
ghost use Rattle.std.specs.Prelude.{◌≡◌, ◌+◌, ◌-◌, ◌<◌, ◌≤◌, ◌^◌, ◌||◌, [], ℕ, List, Option, Some, None, IsSome, IfSome, unwrap_or, not, true, OnOk, OnErr, nat_eq, length, vec_len, vec_capacity, count_by, if◌then◌else◌};
ghost use Rattle.std.specs.List.{IsDistinct};
ghost use Rattle.std.specs.Map.{lookup, keys_of};
ghost use Rattle.indexmap.specs.IndexMap.{spare};
ghost use Rattle.graph_spec.specs.Members.{Lists, at, has, is_this};
ghost use Rattle.quotient.specs.QuotientNeighbours.{one_if};
ghost use Rattle.quotient_draft.specs.Drafts.{with_moves, with_left, PutsNode};
ghost use Rattle.quotient_draft.specs.MoveTables.{counted, AreTaken, StayTaken, AreLookedUp, MovedBelow};
ghost use Rattle.quotient_draft.specs.PutLogs.{has_put, is_kept, is_moved_to};
ghost use Rattle.quotient_draft.specs.ShownMembers.{is_unmoved};

use crate::counts::{count_of, count_one};
use crate::emptying::{empty_list, empty_table};
use crate::put_log::PutLog;
use indexmap::IndexMap;
use key_table::sort_dedup;
use px_base::{Memory, NodeId};
use quotient::Summary;
use std::alloc::Global;
use std::marker::Model;

/// Moves of nodes that are drafted over a base: the last of each node. Beside them it has, for each block, how
/// many of the nodes that are moved go into it, and how many of them have it in the base.
#[derive(Drop)]
pub(crate) struct Moves {
    moves: IndexMap<u32, Option<u32>>,
    left: Vec<u32>,
    into: IndexMap<u32, usize>,
    taken: IndexMap<u32, usize>,
    puts: PutLog,
}

impl Model for Moves {
    ghost use Rattle.quotient_draft.specs.MoveTables.{KeptMoves};
    ghost use Rattle.quotient_draft.specs.PutLogs.{AreMoves};

    ghost Value = { KeptMoves };

    ghost view = { λ m. record { moves = m.moves.entries; left = m.left.items; taken = m.taken.entries } };

    ghost invariant = { λ m. AreMoves m.moves.entries m.into.entries m.taken.entries m.puts };
}

impl Moves {
    pub(crate) fn new(alloc: Global) -> Moves
        ensures moves { result.moves ≡ [] }
        ensures left { result.left ≡ [] }
        ensures taken { result.taken ≡ [] }
    {
        Moves {
            moves: IndexMap::new(alloc),
            left: Vec::new(alloc),
            into: IndexMap::new(alloc),
            taken: IndexMap::new(alloc),
            puts: PutLog::new(alloc),
        }
    }

    /// The block of a node as shown.
    pub(crate) fn block_of(&self, base: &Summary, n: NodeId) -> Option<u32>
        ensures block { result ≡ at (with_moves base.now.blocks.block_of self.now.moves) n }
        ensures looked { result ≡ unwrap_or (lookup (nat_eq n) self.now.moves) (at base.now.blocks.block_of n) }
        ensures live { lookup (nat_eq n) self.now.moves ≡ None → IfSome result (λ b. IsSome (at base.now.blocks.labels b)) }
    {
        match self.moves.get(&n) {
            Some(b) => *b,
            None => base.block_of(n),
        }
    }

    // Each node has one move, so the last is the one that a look-up finds. It takes no time.
    pub(crate) fn know_lookups(&self)
        ensures { AreLookedUp self.now.moves }
    {
        // Called for its contract: each node has one move.
        let _known = self.moves.len();
    }

    /// Drafts a move, and notes the block from which the node is taken.
    pub(crate) fn put(&mut self, base: &Summary, n: NodeId, b: Option<u32>) -> Result<(), Memory>
        ensures looked { OnOk result ((m : ℕ) → lookup (nat_eq m) self.new.moves ≡ (if nat_eq m n then Some b else lookup (nat_eq m) self.old.moves)) }
        ensures shown { OnOk result ((block : List (Option ℕ)) → PutsNode n b (with_moves block self.old.moves) (with_moves block self.new.moves)) }
        ensures left { OnOk result (self.new.left ≡ with_left self.old.left (at (with_moves base.now.blocks.block_of self.old.moves) n)) }
        ensures own { OnOk result (self.new.left ≡ with_left self.old.left (unwrap_or (lookup (nat_eq n) self.old.moves) (at base.now.blocks.block_of n))) }
        ensures taken { OnOk result (StayTaken base.now.blocks.block_of self.old self.new) }
        ensures err { OnErr result (self.new ≡ self.old) }
    {
        match self.moves.get(&n) {
            Some(own) => {
                let own = *own;
                self.put_again(own, n, b)
            }
            None => self.put_first(base.block_of(n), n, b),
        }
    }

    // Drafts the first move of a node, which has this block in the base, or none.
    fn put_first(&mut self, own: Option<u32>, n: NodeId, b: Option<u32>) -> Result<(), Memory>
        requires { lookup (nat_eq n) self.old.moves ≡ None }
        ensures looked { OnOk result ((m : ℕ) → lookup (nat_eq m) self.new.moves ≡ (if nat_eq m n then Some b else lookup (nat_eq m) self.old.moves)) }
        ensures shown { OnOk result ((block : List (Option ℕ)) → PutsNode n b (with_moves block self.old.moves) (with_moves block self.new.moves)) }
        ensures left { OnOk result (self.new.left ≡ with_left self.old.left own) }
        ensures taken { OnOk result ((block : List (Option ℕ)) → at block n ≡ own → StayTaken block self.old self.new) }
        ensures err { OnErr result (self.new ≡ self.old) }
    {
        let moves = self.moves.len();
        self.left.reserve(1)?;
        self.into.reserve(1)?;
        self.taken.reserve(1)?;
        add_put(&mut self.puts, n, b)?;
        self.moves.insert(n, b)?;
        push_block(&mut self.left, own);
        count_block(&mut self.into, b, moves);
        count_block(&mut self.taken, own, moves);
        Ok(())
    }

    // Drafts a further move of a node that has been moved into this block, or into none.
    fn put_again(&mut self, own: Option<u32>, n: NodeId, b: Option<u32>) -> Result<(), Memory>
        requires { lookup (nat_eq n) self.old.moves ≡ Some own }
        ensures looked { OnOk result ((m : ℕ) → lookup (nat_eq m) self.new.moves ≡ (if nat_eq m n then Some b else lookup (nat_eq m) self.old.moves)) }
        ensures shown { OnOk result ((block : List (Option ℕ)) → PutsNode n b (with_moves block self.old.moves) (with_moves block self.new.moves)) }
        ensures left { OnOk result (self.new.left ≡ with_left self.old.left own) }
        ensures taken { OnOk result ((block : List (Option ℕ)) → StayTaken block self.old self.new) }
        ensures err { OnErr result (self.new ≡ self.old) }
    {
        let moves = self.moves.len();
        self.left.reserve(1)?;
        self.into.reserve(1)?;
        add_put(&mut self.puts, n, b)?;
        self.moves.insert(n, b)?;
        push_block(&mut self.left, own);
        count_block(&mut self.into, b, moves);
        uncount_block(&mut self.into, own);
        Ok(())
    }

    /// For how many numbers past the end of a list of this length the moves need reserved capacity.
    pub(crate) fn past(&self, numbers: u32) -> u32
        requires few { numbers ≤ 2 ^ 31 }
        requires numbers { MovedBelow (2 ^ 31) self.now.moves }
        ensures fits { MovedBelow (numbers + result) self.now.moves }
        ensures few { numbers + result ≤ 2 ^ 31 }
    {
        let mut end = numbers;
        for i in 0..self.moves.len() {
            let Some((n, b)) = self.moves.get_index(i) else {
                unreachable!()
            };
            end = end_with(end, *n, *b);
        }
        end - numbers
    }

    /// Makes the moves in the base, which has capacity for them.
    pub(crate) fn make_in(&self, base: &mut Summary)
        requires blocks { (n b : ℕ) → lookup (nat_eq n) self.now.moves ≡ Some (Some b) → IsSome (at base.old.blocks.labels b) }
        requires nodes { MovedBelow (length base.old.blocks.block_of + base.old.blocks.reserved.nodes) self.now.moves }
        ensures blocks { base.new.blocks.block_of ≡ with_moves base.old.blocks.block_of self.now.moves }
        ensures labels { base.new.blocks.labels ≡ base.old.blocks.labels }
        ensures supports { base.new.supports ≡ base.old.supports }
        ensures reserved { base.new.reserved ≡ base.old.reserved }
    {
        for i in 0..self.moves.len() {
            let Some((n, b)) = self.moves.get_index(i) else {
                unreachable!()
            };
            base.put(*n, *b);
        }
    }

    /// How many members a block has as shown.
    pub(crate) fn member_count(&self, base: &Summary, b: u32) -> u32
        requires taken { AreTaken base.now.blocks.block_of self.now.moves self.now.taken }
        requires numbers { MovedBelow (2 ^ 31) self.now.moves }
        ensures { result ≡ count_by (is_this b) (with_moves base.now.blocks.block_of self.now.moves) }
    {
        let numbers = base.numbers().max(1 << 31) as usize;
        let into = count_of(&self.into, b).min(self.moves.len());
        let held = held_in(base, b) as usize + into;
        (held - count_of(&self.taken, b)).min(numbers) as u32
    }

    /// Lists the members of a block as shown, each once, replacing what the list held.
    pub(crate) fn fill_members(
        &self,
        base: &Summary,
        b: u32,
        list: &mut Vec<NodeId>,
    ) -> Result<(), Memory>
        ensures { OnOk result (Lists (λ n. is_this b (at (with_moves base.now.blocks.block_of self.now.moves) n)) list.new.items) }
    {
        list.clear();
        self.push_kept(base, b, list)?;
        self.push_moved(b, list)?;
        sort_dedup(list);
        Ok(())
    }

    // Adds those members of a block of the base that aren't moved.
    fn push_kept(&self, base: &Summary, b: u32, list: &mut Vec<NodeId>) -> Result<(), Memory>
        ensures { OnOk result ((n : ℕ) → has list.new.items n ≡ (has list.old.items n || is_kept base.now.blocks.block_of self.now.moves b n)) }
    {
        if !base.is_block(b) {
            return Ok(());
        }
        for n in base.extent(b) {
            if !self.moves.contains_key(&n) {
                list.push(n)?;
            }
        }
        Ok(())
    }

    // Adds those nodes that are moved into a block.
    fn push_moved(&self, b: u32, list: &mut Vec<NodeId>) -> Result<(), Memory>
        ensures once { IsDistinct nat_eq (keys_of self.now.moves) }
        ensures members { OnOk result ((n : ℕ) → has list.new.items n ≡ (has list.old.items n || is_moved_to self.now.moves b n)) }
    {
        let mut i = self.puts.last(b);
        while i > 0 {
            let n = self.puts.node(i - 1);
            push_if(list, n, self.goes_to(n, b))?;
            i = self.puts.before(i - 1);
        }
        Ok(())
    }

    /// Whether a node is moved, and into this block.
    pub(crate) fn goes_to(&self, n: NodeId, b: u32) -> bool
        ensures { result ≡ is_moved_to self.now.moves b n }
    {
        match self.moves.get(&n) {
            Some(c) => *c == Some(b),
            None => false,
        }
    }

    /// Whether a node is moved.
    pub(crate) fn is_moved(&self, n: NodeId) -> bool
        ensures { result ≡ not (is_unmoved self.now.moves n) }
    {
        self.moves.contains_key(&n)
    }

    /// The nodes that are moved, each once.
    pub(crate) fn nodes(&self) -> &[NodeId]
        ensures nodes { result.now ≡ keys_of self.now.moves }
        ensures once { IsDistinct nat_eq result.now }
    {
        self.moves.keys().as_slice()
    }

    /// The blocks from which nodes were taken.
    pub(crate) fn left(&self) -> &[u32]
        ensures { result.now ≡ self.now.left }
    {
        &self.left
    }

    /// Drops all.
    pub(crate) fn clear(&mut self)
        ensures moves { self.new.moves ≡ [] }
        ensures left { self.new.left ≡ [] }
        ensures taken { self.new.taken ≡ [] }
    {
        empty_table(&mut self.moves);
        empty_list(&mut self.left);
        empty_table(&mut self.into);
        empty_table(&mut self.taken);
        self.puts.clear();
    }
}

// The end of a list that ends at this number, once a node is put into a block, or into none.
fn end_with(end: u32, n: NodeId, b: Option<u32>) -> u32
    requires small { IsSome b → n < 2 ^ 31 }
    requires few { end ≤ 2 ^ 31 }
    ensures more { end ≤ result }
    ensures few { result ≤ 2 ^ 31 }
    ensures past { IsSome b → n < result }
{
    if b.is_some() && end <= n { n + 1 } else { end }
}

// Adds a block, if there is one, to a list that has capacity for it.
fn push_block(left: &mut Vec<u32>, b: Option<u32>)
    requires { vec_len left.old < vec_capacity left.old }
    ensures { left.new.items ≡ with_left left.old.items b }
{
    if let Some(b) = b {
        left.push_reserved(b);
    }
}

// How many members a block has in the base, and 0 where the number is no block there.
fn held_in(base: &Summary, b: u32) -> u32
    ensures { result ≡ count_by (is_this b) base.now.blocks.block_of }
{
    if base.is_block(b) {
        base.member_count(b)
    } else {
        0
    }
}

// Adds a put into a block, if there is one.
fn add_put(puts: &mut PutLog, n: NodeId, b: Option<u32>) -> Result<(), Memory>
    ensures kept { (m c : ℕ) → has_put puts.old m c ≡ true → has_put puts.new m c ≡ true }
    ensures put { OnOk result ((c : ℕ) → b ≡ Some c → has_put puts.new n c ≡ true) }
{
    if let Some(b) = b {
        puts.add(n, b)?;
    }
    Ok(())
}

// Counts one more node for a block, if there is one, whose count is at most `most` before.
fn count_block(counts: &mut IndexMap<u32, usize>, b: Option<u32>, most: usize)
    requires reserved { 0 < spare counts.old }
    requires counted { (x : ℕ) → counted counts.old.entries x ≤ most }
    requires few { most < 2 ^ 63 }
    ensures { (x : ℕ) → counted counts.new.entries x ≡ counted counts.old.entries x + one_if (is_this x b) }
{
    if let Some(b) = b {
        count_one(counts, b, most);
    }
}

// Counts one node fewer for a block, if there is one.
fn uncount_block(counts: &mut IndexMap<u32, usize>, b: Option<u32>)
    requires { IfSome b (λ b. 0 < counted counts.old.entries b) }
    ensures { (x : ℕ) → counted counts.new.entries x + one_if (is_this x b) ≡ counted counts.old.entries x }
{
    if let Some(b) = b {
        uncount_one(counts, b);
    }
}

// Counts one node fewer for a block, for which one was counted.
fn uncount_one(counts: &mut IndexMap<u32, usize>, b: u32)
    requires { 0 < counted counts.old.entries b }
    ensures { (x : ℕ) → counted counts.new.entries x + one_if (nat_eq x b) ≡ counted counts.old.entries x }
{
    let count = count_of(counts, b) - 1;
    match counts.insert(b, count) {
        Ok(_) => {}
        Err(_) => unreachable!(),
    }
}

// Adds a number where the test holds.
fn push_if(list: &mut Vec<NodeId>, n: NodeId, test: bool) -> Result<(), Memory>
    ensures { OnOk result ((m : ℕ) → has list.new.items m ≡ (if test then (has list.old.items m || nat_eq m n) else has list.old.items m)) }
{
    if test {
        list.push(n)?;
    }
    Ok(())
}
