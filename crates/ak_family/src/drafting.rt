// What is drafted over a family.
ghost use Rattle.std.specs.Prelude.{◌≡◌, ◌+◌, ◌<◌, ◌≤◌, ◌^◌, ◌↔◌, ℕ, List, Option, Some, None, IsSome, IsTrue, is_some, IfOk, OnOk, OnErr, IfSome, nat_eq, if◌then◌else◌, count_by, length};
ghost use Rattle.graph_spec.specs.Members.{at, Lists};
ghost use Rattle.graph_spec.specs.Graphs.{is_live, has_edge};
ghost use Rattle.graph_spec.specs.Shapes.{shape_of};
ghost use Rattle.bisim_spec.specs.Partitions.{IsPartition};
ghost use Rattle.one_spec.specs.EdgeCounts.{AreEdgeCounts};
ghost use Rattle.graph_update.specs.PendingChanges.{graph_after};
ghost use Rattle.block_partition.specs.LabelledPartitions.{IsLeastFree, put};
ghost use Rattle.quotient.specs.QuotientNeighbours.{RaisesPair, LowersPair};
ghost use Rattle.quotient_draft.specs.Drafts.{PutsNode};
ghost use Rattle.quotient_moves.specs.NeighbourCosts.{parents_cost, children_cost};
ghost use Rattle.keyed_quotient.specs.KeyedQuotients.{KeyedQuotient};
ghost use Rattle.keyed_quotient.specs.Changes.{KeyedChanges};
ghost use Rattle.ak_family.specs.Families.{level_at, IsKeyedFamily};
ghost use Rattle.ak_family.specs.LevelDrafts.{changes_at, blocks_shown, labels_shown, support_shown, key_shown, AreOver, AreSameBut, AreBlocksThere, KeepsAllButSupports, KeepsLabelsAndKeys, AreEmpty, ShowsBlock};

use crate::family::AkFamily;
use graph_update::After;
use keyed_quotient::{KeyedDraft, KeyedSummary};
use px_base::{Memory, NodeId, Steps};
use quotient_moves::NodeNeighbours;
use std::alloc::Global;
use std::marker::Model;
use std::sync::ledger::Ledger;

/// A block of a level.
#[derive(Clone, Copy)]
pub struct LevelBlock {
    /// The level, from 0 on.
    pub level: u32,
    /// The number of the block there.
    pub block: u32,
}

/// What is drafted over a family, level by level: further blocks with their keys, moves of nodes, and supports. Reads
/// show the family as it will be once the draft is settled. Each call takes the family; its blocks, labels and keys
/// must stay while something is drafted.
///
/// A node moves to the block of a key at level 1, which is a further one where no block has the key:
///
///     let mut draft = AkDraft::new(alloc, family.k())?;
///     let block = family.keyed_block(&mut draft, 1, label, &key)?;
///     family.put(&mut draft, 1, node, Some(block))?;
pub struct AkDraft {
    pub(crate) levels: Vec<KeyedDraft>,
}

impl Drop for AkDraft {
    // By hand, so that no crate above proves how the tables are dropped.
    fn drop(self) {
        let AkDraft { levels } = self;
        drop(levels);
    }
}

impl Model for AkDraft {
    ghost use Rattle.std.specs.Prelude.{List};
    ghost use Rattle.keyed_quotient.specs.Changes.{KeyedChanges};

    ghost Value = { List KeyedChanges };

    ghost view = { λ d. d.levels.items };
}

impl AkDraft {
    /// Nothing is drafted, at levels up to `k`. O(k); it takes the memory of an empty draft for each level.
    pub fn new(alloc: Global, k: u32) -> Result<AkDraft, Memory>
        ensures count { IfOk result (λ d. length d ≡ k + 1) }
        ensures empty { IfOk result AreEmpty }
        ensures over { IfOk result (λ d. (f : List KeyedQuotient) → IsKeyedFamily f → length f ≡ k + 1 → AreOver f d) }
    {
        let mut levels = Vec::new(alloc);
        for _ in 0..k as usize + 1 {
            levels.push(KeyedDraft::new(alloc)?)?;
        }
        Ok(AkDraft { levels })
    }

    /// Drops all that is drafted, as `KeyedDraft::clear` does at each level. No memory.
    pub fn clear(&mut self)
        ensures count { length self.new ≡ length self.old }
        ensures empty { AreEmpty self.new }
        ensures over { (f : List KeyedQuotient) → IsKeyedFamily f → length f ≡ length self.old → AreOver f self.new }
    {
        for i in 0..self.levels.len() {
            self.levels[i].clear();
        }
    }

    /// Whether it has had many further blocks at a level, so that it had better be dropped than kept. O(k), no memory.
    pub fn is_large(&self) -> bool {
        for i in 0..self.levels.len() {
            if self.levels[i].is_large() {
                return true;
            }
        }
        false
    }
}

// Reading.
impl AkFamily {
    /// The block of a node at a level as shown, and none where it has none. Expected O(1), no memory.
    pub fn shown(&self, d: &AkDraft, i: u32, n: NodeId) -> Option<u32>
        requires over { AreOver self.now d.now }
        requires level { i < length self.now }
        ensures block { result ≡ at (blocks_shown self.now d.now i) n }
        ensures live { IfSome result (λ b. IsSome (at (labels_shown self.now d.now i) b)) }
    {
        draft_of(&d.levels, i as usize).block_of(level_of(&self.levels, i), n)
    }

    /// How many blocks a level has as shown. O(1), no memory.
    pub fn block_count_shown(&self, d: &AkDraft, i: u32) -> u32
        requires over { AreOver self.now d.now }
        requires level { i < length self.now }
        ensures count { result ≡ count_by is_some (labels_shown self.now d.now i) }
    {
        draft_of(&d.levels, i as usize).blocks(level_of(&self.levels, i))
    }

    /// The block of a level that has the key as shown, and none exactly where no block has it. Expected O(l) for a key
    /// of l numbers, no memory.
    pub fn find(&self, d: &AkDraft, i: u32, key: &[u32]) -> Option<u32>
        requires over { AreOver self.now d.now }
        requires level { i < length self.now }
        ensures leads { (b : ℕ) → (result ≡ Some b) ↔ (key_shown self.now d.now i b ≡ Some key.now) }
        ensures live { IfSome result (λ b. IsSome (at (labels_shown self.now d.now i) b)) }
    {
        draft_of(&d.levels, i as usize).find(level_of(&self.levels, i), key)
    }
}

// Drafting.
impl AkFamily {
    /// Drafts a block of a level, without members, with a key that no block has there as shown. Its number is the least
    /// that is no block there as shown. Expected O(l) for a key of l numbers, amortized; it takes the memory of a block
    /// and of the key.
    pub fn new_block(&self, d: &mut AkDraft, i: u32, label: u32, key: &[u32]) -> Result<u32, Memory>
        requires over { AreOver self.now d.old }
        requires level { i < length self.now }
        requires few { count_by is_some (labels_shown self.now d.old i) < 2 ^ 31 }
        requires fresh { (b : ℕ) → key_shown self.now d.old i b ≡ Some key.now → ⊥ }
        ensures least { IfOk result (IsLeastFree (labels_shown self.now d.old i)) }
        ensures blocks { blocks_shown self.now d.new i ≡ blocks_shown self.now d.old i }
        ensures labels { IfOk result (λ b. labels_shown self.now d.new i ≡ put (labels_shown self.now d.old i) b label) }
        ensures supports { (x y : ℕ) → support_shown self.now d.new i x y ≡ support_shown self.now d.old i x y }
        ensures keys { IfOk result (λ b. (c : ℕ) → key_shown self.now d.new i c ≡ (if nat_eq c b then Some key.now else key_shown self.now d.old i c)) }
        ensures others { AreSameBut i d.old d.new }
        ensures over { AreOver self.now d.new }
        ensures err { OnErr result (d.new ≡ d.old) }
    {
        let level = level_of(&self.levels, i);
        let b = d.levels[i as usize].new_block(level, label, key)?;
        Ok(b)
    }

    // Drafts a block of a level, with a key that no block has there as shown. Past 2^31 blocks there is no number for one.
    fn further_block(&self, d: &mut AkDraft, i: u32, label: u32, key: &[u32]) -> Result<u32, Memory>
        requires over { AreOver self.now d.old }
        requires level { i < length self.now }
        requires fresh { (b : ℕ) → key_shown self.now d.old i b ≡ Some key.now → ⊥ }
        ensures block { IfOk result (λ b. ShowsBlock self.now i d.old d.new label key.now b) }
        ensures blocks { blocks_shown self.now d.new i ≡ blocks_shown self.now d.old i }
        ensures supports { (x y : ℕ) → support_shown self.now d.new i x y ≡ support_shown self.now d.old i x y }
        ensures others { AreSameBut i d.old d.new }
        ensures over { AreOver self.now d.new }
        ensures err { OnErr result (d.new ≡ d.old) }
    {
        if self.block_count_shown(d, i) >= 1 << 31 {
            return Err(Memory);
        }
        let b = self.new_block(d, i, label, key)?;
        Ok(b)
    }

    /// The block of a level that has the key as shown. Where none has it, one is drafted, with this label and without
    /// members. Past 2^31 blocks there is no number for one, which is answered as memory that ran out. Expected O(l)
    /// for a key of l numbers; it takes memory where a block is drafted, as `new_block` does.
    pub fn keyed_block(
        &self,
        d: &mut AkDraft,
        i: u32,
        label: u32,
        key: &[u32],
    ) -> Result<u32, Memory>
        requires over { AreOver self.now d.old }
        requires level { i < length self.now }
        ensures block { IfOk result (λ b. ShowsBlock self.now i d.old d.new label key.now b) }
        ensures blocks { blocks_shown self.now d.new i ≡ blocks_shown self.now d.old i }
        ensures supports { (x y : ℕ) → support_shown self.now d.new i x y ≡ support_shown self.now d.old i x y }
        ensures others { AreSameBut i d.old d.new }
        ensures over { AreOver self.now d.new }
        ensures err { OnErr result (d.new ≡ d.old) }
    {
        match self.find(d, i, key) {
            Some(b) => Ok(b),
            None => self.further_block(d, i, label, key),
        }
    }

    /// Drafts the move of a node, which is below 2^31, to a block of a level as shown, or out of its block there.
    /// Expected O(1), amortized; it takes the memory of one move.
    pub fn put(&self, d: &mut AkDraft, i: u32, n: NodeId, b: Option<u32>) -> Result<(), Memory>
        requires over { AreOver self.now d.old }
        requires level { i < length self.now }
        requires small { n < 2 ^ 31 }
        requires block { IfSome b (λ b. IsSome (at (labels_shown self.now d.old i) b)) }
        ensures blocks { OnOk result (PutsNode n b (blocks_shown self.now d.old i) (blocks_shown self.now d.new i)) }
        ensures labels { labels_shown self.now d.new i ≡ labels_shown self.now d.old i }
        ensures supports { (x y : ℕ) → support_shown self.now d.new i x y ≡ support_shown self.now d.old i x y }
        ensures keys { (b : ℕ) → key_shown self.now d.new i b ≡ key_shown self.now d.old i b }
        ensures others { AreSameBut i d.old d.new }
        ensures over { AreOver self.now d.new }
        ensures err { OnErr result (d.new ≡ d.old) }
    {
        let level = level_of(&self.levels, i);
        d.levels[i as usize].put(level, n, b)?;
        Ok(())
    }

    /// Drafts that one more edge leads from `a` to `b`, both blocks of a level as shown. Expected O(1), amortized; it
    /// takes the memory of one pair.
    pub fn raise(&self, d: &mut AkDraft, i: u32, a: u32, b: u32) -> Result<(), Memory>
        requires there { AreBlocksThere self.now d.old i a b }
        requires few { support_shown self.now d.old i a b < 2 ^ 31 }
        ensures raised { OnOk result (RaisesPair a b (support_shown self.now d.old i) (support_shown self.now d.new i)) }
        ensures kept { KeepsAllButSupports self.now i d.old d.new }
        ensures err { OnErr result (d.new ≡ d.old) }
    {
        let level = level_of(&self.levels, i);
        d.levels[i as usize].raise(level, a, b)?;
        Ok(())
    }

    /// Drafts that one edge fewer leads from `a` to `b`, both blocks of a level as shown, which have support. Expected
    /// O(1), amortized; it takes the memory of one pair.
    pub fn lower(&self, d: &mut AkDraft, i: u32, a: u32, b: u32) -> Result<(), Memory>
        requires there { AreBlocksThere self.now d.old i a b }
        requires some { 0 < support_shown self.now d.old i a b }
        ensures lowered { OnOk result (LowersPair a b (support_shown self.now d.old i) (support_shown self.now d.new i)) }
        ensures kept { KeepsAllButSupports self.now i d.old d.new }
        ensures err { OnErr result (d.new ≡ d.old) }
    {
        let level = level_of(&self.levels, i);
        d.levels[i as usize].lower(level, a, b)?;
        Ok(())
    }

    /// Drafts the move of a node to a block of a level as shown, with the supports of its edges there. Its parents and
    /// its children are read once, and its children stay in `neighbours`. After `Memory` the draft must be cleared
    /// before it is used again. Expected O(p + c) for p parents and c children; it takes the memory of one move and of
    /// two pairs for each.
    pub fn move_node<L: Ledger>(
        &self,
        d: &mut AkDraft,
        after: &After<'_>,
        n: NodeId,
        to: LevelBlock,
        neighbours: &mut NodeNeighbours,
        steps: &mut Steps<L>,
    ) -> Result<(), Memory>
        requires over { AreOver self.now d.old }
        requires level { to.level < length self.now }
        requires live { IsTrue (is_live (graph_after after.now) n) }
        requires partition { IsPartition (shape_of (graph_after after.now)) (blocks_shown self.now d.old to.level) }
        requires block { IsSome (at (labels_shown self.now d.old to.level) to.block) }
        requires supports { AreEdgeCounts (graph_after after.now) (blocks_shown self.now d.old to.level) (support_shown self.now d.old to.level) }
        ensures moved { OnOk result (PutsNode n (Some to.block) (blocks_shown self.now d.old to.level) (blocks_shown self.now d.new to.level)) }
        ensures supports { OnOk result (AreEdgeCounts (graph_after after.now) (blocks_shown self.now d.new to.level) (support_shown self.now d.new to.level)) }
        ensures children { OnOk result (Lists (has_edge (graph_after after.now) n) neighbours.new) }
        ensures kept { KeepsLabelsAndKeys self.now to.level d.old d.new }
        ensures over { OnOk result (AreOver self.now d.new) }
        ensures cost { steps.new ≤ steps.old + parents_cost after.now n + children_cost after.now n }
    {
        let level = level_of(&self.levels, to.level);
        d.levels[to.level as usize].move_node(level, after, n, to.block, neighbours, steps)?;
        Ok(())
    }
}

// A level of a family.
pub(crate) fn level_of(levels: &Vec<KeyedSummary>, i: u32) -> &KeyedSummary
    requires { i < length levels.now.items }
    ensures { result.now ≡ level_at levels.now.items i }
{
    &levels[i as usize]
}

// What is drafted at a level.
pub(crate) fn draft_of(drafts: &Vec<KeyedDraft>, i: usize) -> &KeyedDraft
    requires { i < length drafts.now.items }
    ensures { result.now ≡ changes_at drafts.now.items i }
{
    &drafts[i]
}
