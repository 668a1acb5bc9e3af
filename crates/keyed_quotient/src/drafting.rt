// What is drafted over a quotient whose blocks have keys.
ghost use Rattle.std.specs.Prelude.{◌≡◌, ◌+◌, ◌<◌, ◌≤◌, ◌^◌, ◌++◌, ◌∷◌, ◌↔◌, [], ℕ, List, Option, Some, None, IsSome, IsTrue, is_some, IfOk, OnOk, OnErr, IfSome, IfNone, nat_eq, count_by, length, slice_get};
ghost use Rattle.std.specs.List.{IsDistinct};
ghost use Rattle.std.specs.Map.{lookup, keys_of};
ghost use Rattle.key_table.specs.NumberedKeys.{IsAbsent};
ghost use Rattle.graph_spec.specs.Members.{at, Lists};
ghost use Rattle.graph_spec.specs.Graphs.{is_live, has_edge};
ghost use Rattle.graph_spec.specs.Shapes.{shape_of};
ghost use Rattle.bisim_spec.specs.Partitions.{IsPartition};
ghost use Rattle.one_spec.specs.EdgeCounts.{AreEdgeCounts};
ghost use Rattle.graph_update.specs.PendingChanges.{graph_after};
ghost use Rattle.block_partition.specs.LabelledPartitions.{IsLeastFree, put};
ghost use Rattle.quotient.specs.QuotientNeighbours.{RaisesPair, LowersPair};
ghost use Rattle.quotient_draft.specs.Drafts.{with_left, PutsNode};
ghost use Rattle.quotient_moves.specs.NeighbourCosts.{parents_cost, children_cost};
ghost use Rattle.keyed_quotient.specs.KeyedQuotients.{KeyedQuotient, AreKeyed, key_at};
ghost use Rattle.keyed_quotient.specs.Changes.{no_keyed_changes, blocks_as_shown, labels_as_shown, support_as_shown, shown_key, IsKeyedOver, SetsKey};

use crate::keyed::KeyedSummary;
use graph_update::After;
use key_table::KeyTable;
use px_base::{Memory, NodeId, Steps};
use quotient_draft::Draft;
use quotient_moves::{NodeNeighbours, move_node};
use std::alloc::Global;
use std::marker::Model;
use std::sync::ledger::Ledger;

// Past so many further blocks a draft is large.
const MOST_KEPT: usize = 72;

/// What is drafted over a base, which is a quotient whose blocks have keys: further blocks with their keys, moves of nodes,
/// and supports. Reads show the base as it will be once the draft is settled. Each call takes the base; its blocks,
/// labels and keys must stay while something is drafted.
///
/// It takes memory for each block, with its key, and for each move and pair that is drafted.
///
/// A node moves to the block of a key, which is a further one where no block has the key:
///
///     let block = match draft.find(&base, &key) {
///         Some(block) => block,
///         None => draft.new_block(&base, label, &key)?,
///     };
///     draft.put(&base, node, Some(block))?;
pub struct KeyedDraft {
    pub(crate) draft: Draft,
    // The further blocks, and the key of each, by its place.
    pub(crate) blocks: Vec<u32>,
    pub(crate) keys: KeyTable,
}

impl Drop for KeyedDraft {
    // By hand, so that no crate above proves how the tables are dropped.
    fn drop(self) {
        let KeyedDraft {
            draft,
            blocks,
            keys,
        } = self;
        drop(draft);
        drop(blocks);
        drop(keys);
    }
}

impl Model for KeyedDraft {
    ghost use Rattle.std.specs.Prelude.{◌≡◌, length};
    ghost use Rattle.std.specs.List.{zip};
    ghost use Rattle.keyed_quotient.specs.Changes.{KeyedChanges};

    ghost Value = { KeyedChanges };

    ghost view = { λ d. record { drafted = d.draft; keys = zip d.blocks.items d.keys } };

    ghost invariant = { λ d. length d.blocks.items ≡ length d.keys };
}

// Reading.
impl KeyedDraft {
    /// Nothing is drafted. O(1); it takes the memory of an empty table of keys.
    pub fn new(alloc: Global) -> Result<KeyedDraft, Memory>
        ensures empty { IfOk result (λ d. d ≡ no_keyed_changes) }
    {
        let draft = Draft::new(alloc)?;
        let keys = KeyTable::new(alloc)?;
        Ok(KeyedDraft {
            draft,
            blocks: Vec::new(alloc),
            keys,
        })
    }

    /// The block of a node as shown, and none where it has none. Expected O(1), no memory.
    pub fn block_of(&self, base: &KeyedSummary, n: NodeId) -> Option<u32>
        requires over { IsKeyedOver base.now self.now }
        ensures block { result ≡ at (blocks_as_shown base.now self.now) n }
        ensures live { IfSome result (λ b. IsSome (at (labels_as_shown base.now self.now) b)) }
    {
        self.draft.block_of(&base.summary, n)
    }

    /// How many blocks there are as shown. O(1), no memory.
    pub fn blocks(&self, base: &KeyedSummary) -> u32
        requires over { IsKeyedOver base.now self.now }
        ensures count { result ≡ count_by is_some (labels_as_shown base.now self.now) }
    {
        self.draft.blocks(&base.summary)
    }

    /// The block that has the key as shown, and none exactly where no block has it. Expected O(l) for a key of l numbers, no
    /// memory.
    pub fn find(&self, base: &KeyedSummary, key: &[u32]) -> Option<u32>
        requires over { IsKeyedOver base.now self.now }
        ensures leads { (b : ℕ) → (result ≡ Some b) ↔ (shown_key base.now self.now b ≡ Some key.now) }
        ensures live { IfSome result (λ b. IsSome (at (labels_as_shown base.now self.now) b)) }
    {
        match self.further(key) {
            Some(b) => Some(b),
            None => base.find(key),
        }
    }

    // The further block with this key.
    fn further(&self, key: &[u32]) -> Option<u32>
        requires once { IsDistinct nat_eq (keys_of self.now.keys) }
        ensures found { IfSome result (λ b. lookup (nat_eq b) self.now.keys ≡ Some key.now) }
        ensures absent { IfNone result ((b : ℕ) → lookup (nat_eq b) self.now.keys ≡ Some key.now → ⊥) }
    {
        match self.keys.find(key) {
            Some(i) => Some(read(&self.blocks, i)),
            None => None,
        }
    }
}

// What stands at a place.
pub(crate) fn read(list: &[u32], i: u32) -> u32
    requires { i < length list.now }
    ensures { slice_get list.now i ≡ Some result }
{
    list[i as usize]
}

// Puts a block with its key, which is new, behind the others.
fn note(blocks: &mut Vec<u32>, keys: &mut KeyTable, b: u32, key: &[u32]) -> Result<(), Memory>
    requires even { length blocks.old.items ≡ length keys.old }
    requires absent { IsAbsent keys.old key.now }
    ensures blocks { OnOk result (blocks.new.items ≡ blocks.old.items ++ b ∷ []) }
    ensures keys { OnOk result (keys.new ≡ keys.old ++ key.now ∷ []) }
    ensures err { OnErr result ((blocks.new.items ≡ blocks.old.items) × (keys.new ≡ keys.old)) }
{
    blocks.reserve(1)?;
    keys.intern(key)?;
    blocks.push_reserved(b);
    Ok(())
}

// Drafting.
impl KeyedDraft {
    /// Drafts a block without members, with a key that no block has as shown, and gives its number, the least that is
    /// no block as shown. Expected O(l) for a key of l numbers, amortized; it takes the memory of a block and of the
    /// key.
    pub fn new_block(&mut self, base: &KeyedSummary, label: u32, key: &[u32]) -> Result<u32, Memory>
        requires over { IsKeyedOver base.now self.old }
        requires few { count_by is_some (labels_as_shown base.now self.old) < 2 ^ 31 }
        requires fresh { (b : ℕ) → shown_key base.now self.old b ≡ Some key.now → ⊥ }
        ensures least { IfOk result (IsLeastFree (labels_as_shown base.now self.old)) }
        ensures added { IfOk result (λ b. self.new.drafted ≡ record self.old.drafted { added = self.old.drafted.added ++ (b, label) ∷ [] }) }
        ensures labels { IfOk result (λ b. labels_as_shown base.now self.new ≡ put (labels_as_shown base.now self.old) b label) }
        ensures keys { IfOk result (λ b. SetsKey b key.now (shown_key base.now self.old) (shown_key base.now self.new)) }
        ensures over { OnOk result (IsKeyedOver base.now self.new) }
        ensures err { OnErr result (self.new ≡ self.old) }
    {
        let b = self.draft.new_block(&base.summary, label)?;
        match note(&mut self.blocks, &mut self.keys, b, key) {
            Ok(()) => Ok(b),
            Err(error) => {
                self.draft.forget_block();
                Err(error)
            }
        }
    }

    /// Drafts the move of a node, which is below 2^31, to a block as shown, or out of its block. Expected O(1),
    /// amortized; it takes the memory of one move.
    pub fn put(&mut self, base: &KeyedSummary, n: NodeId, b: Option<u32>) -> Result<(), Memory>
        requires over { IsKeyedOver base.now self.old }
        requires small { n < 2 ^ 31 }
        requires block { IfSome b (λ b. IsSome (at (labels_as_shown base.now self.old) b)) }
        ensures blocks { OnOk result (PutsNode n b (blocks_as_shown base.now self.old) (blocks_as_shown base.now self.new)) }
        ensures added { self.new.drafted.added ≡ self.old.drafted.added }
        ensures supports { self.new.drafted.supports ≡ self.old.drafted.supports }
        ensures keys { self.new.keys ≡ self.old.keys }
        ensures over { OnOk result (IsKeyedOver base.now self.new) }
        ensures err { OnErr result (self.new ≡ self.old) }
    {
        self.draft.put(&base.summary, n, b)?;
        Ok(())
    }

    /// Drafts that one more edge leads from `a` to `b`, both blocks as shown. Expected O(1), amortized; it takes the
    /// memory of one pair.
    pub fn raise(&mut self, base: &KeyedSummary, a: u32, b: u32) -> Result<(), Memory>
        requires over { IsKeyedOver base.now self.old }
        requires from { IsSome (at (labels_as_shown base.now self.old) a) }
        requires onto { IsSome (at (labels_as_shown base.now self.old) b) }
        requires few { support_as_shown base.now self.old a b < 2 ^ 31 }
        ensures raised { OnOk result (RaisesPair a b (support_as_shown base.now self.old) (support_as_shown base.now self.new)) }
        ensures added { self.new.drafted.added ≡ self.old.drafted.added }
        ensures moves { self.new.drafted.moves ≡ self.old.drafted.moves }
        ensures keys { self.new.keys ≡ self.old.keys }
        ensures over { OnOk result (IsKeyedOver base.now self.new) }
        ensures err { OnErr result (self.new ≡ self.old) }
    {
        self.draft.raise(&base.summary, a, b)?;
        Ok(())
    }

    /// Drafts that one edge fewer leads from `a` to `b`, both blocks as shown, which have support. Expected O(1),
    /// amortized; it takes the memory of one pair.
    pub fn lower(&mut self, base: &KeyedSummary, a: u32, b: u32) -> Result<(), Memory>
        requires over { IsKeyedOver base.now self.old }
        requires from { IsSome (at (labels_as_shown base.now self.old) a) }
        requires onto { IsSome (at (labels_as_shown base.now self.old) b) }
        requires some { 0 < support_as_shown base.now self.old a b }
        ensures lowered { OnOk result (LowersPair a b (support_as_shown base.now self.old) (support_as_shown base.now self.new)) }
        ensures added { self.new.drafted.added ≡ self.old.drafted.added }
        ensures moves { self.new.drafted.moves ≡ self.old.drafted.moves }
        ensures keys { self.new.keys ≡ self.old.keys }
        ensures over { OnOk result (IsKeyedOver base.now self.new) }
        ensures err { OnErr result (self.new ≡ self.old) }
    {
        self.draft.lower(&base.summary, a, b)?;
        Ok(())
    }

    /// Drafts the move of a node to a block as shown, with the supports of its edges. Its parents and its children are
    /// read once, and its children stay in `neighbours`. After `Memory` the draft must be cleared before it is used
    /// again. Expected O(p + c) for p parents and c children; it takes the memory of one move and of two pairs for
    /// each.
    pub fn move_node<L: Ledger>(
        &mut self,
        base: &KeyedSummary,
        after: &After<'_>,
        n: NodeId,
        b: u32,
        neighbours: &mut NodeNeighbours,
        steps: &mut Steps<L>,
    ) -> Result<(), Memory>
        requires over { IsKeyedOver base.now self.old }
        requires live { IsTrue (is_live (graph_after after.now) n) }
        requires partition { IsPartition (shape_of (graph_after after.now)) (blocks_as_shown base.now self.old) }
        requires block { IsSome (at (labels_as_shown base.now self.old) b) }
        requires supports { AreEdgeCounts (graph_after after.now) (blocks_as_shown base.now self.old) (support_as_shown base.now self.old) }
        ensures moved { OnOk result (PutsNode n (Some b) (blocks_as_shown base.now self.old) (blocks_as_shown base.now self.new)) }
        ensures added { self.new.drafted.added ≡ self.old.drafted.added }
        ensures keys { self.new.keys ≡ self.old.keys }
        ensures supports { OnOk result (AreEdgeCounts (graph_after after.now) (blocks_as_shown base.now self.new) (support_as_shown base.now self.new)) }
        ensures children { OnOk result (Lists (has_edge (graph_after after.now) n) neighbours.new) }
        ensures over { OnOk result (IsKeyedOver base.now self.new) }
        ensures cost { steps.new ≤ steps.old + parents_cost after.now n + children_cost after.now n }
    {
        move_node(
            &base.summary,
            &mut self.draft,
            after,
            n,
            b,
            neighbours,
            steps,
        )?;
        Ok(())
    }

    /// Drops all that is drafted. O(t) for t further blocks at the largest number that the draft has had, and for the other entries
    /// that are drafted; no memory. The memory of small tables is kept, and that of large ones but for further blocks given back.
    pub fn clear(&mut self)
        ensures empty { self.new ≡ no_keyed_changes }
    {
        self.draft.clear();
        self.blocks.clear();
        self.keys.clear();
    }

    /// Whether it has had many further blocks, so that it had better be dropped than cleared. O(1), no memory.
    pub fn is_large(&self) -> bool {
        self.blocks.capacity() > MOST_KEPT
    }
}
