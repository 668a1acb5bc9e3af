// Blocks that are drafted.
ghost use Rattle.std.specs.Prelude.{◌≡◌, ◌+◌, ◌-◌, ◌<◌, ◌≤◌, ◌^◌, ◌++◌, ◌∷◌, [], ℕ, List, Option, Some, None, IsSome, is_some, false, IfOk, OnErr, IfSome, IfNone, length, slice_get, count_by};
ghost use Rattle.std.specs.Map.{keys_of};
ghost use Rattle.graph_spec.specs.Members.{at, has};
ghost use Rattle.bisim_spec.specs.IndexGraphs.{support_at};
ghost use Rattle.block_partition.specs.LabelledPartitions.{IsLeastFree};
ghost use Rattle.quotient_draft.specs.Drafts.{with_added, has_member};
ghost use Rattle.quotient_draft.specs.Retired.{IsRetired};
ghost use Rattle.quotient_draft.specs.Basis.{AreLeastFree};
ghost use Rattle.quotient_draft.specs.Scans.{from_after};

use crate::emptying::empty_table;
use crate::retiring::retire_if_empty;
use indexmap::IndexMap;
use label_graph::Digraph;
use px_base::Memory;
use quotient::Summary;
use std::alloc::Global;
use std::marker::Model;

/// Blocks that are drafted over a base, by their numbers: the label of each.
#[derive(Drop)]
pub(crate) struct Added {
    blocks: IndexMap<u32, u32>,
}

impl Model for Added {
    ghost use Rattle.std.specs.Prelude.{ℕ, List};

    ghost Value = { List (ℕ × ℕ) };

    ghost view = { λ a. a.blocks.entries };
}

impl Added {
    pub(crate) fn new(alloc: Global) -> Added
        ensures { result ≡ [] }
    {
        Added {
            blocks: IndexMap::new(alloc),
        }
    }

    /// The label of a block as shown, and none where the number is no block as shown.
    pub(crate) fn label(&self, base: &Summary, b: u32) -> Option<u32>
        requires { AreLeastFree base.now.blocks.labels self.now }
        ensures { result ≡ at (with_added base.now.blocks.labels self.now) b }
    {
        match self.blocks.get(&b) {
            Some(label) => Some(*label),
            None => base_label(base, b),
        }
    }

    /// Drafts a block with this label, under the least number that is no block as shown.
    pub(crate) fn new_block(&mut self, base: &Summary, label: u32) -> Result<u32, Memory>
        requires least { AreLeastFree base.now.blocks.labels self.old }
        requires few { count_by is_some (with_added base.now.blocks.labels self.old) < 2 ^ 31 }
        ensures least { IfOk result (IsLeastFree (with_added base.now.blocks.labels self.old)) }
        ensures ok { IfOk result (λ b. self.new ≡ self.old ++ (b, label) ∷ []) }
        ensures err { OnErr result (self.new ≡ self.old) }
    {
        let b = base.next_free(self.from());
        self.blocks.insert(b, label)?;
        Ok(b)
    }

    /// Takes the last block out again.
    pub(crate) fn forget(&mut self)
        ensures { (es : List (ℕ × ℕ)) (e : ℕ × ℕ) → self.old ≡ es ++ e ∷ [] → self.new ≡ es }
    {
        self.blocks.pop();
    }

    /// How many blocks there are.
    pub(crate) fn len(&self) -> usize
        ensures { result ≡ length self.now }
    {
        self.blocks.len()
    }

    /// The numbers of the blocks. All others have the labels that they have in the base.
    pub(crate) fn numbers(&self) -> &[u32]
        ensures { (labels : List (Option ℕ)) (b : ℕ) → has result.now b ≡ false → at (with_added labels self.now) b ≡ at labels b }
    {
        self.blocks.keys().as_slice()
    }

    /// Makes the blocks in the base, which has capacity for them, under the same numbers.
    pub(crate) fn make_in(&self, base: &mut Summary)
        requires least { AreLeastFree base.old.blocks.labels self.now }
        requires reserved { length self.now ≤ base.old.blocks.reserved.blocks }
        requires span { (i : ℕ) (e : ℕ × ℕ) → slice_get self.now i ≡ Some e → e.0 < base.old.reserved.span }
        ensures labels { base.new.blocks.labels ≡ with_added base.old.blocks.labels self.now }
        ensures blocks { base.new.blocks.block_of ≡ base.old.blocks.block_of }
        ensures nodes { base.new.blocks.reserved.nodes ≡ base.old.blocks.reserved.nodes }
        ensures supports { base.new.supports ≡ base.old.supports }
        ensures reserved { base.new.reserved ≡ base.old.reserved }
    {
        for i in 0..self.blocks.len() {
            let Some((_, label)) = self.blocks.get_index(i) else {
                unreachable!()
            };
            base.new_block(*label);
        }
    }

    /// Takes away the blocks among these that have no members in the base.
    pub(crate) fn retire_in(&self, base: &mut Summary)
        requires from { (b c : ℕ) → has_member base.old.blocks.block_of b ≡ false → support_at base.old.supports b c ≡ 0 }
        requires onto { (b c : ℕ) → has_member base.old.blocks.block_of b ≡ false → support_at base.old.supports c b ≡ 0 }
        ensures { IsRetired (keys_of self.now) base.old base.new }
    {
        for i in 0..self.blocks.len() {
            let Some((b, _)) = self.blocks.get_index(i) else {
                unreachable!()
            };
            retire_if_empty(base, *b);
        }
    }

    /// Drops all.
    pub(crate) fn clear(&mut self)
        ensures { self.new ≡ [] }
    {
        empty_table(&mut self.blocks);
    }

    /// A number past each block as shown.
    pub(crate) fn past(&self, base: &Summary) -> u32
        requires least { AreLeastFree base.now.blocks.labels self.now }
        requires few { 0 < length self.now → count_by is_some (with_added base.now.blocks.labels self.now) ≤ 2 ^ 31 }
        ensures { (b : ℕ) → IsSome (at (with_added base.now.blocks.labels self.now) b) → b < result }
    {
        base.size().max(self.from())
    }

    /// The number behind that of the last block, below which all are blocks as shown.
    pub(crate) fn from(&self) -> u32
        requires { from_after 0 self.now ≤ 2 ^ 31 }
        ensures { result ≡ from_after 0 self.now }
    {
        match self.blocks.last() {
            Some((b, _)) => *b + 1,
            None => 0,
        }
    }
}

// The label of a block of the base, and none where the number is no block of it.
fn base_label(base: &Summary, b: u32) -> Option<u32>
    ensures { result ≡ at base.now.blocks.labels b }
{
    if base.is_node(b) {
        return Some(base.label(b));
    }
    None
}
