// A draft over the quotient of a graph.
ghost use Rattle.std.specs.Prelude.{◌≡◌, ◌+◌, ◌<◌, ◌^◌, ◌++◌, ◌∷◌, [], ℕ, List, Option, Some, IsSome, is_some, IfOk, OnOk, OnErr, IfSome, count_by};
ghost use Rattle.graph_spec.specs.Members.{at};
ghost use Rattle.block_partition.specs.LabelledPartitions.{IsLeastFree, put};
ghost use Rattle.quotient.specs.QuotientNeighbours.{RaisesPair, LowersPair};
ghost use Rattle.quotient_draft.specs.Drafts.{no_changes, shown_labels, shown_blocks, shown_support, with_left, PutsNode};
ghost use Rattle.quotient_draft.specs.Basis.{IsOver};

use crate::added::Added;
use crate::changed::Changed;
use crate::moves::Moves;
use px_base::{Memory, NodeId};
use quotient::Summary;
use std::alloc::Global;
use std::marker::Model;

/// What is drafted over a base, which is the quotient of a graph: further blocks, moves of nodes, and
/// supports. Reads show the base as it will be once the draft is settled. Each call takes the base; its
/// labels must stay while something is drafted, and what is shown follows the base's blocks and supports.
///
/// It takes memory for each block, move and pair that is drafted.
///
/// A node moves to a block of its own once the draft is settled:
///
///     let mut draft = Draft::new(alloc)?;
///     let block = draft.new_block(&base, label)?;
///     draft.put(&base, node, Some(block))?;
pub struct Draft {
    pub(crate) added: Added,
    pub(crate) moves: Moves,
    pub(crate) changed: Changed,
}

impl Drop for Draft {
    // By hand, so that no crate above proves how the tables are dropped.
    fn drop(self) {
        let Draft {
            added,
            moves,
            changed,
        } = self;
        drop(added);
        drop(moves);
        drop(changed);
    }
}

impl Model for Draft {
    ghost use Rattle.quotient_draft.specs.Drafts.{Drafted};

    ghost Value = { Drafted };

    ghost view = { λ d. record { added = d.added; moves = d.moves.moves; left = d.moves.left; taken = d.moves.taken; supports = d.changed } };
}

// Reading.
impl Draft {
    /// Nothing is drafted. O(1), no memory until something is.
    pub fn new(alloc: Global) -> Result<Draft, Memory>
        ensures empty { IfOk result (λ d. d ≡ no_changes) }
        ensures over { (block labels : List (Option ℕ)) → IfOk result (IsOver block labels) }
    {
        Ok(Draft {
            added: Added::new(alloc),
            moves: Moves::new(alloc),
            changed: Changed::new(alloc),
        })
    }

    /// The block of a node as shown, and none where it has none. Expected O(1), no memory.
    pub fn block_of(&self, base: &Summary, n: NodeId) -> Option<u32>
        requires over { IsOver base.now.blocks.block_of base.now.blocks.labels self.now }
        ensures block { result ≡ at (shown_blocks base.now self.now) n }
        ensures live { IfSome result (λ b. IsSome (at (shown_labels base.now self.now) b)) }
    {
        self.moves.block_of(base, n)
    }

    /// The label of a block as shown, and none where the number is that of no block. Expected O(1), no memory.
    pub fn label_of(&self, base: &Summary, b: u32) -> Option<u32>
        requires over { IsOver base.now.blocks.block_of base.now.blocks.labels self.now }
        ensures { result ≡ at (shown_labels base.now self.now) b }
    {
        self.added.label(base, b)
    }

    /// Whether the number is that of a block as shown. Expected O(1), no memory.
    pub fn is_block(&self, base: &Summary, b: u32) -> bool
        requires over { IsOver base.now.blocks.block_of base.now.blocks.labels self.now }
        ensures { result ≡ is_some (at (shown_labels base.now self.now) b) }
    {
        self.added.label(base, b).is_some()
    }

    /// The label of a block as shown. Expected O(1), no memory.
    pub fn label(&self, base: &Summary, b: u32) -> u32
        requires over { IsOver base.now.blocks.block_of base.now.blocks.labels self.now }
        requires block { IsSome (at (shown_labels base.now self.now) b) }
        ensures { at (shown_labels base.now self.now) b ≡ Some result }
    {
        self.added.label(base, b).unwrap()
    }

    /// How many edges lead from a member of `a` to a member of `b` as shown. Expected O(1), no memory.
    pub fn support(&self, base: &Summary, a: u32, b: u32) -> u32
        ensures { result ≡ shown_support base.now self.now a b }
    {
        self.changed.get(base, a, b)
    }
}

// Drafting.
impl Draft {
    /// Drafts a block without members, and gives its number, the least that is no block as shown. On `Memory` the
    /// draft stays. Expected O(1), amortized; it takes the memory of one block.
    pub fn new_block(&mut self, base: &Summary, label: u32) -> Result<u32, Memory>
        requires over { IsOver base.now.blocks.block_of base.now.blocks.labels self.old }
        requires few { count_by is_some (shown_labels base.now self.old) < 2 ^ 31 }
        ensures least { IfOk result (IsLeastFree (shown_labels base.now self.old)) }
        ensures ok { IfOk result (λ b. self.new ≡ record self.old { added = self.old.added ++ (b, label) ∷ [] }) }
        ensures labels { IfOk result (λ b. shown_labels base.now self.new ≡ put (shown_labels base.now self.old) b label) }
        ensures over { OnOk result (IsOver base.now.blocks.block_of base.now.blocks.labels self.new) }
        ensures err { OnErr result (self.new ≡ self.old) }
    {
        let b = self.added.new_block(base, label)?;
        Ok(b)
    }

    /// Takes out the block that was drafted last. If nothing else was drafted since, the draft is as it was before that
    /// block. Expected O(1), no memory.
    pub fn forget_block(&mut self)
        ensures { (es : List (ℕ × ℕ)) (e : ℕ × ℕ) → self.old.added ≡ es ++ e ∷ [] → self.new ≡ record self.old { added = es } }
    {
        self.added.forget();
    }

    /// Drafts the move of a node, which is below 2^31, to a block as shown, or out of its block. On `Memory` the draft
    /// stays. Expected O(1), amortized; it takes the memory of one move.
    pub fn put(&mut self, base: &Summary, n: NodeId, b: Option<u32>) -> Result<(), Memory>
        requires over { IsOver base.now.blocks.block_of base.now.blocks.labels self.old }
        requires small { n < 2 ^ 31 }
        requires block { IfSome b (λ b. IsSome (at (shown_labels base.now self.old) b)) }
        ensures blocks { OnOk result (PutsNode n b (shown_blocks base.now self.old) (shown_blocks base.now self.new)) }
        ensures added { self.new.added ≡ self.old.added }
        ensures left { OnOk result (self.new.left ≡ with_left self.old.left (at (shown_blocks base.now self.old) n)) }
        ensures supports { self.new.supports ≡ self.old.supports }
        ensures over { OnOk result (IsOver base.now.blocks.block_of base.now.blocks.labels self.new) }
        ensures err { OnErr result (self.new ≡ self.old) }
    {
        self.moves.put(base, n, b)?;
        Ok(())
    }

    /// Drafts that one more edge leads from `a` to `b`, both blocks as shown. On `Memory` the draft stays. Expected
    /// O(1), amortized; it takes the memory of one pair.
    pub fn raise(&mut self, base: &Summary, a: u32, b: u32) -> Result<(), Memory>
        requires over { IsOver base.now.blocks.block_of base.now.blocks.labels self.old }
        requires from { IsSome (at (shown_labels base.now self.old) a) }
        requires onto { IsSome (at (shown_labels base.now self.old) b) }
        requires few { shown_support base.now self.old a b < 2 ^ 31 }
        ensures raised { OnOk result (RaisesPair a b (shown_support base.now self.old) (shown_support base.now self.new)) }
        ensures added { self.new.added ≡ self.old.added }
        ensures moves { self.new.moves ≡ self.old.moves }
        ensures left { self.new.left ≡ self.old.left }
        ensures over { OnOk result (IsOver base.now.blocks.block_of base.now.blocks.labels self.new) }
        ensures err { OnErr result (self.new ≡ self.old) }
    {
        let (n, is_drafted) = self.changed.find(base, a, b);
        self.changed.set(a, b, n + 1, is_drafted)?;
        Ok(())
    }

    /// Drafts that one edge fewer leads from `a` to `b`, both blocks as shown, which have support. On `Memory` the
    /// draft stays. Expected O(1), amortized; it takes the memory of one pair.
    pub fn lower(&mut self, base: &Summary, a: u32, b: u32) -> Result<(), Memory>
        requires over { IsOver base.now.blocks.block_of base.now.blocks.labels self.old }
        requires from { IsSome (at (shown_labels base.now self.old) a) }
        requires onto { IsSome (at (shown_labels base.now self.old) b) }
        requires some { 0 < shown_support base.now self.old a b }
        ensures lowered { OnOk result (LowersPair a b (shown_support base.now self.old) (shown_support base.now self.new)) }
        ensures added { self.new.added ≡ self.old.added }
        ensures moves { self.new.moves ≡ self.old.moves }
        ensures left { self.new.left ≡ self.old.left }
        ensures over { OnOk result (IsOver base.now.blocks.block_of base.now.blocks.labels self.new) }
        ensures err { OnErr result (self.new ≡ self.old) }
    {
        let (n, is_drafted) = self.changed.find(base, a, b);
        self.changed.set(a, b, n - 1, is_drafted)?;
        Ok(())
    }

    /// Drops all that is drafted. The memory of small tables is kept, that of large ones given back. O(d) for d entries that are
    /// drafted, no memory.
    pub fn clear(&mut self)
        ensures empty { self.new ≡ no_changes }
        ensures over { (block labels : List (Option ℕ)) → IsOver block labels self.new }
    {
        self.added.clear();
        self.moves.clear();
        self.changed.clear();
    }
}
