// Drafting a support, or the move of a node that has a block.
ghost use Rattle.std.specs.Prelude.{◌≡◌, ◌<◌, ℕ, Some, IsSome, OnOk, OnErr};
ghost use Rattle.graph_spec.specs.Members.{at, has};
ghost use Rattle.quotient_draft.specs.Drafts.{shown_labels, shown_blocks, shown_support, with_left, SetsPair, PutsNode};
ghost use Rattle.quotient_draft.specs.Basis.{IsOver};

use crate::draft::Draft;
use px_base::{Memory, NodeId};
use quotient::Summary;

impl Draft {
    /// Drafts the support of a pair, both blocks as shown. On `Memory` the draft stays. Expected O(1), amortized; it
    /// takes the memory of one pair.
    pub fn set_support(&mut self, base: &Summary, a: u32, b: u32, n: u32) -> Result<(), Memory>
        requires over { IsOver base.now.blocks.block_of base.now.blocks.labels self.old }
        requires from { IsSome (at (shown_labels base.now self.old) a) }
        requires onto { IsSome (at (shown_labels base.now self.old) b) }
        ensures set { OnOk result (SetsPair a b n (shown_support base.now self.old) (shown_support base.now self.new)) }
        ensures added { self.new.added ≡ self.old.added }
        ensures moves { self.new.moves ≡ self.old.moves }
        ensures left { self.new.left ≡ self.old.left }
        ensures over { OnOk result (IsOver base.now.blocks.block_of base.now.blocks.labels self.new) }
        ensures err { OnErr result (self.new ≡ self.old) }
    {
        let is_drafted = self.changed.is_drafted(a, b);
        self.changed.set(a, b, n, is_drafted)?;
        Ok(())
    }

    /// Drafts the move of a node that has a block as shown to a block as shown. On `Memory` the draft stays. Expected O(1),
    /// amortized; it takes the memory of one move.
    pub fn move_to(&mut self, base: &Summary, n: NodeId, b: u32) -> Result<(), Memory>
        requires over { IsOver base.now.blocks.block_of base.now.blocks.labels self.old }
        requires node { IsSome (at (shown_blocks base.now self.old) n) }
        requires block { IsSome (at (shown_labels base.now self.old) b) }
        ensures blocks { OnOk result (PutsNode n (Some b) (shown_blocks base.now self.old) (shown_blocks base.now self.new)) }
        ensures added { self.new.added ≡ self.old.added }
        ensures left { OnOk result (self.new.left ≡ with_left self.old.left (at (shown_blocks base.now self.old) n)) }
        ensures supports { self.new.supports ≡ self.old.supports }
        ensures over { OnOk result (IsOver base.now.blocks.block_of base.now.blocks.labels self.new) }
        ensures err { OnErr result (self.new ≡ self.old) }
    {
        // Called for its contract: there are at most 2^31 numbers of nodes.
        let _known = base.numbers();
        self.moves.know_lookups();
        self.put(base, n, Some(b))?;
        Ok(())
    }

    /// A number past each block as shown. O(1), no memory.
    pub fn span(&self, base: &Summary) -> u32
        requires over { IsOver base.now.blocks.block_of base.now.blocks.labels self.now }
        ensures { (b : ℕ) → IsSome (at (shown_labels base.now self.now) b) → b < result }
    {
        self.added.past(base)
    }
}
