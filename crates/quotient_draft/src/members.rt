// The blocks of a draft, and their members.
ghost use Rattle.std.specs.Prelude.{◌≡◌, ℕ, IsSome, is_some, OnOk, count_by};
ghost use Rattle.graph_spec.specs.Members.{Lists, at, is_this};
ghost use Rattle.quotient_draft.specs.Drafts.{shown_labels, shown_blocks};
ghost use Rattle.quotient_draft.specs.Basis.{IsOver};

use crate::draft::Draft;
use px_base::{Memory, NodeId};
use quotient::Summary;

impl Draft {
    /// How many blocks there are as shown: at most 2^31. O(1), no memory.
    pub fn blocks(&self, base: &Summary) -> u32
        requires over { IsOver base.now.blocks.block_of base.now.blocks.labels self.now }
        ensures count { result ≡ count_by is_some (shown_labels base.now self.now) }
    {
        base.blocks() + self.further(base)
    }

    /// How many members a block has as shown. Expected O(1), no memory.
    pub fn member_count(&self, base: &Summary, b: u32) -> u32
        requires over { IsOver base.now.blocks.block_of base.now.blocks.labels self.now }
        requires block { IsSome (at (shown_labels base.now self.now) b) }
        ensures count { result ≡ count_by (is_this b) (shown_blocks base.now self.now) }
    {
        self.moves.member_count(base, b)
    }

    /// Lists the members of a block as shown, each once, replacing what the list held; none where the number is
    /// no block. Expected O(m log m) for m members in the base and puts into the block; it takes 4 bytes for each
    /// where the list has no capacity.
    pub fn fill_members(&self, base: &Summary, b: u32, list: &mut Vec<NodeId>) -> Result<(), Memory>
        requires over { IsOver base.now.blocks.block_of base.now.blocks.labels self.now }
        ensures members { OnOk result (Lists (λ n. is_this b (at (shown_blocks base.now self.now) n)) list.new.items) }
    {
        self.moves.fill_members(base, b, list)
    }
}
