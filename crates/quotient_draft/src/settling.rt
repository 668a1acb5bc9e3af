// Settling a draft in its base.
ghost use Rattle.std.specs.Prelude.{◌≡◌, ◌+◌, ◌≤◌, ◌^◌, ℕ, Bool, true, false, Some, None, IsSome, IsTrue, OnOk, length};
ghost use Rattle.graph_spec.specs.Members.{at, has};
ghost use Rattle.block_partition.specs.LabelledPartitions.{block_count};
ghost use Rattle.bisim_spec.specs.IndexGraphs.{support_at};
ghost use Rattle.quotient.specs.Quotients.{view_of};
ghost use Rattle.quotient_draft.specs.Drafts.{no_changes, has_member, shown_labels, shown_blocks, shown_support, settled_view};
ghost use Rattle.quotient_draft.specs.Basis.{IsOver};
ghost use Rattle.quotient_draft.specs.ReservedCapacity.{HasReservedFor};

use crate::draft::Draft;
use crate::retiring::retire_all;
use px_base::Memory;
use quotient::Summary;

impl Draft {
    /// Reserves the capacity in the base that settling this draft needs. It leaves the base as it is seen. O(d) for d
    /// entries that are drafted, and linear in a table of the base where that moves; it takes what the drafted blocks,
    /// moves and pairs take there.
    pub fn reserve(&self, base: &mut Summary) -> Result<(), Memory>
        requires over { IsOver base.old.blocks.block_of base.old.blocks.labels self.now }
        ensures same { view_of base.new ≡ view_of base.old }
        ensures reserved { OnOk result (HasReservedFor base.new self.now) }
    {
        let nodes = self.moves.past(base.numbers());
        base.reserve(nodes, self.further(base), self.changed.len())?;
        base.reserve_span(self.added.from())?;
        self.changed.reserve_in(base)?;
        Ok(())
    }

    // How many further blocks there are: at most 2^31 with those of the base.
    pub(crate) fn further(&self, base: &Summary) -> u32
        requires over { IsOver base.now.blocks.block_of base.now.blocks.labels self.now }
        ensures count { result ≡ length self.now.added }
        ensures few { block_count base.now.blocks + result ≤ 2 ^ 31 }
    {
        let most = (1 << 31) - base.blocks() as usize;
        self.added.len().min(most) as u32
    }

    /// Makes the base what the draft shows, without blocks that have no members, and drops what was drafted.
    /// It can't fail and takes no memory. Each block of the base has a member, and a block that has none as shown
    /// has no support as shown. Expected O(d) for d entries that are drafted, and what `clear` takes.
    pub fn settle(&mut self, base: &mut Summary)
        requires over { IsOver base.old.blocks.block_of base.old.blocks.labels self.old }
        requires reserved { HasReservedFor base.old self.old }
        requires inhabited { (b : ℕ) → IsSome (at base.old.blocks.labels b) → IsTrue (has_member base.old.blocks.block_of b) }
        requires from { (b c : ℕ) → has_member (shown_blocks base.old self.old) b ≡ false → shown_support base.old self.old b c ≡ 0 }
        requires onto { (b c : ℕ) → has_member (shown_blocks base.old self.old) b ≡ false → shown_support base.old self.old c b ≡ 0 }
        ensures settled { view_of base.new ≡ settled_view base.old self.old }
        ensures empty { self.new ≡ no_changes }
    {
        self.added.make_in(base);
        self.changed.make_in(base);
        self.moves.make_in(base);
        self.added.retire_in(base);
        retire_all(base, self.moves.left());
        self.clear();
    }
}
