// Taking away blocks without members.
ghost use Rattle.std.specs.Prelude.{◌≡◌, ◌≢◌, ◌∷◌, [], ℕ, false};
ghost use Rattle.bisim_spec.specs.IndexGraphs.{support_at};
ghost use Rattle.quotient_draft.specs.Drafts.{has_member};
ghost use Rattle.quotient_draft.specs.Retired.{IsRetired};

use label_graph::Digraph;
use quotient::Summary;

/// Takes a block away if it has no members. A number that is no block stays none.
pub(crate) fn retire_if_empty(base: &mut Summary, b: u32)
    requires from { (x c : ℕ) → has_member base.old.blocks.block_of x ≡ false → support_at base.old.supports x c ≡ 0 }
    requires onto { (x c : ℕ) → has_member base.old.blocks.block_of x ≡ false → support_at base.old.supports c x ≡ 0 }
    ensures { IsRetired (b ∷ []) base.old base.new }
{
    if !base.is_node(b) {
        return;
    }
    if base.member_count(b) == 0 {
        base.retire_block(b);
    }
}

/// Takes away the blocks among these that have no members.
pub(crate) fn retire_all(base: &mut Summary, left: &[u32])
    requires from { (x c : ℕ) → has_member base.old.blocks.block_of x ≡ false → support_at base.old.supports x c ≡ 0 }
    requires onto { (x c : ℕ) → has_member base.old.blocks.block_of x ≡ false → support_at base.old.supports c x ≡ 0 }
    ensures { IsRetired left.now base.old base.new }
{
    for b in left {
        retire_if_empty(base, *b);
    }
}
