// The members and the children of blocks.
ghost use Rattle.std.specs.Prelude.{◌≡◌, ◌≢◌, ◌⊎◌, ℕ, Some, IsSome, IsTrue, IsFalse};
ghost use Rattle.graph_spec.specs.Members.{at};
ghost use Rattle.quotient_draft.specs.Drafts.{shown_blocks, shown_labels};
ghost use Rattle.quotient_draft.specs.Basis.{IsOver};
ghost use Rattle.one_merge.specs.ShownMerges.{ShowsSupportsOfGraph, AreShownMergeable};

use quotient::Summary;
use quotient_draft::{Draft, base_children, base_parents};

/// Whether the number is that of a block with members.
pub(crate) fn has_members(base: &Summary, draft: &Draft, b: u32) -> bool
    requires over { IsOver base.now.blocks.block_of base.now.blocks.labels draft.now }
    requires graph { ShowsSupportsOfGraph base.now draft.now }
    ensures yes { IsTrue result → (n : ℕ) × (at (shown_blocks base.now draft.now) n ≡ Some b) }
    ensures no { IsFalse result → (n : ℕ) → at (shown_blocks base.now draft.now) n ≢ Some b }
{
    if !draft.is_block(base, b) {
        return false;
    }
    draft.member_count(base, b) > 0
}

/// How many children a block has in the base, and how many further pairs are drafted from it: about what it costs to look
/// among its children.
pub(crate) fn children_count(base: &Summary, draft: &Draft, b: u32) -> usize {
    base_children(base, b)
        .len()
        .saturating_add(draft.drafted_children(b).len())
}

// How many parents a block has in the base, and how many further pairs are drafted onto it.
fn parents_count(base: &Summary, draft: &Draft, b: u32) -> usize {
    base_parents(base, b)
        .len()
        .saturating_add(draft.drafted_parents(b).len())
}

// What it costs to move a block, by its members and its children.
fn moving_cost(base: &Summary, draft: &Draft, b: u32) -> usize
    requires over { IsOver base.now.blocks.block_of base.now.blocks.labels draft.now }
    requires block { IsSome (at (shown_labels base.now draft.now) b) }
{
    (draft.member_count(base, b) as usize).saturating_add(children_count(base, draft, b))
}

// Whether the first block costs less to move than the second one, with what it costs to keep the other.
fn is_smaller(base: &Summary, draft: &Draft, a: u32, b: u32) -> bool
    requires over { IsOver base.now.blocks.block_of base.now.blocks.labels draft.now }
    requires first { IsSome (at (shown_labels base.now draft.now) a) }
    requires second { IsSome (at (shown_labels base.now draft.now) b) }
{
    let own = moving_cost(base, draft, a).saturating_add(parents_count(
        base, draft, b,
    ).saturating_mul(2));
    let other = moving_cost(base, draft, b).saturating_add(parents_count(
        base, draft, a,
    ).saturating_mul(2));
    own < other
}

/// The two blocks: first the one that is kept. It costs more to move, by its members and its children, or the list of its
/// parents is shorter: two blocks that can be merged have the same parents, so a long list has pairs without support, and each
/// later comparison would read them.
pub(crate) fn larger_first(base: &Summary, draft: &Draft, a: u32, b: u32) -> (u32, u32)
    requires over { IsOver base.now.blocks.block_of base.now.blocks.labels draft.now }
    requires graph { ShowsSupportsOfGraph base.now draft.now }
    requires mergeable_pair { AreShownMergeable base.now draft.now a b }
    ensures mergeable_pair { AreShownMergeable base.now draft.now result.0 result.1 }
    ensures one { (a ≡ result.0) ⊎ (a ≡ result.1) }
{
    if is_smaller(base, draft, a, b) {
        (b, a)
    } else {
        (a, b)
    }
}
