// Whether two blocks can be merged.
ghost use Rattle.std.specs.Prelude.{◌≡◌, ◌≢◌, ◌&&◌, ℕ, Some, IsTrue, IsFalse, not, false};
ghost use Rattle.std.specs.List.{list_any};
ghost use Rattle.graph_spec.specs.Members.{at};
ghost use Rattle.quotient_draft.specs.Drafts.{shown_labels, shown_blocks};
ghost use Rattle.one_merge.specs.MergeTests.{shown_adjacent, adjacent_merged, AreParentsSatisfied};
ghost use Rattle.one_merge.specs.MergeableShown.{AreShownMergeable, AreShownNotMergeable, AreDraftedParents};

use label_graph::Digraph;
use quotient::Summary;
use quotient_draft::{Draft, base_parents};

// Whether x is adjacent to y.
fn is_adjacent(base: &Summary, draft: &Draft, x: u32, y: u32) -> bool
    ensures { result ≡ shown_adjacent base.now draft.now x y }
{
    draft.support(base, x, y) > 0
}

// Whether x is adjacent to d, where a and b count as one block.
fn is_satisfied(base: &Summary, draft: &Draft, a: u32, b: u32, d: u32, x: u32) -> bool
    ensures { result ≡ adjacent_merged (shown_adjacent base.now draft.now) a b d x }
{
    if x == a || x == b {
        return is_adjacent(base, draft, a, d) || is_adjacent(base, draft, b, d);
    }
    is_adjacent(base, draft, x, d)
}

// Whether x is adjacent to b and not to a, where a and b count as one block.
fn is_unsatisfied(base: &Summary, draft: &Draft, a: u32, b: u32, x: u32) -> bool
    ensures { result ≡ (shown_adjacent base.now draft.now x b && not (adjacent_merged (shown_adjacent base.now draft.now) a b a x)) }
{
    is_adjacent(base, draft, x, b) && !is_satisfied(base, draft, a, b, a, x)
}

// Whether this holds of one of the blocks. It stops at the first of which it does.
fn is_any_unsatisfied(base: &Summary, draft: &Draft, a: u32, b: u32, blocks: &[u32]) -> bool
    ensures { result ≡
        list_any (λ x. shown_adjacent base.now draft.now x b && not (adjacent_merged (shown_adjacent base.now draft.now) a b a x)) blocks.now }
{
    blocks.iter().any(|x| is_unsatisfied(base, draft, a, b, *x))
}

// Whether a parent of b rules out that the two can be merged: it isn't one of a once the two count as one. No list is made.
fn has_unsatisfied_parent(base: &Summary, draft: &Draft, a: u32, b: u32, drafted: &[u32]) -> bool
    requires drafted { AreDraftedParents draft.now b drafted.now }
    ensures yes { IsTrue result → (x : ℕ)
        × IsTrue (shown_adjacent base.now draft.now x b) × (adjacent_merged (shown_adjacent base.now draft.now) a b a x ≡ false) }
    ensures no { IsFalse result → AreParentsSatisfied (shown_adjacent base.now draft.now) a b b a }
{
    if is_any_unsatisfied(base, draft, a, b, base_parents(base, b)) {
        return true;
    }
    is_any_unsatisfied(base, draft, a, b, drafted)
}

// Whether two blocks with members and of one label can be merged, where these are the drafted parents of the second, which are
// read first.
fn have_same_parents(base: &Summary, draft: &Draft, a: u32, b: u32, drafted: &[u32]) -> bool
    requires apart { a ≢ b }
    requires first { (n : ℕ) × (at (shown_blocks base.now draft.now) n ≡ Some a) }
    requires second { (n : ℕ) × (at (shown_blocks base.now draft.now) n ≡ Some b) }
    requires label { at (shown_labels base.now draft.now) a ≡ at (shown_labels base.now draft.now) b }
    requires drafted { AreDraftedParents draft.now b drafted.now }
    ensures yes { IsTrue result → AreShownMergeable base.now draft.now a b }
    ensures no { IsFalse result → AreShownNotMergeable base.now draft.now a b }
{
    if has_unsatisfied_parent(base, draft, a, b, drafted) {
        return false;
    }
    !has_unsatisfied_parent(base, draft, b, a, draft.drafted_parents(a))
}

// How many drafted parents are many: most of them may have lost their support.
const MANY: usize = 16;

/// Whether two blocks with members and of one label can be merged: they have the same parent blocks once the two count as
/// one. These are the drafted parents of the second. Where they are many, those of the first are read before them.
///
/// Expected O(p) for p parents of the two in the base and as drafted; it stops at the first that differs. No memory.
pub(crate) fn can_merge(base: &Summary, draft: &Draft, a: u32, b: u32, drafted: &[u32]) -> bool
    requires apart { a ≢ b }
    requires first { (n : ℕ) × (at (shown_blocks base.now draft.now) n ≡ Some a) }
    requires second { (n : ℕ) × (at (shown_blocks base.now draft.now) n ≡ Some b) }
    requires label { at (shown_labels base.now draft.now) a ≡ at (shown_labels base.now draft.now) b }
    requires drafted { AreDraftedParents draft.now b drafted.now }
    ensures yes { IsTrue result → AreShownMergeable base.now draft.now a b }
    ensures no { IsFalse result → AreShownNotMergeable base.now draft.now a b }
{
    if drafted.len() > MANY {
        return have_same_parents(base, draft, b, a, draft.drafted_parents(a));
    }
    have_same_parents(base, draft, a, b, drafted)
}
