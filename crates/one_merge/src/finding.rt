// With which block one can be merged.
ghost use Rattle.std.specs.Prelude.{◌≡◌, ◌≢◌, ◌⊎◌, ◌&&◌, ◌++◌, ℕ, Some, None, IsTrue, IsFalse, IfSome, IfNone, IfOk, OnOk, not, nat_eq, false};
ghost use Rattle.std.specs.List.{list_any};
ghost use Rattle.graph_spec.specs.Members.{at, has};
ghost use Rattle.quotient_draft.specs.Drafts.{shown_labels, shown_blocks, shown_support};
ghost use Rattle.quotient_draft.specs.Basis.{IsOver};
ghost use Rattle.one_merge.specs.MergeTests.{shown_adjacent};
ghost use Rattle.one_merge.specs.ShownMerges.{ShowsSupportsOfGraph, AreShownMergeable, AreShownNotMergeable, AreDraftedParents, HasNoOther, ListsOwnChildren};
ghost use Rattle.one_merge.specs.ParentlessBlocks.{CoversShown};

use crate::kept_blocks::KeptBlocks;
use crate::members::{children_count, has_members};
use crate::mergeable_pair::can_merge;
use crate::parentless::ParentlessBlocks;
use label_graph::Digraph;
use px_base::Memory;
use quotient::Summary;
use quotient_draft::{Draft, base_children, base_parents};

// Whether the number is that of a block with this label. Blocks of the base keep their labels, so the draft,
// which is looked up by hash, is asked for others alone.
fn is_labelled(base: &Summary, draft: &Draft, b: u32, label: u32) -> bool
    requires over { IsOver base.now.blocks.block_of base.now.blocks.labels draft.now }
    ensures yes { IsTrue result → at (shown_labels base.now draft.now) b ≡ Some label }
    ensures no { IsFalse result → at (shown_labels base.now draft.now) b ≢ Some label }
{
    if base.is_block(b) {
        return base.label(b) == label;
    }
    match draft.label_of(base, b) {
        Some(l) => l == label,
        None => false,
    }
}

// Whether one of the blocks is other than these two and in neither list.
fn any_unshared(blocks: &[u32], a: u32, b: u32, own: &[u32], drafted: &[u32]) -> bool
    ensures { result ≡ list_any (λ x. (not (nat_eq x a) && not (nat_eq x b)) && (not (has own.now x) && not (has drafted.now x))) blocks.now }
{
    blocks.iter().any(|x| (*x != a && *x != b) && (!own.contains(x) && !drafted.contains(x)))
}

// Whether one of the blocks is other than these two and has no support to a as shown.
fn any_nonadjacent(blocks: &[u32], base: &Summary, draft: &Draft, a: u32, b: u32) -> bool
    ensures { result ≡ list_any (λ x. (not (nat_eq x a) && not (nat_eq x b)) && nat_eq (shown_support base.now draft.now x a) 0) blocks.now }
{
    blocks.iter().any(|x| (*x != a && *x != b) && draft.support(base, *x, a) == 0)
}

// Up to how many parents are searched in a list rather than looked up by hash.
const FEW_PARENTS: usize = 16;

// Whether one of the lists is so long that supports are looked up by hash.
fn is_long(own: &[u32], drafted: &[u32]) -> bool {
    own.len().max(drafted.len()) > FEW_PARENTS
}

// Whether some parent of b isn't a parent of a, where no parent of b is drafted. Where a has few parents, only lists are read,
// so it is the cheapest test of the parents.
fn has_unshared_parent(base: &Summary, draft: &Draft, a: u32, b: u32, onto: &[u32]) -> bool
    requires drafted { AreDraftedParents draft.now b onto.now }
    ensures { IsTrue result → AreShownNotMergeable base.now draft.now a b }
{
    if !onto.is_empty() {
        return false;
    }
    let parents = base_parents(base, b);
    let own = base_parents(base, a);
    let drafted = draft.drafted_parents(a);
    if is_long(own, drafted) {
        return any_nonadjacent(parents, base, draft, a, b);
    }
    any_unshared(parents, a, b, own, drafted)
}

// Whether two blocks, of which the first has members and this label, differ and can be merged. Most blocks have another
// label or another parent, so these are tested first.
fn is_mergeable(base: &Summary, draft: &Draft, a: u32, label: u32, b: u32) -> bool
    requires over { IsOver base.now.blocks.block_of base.now.blocks.labels draft.now }
    requires graph { ShowsSupportsOfGraph base.now draft.now }
    requires members { (n : ℕ) × (at (shown_blocks base.now draft.now) n ≡ Some a) }
    requires label { at (shown_labels base.now draft.now) a ≡ Some label }
    ensures yes { IsTrue result → AreShownMergeable base.now draft.now a b }
    ensures no { IsFalse result → AreShownNotMergeable base.now draft.now a b }
{
    if a == b {
        return false;
    }
    if !is_labelled(base, draft, b, label) {
        return false;
    }
    let onto = draft.drafted_parents(b);
    if has_unshared_parent(base, draft, a, b, onto) {
        return false;
    }
    if !has_members(base, draft, b) {
        return false;
    }
    can_merge(base, draft, a, b, onto)
}

// Whether x is other than a and has support to it as shown.
fn is_other_parent(base: &Summary, draft: &Draft, a: u32, x: u32) -> bool
    ensures yes { IsTrue result → (x ≢ a) × IsTrue (shown_adjacent base.now draft.now x a) }
    ensures no { IsFalse result → IsTrue (shown_adjacent base.now draft.now x a) → x ≡ a }
{
    x != a && draft.support(base, x, a) > 0
}

// Whether there is a block, and it has no more children than x.
fn is_no_larger(base: &Summary, draft: &Draft, found: Option<u32>, x: u32) -> bool
    ensures { IsTrue result → found ≢ None }
{
    match found {
        Some(y) => children_count(base, draft, y) <= children_count(base, draft, x),
        None => false,
    }
}

// What was found, or x instead of it where x is another parent of a and has fewer children.
fn fewer_children(base: &Summary, draft: &Draft, a: u32, found: Option<u32>, x: u32) -> Option<u32>
    ensures one { (result ≡ found) ⊎ ((result ≡ Some x) × ((x ≢ a) × IsTrue (shown_adjacent base.now draft.now x a))) }
    ensures none { result ≡ None → (found ≡ None) × (IsTrue (shown_adjacent base.now draft.now x a) → x ≡ a) }
{
    if is_no_larger(base, draft, found, x) || !is_other_parent(base, draft, a, x) {
        return found;
    }
    Some(x)
}

// How many children are so few that no parent with fewer is looked for.
const FEW: usize = 8;

// Whether there is a block with few children.
fn has_few_children(base: &Summary, draft: &Draft, found: Option<u32>) -> bool
    ensures { IsTrue result → found ≢ None }
{
    match found {
        Some(x) => children_count(base, draft, x) <= FEW,
        None => false,
    }
}

// Another parent of a among what was found and these blocks: one with few children, or else the one with the fewest.
fn other_among(
    base: &Summary,
    draft: &Draft,
    a: u32,
    first: Option<u32>,
    blocks: &[u32],
) -> Option<u32>
    requires first { IfSome first (λ x. (x ≢ a) × IsTrue (shown_adjacent base.now draft.now x a)) }
    ensures some { IfSome result (λ x. (x ≢ a) × IsTrue (shown_adjacent base.now draft.now x a)) }
    ensures none { result ≡ None → (first ≡ None) × HasNoOther base.now draft.now blocks.now a }
{
    let mut found = first;
    for i in 0..blocks.len() {
        if has_few_children(base, draft, found) {
            return found;
        }
        found = fewer_children(base, draft, a, found, blocks[i]);
    }
    found
}

// A block other than a that has support to it: one with few children, or else the one with the fewest.
fn other_parent(base: &Summary, draft: &Draft, a: u32) -> Option<u32>
    ensures some { IfSome result (λ x. (x ≢ a) × IsTrue (shown_adjacent base.now draft.now x a)) }
    ensures none { result ≡ None → (x : ℕ) → IsTrue (shown_adjacent base.now draft.now x a) → x ≡ a }
{
    let found = other_among(base, draft, a, None, base_parents(base, a));
    other_among(base, draft, a, found, draft.drafted_parents(a))
}

// A block among these with which the first can be merged.
fn find_among(base: &Summary, draft: &Draft, a: u32, blocks: &[u32]) -> Option<u32>
    requires over { IsOver base.now.blocks.block_of base.now.blocks.labels draft.now }
    requires graph { ShowsSupportsOfGraph base.now draft.now }
    requires members { (n : ℕ) × (at (shown_blocks base.now draft.now) n ≡ Some a) }
    ensures some { IfSome result (AreShownMergeable base.now draft.now a) }
    ensures none { IfNone result ((b : ℕ) → IsTrue (has blocks.now b) → AreShownNotMergeable base.now draft.now a b) }
{
    let label = draft.label(base, a);
    for i in 0..blocks.len() {
        if is_mergeable(base, draft, a, label, blocks[i]) {
            return Some(blocks[i]);
        }
    }
    None
}

// Lists the children of a block that has support to itself, and nothing of another one.
fn fill_own_children(
    base: &Summary,
    draft: &Draft,
    a: u32,
    list: &mut Vec<u32>,
) -> Result<(), Memory>
    ensures { OnOk result (ListsOwnChildren base.now draft.now a list.new.items) }
{
    if draft.support(base, a, a) > 0 {
        return draft.fill_children(base, a, list);
    }
    list.clear();
    Ok(())
}

// A block in one of two lists with which the first can be merged.
fn find_in_either(
    base: &Summary,
    draft: &Draft,
    a: u32,
    list: &[u32],
    others: &[u32],
) -> Option<u32>
    requires over { IsOver base.now.blocks.block_of base.now.blocks.labels draft.now }
    requires graph { ShowsSupportsOfGraph base.now draft.now }
    requires members { (n : ℕ) × (at (shown_blocks base.now draft.now) n ≡ Some a) }
    ensures some { IfSome result (AreShownMergeable base.now draft.now a) }
    ensures none { IfNone result ((b : ℕ) → IsTrue (has (list.now ++ others.now) b) → AreShownNotMergeable base.now draft.now a b) }
{
    match find_among(base, draft, a, list) {
        Some(b) => Some(b),
        None => find_among(base, draft, a, others),
    }
}

// The block of the hint, where there is one and the first can be merged with it.
fn find_kept(base: &Summary, draft: &Draft, a: u32, label: u32, hint: Option<u32>) -> Option<u32>
    requires over { IsOver base.now.blocks.block_of base.now.blocks.labels draft.now }
    requires graph { ShowsSupportsOfGraph base.now draft.now }
    requires members { (n : ℕ) × (at (shown_blocks base.now draft.now) n ≡ Some a) }
    requires label { at (shown_labels base.now draft.now) a ≡ Some label }
    ensures some { IfSome result (AreShownMergeable base.now draft.now a) }
{
    let b = hint?;
    if is_mergeable(base, draft, a, label, b) {
        return Some(b);
    }
    None
}

// A block that can be merged with one that has no other parent than itself: one of its children where it is one of them, or
// of the blocks noted for its label.
fn find_mergeable_lone(
    base: &Summary,
    draft: &Draft,
    parentless: &ParentlessBlocks,
    kept: &mut KeptBlocks,
    a: u32,
    list: &mut Vec<u32>,
) -> Result<Option<u32>, Memory>
    requires over { IsOver base.now.blocks.block_of base.now.blocks.labels draft.now }
    requires graph { ShowsSupportsOfGraph base.now draft.now }
    requires covers { CoversShown base.now draft.now parentless.now }
    requires members { (n : ℕ) × (at (shown_blocks base.now draft.now) n ≡ Some a) }
    requires lone { (x : ℕ) → IsTrue (shown_adjacent base.now draft.now x a) → x ≡ a }
    ensures some { IfOk result (λ found. IfSome found (AreShownMergeable base.now draft.now a)) }
    ensures none { IfOk result (λ found. IfNone found ((b : ℕ) → AreShownNotMergeable base.now draft.now a b)) }
{
    let label = draft.label(base, a);
    if let Some(b) = find_kept(base, draft, a, label, kept.ask(None, label)) {
        return Ok(Some(b));
    }
    fill_own_children(base, draft, a, list)?;
    let noted = parentless.noted(label);
    kept.look_through(list.len().saturating_add(noted.len()));
    Ok(find_in_either(base, draft, a, list, noted))
}

// A block that can be merged with a block, among another parent of it and the children of that parent.
fn find_mergeable_by_parent(
    base: &Summary,
    draft: &Draft,
    kept: &mut KeptBlocks,
    a: u32,
    x: u32,
) -> Option<u32>
    requires over { IsOver base.now.blocks.block_of base.now.blocks.labels draft.now }
    requires graph { ShowsSupportsOfGraph base.now draft.now }
    requires members { (n : ℕ) × (at (shown_blocks base.now draft.now) n ≡ Some a) }
    requires parent { (x ≢ a) × IsTrue (shown_adjacent base.now draft.now x a) }
    ensures some { IfSome result (AreShownMergeable base.now draft.now a) }
    ensures none { IfNone result ((b : ℕ) → AreShownNotMergeable base.now draft.now a b) }
{
    let label = draft.label(base, a);
    if let Some(b) = find_kept(base, draft, a, label, kept.ask(Some(x), label)) {
        return Some(b);
    }
    kept.look_through(children_count(base, draft, x));
    if is_mergeable(base, draft, a, label, x) {
        return Some(x);
    }
    if let Some(b) = find_among(base, draft, a, base_children(base, x)) {
        return Some(b);
    }
    find_among(base, draft, a, draft.drafted_children(x))
}

/// A block that can be merged with this one, where it has members and there is one. The block that was kept last for the
/// same parent and label is tested first.
pub(crate) fn find_mergeable(
    base: &Summary,
    draft: &Draft,
    parentless: &ParentlessBlocks,
    kept: &mut KeptBlocks,
    a: u32,
    list: &mut Vec<u32>,
) -> Result<Option<u32>, Memory>
    requires over { IsOver base.now.blocks.block_of base.now.blocks.labels draft.now }
    requires graph { ShowsSupportsOfGraph base.now draft.now }
    requires covers { CoversShown base.now draft.now parentless.now }
    ensures some { IfOk result (λ found. IfSome found (AreShownMergeable base.now draft.now a)) }
    ensures none { IfOk result (λ found. IfNone found ((b : ℕ) → AreShownNotMergeable base.now draft.now a b)) }
{
    if !has_members(base, draft, a) {
        return Ok(None);
    }
    match other_parent(base, draft, a) {
        Some(x) => Ok(find_mergeable_by_parent(base, draft, kept, a, x)),
        None => find_mergeable_lone(base, draft, parentless, kept, a, list),
    }
}
