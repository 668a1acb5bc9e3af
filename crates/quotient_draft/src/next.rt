// The next block that has support to a block as shown, and the next one to which it has support.
ghost use Rattle.std.specs.Prelude.{◌≡◌, ◌&&◌, nat_eq, nat_le, nat_lt};
ghost use Rattle.graph_spec.specs.Members.{has};
ghost use Rattle.quotient_draft.specs.Drafts.{shown_support, with_supports};
ghost use Rattle.quotient_draft.specs.Nexts.{IsNext, is_below, LooksThrough};
ghost use Rattle.quotient.specs.QuotientNeighbours.{is_supported};

use crate::base_neighbours::{base_children, base_parents};
use crate::changed::Changed;
use crate::draft::Draft;
use quotient::Summary;

impl Draft {
    /// The least block from `from` on that has support to `b` as shown; none where there is none. Expected O(p), of p
    /// parents of `b` in the base and drafted pairs that end there; no memory.
    pub fn next_parent(&self, base: &Summary, b: u32, from: u32) -> Option<u32>
        ensures next { IsNext (λ a. nat_lt 0 (shown_support base.now self.now a b)) from result }
    {
        let first = next_parent_in(base_parents(base, b), base, &self.changed, b, from, None);
        next_parent_in(self.changed.parents(b), base, &self.changed, b, from, first)
    }

    /// The least block from `from` on to which `a` has support as shown; none where there is none. Expected O(c), of c
    /// children of `a` in the base and drafted pairs that begin there; no memory.
    pub fn next_child(&self, base: &Summary, a: u32, from: u32) -> Option<u32>
        ensures next { IsNext (λ b. nat_lt 0 (shown_support base.now self.now a b)) from result }
    {
        let first = next_child_in(base_children(base, a), base, &self.changed, a, from, None);
        next_child_in(
            self.changed.children(a),
            base,
            &self.changed,
            a,
            from,
            first,
        )
    }
}

// The least that has support to `b` as shown, of the blocks from `from` on and of those of which `next` is the least.
fn next_parent_in(
    blocks: &[u32],
    base: &Summary,
    changed: &Changed,
    b: u32,
    from: u32,
    next: Option<u32>,
) -> Option<u32>
    ensures { LooksThrough (has blocks.now) (λ a. is_supported (with_supports base.now.supports changed.now) a b) from next result }
{
    let mut found = next;
    for i in 0..blocks.len() {
        found = lesser_parent(base, changed, blocks[i], b, from, found);
    }
    found
}

// The least to which `a` has support as shown, of the blocks from `from` on and of those of which `next` is the least.
fn next_child_in(
    blocks: &[u32],
    base: &Summary,
    changed: &Changed,
    a: u32,
    from: u32,
    next: Option<u32>,
) -> Option<u32>
    ensures { LooksThrough (has blocks.now) (λ b. is_supported (with_supports base.now.supports changed.now) a b) from next result }
{
    let mut found = next;
    for i in 0..blocks.len() {
        found = lesser_child(base, changed, a, blocks[i], from, found);
    }
    found
}

// What was found, or `a` where that is less and has support to `b` as shown.
fn lesser_parent(
    base: &Summary,
    changed: &Changed,
    a: u32,
    b: u32,
    from: u32,
    found: Option<u32>,
) -> Option<u32>
    ensures { LooksThrough (λ x. nat_eq x a) (λ x. is_supported (with_supports base.now.supports changed.now) x b) from found result }
{
    if !is_lesser(found, from, a) {
        return found;
    }
    if changed.get(base, a, b) == 0 {
        return found;
    }
    Some(a)
}

// What was found, or `b` where that is less and `a` has support to it as shown.
fn lesser_child(
    base: &Summary,
    changed: &Changed,
    a: u32,
    b: u32,
    from: u32,
    found: Option<u32>,
) -> Option<u32>
    ensures { LooksThrough (λ x. nat_eq x b) (λ x. is_supported (with_supports base.now.supports changed.now) a x) from found result }
{
    if !is_lesser(found, from, b) {
        return found;
    }
    if changed.get(base, a, b) == 0 {
        return found;
    }
    Some(b)
}

// Whether a block is at least `from`, and less than what was found, if anything was.
fn is_lesser(found: Option<u32>, from: u32, a: u32) -> bool
    ensures { result ≡ (nat_le from a && is_below found a) }
{
    from <= a && comes_before(found, a)
}

// Whether a block is less than what was found, if anything was.
fn comes_before(found: Option<u32>, a: u32) -> bool
    ensures { result ≡ is_below found a }
{
    match found {
        Some(next) => a < next,
        None => true,
    }
}
