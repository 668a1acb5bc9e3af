// The blocks that have support to a block as shown, and those to which it has support.
ghost use Rattle.std.specs.Prelude.{◌≡◌, ◌++◌, ℕ, OnOk, false, nat_eq, nat_lt, filter};
ghost use Rattle.std.specs.List.Sorted.{IsStrictlyIncreasing};
ghost use Rattle.graph_spec.specs.Members.{Lists, has};
ghost use Rattle.bisim_spec.specs.IndexGraphs.{SupportTable, support_at};
ghost use Rattle.quotient_draft.specs.Drafts.{shown_support, with_supports};

use crate::changed::Changed;
use crate::draft::Draft;
use key_table::sort_dedup;
use label_graph::Digraph;
use px_base::Memory;
use quotient::Summary;

impl Draft {
    /// Lists the blocks that have support to `b` as shown, rising, replacing what the list held.
    /// Expected O(p log p) for p parents of `b` in the base and drafted pairs that end there; it takes 4 bytes for
    /// each where the list has no capacity.
    pub fn fill_parents(&self, base: &Summary, b: u32, list: &mut Vec<u32>) -> Result<(), Memory>
        ensures parents { OnOk result (Lists (λ a. nat_lt 0 (shown_support base.now self.now a b)) list.new.items) }
        ensures rising { OnOk result (IsStrictlyIncreasing list.new.items) }
    {
        join_lists(list, base_parents(base, b), self.changed.parents(b))?;
        sort_dedup(list);
        keep_parents(list, base, &self.changed, b);
        Ok(())
    }

    /// Lists the blocks to which `a` has support as shown, rising, replacing what the list held. Expected O(c log c)
    /// for c children of `a` in the base and drafted pairs that begin there; it takes 4 bytes for each where the list
    /// has no capacity.
    pub fn fill_children(&self, base: &Summary, a: u32, list: &mut Vec<u32>) -> Result<(), Memory>
        ensures children { OnOk result (Lists (λ b. nat_lt 0 (shown_support base.now self.now a b)) list.new.items) }
        ensures rising { OnOk result (IsStrictlyIncreasing list.new.items) }
    {
        join_lists(list, base_children(base, a), self.changed.children(a))?;
        sort_dedup(list);
        keep_children(list, base, &self.changed, a);
        Ok(())
    }

    /// The blocks of which the support to `b` is drafted. From all others it has that of the base. Expected O(1), no
    /// memory.
    pub fn drafted_parents(&self, b: u32) -> &[u32]
        ensures { (t : SupportTable) (a : ℕ) → has result.now a ≡ false → support_at (with_supports t self.now.supports) a b ≡ support_at t a b }
    {
        self.changed.parents(b)
    }

    /// The blocks to which the support of `a` is drafted. To all others it has that of the base. Expected O(1), no
    /// memory.
    pub fn drafted_children(&self, a: u32) -> &[u32]
        ensures { (t : SupportTable) (b : ℕ) → has result.now b ≡ false → support_at (with_supports t self.now.supports) a b ≡ support_at t a b }
    {
        self.changed.children(a)
    }
}

/// The blocks that have support to this one in the base; none where it is no block there. O(1), no memory.
pub fn base_parents(base: &Summary, b: u32) -> &[u32]
    ensures { Lists (λ a. nat_lt 0 (support_at base.now.supports a b)) result.now }
{
    // Called for its contract: only blocks have support.
    let _known = base.blocks();
    if base.is_node(b) {
        return base.parents(b);
    }
    &[]
}

/// The blocks to which this one has support in the base; none where it is no block there. O(1), no memory.
pub fn base_children(base: &Summary, a: u32) -> &[u32]
    ensures { Lists (λ b. nat_lt 0 (support_at base.now.supports a b)) result.now }
{
    // Called for its contract: only blocks have support.
    let _known = base.blocks();
    if base.is_node(a) {
        return base.children(a);
    }
    &[]
}

// Fills the list with one list and then the other, replacing what it held.
fn join_lists(list: &mut Vec<u32>, first: &[u32], second: &[u32]) -> Result<(), Memory>
    ensures { OnOk result (list.new.items ≡ first.now ++ second.now) }
{
    list.clear();
    list.extend_from_slice(first)?;
    list.extend_from_slice(second)?;
    Ok(())
}

// Keeps the blocks that have support to this one as shown.
fn keep_parents(list: &mut Vec<u32>, base: &Summary, changed: &Changed, b: u32)
    ensures { list.new.items ≡ filter (λ a. nat_lt 0 (support_at (with_supports base.now.supports changed.now) a b)) list.old.items }
{
    list.retain(|a| changed.get(base, *a, b) > 0);
}

// Keeps the blocks to which this one has support as shown.
fn keep_children(list: &mut Vec<u32>, base: &Summary, changed: &Changed, a: u32)
    ensures { list.new.items ≡ filter (λ b. nat_lt 0 (support_at (with_supports base.now.supports changed.now) a b)) list.old.items }
{
    list.retain(|b| changed.get(base, a, *b) > 0);
}
