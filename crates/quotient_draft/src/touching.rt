// What a draft touches.
ghost use Rattle.std.specs.Prelude.{◌≡◌, ◌≢◌, ◌<◌, ◌&&◌, not, ℕ, IsTrue, IsFalse, nat_eq, nat_lt};
ghost use Rattle.std.specs.List.{list_any};
ghost use Rattle.bisim_spec.specs.IndexGraphs.{support_at};
ghost use Rattle.quotient_draft.specs.Drafts.{shown_support, with_supports, LabelsStayBut, SupportsStayBut};

use crate::base_neighbours::base_parents;
use crate::changed::Changed;
use crate::draft::Draft;
use quotient::Summary;

impl Draft {
    /// The blocks that are drafted. All others have, as shown, the labels that they have in the base. O(1), no memory.
    pub fn drafted_blocks(&self) -> &[u32]
        ensures { LabelsStayBut result.now self.now.added }
    {
        self.added.numbers()
    }

    /// The blocks at which drafted pairs end. To all others each block has, as shown, the support that it has in the base.
    /// O(1), no memory.
    pub fn drafted_ends(&self) -> &[u32]
        ensures { SupportsStayBut result.now self.now.supports }
    {
        self.changed.targets()
    }

    /// Whether a block other than `b` has support to it as shown. Expected O(p) for p parents of `b` in the base and drafted
    /// pairs that end there, no memory; it ends at the first that is found.
    pub fn has_other_parent(&self, base: &Summary, b: u32) -> bool
        ensures yes { IsTrue result → (a : ℕ) × (a ≢ b) × (0 < shown_support base.now self.now a b) }
        ensures no { IsFalse result → (a : ℕ) → a ≢ b → shown_support base.now self.now a b ≡ 0 }
    {
        if any_other(base_parents(base, b), base, &self.changed, b) {
            return true;
        }
        any_other(self.changed.parents(b), base, &self.changed, b)
    }
}

// Whether one of the blocks is other than this one and has support to it as shown.
fn any_other(blocks: &[u32], base: &Summary, changed: &Changed, b: u32) -> bool
    ensures { result ≡ list_any (λ a. not (nat_eq a b) && nat_lt 0 (support_at (with_supports base.now.supports changed.now) a b)) blocks.now }
{
    blocks
        .iter()
        .any(|a| *a != b && changed.get(base, *a, b) > 0)
}
