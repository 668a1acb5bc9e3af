// Which blocks can be merged.
ghost use Rattle.std.specs.Prelude.{◌≡◌, ◌≢◌, ◌↔◌, ◌<◌, ℕ, Some, IsSome, IsTrue, IsFalse, length};
ghost use Rattle.std.specs.List.{list_all};
ghost use Rattle.graph_spec.specs.Graphs.{Graph, IsGraph};
ghost use Rattle.graph_spec.specs.Shapes.{shape_of};
ghost use Rattle.graph_spec.specs.Members.{at};
ghost use Rattle.bisim_spec.specs.Stability.{Mergeable, Minimal};
ghost use Rattle.quotient.specs.Quotients.{view_of};
ghost use Rattle.one_index.specs.StableViews.{IsStableView};
ghost use Rattle.one_index.specs.MergeTest.{is_parent_of_one, IsCovered, CanMerge, HasNoMergeable, CannotMergeWith, HasMergeable};

use crate::members::has_members;
use label_graph::Digraph;
use quotient::Summary;

// Whether the block `x` has support to the block `d`, where `c` and `d` count as one.
fn is_parent(summary: &Summary, c: u32, d: u32, x: u32) -> bool
    ensures { result ≡ is_parent_of_one summary.now.supports c d x }
{
    if x == c || x == d {
        return summary.support(c, d) > 0 || summary.support(d, d) > 0;
    }
    summary.support(x, d) > 0
}

// Whether all of these blocks have support to `d`, where `c` and `d` count as one.
fn are_parents(summary: &Summary, c: u32, d: u32, blocks: &[u32]) -> bool
    ensures { result ≡ list_all (is_parent_of_one summary.now.supports c d) blocks.now }
{
    blocks.iter().all(|x| is_parent(summary, c, d, *x))
}

// Whether the parent blocks of `c` are parent blocks of `d` too, where the two count as one.
fn is_covered(summary: &Summary, c: u32, d: u32) -> bool
    requires block { IsSome (at summary.now.blocks.labels c) }
    ensures yes { IsTrue result → IsCovered summary.now c d }
    ensures no { IsFalse result → IsCovered summary.now c d → ⊥ }
{
    are_parents(summary, c, d, summary.parents(c))
}

// Whether two blocks have one label, and the same parent blocks where they count as one.
fn agree_as_one(summary: &Summary, a: u32, b: u32) -> bool
    requires first { IsSome (at summary.now.blocks.labels a) }
    requires second { IsSome (at summary.now.blocks.labels b) }
    ensures yes { IsTrue result → CanMerge summary.now a b }
    ensures no { IsFalse result → CanMerge summary.now a b → ⊥ }
{
    if summary.label(a) != summary.label(b) {
        return false;
    }
    if !is_covered(summary, a, b) {
        return false;
    }
    is_covered(summary, b, a)
}

/// Whether two distinct blocks can be merged: whether the partition stays stable if they become one. Their
/// labels and their parent blocks alone decide it, for each graph of which the summary is a stable one. A
/// block without members can be merged with any.
///
/// Expected O(p) for p parent blocks of the two: a look-up or two for each at most; no memory.
pub fn mergeable(summary: &Summary, a: u32, b: u32) -> bool
    requires first { IsSome (at summary.now.blocks.labels a) }
    requires second { IsSome (at summary.now.blocks.labels b) }
    requires distinct { a ≢ b }
    ensures { (g : Graph) → IsGraph g → IsStableView g (view_of summary.now) → IsTrue result ↔ Mergeable (shape_of g) summary.now.blocks.block_of a b }
{
    if !has_members(summary, a) {
        return true;
    }
    if !has_members(summary, b) {
        return true;
    }
    if summary.parents(b).len() < summary.parents(a).len() {
        return agree_as_one(summary, b, a);
    }
    agree_as_one(summary, a, b)
}

// Whether the number `b` is that of a block with members that has the label of `a`, and the same parent blocks
// where the two count as one.
fn can_merge_with(summary: &Summary, a: u32, b: u32) -> bool
    requires first { IsSome (at summary.now.blocks.labels a) }
    ensures yes { IsTrue result → (v : ℕ) × (at summary.now.blocks.block_of v ≡ Some b) × CanMerge summary.now a b }
    ensures no { IsFalse result → CannotMergeWith summary.now a b }
{
    if !summary.is_node(b) {
        return false;
    }
    if !has_members(summary, b) {
        return false;
    }
    agree_as_one(summary, a, b)
}

// Whether a block can be merged with one behind it, and both have members.
fn has_mergeable(summary: &Summary, a: u32) -> bool
    requires within { a < length summary.now.blocks.labels }
    ensures yes { IsTrue result → HasMergeable summary.now a }
    ensures no { IsFalse result → HasNoMergeable summary.now a }
{
    if !summary.is_node(a) {
        return false;
    }
    if !has_members(summary, a) {
        return false;
    }
    let size = summary.size();
    for b in a + 1..size {
        if can_merge_with(summary, a, b) {
            return true;
        }
    }
    false
}

/// Whether no two distinct blocks with members can be merged, for each graph of which the summary is a
/// stable one.
///
/// It compares each block with each other one, as `mergeable` does: expected O(b (b + q)) for b block numbers and q pairs of
/// blocks with support; no memory.
pub fn is_minimal(summary: &Summary) -> bool
    ensures { (g : Graph) → IsGraph g → IsStableView g (view_of summary.now) → IsTrue result ↔ Minimal (shape_of g) summary.now.blocks.block_of }
{
    for a in 0..summary.size() {
        if has_mergeable(summary, a) {
            return false;
        }
    }
    true
}
