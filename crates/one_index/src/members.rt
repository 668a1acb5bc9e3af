// Members of blocks.
ghost use Rattle.std.specs.Prelude.{◌≡◌, ◌≢◌, ℕ, Some, IsSome, IsTrue, IsFalse, IfSome, IfNone};
ghost use Rattle.graph_spec.specs.Members.{at};

use px_base::NodeId;
use quotient::Summary;

/// A member of a block, and none where it has none.
pub(crate) fn some_member(summary: &Summary, b: u32) -> Option<NodeId>
    requires block { IsSome (at summary.now.blocks.labels b) }
    ensures member { IfSome result (λ n. at summary.now.blocks.block_of n ≡ Some b) }
    ensures none { IfNone result ((n : ℕ) → at summary.now.blocks.block_of n ≢ Some b) }
{
    summary.extent(b).next()
}

/// Whether a block has members.
pub(crate) fn has_members(summary: &Summary, b: u32) -> bool
    requires block { IsSome (at summary.now.blocks.labels b) }
    ensures yes { IsTrue result → (n : ℕ) × (at summary.now.blocks.block_of n ≡ Some b) }
    ensures no { IsFalse result → (n : ℕ) → at summary.now.blocks.block_of n ≢ Some b }
{
    some_member(summary, b).is_some()
}
