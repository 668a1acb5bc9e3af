// Edges that come and go.
ghost use Rattle.std.specs.Prelude.{◌≡◌, ◌+◌, ◌≤◌, ◌<◌, ◌^◌, ◌∷◌, [], ℕ, Some, IsSome, IsTrue, IsFalse, IfOk, OnOk, nat_lt};
ghost use Rattle.std.specs.List.{list_any};
ghost use Rattle.graph_spec.specs.Graphs.{has_edge};
ghost use Rattle.change_spec.specs.Steps.{link, unlink};
ghost use Rattle.change_spec.specs.Lost.{lost_onto};
ghost use Rattle.graph_spec.specs.Members.{at, is_this};
ghost use Rattle.graph_spec.specs.Shapes.{shape_of};
ghost use Rattle.bisim_spec.specs.KeptBlocks.{HasOther};
ghost use Rattle.bisim_spec.specs.IndexGraphs.{support_at};
ghost use Rattle.bisim_spec.specs.Weights.{parent_count};
ghost use Rattle.graph_update.specs.PendingChanges.{graph_after};
ghost use Rattle.quotient_draft.specs.Drafts.{no_changes};
ghost use Rattle.one_update.specs.OneDrafts.{IsBefore, ShowsChange, AreSupportsAlone, OfBlocks};

use graph_update::{After, Neighbours};
use px_base::{Memory, NodeId, Steps};
use quotient::Summary;
use quotient_draft::Draft;
use std::sync::ledger::Ledger;

// The block of a node.
fn own_block(base: &Summary, n: NodeId) -> u32
    requires some { IsSome (at base.now.blocks.block_of n) }
    ensures block { at base.now.blocks.block_of n ≡ Some result }
    ensures live { IsSome (at base.now.blocks.labels result) }
{
    base.block_of(n).unwrap()
}

/// Drafts that an edge comes, and tells whether the block where it begins had support to that where it ends.
pub(crate) fn draft_link(
    base: &Summary,
    draft: &mut Draft,
    after: &After<'_>,
    u: NodeId,
    v: NodeId,
) -> Result<bool, Memory>
    requires before { IsBefore after.now base.now }
    requires empty { draft.old ≡ no_changes }
    requires links { after.now.change ≡ link u v ∷ [] }
    ensures changed { OnOk result (ShowsChange after.now.before after.now.change base.now draft.new) }
    ensures alone { OnOk result (AreSupportsAlone draft.new) }
    ensures yes { IfOk result (λ s. IsTrue s → HasOther (shape_of (graph_after after.now)) base.now.blocks.block_of u v) }
    ensures no { IfOk result (λ s. IsFalse s → HasOther (shape_of (graph_after after.now)) base.now.blocks.block_of u v → ⊥) }
    ensures tells { OfBlocks base.now u v (λ a b. IfOk result (λ s. s ≡ nat_lt 0 (support_at base.now.supports a b))) }
{
    let a = own_block(base, u);
    let b = own_block(base, v);
    let supported = base.support(a, b) > 0;
    draft.raise(base, a, b)?;
    Ok(supported)
}

// Whether a node is in the block.
fn is_in(base: &Summary, n: NodeId, b: u32) -> bool
    ensures { result ≡ is_this b (at base.now.blocks.block_of n) }
{
    match base.block_of(n) {
        Some(own) => b == own,
        None => false,
    }
}

// Whether one of the nodes is in the block.
fn any_in(base: &Summary, nodes: Neighbours<'_>, b: u32) -> bool
    ensures { result ≡ list_any (λ n. is_this b (at base.now.blocks.block_of n)) nodes.entry }
{
    for n in nodes {
        if is_in(base, n, b) {
            return true;
        }
    }
    false
}

/// Whether a parent of the node, in the graph after the change, is in the block. The node's parents are read.
pub(crate) fn has_parent_in<L: Ledger>(
    base: &Summary,
    after: &After<'_>,
    v: NodeId,
    b: u32,
    steps: &mut Steps<L>,
) -> bool
    requires before { IsBefore after.now base.now }
    ensures yes { IsTrue result → (w : ℕ) × IsTrue (has_edge (graph_after after.now) w v) × (at base.now.blocks.block_of w ≡ Some b) }
    ensures no { IsFalse result → (w : ℕ) → IsTrue (has_edge (graph_after after.now) w v) → at base.now.blocks.block_of w ≡ Some b → ⊥ }
    ensures cost { steps.new ≤ steps.old + (1 + parent_count (shape_of (graph_after after.now)) v + lost_onto after.now.before (graph_after after.now) v) }
{
    let parents = after.parents(v, steps);
    any_in(base, parents, b)
}

/// Drafts that an edge goes, and tells whether another one leads to its end from the block where it begins. The
/// parents of its end are read.
pub(crate) fn draft_unlink<L: Ledger>(
    base: &Summary,
    draft: &mut Draft,
    after: &After<'_>,
    u: NodeId,
    v: NodeId,
    steps: &mut Steps<L>,
) -> Result<bool, Memory>
    requires before { IsBefore after.now base.now }
    requires empty { draft.old ≡ no_changes }
    requires unlinks { after.now.change ≡ unlink u v ∷ [] }
    ensures changed { OnOk result (ShowsChange after.now.before after.now.change base.now draft.new) }
    ensures alone { OnOk result (AreSupportsAlone draft.new) }
    ensures yes { IfOk result (λ s. IsTrue s → HasOther (shape_of (graph_after after.now)) base.now.blocks.block_of u v) }
    ensures no { IfOk result (λ s. IsFalse s → HasOther (shape_of (graph_after after.now)) base.now.blocks.block_of u v → ⊥) }
    ensures cost { steps.new ≤ steps.old + (1 + parent_count (shape_of (graph_after after.now)) v + lost_onto after.now.before (graph_after after.now) v) }
{
    let a = own_block(base, u);
    let b = own_block(base, v);
    draft.lower(base, a, b)?;
    Ok(has_parent_in(base, after, v, a, steps))
}
