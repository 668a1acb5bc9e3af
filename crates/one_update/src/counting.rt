// Edges that come and go.
ghost use Rattle.std.specs.Prelude.{◌≡◌, ◌<◌, ◌^◌, ℕ, Some, IsSome, OnOk};
ghost use Rattle.graph_spec.specs.Members.{at};
ghost use Rattle.graph_update.specs.PendingChanges.{graph_after};
ghost use Rattle.graph_effects.specs.Effects.{AreEffects};
ghost use Rattle.quotient_draft.specs.Drafts.{shown_blocks, shown_labels, shown_support};
ghost use Rattle.quotient_draft.specs.Basis.{IsOver};
ghost use Rattle.one_update.specs.OneDrafts.{IsBefore};
ghost use Rattle.one_update.specs.EffectDrafts.{IsPairLowered, IsPairRaised, HaveSupport, NodesHaveCome, EdgesHaveGone, NodesHaveGone, EdgesHaveCome};

use graph_effects::Effects;
use graph_update::After;
use px_base::{Memory, NodeId};
use quotient::Summary;
use quotient_draft::Draft;

// The block of a node as shown.
fn shown_block(base: &Summary, draft: &Draft, n: NodeId) -> u32
    requires over { IsOver base.now.blocks.block_of base.now.blocks.labels draft.now }
    requires some { IsSome (at (shown_blocks base.now draft.now) n) }
    ensures block { at (shown_blocks base.now draft.now) n ≡ Some result }
    ensures live { IsSome (at (shown_labels base.now draft.now) result) }
{
    draft.block_of(base, n).unwrap()
}

// An edge goes.
fn lower_edge(base: &Summary, draft: &mut Draft, u: NodeId, v: NodeId) -> Result<(), Memory>
    requires over { IsOver base.now.blocks.block_of base.now.blocks.labels draft.old }
    requires from { IsSome (at (shown_blocks base.now draft.old) u) }
    requires onto { IsSome (at (shown_blocks base.now draft.old) v) }
    requires some { HaveSupport base.now draft.old u v }
    ensures lowered { OnOk result (IsPairLowered base.now u v draft.old draft.new) }
{
    let a = shown_block(base, draft, u);
    let b = shown_block(base, draft, v);
    draft.lower(base, a, b)?;
    Ok(())
}

// An edge comes.
fn raise_edge(base: &Summary, draft: &mut Draft, u: NodeId, v: NodeId) -> Result<(), Memory>
    requires over { IsOver base.now.blocks.block_of base.now.blocks.labels draft.old }
    requires from { IsSome (at (shown_blocks base.now draft.old) u) }
    requires onto { IsSome (at (shown_blocks base.now draft.old) v) }
    requires few { (x y : ℕ) → shown_support base.now draft.old x y < 2 ^ 31 }
    ensures raised { OnOk result (IsPairRaised base.now u v draft.old draft.new) }
{
    let a = shown_block(base, draft, u);
    let b = shown_block(base, draft, v);
    draft.raise(base, a, b)?;
    Ok(())
}

/// Lowers the support of two blocks for each edge that goes.
pub(crate) fn lower_edges(
    base: &Summary,
    draft: &mut Draft,
    after: &After<'_>,
    effects: &Effects,
) -> Result<(), Memory>
    requires before { IsBefore after.now base.now }
    requires effects { AreEffects after.now.before (graph_after after.now) effects.now }
    requires start { NodesHaveCome after.now effects.now base.now draft.old }
    ensures lowered { OnOk result (EdgesHaveGone after.now effects.now base.now draft.new) }
{
    let lost = effects.lost();
    'lowers: for edge in lost {
        lower_edge(base, draft, edge.0, edge.1)?;
    }
    Ok(())
}

/// Raises the support of two blocks for each edge that comes.
pub(crate) fn raise_edges(
    base: &Summary,
    draft: &mut Draft,
    after: &After<'_>,
    effects: &Effects,
) -> Result<(), Memory>
    requires before { IsBefore after.now base.now }
    requires effects { AreEffects after.now.before (graph_after after.now) effects.now }
    requires start { NodesHaveGone after.now effects.now base.now draft.old }
    ensures raised { OnOk result (EdgesHaveCome after.now effects.now base.now draft.new) }
{
    // Called for its contract: edges are few.
    let _known = after.created();
    let added = effects.added();
    'raises: for edge in added {
        raise_edge(base, draft, edge.0, edge.1)?;
    }
    Ok(())
}
