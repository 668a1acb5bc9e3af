// Edges that come and go, at a level.
ghost use Rattle.std.specs.Prelude.{◌≡◌, ◌<◌, ◌^◌, [], ℕ, IsSome, Some, OnOk, length};
ghost use Rattle.graph_spec.specs.Members.{at};
ghost use Rattle.graph_update.specs.PendingChanges.{graph_after};
ghost use Rattle.graph_effects.specs.Effects.{AreEffects};
ghost use Rattle.ak_family.specs.LevelDrafts.{blocks_shown, labels_shown, support_shown, AreOver, AreSameBut};
ghost use Rattle.level_update.specs.LevelEffects.{AreLevelsBefore, IsLevelOnWay, IsEdgeLowered, IsEdgeRaised, HaveSupport, HasEdgesLowered, HasNodesLeft, HasEdgesRaised};

use ak_family::{AkDraft, AkFamily};
use graph_effects::Effects;
use graph_update::After;
use px_base::{Memory, NodeId};

// The block that a node has at a level.
fn own_block(family: &AkFamily, draft: &AkDraft, i: u32, n: NodeId) -> u32
    requires over { AreOver family.now draft.now }
    requires level { i < length family.now }
    requires some { IsSome (at (blocks_shown family.now draft.now i) n) }
    ensures block { at (blocks_shown family.now draft.now i) n ≡ Some result }
    ensures live { IsSome (at (labels_shown family.now draft.now i) result) }
{
    family.shown(draft, i, n).unwrap()
}

// An edge goes, at a level.
fn lower_edge(
    family: &AkFamily,
    draft: &mut AkDraft,
    i: u32,
    u: NodeId,
    v: NodeId,
) -> Result<(), Memory>
    requires over { AreOver family.now draft.old }
    requires level { i < length family.now }
    requires from { IsSome (at (blocks_shown family.now draft.old i) u) }
    requires onto { IsSome (at (blocks_shown family.now draft.old i) v) }
    requires some { HaveSupport family.now draft.old i u v }
    ensures lowered { OnOk result (IsEdgeLowered family.now i u v draft.old draft.new) }
    ensures others { AreSameBut i draft.old draft.new }
{
    let a = own_block(family, draft, i, u);
    let b = own_block(family, draft, i, v);
    family.lower(draft, i, a, b)?;
    Ok(())
}

// An edge comes, at a level.
fn raise_edge(
    family: &AkFamily,
    draft: &mut AkDraft,
    i: u32,
    u: NodeId,
    v: NodeId,
) -> Result<(), Memory>
    requires over { AreOver family.now draft.old }
    requires level { i < length family.now }
    requires from { IsSome (at (blocks_shown family.now draft.old i) u) }
    requires onto { IsSome (at (blocks_shown family.now draft.old i) v) }
    requires few { (x y : ℕ) → support_shown family.now draft.old i x y < 2 ^ 31 }
    ensures raised { OnOk result (IsEdgeRaised family.now i u v draft.old draft.new) }
    ensures others { AreSameBut i draft.old draft.new }
{
    let a = own_block(family, draft, i, u);
    let b = own_block(family, draft, i, v);
    family.raise(draft, i, a, b)?;
    Ok(())
}

/// Lowers the support of two blocks of a level for each edge that goes.
pub(crate) fn lower_edges(
    family: &AkFamily,
    draft: &mut AkDraft,
    i: u32,
    after: &After<'_>,
    effects: &Effects,
) -> Result<(), Memory>
    requires before { AreLevelsBefore after.now.before (graph_after after.now) family.now }
    requires effects { AreEffects after.now.before (graph_after after.now) effects.now }
    requires level { i < length family.now }
    requires start { IsLevelOnWay (graph_after after.now) after.now.before effects.now.came [] family.now draft.old i }
    ensures lowered { OnOk result (HasEdgesLowered after.now effects.now family.now draft.new i) }
    ensures others { AreSameBut i draft.old draft.new }
{
    let lost = effects.lost();
    'lowers: for edge in lost {
        lower_edge(family, draft, i, edge.0, edge.1)?;
    }
    Ok(())
}

/// Raises the support of two blocks of a level for each edge that comes.
pub(crate) fn raise_edges(
    family: &AkFamily,
    draft: &mut AkDraft,
    i: u32,
    after: &After<'_>,
    effects: &Effects,
) -> Result<(), Memory>
    requires before { AreLevelsBefore after.now.before (graph_after after.now) family.now }
    requires effects { AreEffects after.now.before (graph_after after.now) effects.now }
    requires level { i < length family.now }
    requires start { HasNodesLeft after.now effects.now family.now draft.old i }
    ensures raised { OnOk result (HasEdgesRaised after.now effects.now family.now draft.new i) }
    ensures others { AreSameBut i draft.old draft.new }
{
    let added = effects.added();
    'raises: for edge in added {
        raise_edge(family, draft, i, edge.0, edge.1)?;
    }
    Ok(())
}
