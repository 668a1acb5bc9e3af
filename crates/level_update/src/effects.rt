// What the effects of a change make of each level.
ghost use Rattle.std.specs.Prelude.{◌≡◌, ◌+◌, ◌*◌, ◌<◌, ◌≤◌, [], ℕ, IsTrue, OnOk, nat_eq, length, sum_by};
ghost use Rattle.graph_spec.specs.Graphs.{is_live};
ghost use Rattle.graph_spec.specs.Members.{has};
ghost use Rattle.graph_spec.specs.Shapes.{shape_of};
ghost use Rattle.bisim_spec.specs.SidedLevels.{DiffersBy};
ghost use Rattle.graph_update.specs.PendingChanges.{graph_after};
ghost use Rattle.graph_effects.specs.Effects.{AreEffects};
ghost use Rattle.keyed_quotient.specs.Changes.{no_keyed_changes};
ghost use Rattle.ak_family.specs.LevelDrafts.{changes_at, AreOver, AreSameBut, AreEmpty};
ghost use Rattle.graph_effects.specs.StepEffects.{ends_of};
ghost use Rattle.level_update.specs.LevelCosts.{move_cost, most_move_steps, most_draft_steps};
ghost use Rattle.level_update.specs.MovedLevels.{HasMovedAffected, HasMovedNear, AreKeyedAffected, AreMoved};
ghost use Rattle.level_update.specs.LevelEffects.{AreLevelsBefore, AreKeyedBases, IsDraftedBelow, IsLevelRelabelled, IsLevelDrafted, AreLevelsDrafted, lone_nodes, keeps_keys};

use crate::adding::add_nodes;
use crate::counting::{lower_edges, raise_edges};
use crate::leaving::leave_nodes;
use crate::moving::move_affected;
use crate::nearer::move_nearer;
use crate::relabelling::relabel_nodes;
use ak_family::{AkDraft, AkFamily};
use bisim_spec::Sides;
use graph_effects::Effects;
use graph_update::After;
use px_base::{Memory, NodeId, Steps};
use quotient_moves::NodeNeighbours;
use std::alloc::Global;
use std::sync::ledger::Ledger;

// Drafts the nodes and edges that come and go at a level, over which nothing is drafted yet: edges lead between blocks as
// nodes stand in them.
fn draft_level(
    family: &AkFamily,
    draft: &mut AkDraft,
    i: u32,
    after: &After<'_>,
    effects: &Effects,
) -> Result<(), Memory>
    requires before { AreLevelsBefore after.now.before (graph_after after.now) family.now }
    requires effects { AreEffects after.now.before (graph_after after.now) effects.now }
    requires over { AreOver family.now draft.old }
    requires level { i < length family.now }
    requires below { IsDraftedBelow (lone_nodes effects.now) (graph_after after.now) family.now draft.old i }
    requires none { changes_at draft.old i ≡ no_keyed_changes }
    ensures drafted { OnOk result (IsLevelRelabelled effects.now [] (graph_after after.now) family.now draft.new i) }
    ensures over { OnOk result (AreOver family.now draft.new) }
    ensures others { AreSameBut i draft.old draft.new }
{
    add_nodes(family, draft, i, after, effects)?;
    lower_edges(family, draft, i, after, effects)?;
    leave_nodes(family, draft, i, after, effects)?;
    raise_edges(family, draft, i, after, effects)?;
    Ok(())
}

// Drafts all effects at a level: nodes that get another label are moved too.
fn draft_whole<L: Ledger>(
    family: &AkFamily,
    draft: &mut AkDraft,
    i: u32,
    after: &After<'_>,
    effects: &Effects,
    neighbours: &mut NodeNeighbours,
    steps: &mut Steps<L>,
) -> Result<(), Memory>
    requires before { AreLevelsBefore after.now.before (graph_after after.now) family.now }
    requires effects { AreEffects after.now.before (graph_after after.now) effects.now }
    requires over { AreOver family.now draft.old }
    requires level { i < length family.now }
    requires below { IsDraftedBelow (lone_nodes effects.now) (graph_after after.now) family.now draft.old i }
    requires none { changes_at draft.old i ≡ no_keyed_changes }
    ensures drafted { OnOk result (IsLevelDrafted (lone_nodes effects.now) (graph_after after.now) family.now draft.new i) }
    ensures over { OnOk result (AreOver family.now draft.new) }
    ensures others { AreSameBut i draft.old draft.new }
    ensures cost { steps.new ≤ steps.old + sum_by (move_cost after.now) effects.now.relabelled }
{
    draft_level(family, draft, i, after, effects)?;
    relabel_nodes(family, draft, i, after, effects, neighbours, steps)?;
    Ok(())
}

// Drafts the effects of a change at each level. Each level then shows the graph after the change, with nodes in the
// blocks in which they were, and those that come or get another label in the blocks of their own numbers alone. The
// neighbours of those that get another label are read at each level.
fn draft_levels<L: Ledger>(
    alloc: Global,
    family: &AkFamily,
    draft: &mut AkDraft,
    after: &After<'_>,
    effects: &Effects,
    steps: &mut Steps<L>,
) -> Result<(), Memory>
    requires before { AreLevelsBefore after.now.before (graph_after after.now) family.now }
    requires effects { AreEffects after.now.before (graph_after after.now) effects.now }
    requires over { AreOver family.now draft.old }
    requires empty { AreEmpty draft.old }
    ensures drafted { OnOk result (AreLevelsDrafted (lone_nodes effects.now) (graph_after after.now) family.now draft.new) }
    ensures cost { steps.new ≤ steps.old + length family.now * sum_by (move_cost after.now) effects.now.relabelled }
{
    let mut neighbours = NodeNeighbours::new(alloc);
    'levels: for i in 0..family.k() + 1 {
        draft_whole(family, draft, i, after, effects, &mut neighbours, steps)?;
    }
    Ok(())
}

// Whether nodes keep the keys with which the effects are drafted.
fn keeps_keys(ends: &[NodeId], effects: &Effects) -> bool
    ensures { result ≡ keeps_keys ends.now effects.now }
{
    ends.is_empty()
        || ((effects.lost().is_empty() && effects.added().is_empty())
            && effects.relabelled().is_empty())
}

// Whether no node gets another label.
fn keeps_labels(effects: &Effects) -> bool
    ensures { result ≡ nat_eq (length effects.now.relabelled) 0 }
{
    effects.relabelled().is_empty()
}

// Moves the nodes that the effects affect, once these are drafted at each level.
fn move_nodes<L: Ledger>(
    alloc: Global,
    family: &AkFamily,
    draft: &mut AkDraft,
    sides: Sides,
    after: &After<'_>,
    effects: &Effects,
    ends: &[NodeId],
    steps: &mut Steps<L>,
) -> Result<(), Memory>
    requires live { (n : ℕ) → IsTrue (has ends.now n) → IsTrue (is_live (graph_after after.now) n) }
    requires before { AreLevelsBefore after.now.before (graph_after after.now) family.now }
    requires keyed { AreKeyedBases sides after.now.before family.now }
    requires differs { DiffersBy sides (has ends.now) (shape_of after.now.before) (shape_of (graph_after after.now)) }
    requires moving { HasMovedAffected sides (has ends.now) (graph_after after.now) family.now draft.old }
    requires near { IsTrue (nat_eq (length effects.now.relabelled) 0)
        → HasMovedNear sides (has ends.now) after.now.before (graph_after after.now) family.now draft.old }
    ensures moving { OnOk result (HasMovedAffected sides (has ends.now) (graph_after after.now) family.now draft.new) }
    ensures keyed { OnOk result (AreKeyedAffected sides (has ends.now) (graph_after after.now) family.now draft.new) }
    ensures cost { (k : ℕ) → length family.now ≡ k + 1 → steps.new ≤ steps.old + most_move_steps sides after.now (has ends.now) k }
{
    if keeps_labels(effects) {
        move_nearer(alloc, family, draft, sides, after, ends, steps)
    } else {
        move_affected(alloc, family, draft, sides, after, ends, steps)
    }
}

/// Drafts what a change with these effects, which alters what counts at these ends, makes of a family: the effects at each
/// level, and then the moves of the nodes that they affect. For each side that counts it takes at most `(6 * k + 4) * w`
/// steps, where `k` is the highest level, and `w` is what the change costs at the nodes within `k` edges of an end. Where
/// no edge comes or goes and no node gets another label, no node moves: one that comes is in the block of its own number
/// alone.
pub(crate) fn draft_effects<L: Ledger>(
    alloc: Global,
    family: &AkFamily,
    draft: &mut AkDraft,
    sides: Sides,
    after: &After<'_>,
    effects: &Effects,
    ends: &[NodeId],
    steps: &mut Steps<L>,
) -> Result<(), Memory>
    requires before { AreLevelsBefore after.now.before (graph_after after.now) family.now }
    requires keyed { AreKeyedBases sides after.now.before family.now }
    requires effects { AreEffects after.now.before (graph_after after.now) effects.now }
    requires ends { ends.now ≡ ends_of sides (graph_after after.now) effects.now }
    requires over { AreOver family.now draft.old }
    requires empty { AreEmpty draft.old }
    ensures moved { OnOk result (AreMoved sides (has ends.now) (graph_after after.now) family.now draft.new) }
    ensures cost { (k : ℕ) → length family.now ≡ k + 1 → steps.new ≤ steps.old + most_draft_steps sides after.now (has ends.now) k }
{
    // Called for its contract: there is a graph, so what is affected is among its nodes.
    let _known = after.created();
    draft_levels(alloc, family, draft, after, effects, steps)?;
    if keeps_keys(ends, effects) {
        return Ok(());
    }
    move_nodes(alloc, family, draft, sides, after, effects, ends, steps)?;
    Ok(())
}
