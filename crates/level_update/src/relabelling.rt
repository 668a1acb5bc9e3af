// Nodes that get another label, at a level.
ghost use Rattle.std.specs.Prelude.{◌≡◌, ◌+◌, ◌<◌, ◌≤◌, ◌∷◌, [], ℕ, IsTrue, OnOk, length, sum_by};
ghost use Rattle.graph_spec.specs.Graphs.{is_live};
ghost use Rattle.graph_spec.specs.Shapes.{shape_of};
ghost use Rattle.bisim_spec.specs.Partitions.{IsPartition};
ghost use Rattle.one_spec.specs.EdgeCounts.{AreEdgeCounts};
ghost use Rattle.graph_update.specs.PendingChanges.{graph_after};
ghost use Rattle.graph_effects.specs.Effects.{AreEffects};
ghost use Rattle.ak_family.specs.LevelDrafts.{blocks_shown, labels_shown, support_shown, key_shown, AreOver, AreSameBut};
ghost use Rattle.level_update.specs.LevelCosts.{move_cost};
ghost use Rattle.level_update.specs.LevelEffects.{KeyHasLabel, lone_nodes, IsDraftedBelow, IsLevelRelabelled, IsNodeAdded};

use crate::adding::{first_number, lone_block};
use crate::placing::move_to;
use ak_family::{AkDraft, AkFamily, LevelBlock};
use graph_effects::Effects;
use graph_update::After;
use px_base::{Memory, NodeId, Steps};
use quotient_moves::NodeNeighbours;
use std::sync::ledger::Ledger;

// A node moves to the block of a level whose key is the number alone.
fn relabel_node<L: Ledger>(
    family: &AkFamily,
    draft: &mut AkDraft,
    i: u32,
    after: &After<'_>,
    n: NodeId,
    label: u32,
    number: u32,
    neighbours: &mut NodeNeighbours,
    steps: &mut Steps<L>,
) -> Result<(), Memory>
    requires over { AreOver family.now draft.old }
    requires level { i < length family.now }
    requires live { IsTrue (is_live (graph_after after.now) n) }
    requires partition { IsPartition (shape_of (graph_after after.now)) (blocks_shown family.now draft.old i) }
    requires supports { AreEdgeCounts (graph_after after.now) (blocks_shown family.now draft.old i) (support_shown family.now draft.old i) }
    requires labelled { KeyHasLabel (key_shown family.now draft.old i) (labels_shown family.now draft.old i) (number ∷ []) label }
    ensures added { OnOk result (IsNodeAdded family.now i n label number draft.old draft.new) }
    ensures supports { OnOk result (AreEdgeCounts (graph_after after.now) (blocks_shown family.now draft.new i) (support_shown family.now draft.new i)) }
    ensures others { AreSameBut i draft.old draft.new }
    ensures cost { steps.new ≤ steps.old + move_cost after.now n }
{
    let b = lone_block(family, draft, i, label, number)?;
    let to = LevelBlock { level: i, block: b };
    move_to(family, draft, after, n, to, neighbours, steps)?;
    Ok(())
}

/// Moves the nodes that get another label to blocks of a level, each to that whose key is its label, or its block one level
/// below, alone. The parents and the children of each of them are read once.
pub(crate) fn relabel_nodes<L: Ledger>(
    family: &AkFamily,
    draft: &mut AkDraft,
    i: u32,
    after: &After<'_>,
    effects: &Effects,
    neighbours: &mut NodeNeighbours,
    steps: &mut Steps<L>,
) -> Result<(), Memory>
    requires effects { AreEffects after.now.before (graph_after after.now) effects.now }
    requires below { IsDraftedBelow (lone_nodes effects.now) (graph_after after.now) family.now draft.old i }
    requires level { i < length family.now }
    requires start { IsLevelRelabelled effects.now [] (graph_after after.now) family.now draft.old i }
    ensures drafted { OnOk result (IsLevelRelabelled effects.now effects.now.relabelled (graph_after after.now) family.now draft.new i) }
    ensures others { AreSameBut i draft.old draft.new }
    ensures cost { steps.new ≤ steps.old + sum_by (move_cost after.now) effects.now.relabelled }
{
    let list = effects.relabelled();
    'moves: for n in list {
        let label = after.label(*n);
        let number = first_number(family, draft, i, *n, label);
        relabel_node(
            family, draft, i, after, *n, label, number, neighbours, steps,
        )?;
    }
    Ok(())
}
