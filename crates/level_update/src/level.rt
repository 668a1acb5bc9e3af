// Placing the affected nodes at one level.
ghost use Rattle.std.specs.Prelude.{◌+◌, ◌≤◌, ℕ, OnOk, sum_by};
ghost use Rattle.graph_update.specs.PendingChanges.{graph_after};
ghost use Rattle.level_update.specs.Placed.{AreTwoLevels, ArePlaced};
ghost use Rattle.level_update.specs.LevelCosts.{place_cost};

use crate::buffers::Buffers;
use crate::placing::place;
use ak_family::{AkDraft, AkFamily};
use bisim_spec::Sides;
use graph_update::After;
use px_base::{Memory, NodeId, Steps};
use std::sync::ledger::Ledger;

/// Places these nodes at the level above `i`, one after the other.
pub(crate) fn place_all<L: Ledger>(
    family: &AkFamily,
    draft: &mut AkDraft,
    i: u32,
    sides: Sides,
    after: &After<'_>,
    nodes: &[NodeId],
    buffers: &mut Buffers,
    steps: &mut Steps<L>,
) -> Result<(), Memory>
    requires levels { AreTwoLevels (graph_after after.now) family.now draft.old i }
    ensures placed { OnOk result (ArePlaced sides (graph_after after.now) family.now draft.old draft.new i nodes.now) }
    ensures cost { steps.new ≤ steps.old + sum_by (place_cost sides after.now) nodes.now }
{
    for n in nodes {
        place(family, draft, i, sides, after, *n, buffers, steps)?;
    }
    Ok(())
}
