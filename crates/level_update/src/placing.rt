// Placing a node in the block of its key.
ghost use Rattle.std.specs.Prelude.{◌+◌, ◌<◌, ◌≤◌, ◌∷◌, [], IsSome, IsTrue, OnOk, length};
ghost use Rattle.graph_spec.specs.Graphs.{is_live};
ghost use Rattle.graph_spec.specs.Members.{at};
ghost use Rattle.graph_spec.specs.Shapes.{shape_of};
ghost use Rattle.bisim_spec.specs.Partitions.{IsPartition};
ghost use Rattle.one_spec.specs.EdgeCounts.{AreEdgeCounts};
ghost use Rattle.graph_update.specs.PendingChanges.{graph_after};
ghost use Rattle.ak_family.specs.LevelDrafts.{blocks_shown, labels_shown, support_shown, AreOver, AreSameBut};
ghost use Rattle.level_update.specs.Placed.{AreTwoLevels, HasMoved, ArePlaced};
ghost use Rattle.level_update.specs.LevelCosts.{move_cost, place_cost};

use crate::buffers::Buffers;
use crate::keys::{read_neighbours, write_level_key};
use ak_family::{AkDraft, AkFamily, LevelBlock};
use bisim_spec::Sides;
use graph_update::After;
use px_base::{Memory, NodeId, Steps};
use quotient_moves::NodeNeighbours;
use std::sync::ledger::Ledger;

/// Moves a node to a block of a level, if it isn't there yet. Its parents and its children are read once.
pub(crate) fn move_to<L: Ledger>(
    family: &AkFamily,
    draft: &mut AkDraft,
    after: &After<'_>,
    n: NodeId,
    to: LevelBlock,
    neighbours: &mut NodeNeighbours,
    steps: &mut Steps<L>,
) -> Result<(), Memory>
    requires over { AreOver family.now draft.old }
    requires level { to.level < length family.now }
    requires live { IsTrue (is_live (graph_after after.now) n) }
    requires partition { IsPartition (shape_of (graph_after after.now)) (blocks_shown family.now draft.old to.level) }
    requires block { IsSome (at (labels_shown family.now draft.old to.level) to.block) }
    requires supports { AreEdgeCounts (graph_after after.now) (blocks_shown family.now draft.old to.level) (support_shown family.now draft.old to.level) }
    ensures moved { OnOk result (HasMoved (graph_after after.now) family.now draft.old draft.new to.level n to.block) }
    ensures others { AreSameBut to.level draft.old draft.new }
    ensures cost { steps.new ≤ steps.old + move_cost after.now n }
{
    if family.shown(draft, to.level, n) == Some(to.block) {
        return Ok(());
    }
    family.move_node(draft, after, n, to, neighbours, steps)?;
    Ok(())
}

/// Places a node in the block of its key at the level above `i`. A number that is no node has no block and stays without.
/// The neighbours on the sides that count are read for its key, and its parents and children for its move.
pub(crate) fn place<L: Ledger>(
    family: &AkFamily,
    draft: &mut AkDraft,
    i: u32,
    sides: Sides,
    after: &After<'_>,
    n: NodeId,
    buffers: &mut Buffers,
    steps: &mut Steps<L>,
) -> Result<(), Memory>
    requires levels { AreTwoLevels (graph_after after.now) family.now draft.old i }
    ensures placed { OnOk result (ArePlaced sides (graph_after after.now) family.now draft.old draft.new i (n ∷ [])) }
    ensures cost { steps.new ≤ steps.old + place_cost sides after.now n }
{
    let Some(own) = family.shown(draft, i, n) else {
        return Ok(());
    };
    // Called for its contract: there are few levels.
    let _known = family.k();
    read_neighbours(
        &mut buffers.parents,
        &mut buffers.children,
        sides,
        after,
        n,
        steps,
    )?;
    write_level_key(
        &mut buffers.key,
        family,
        draft,
        i,
        sides,
        &buffers.parents,
        &buffers.children,
        own,
    )?;
    let b = family.keyed_block(draft, i + 1, after.label(n), &buffers.key)?;
    let to = LevelBlock {
        level: i + 1,
        block: b,
    };
    move_to(family, draft, after, n, to, &mut buffers.neighbours, steps)?;
    Ok(())
}
