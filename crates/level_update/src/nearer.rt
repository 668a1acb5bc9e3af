// Moving the affected nodes where labels stay, level by level.
ghost use Rattle.std.specs.Prelude.{◌≡◌, ◌+◌, ◌≤◌, ℕ, IsTrue, OnOk, length};
ghost use Rattle.graph_spec.specs.Graphs.{is_live};
ghost use Rattle.graph_spec.specs.Members.{has};
ghost use Rattle.graph_spec.specs.Shapes.{shape_of};
ghost use Rattle.bisim_spec.specs.SidedLevels.{DiffersBy};
ghost use Rattle.graph_update.specs.PendingChanges.{graph_after};
ghost use Rattle.level_update.specs.LevelCosts.{most_move_steps};
ghost use Rattle.level_update.specs.LevelEffects.{AreLevelsBefore, AreKeyedBases};
ghost use Rattle.level_update.specs.MovedLevels.{HasMovedAffected, HasMovedNear, AreKeyedAffected};

use crate::buffers::Buffers;
use crate::level::place_all;
use affected_nodes::affected_nodes;
use ak_family::{AkDraft, AkFamily};
use bisim_spec::Sides;
use graph_update::After;
use px_base::{Memory, NodeId, Steps};
use std::alloc::Global;
use std::sync::ledger::Ledger;

// How many edges from an end a node can lie that moves at a level up to this one: one fewer than levels.
fn most_edges(k: u32) -> u32
    ensures few { result ≤ k }
    ensures enough { k ≤ result + 1 }
{
    if k == 0 { 0 } else { k - 1 }
}

/// Moves the affected nodes as `move_affected` does, where each node that was there keeps its block at level 0, since no
/// label of it changes. Then the keys at level 1 change at the ends alone, so that at level `i` only nodes within `i - 1`
/// edges of an end are placed; those one edge further on stay in the blocks of their keys. The cost is bounded as there.
pub(crate) fn move_nearer<L: Ledger>(
    alloc: Global,
    family: &AkFamily,
    draft: &mut AkDraft,
    sides: Sides,
    after: &After<'_>,
    ends: &[NodeId],
    steps: &mut Steps<L>,
) -> Result<(), Memory>
    requires live { (n : ℕ) → IsTrue (has ends.now n) → IsTrue (is_live (graph_after after.now) n) }
    requires before { AreLevelsBefore after.now.before (graph_after after.now) family.now }
    requires keyed { AreKeyedBases sides after.now.before family.now }
    requires differs { DiffersBy sides (has ends.now) (shape_of after.now.before) (shape_of (graph_after after.now)) }
    requires moving { HasMovedAffected sides (has ends.now) (graph_after after.now) family.now draft.old }
    requires near { HasMovedNear sides (has ends.now) after.now.before (graph_after after.now) family.now draft.old }
    ensures moving { OnOk result (HasMovedAffected sides (has ends.now) (graph_after after.now) family.now draft.new) }
    ensures keyed { OnOk result (AreKeyedAffected sides (has ends.now) (graph_after after.now) family.now draft.new) }
    ensures cost { (k : ℕ) → length family.now ≡ k + 1 → steps.new ≤ steps.old + most_move_steps sides after.now (has ends.now) k }
{
    // Called for its contract: there is a graph, so what is affected is among its nodes.
    let _known = after.created();
    let k = family.k();
    let found = affected_nodes(alloc, after, sides, ends, most_edges(k), steps)?;
    let mut buffers = Buffers::new(alloc);
    for i in 0..k {
        let nodes = found.within(i);
        place_all(family, draft, i, sides, after, nodes, &mut buffers, steps)?;
    }
    Ok(())
}
