// Moving the affected nodes, level by level.
ghost use Rattle.std.specs.Prelude.{◌≡◌, ◌+◌, ◌≤◌, ℕ, IsTrue, OnOk, length};
ghost use Rattle.graph_spec.specs.Graphs.{is_live};
ghost use Rattle.graph_spec.specs.Members.{has};
ghost use Rattle.graph_update.specs.PendingChanges.{graph_after};
ghost use Rattle.ak_family.specs.LevelDrafts.{blocks_shown};
ghost use Rattle.level_update.specs.LevelCosts.{most_move_steps};
ghost use Rattle.level_update.specs.MovedLevels.{HasMovedAffected, AreKeyedAffected};

use crate::buffers::Buffers;
use crate::level::place_all;
use affected_nodes::affected_nodes;
use ak_family::{AkDraft, AkFamily};
use bisim_spec::Sides;
use graph_update::After;
use px_base::{Memory, NodeId, Steps};
use std::alloc::Global;
use std::sync::ledger::Ledger;

/// Moves the nodes to which few edges lead from the ends of a change, level by level from level 1 on: at level `i` those
/// within `i` edges of an end, each to the block of its key there, which is a further block where no block has the key.
/// The edges of the change are drafted at each level already, and level 0 is done.
///
/// For each side that counts it takes at most `(3 * k + 1) * w` steps, where `k` is the highest level, and `w` is what the
/// change costs at the nodes within `k` edges of an end. Expected O(k (1 + w log w)), since the numbers in a key are
/// sorted; it takes the memory of the affected nodes and of what is drafted. After `Memory` the draft must be dropped.
pub(crate) fn move_affected<L: Ledger>(
    alloc: Global,
    family: &AkFamily,
    draft: &mut AkDraft,
    sides: Sides,
    after: &After<'_>,
    ends: &[NodeId],
    steps: &mut Steps<L>,
) -> Result<(), Memory>
    requires live { (n : ℕ) → IsTrue (has ends.now n) → IsTrue (is_live (graph_after after.now) n) }
    requires moving { HasMovedAffected sides (has ends.now) (graph_after after.now) family.now draft.old }
    ensures moving { OnOk result (HasMovedAffected sides (has ends.now) (graph_after after.now) family.now draft.new) }
    ensures keyed { OnOk result (AreKeyedAffected sides (has ends.now) (graph_after after.now) family.now draft.new) }
    ensures lowest { OnOk result (blocks_shown family.now draft.new 0 ≡ blocks_shown family.now draft.old 0) }
    ensures cost { (k : ℕ) → length family.now ≡ k + 1 → steps.new ≤ steps.old + most_move_steps sides after.now (has ends.now) k }
{
    // Called for its contract: there is a graph, so what is affected is among its nodes.
    let _known = after.created();
    let k = family.k();
    let found = affected_nodes(alloc, after, sides, ends, k, steps)?;
    let mut buffers = Buffers::new(alloc);
    for i in 0..k {
        let nodes = found.within(i + 1);
        place_all(family, draft, i, sides, after, nodes, &mut buffers, steps)?;
    }
    Ok(())
}
