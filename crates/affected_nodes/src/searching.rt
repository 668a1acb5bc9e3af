// The search.
ghost use Rattle.std.specs.Prelude.{◌≡◌, ◌+◌, ◌*◌, ◌<◌, ◌≤◌, ℕ, IfOk, IsTrue, length};
ghost use Rattle.graph_spec.specs.Graphs.{is_live};
ghost use Rattle.graph_spec.specs.Members.{has};
ghost use Rattle.graph_spec.specs.Shapes.{shape_of};
ghost use Rattle.bisim_spec.specs.SidedLevels.{spread, affected};
ghost use Rattle.change_spec.specs.Costs.{cost};
ghost use Rattle.graph_update.specs.PendingChanges.{graph_after};
ghost use Rattle.affected_nodes.specs.AffectedSearches.{AreWithinDistance, within};
ghost use Rattle.affected_nodes.specs.ReadCosts.{side_count};

use crate::reading::{meet, spread};
use bisim_spec::Sides;
use graph_update::After;
use indexmap::IndexSet;
use px_base::{Memory, NodeId, Steps};
use std::alloc::Global;
use std::marker::Model;
use std::sync::ledger::Ledger;

/// The nodes to which few edges lead from the targets of a change, in the order of their distance, each once, and how many
/// there are up to each distance. The memory is that of these nodes, whatever the size of the graph.
///
/// The nodes to which at most one edge leads, of those to which at most two do:
///
///     let affected = affected_nodes(alloc, &after, Sides::Parents, &targets, 2, &mut steps)?;
///     take(affected.within(1));
#[derive(Drop)]
pub struct AffectedNodes {
    met: IndexSet<NodeId>,
    ends: Vec<usize>,
}

impl Model for AffectedNodes {
    ghost use Rattle.std.specs.Prelude.{ℕ, ◌≤◌, length, slice_index};
    ghost use Rattle.affected_nodes.specs.AffectedSearches.{Searched, searched_code};

    ghost Value = { Searched };

    ghost coded = { searched_code };

    ghost view = { λ n. record { nodes = n.met.keys; ends = n.ends.items } };

    ghost invariant = { λ n. (i : ℕ) → slice_index n.ends.items i ≤ length n.met.keys };
}

impl AffectedNodes {
    /// The nodes to which at most `i` edges lead from the targets, each once, the targets first. O(1), no memory.
    pub fn within(&self, i: u32) -> &[NodeId]
        requires level { i < length self.now.ends }
        ensures { result.now ≡ within self.now i }
    {
        &self.met.as_slice()[..self.ends[i as usize]]
    }
}

/// Searches the graph after a change for the nodes whose level `k` it can change, where it alters the graph at these targets
/// alone: those to which at most `k` edges lead from them, each taken in either direction where both sides count. The
/// children of each of them that is nearer than `k` are read once, and where both sides count its parents. For each side
/// that counts it takes at most as many steps as the change costs there, as `reached_nodes`, and no step where `k` is 0.
/// Expected O(t + w + k) for t targets and this cost w; it takes the memory of the nodes that are found, whatever the size
/// of the graph.
pub fn affected_nodes<L: Ledger>(
    alloc: Global,
    after: &After<'_>,
    sides: Sides,
    targets: &[NodeId],
    k: u32,
    steps: &mut Steps<L>,
) -> Result<AffectedNodes, Memory>
    requires live { (t : ℕ) → IsTrue (has targets.now t) → IsTrue (is_live (graph_after after.now) t) }
    ensures within_distance { IfOk result (AreWithinDistance (spread sides (shape_of (graph_after after.now))) (has targets.now) k) }
    ensures none { k ≡ 0 → steps.new ≡ steps.old }
    ensures cost { steps.new ≤ steps.old
        + side_count sides * cost after.now.change after.now.before (affected sides (shape_of (graph_after after.now)) (has targets.now) k) }
{
    // Called for its contract: there is a graph, so that what is affected is among its nodes.
    let _known = after.created();
    let mut met = IndexSet::new(alloc);
    let mut ends = Vec::new(alloc);
    meet(&mut met, targets)?;
    ends.push(met.len())?;
    let mut from = 0;
    for _ in 0..k {
        let end = met.len();
        spread(&mut met, sides, from, after, steps)?;
        ends.push(met.len())?;
        from = end;
    }
    Ok(AffectedNodes { met, ends })
}
