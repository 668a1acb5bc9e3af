// The search for all that is reached.
ghost use Rattle.std.specs.Prelude.{◌≡◌, ◌+◌, ◌<◌, ◌≤◌, ℕ, IfOk, IsTrue, length};
ghost use Rattle.graph_spec.specs.Graphs.{is_live};
ghost use Rattle.graph_spec.specs.Members.{has, Lists};
ghost use Rattle.graph_spec.specs.Shapes.{shape_of};
ghost use Rattle.bisim_spec.specs.Reach.{reach};
ghost use Rattle.change_spec.specs.Costs.{cost};
ghost use Rattle.graph_update.specs.PendingChanges.{graph_after};

use crate::reading::{meet, spread};
use bisim_spec::Sides;
use graph_update::After;
use indexmap::IndexSet;
use px_base::{Memory, NodeId, Steps};
use std::alloc::Global;
use std::sync::ledger::Ledger;

/// Searches the graph after a change for all nodes to which edges lead from its targets, each once, in the order of
/// their distance. The search ends once a round meets no new node. The children of each node that is found are read
/// once. It takes at most as many steps as the change costs there: one for each node that is found, for each of its parents
/// and for each of its children, one for each step of the change, and for each node that goes one, and one for each parent
/// and child that it had. Expected O(t + w) for t targets and this cost w; it takes the memory of the nodes that are
/// found, whatever the size of the graph. The only error is that memory runs out.
pub fn reached_nodes<L: Ledger>(
    alloc: Global,
    after: &After<'_>,
    targets: &[NodeId],
    steps: &mut Steps<L>,
) -> Result<Vec<NodeId>, Memory>
    requires live { (t : ℕ) → IsTrue (has targets.now t) → IsTrue (is_live (graph_after after.now) t) }
    ensures reached { IfOk result (λ nodes. Lists (reach (shape_of (graph_after after.now)) (has targets.now)) nodes.items) }
    ensures cost { steps.new ≤ steps.old + cost after.now.change after.now.before (reach (shape_of (graph_after after.now)) (has targets.now)) }
{
    // Called for its contract: there is a graph, so that what is reached is among its nodes.
    let _known = after.created();
    let mut met = IndexSet::new(alloc);
    meet(&mut met, targets)?;
    let mut from = 0;
    'rounds: while from < met.len() {
        let end = met.len();
        spread(&mut met, Sides::Parents, from, after, steps)?;
        from = end;
    }
    let nodes = met.as_slice().to_vec(alloc)?;
    Ok(nodes)
}
