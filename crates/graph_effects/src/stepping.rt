// The effects of a list of steps.
ghost use Rattle.std.specs.Prelude.{◌≡◌, ◌≤◌, ◌+◌, ◌*◌, ℕ, IfOk, IsTrue, OnOk, [], length};
ghost use Rattle.graph_spec.specs.Members.{has, Lists};
ghost use Rattle.graph_spec.specs.Shapes.{shape_of};
ghost use Rattle.bisim_spec.specs.Weights.{weight};
ghost use Rattle.change_spec.specs.Ends.{ends};
ghost use Rattle.change_spec.specs.Altered.{targets};
ghost use Rattle.change_spec.specs.Costs.{is_gone};
ghost use Rattle.graph_update.specs.PendingChanges.{graph_after};
ghost use Rattle.graph_effects.specs.Effects.{AreEffects, ListsPairs, is_new_node, is_new_edge};

use crate::edges::{lose_nodes, sort_named};
use crate::effects::Effects;
use crate::lists::FewEdges;
use crate::nodes::{came_nodes, gone_nodes, target_nodes};
use crate::relabelling::relabelled_nodes;
use graph_steps::Change;
use graph_update::After;
use label_graph::Graph;
use px_base::{Memory, NodeId, Steps};
use std::alloc::Global;
use std::sync::ledger::Ledger;

// The edges that go and come, each once.
fn find_edges<L: Ledger>(
    graph: &Graph,
    change: &Change,
    after: &After<'_>,
    gone: &[NodeId],
    lost: &mut FewEdges,
    added: &mut FewEdges,
    steps: &mut Steps<L>,
) -> Result<(), Memory>
    requires graph { after.now.before ≡ graph.now.graph }
    requires same { after.now.change ≡ change.now }
    requires gone { Lists (is_new_node (graph_after after.now) after.now.before) gone.now }
    requires no_lost { lost.old.items ≡ [] }
    requires no_added { added.old.items ≡ [] }
    ensures lost { OnOk result (ListsPairs (is_new_edge (graph_after after.now) after.now.before) lost.new.items) }
    ensures added { OnOk result (ListsPairs (is_new_edge after.now.before (graph_after after.now)) added.new.items) }
    ensures cost { steps.new ≤ steps.old + length change.now
        + 2 * weight (shape_of after.now.before) (is_gone after.now.before (graph_after after.now)) }
{
    // Called for its contract: the steps can be made.
    let _known = after.created();
    sort_named(graph, change, after, lost, added, steps)?;
    lose_nodes(graph, after, gone, lost, steps)?;
    Ok(())
}

impl Effects {
    /// What a change that `judge` accepts as new makes of the graph in the end. Each target is a target and an end of the change; a node
    /// may stand more than once among them. It takes at most a step for each step of the change, and twice the weight of
    /// the nodes that go. Expected O(s) for s steps; for each link and unlink what it takes to look up an edge of the graph,
    /// and the steps that name an end, for the end where these are fewer, and where steps take nodes away for both; for each
    /// that gives a label what `After::label` takes; and O(w) for nodes that go with weight w, and for each edge between one
    /// of them and a node that steps name these steps. It takes the memory of the effects. The only error is that memory
    /// runs out.
    pub fn of<L: Ledger>(
        alloc: Global,
        graph: &Graph,
        change: &Change,
        after: &After<'_>,
        steps: &mut Steps<L>,
    ) -> Result<Effects, Memory>
        requires graph { after.now.before ≡ graph.now.graph }
        requires same { after.now.change ≡ change.now }
        ensures effects { IfOk result (AreEffects after.now.before (graph_after after.now)) }
        ensures targets { IfOk result (λ e. (n : ℕ) → IsTrue (has e.targets n) → IsTrue (targets after.now.change after.now.before n)) }
        ensures ends { IfOk result (λ e. (n : ℕ) → IsTrue (has e.targets n) → IsTrue (ends after.now.change after.now.before n)) }
        ensures cost { steps.new ≤ steps.old + length after.now.change
            + 2 * weight (shape_of after.now.before) (is_gone after.now.before (graph_after after.now)) }
    {
        // Called for its contract: the change is new.
        let _known = after.created();
        let all = change.steps();
        let came = came_nodes(alloc, graph, after)?;
        let gone = gone_nodes(alloc, graph, all, after)?;
        let relabelled = relabelled_nodes(alloc, graph, change, after)?;
        let mut lost = FewEdges::new(alloc);
        let mut added = FewEdges::new(alloc);
        find_edges(graph, change, after, &gone, &mut lost, &mut added, steps)?;
        let targets = target_nodes(alloc, &came, &relabelled, &lost, &added, after)?;
        Ok(Effects {
            came,
            gone,
            relabelled,
            lost,
            added,
            targets,
        })
    }
}
