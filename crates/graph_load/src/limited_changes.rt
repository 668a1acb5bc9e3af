// Nodes and edges are added within the limits.
ghost use Rattle.std.specs.Prelude.{◌≡◌, ◌<◌, ◌^◌, ◌∷◌, [], ℕ, length, IfOk, OnOk, IsErrOf, IsTrue, Ok};
ghost use Rattle.graph_spec.specs.Graphs.{is_live};
ghost use Rattle.change_spec.specs.Steps.{link, apply};
ghost use Rattle.label_graph.specs.ReservedGraphs.{none_reserved};
ghost use Rattle.graph_load.specs.Refused.{IsRefused};
ghost use Rattle.graph_load.specs.declared.limited_changes.Stop.TheVariants.{Memory as NoMemory};

use graph_steps::edge_before;
use graph_update::{Change, Verdict, commit, judge, stage};
use label_graph::Graph;
use px_base::{Limits, Memory, NodeId};
use std::alloc::Global;

/// Why nothing was added.
#[derive(Clone, Copy, Debug, PartialEq, Eq)]
pub(crate) enum Stop {
    /// It is past a limit of the graph.
    Limit,
    /// An allocation failed.
    Memory,
}

impl From<Memory> for Stop {
    ghost from_gives = { λ _ e. e ≡ NoMemory };

    fn from(_: Memory) -> Self {
        Stop::Memory
    }
}

/// Makes the change, where the limits allow it.
pub(crate) fn make(
    alloc: Global,
    graph: &mut Graph,
    change: &Change,
    limits: &Limits,
) -> Result<(), Stop>
    requires reserved { graph.old.reserved ≡ none_reserved }
    ensures made { OnOk result (apply change.now graph.old.graph limits.now ≡ Ok graph.new.graph) }
    ensures reserved { OnOk result (graph.new.reserved ≡ none_reserved) }
    ensures limit { IsErrOf result Stop.Limit → IsRefused (apply change.now graph.old.graph limits.now) }
{
    match judge(graph, change, limits) {
        Ok(Verdict::New) => {
            let staged = stage(alloc, graph, change)?;
            commit(graph, staged);
            Ok(())
        }
        Ok(Verdict::Same) => Ok(()),
        Err(_) => Err(Stop::Limit),
    }
}

/// Adds a node, and gives its number.
pub(crate) fn add_node(
    alloc: Global,
    graph: &mut Graph,
    node: &Change,
    limits: &Limits,
) -> Result<NodeId, Stop>
    requires reserved { graph.old.reserved ≡ none_reserved }
    ensures made { OnOk result (apply node.now graph.old.graph limits.now ≡ Ok graph.new.graph) }
    ensures reserved { OnOk result (graph.new.reserved ≡ none_reserved) }
    ensures number { IfOk result (λ n. n ≡ length graph.old.graph.allocated) }
    ensures limit { IsErrOf result Stop.Limit → IsRefused (apply node.now graph.old.graph limits.now) }
{
    let number = graph.created();
    make(alloc, graph, node, limits)?;
    Ok(number)
}

/// Adds an edge, unless it is there. A load adds two for each triple, so this is made at once, and not by way of a change.
pub(crate) fn link(graph: &mut Graph, from: NodeId, to: NodeId, limits: &Limits) -> Result<(), Stop>
    requires reserved { graph.old.reserved ≡ none_reserved }
    ensures made { OnOk result (apply (link from to ∷ []) graph.old.graph limits.now ≡ Ok graph.new.graph) }
    ensures reserved { OnOk result (graph.new.reserved ≡ none_reserved) }
    ensures limit { IsErrOf result Stop.Limit → IsRefused (apply (link from to ∷ []) graph.old.graph limits.now) }
{
    if !graph.is_live(from) || !graph.is_live(to) {
        return Err(Stop::Limit);
    }
    link_live(graph, from, to, limits)
}

// The same of two nodes.
fn link_live(graph: &mut Graph, from: NodeId, to: NodeId, limits: &Limits) -> Result<(), Stop>
    requires reserved { graph.old.reserved ≡ none_reserved }
    requires from { IsTrue (is_live graph.old.graph from) }
    requires onto { IsTrue (is_live graph.old.graph to) }
    ensures made { OnOk result (apply (link from to ∷ []) graph.old.graph limits.now ≡ Ok graph.new.graph) }
    ensures reserved { OnOk result (graph.new.reserved ≡ none_reserved) }
    ensures limit { IsErrOf result Stop.Limit → IsRefused (apply (link from to ∷ []) graph.old.graph limits.now) }
{
    if edge_before(graph, from, to) {
        return Ok(());
    }
    if graph.edge_count() >= limits.edges {
        return Err(Stop::Limit);
    }
    graph.reserve_edge(from, to)?;
    graph.add_edge(from, to);
    Ok(())
}
