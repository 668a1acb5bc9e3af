// The neighbours on one side of a node.
ghost use Rattle.std.specs.Prelude.{IsSome};
ghost use Rattle.graph_spec.specs.Graphs.{IsGraph};
ghost use Rattle.graph_spec.specs.Members.{Lists};
ghost use Rattle.label_graph.specs.GraphViews.{label_number};
ghost use Rattle.bisim_levels.specs.NeighbourSides.{is_neighbour};

use bisim_spec::Side;
use label_graph::{Digraph, GraphView};
use px_base::NodeId;

/// The neighbours of a node on a side, each once. O(1), no memory.
pub fn neighbours<'a>(view: &'a GraphView<'_>, side: Side, n: NodeId) -> &'a [NodeId]
    requires graph { IsGraph view.now }
    requires node { IsSome (label_number view.now n) }
    ensures { Lists (λ p. is_neighbour side view.now p n) result.now }
{
    match side {
        Side::Parents => view.parents(n),
        Side::Children => view.children(n),
    }
}
