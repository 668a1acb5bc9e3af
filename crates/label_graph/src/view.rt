// A graph as queries and indexes read it.
ghost use Rattle.std.specs.Prelude.{◌≡◌, ◌≤◌, ◌^◌, length};
ghost use Rattle.graph_spec.specs.Graphs.{IsGraph};
ghost use Rattle.graph_spec.specs.Shapes.{shape_of};
ghost use Rattle.label_graph.specs.GraphViews.{numbered_shape, edge_count};

use crate::digraph::Digraph;
use crate::graph::Graph;
use px_base::NodeId;
use std::marker::Model;

/// A graph that doesn't change, for reads that take no memory and no steps.
///
/// The nodes that an edge joins to node 3, if it is live, where `steps` counts one read of the whole graph:
///
///     let view = graph.view(&mut steps);
///     if view.is_node(3) {
///         take(view.parents(3), view.children(3));
///     }
#[derive(Drop)]
pub struct GraphView<'a> {
    graph: &'a Graph,
}

impl<'a> Model for GraphView<'a> {
    ghost use Rattle.graph_spec.specs.Graphs.{Graph as Value_of_graph, graph_code};

    ghost Value = { Value_of_graph };

    ghost coded = { graph_code };

    ghost view = { λ v. v.graph.now.graph };
}

impl<'a> GraphView<'a> {
    pub(crate) fn new(graph: &'a Graph) -> GraphView<'a>
        ensures { result ≡ graph.now.graph }
    {
        GraphView { graph }
    }

    /// How many node numbers were allocated, those of gone nodes too: at most 2^30. O(1), no memory.
    #[tactic(auto, using(crate::proofs::Viewed::viewed_shape))]
    pub fn created(&self) -> u32
        ensures count { result ≡ length self.now.allocated }
        ensures few { result ≤ 2 ^ 30 }
        ensures graph { IsGraph self.now }
        ensures shape { numbered_shape self.now ≡ shape_of self.now }
    {
        self.graph.created()
    }

    /// How many edges there are: at most 2^30. O(1), no memory.
    #[tactic(auto, using(crate::proofs::Viewed::viewed_shape))]
    pub fn edge_count(&self) -> u32
        ensures count { result ≡ edge_count self.now }
        ensures few { result ≤ 2 ^ 30 }
        ensures graph { IsGraph self.now }
        ensures shape { numbered_shape self.now ≡ shape_of self.now }
    {
        self.graph.edge_count()
    }
}

impl<'a> Digraph for GraphView<'a> {
    ghost use Rattle.std.specs.Prelude.{length};
    ghost use Rattle.label_graph.specs.GraphViews.{label_number, is_linked};
    ghost use Rattle.label_graph.specs.ViewLaws.{below_span, ends_seen};

    ghost span = { λ g. length g.allocated };

    ghost label_at = { label_number };

    ghost edge = { is_linked };

    #[tactic(auto, using(crate::proofs::Viewed::viewed_shape))]
    fn size(&self) -> u32
        ensures size { result ≡ length self.now.allocated }
        ensures few { result ≤ 2 ^ 30 }
        ensures graph { IsGraph self.now }
        ensures shape { numbered_shape self.now ≡ shape_of self.now }
    {
        self.created()
    }

    fn is_node(&self, n: NodeId) -> bool {
        self.graph.is_live(n)
    }

    fn label(&self, n: NodeId) -> u32 {
        self.graph.label(n)
    }

    fn parents(&self, n: NodeId) -> &[NodeId] {
        self.graph.parent_list(n)
    }

    fn children(&self, n: NodeId) -> &[NodeId] {
        self.graph.child_list(n)
    }

    ghost below = { below_span };

    ghost ends = { ends_seen };
}
