// The edges of a graph, in a list.
ghost use Rattle.std.specs.Prelude.{◌≡◌, ◌++◌, suc, IfOk, OnOk};
ghost use Rattle.graph_spec.specs.Graphs.{IsGraph};
ghost use Rattle.bisim_spec.specs.NodeEdges.{edges_from};
ghost use Rattle.quotient.specs.QuotientNeighbours.{AreListed, AreListedBelow, AreFew};

use label_graph::{Digraph, GraphView};
use px_base::{Memory, NodeId};
use std::alloc::Global;
use std::marker::Model;

/// A list of edges, each a pair of node numbers; `EdgeList::of` lists those of a graph. With it, several quotients of
/// one graph are made while its nodes are read once.
///
/// It takes 8 bytes for each edge.
///
/// The quotients by two partitions:
///
///     let edges = EdgeList::of(alloc, &graph.view(&mut steps))?;
///     let fine = Summary::of_edges(alloc, fine_blocks, &edges)?;
///     let coarse = Summary::of_edges(alloc, coarse_blocks, &edges)?;
#[derive(Drop)]
pub struct EdgeList {
    edges: Vec<(NodeId, NodeId)>,
}

impl Model for EdgeList {
    ghost use Rattle.std.specs.Prelude.{ℕ, List};

    ghost Value = { List (ℕ × ℕ) };

    ghost use Rattle.quotient.specs.QuotientNeighbours.{AreFew};

    ghost view = { λ e. e.edges.items };

    ghost invariant = { λ e. AreFew e.edges.items };
}

impl EdgeList {
    /// The edges of a graph. O(n + m) for n node numbers and m edges; it takes 8 bytes an edge.
    pub fn of(alloc: Global, view: &GraphView<'_>) -> Result<EdgeList, Memory>
        ensures { IfOk result (AreListed view.now.edges) }
    {
        let mut edges = Vec::with_capacity(alloc, view.edge_count() as usize)?;
        for n in 0..view.size() {
            list_node(&mut edges, view, n)?;
        }
        Ok(EdgeList { edges })
    }

    /// The edges.
    pub(crate) fn as_slice(&self) -> &[(NodeId, NodeId)]
        ensures edges { result.now ≡ self.now }
        ensures few { AreFew self.now }
    {
        &self.edges
    }
}

// Puts the edges from a node to its children behind the others.
#[inline(always)]
fn list_children(
    edges: &mut Vec<(NodeId, NodeId)>,
    n: NodeId,
    children: &[NodeId],
) -> Result<(), Memory>
    ensures { OnOk result (edges.new.items ≡ edges.old.items ++ edges_from n children.now) }
{
    for child in children {
        edges.push((n, *child))?;
    }
    Ok(())
}

// Puts the edges from the next node behind the others, where the number is that of a node.
#[inline(always)]
fn list_node(
    edges: &mut Vec<(NodeId, NodeId)>,
    view: &GraphView<'_>,
    n: NodeId,
) -> Result<(), Memory>
    requires graph { IsGraph view.now }
    requires listed { AreListedBelow view.now.edges n edges.old.items }
    ensures { OnOk result (AreListedBelow view.now.edges (suc n) edges.new.items) }
{
    if !view.is_node(n) {
        return Ok(());
    }
    list_children(edges, n, view.children(n))?;
    Ok(())
}
