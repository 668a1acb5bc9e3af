// What an index file holds.
ghost use Rattle.std.specs.Prelude.{◌≡◌, ◌<◌, ℕ, length, slice_get, get_or, Some, IsSome};
ghost use Rattle.graph_spec.specs.Graphs.{IsGraph};
ghost use Rattle.graph_spec.specs.Members.{at, Lists};
ghost use Rattle.graph_spec.specs.Shapes.{shape_of};
ghost use Rattle.label_graph.specs.GraphViews.{label_number, is_linked, numbered_shape};
ghost use Rattle.bisim_spec.specs.Partitions.{IsPartition};
ghost use Rattle.index_file.specs.SavedGraphs.{IsSaved, saved_file, via_at, blocks_at};

use crate::numbers::to_u32;
use crate::read_nodes::ReadNodes;
use crate::read_views::ReadViews;
use adjacency::Adjacency;
use index_api::Via;
use label_graph::Digraph;
use px_base::NodeId;
use std::marker::Model;

/// A graph, and partitions of its nodes, as an index file holds them. Labels have numbers in the order of first use. It takes 20
/// bytes a node number, 8 an edge, 4 for each node of a view, and the texts of the labels.
#[derive(Drop)]
pub struct Saved {
    nodes: ReadNodes,
    children: Adjacency,
    parents: Adjacency,
    k: u32,
    views: ReadViews,
    // For each number how many nodes are live below it, which is where its rank stands.
    places: Vec<u32>,
}

impl Model for Saved {
    ghost use Rattle.index_file.specs.SavedFiles.{SavedFile};
    ghost use Rattle.index_file.specs.SavedGraphs.{IsSaved, saved_file, saved_file_code};

    ghost Value = { SavedFile };

    ghost coded = { saved_file_code };

    ghost view = { λ s. saved_file s.nodes s.children s.k s.views };

    ghost invariant = { λ s. IsSaved s.nodes s.children s.parents s.views s.places.items };
}

fn rank_at(ranks: &[u32], place: u32) -> Option<u32>
    ensures { result ≡ slice_get ranks.now place }
{
    ranks.get(place as usize).copied()
}

fn place_at(places: &[u32], n: NodeId) -> u32
    requires { n < length places.now }
    ensures { result ≡ get_or places.now n 0 }
{
    places[n as usize]
}

impl Saved {
    /// What these parts hold. O(1), no memory.
    pub(crate) fn of_parts(
        nodes: ReadNodes,
        children: Adjacency,
        parents: Adjacency,
        k: u32,
        views: ReadViews,
        places: Vec<u32>,
    ) -> Saved
        requires { IsSaved nodes children parents views places.items }
        ensures { result ≡ saved_file nodes children k views }
    {
        Saved {
            nodes,
            children,
            parents,
            k,
            views,
            places,
        }
    }

    // How many numbers were allocated.
    fn created(&self) -> u32
        ensures size { result ≡ length self.now.graph.allocated }
        ensures graph { IsGraph self.now.graph }
        ensures shape { numbered_shape self.now.graph ≡ shape_of self.now.graph }
        ensures lists { (j : ℕ) → j < length self.now.views → length (blocks_at self.now j) ≡ result }
        ensures partitions { (j : ℕ) → j < length self.now.views → IsPartition (shape_of self.now.graph) (blocks_at self.now j) }
    {
        to_u32(self.nodes.len())
    }

    // The number of the node's label, and none where the number is no node.
    fn label_of(&self, n: NodeId) -> Option<u32>
        ensures { result ≡ label_number self.now.graph n }
    {
        self.nodes.label(n)
    }

    fn child_list(&self, n: NodeId) -> &[NodeId]
        requires { IsSome (label_number self.now.graph n) }
        ensures { Lists (is_linked self.now.graph n) result.now }
    {
        self.children.neighbours(n)
    }

    fn parent_list(&self, n: NodeId) -> &[NodeId]
        requires { IsSome (label_number self.now.graph n) }
        ensures { Lists (λ p. is_linked self.now.graph p n) result.now }
    {
        self.parents.neighbours(n)
    }

    /// How many views the file has: at most 20. O(1), no memory.
    pub fn views(&self) -> u32
        ensures { result ≡ length self.now.views }
    {
        to_u32(self.views.len())
    }

    /// The index of a view. O(1), no memory.
    pub fn via(&self, j: u32) -> Via
        requires { j < length self.now.views }
        ensures { via_at self.now j ≡ Some result }
    {
        self.views.via(j)
    }

    /// The block of a node in a view, and `None` exactly where it has none. O(1), no memory.
    pub fn block_of(&self, j: u32, n: NodeId) -> Option<u32>
        requires { j < length self.now.views }
        ensures { result ≡ at (blocks_at self.now j) n }
    {
        if self.nodes.is_live(n as u64) {
            rank_at(self.views.ranks(j), place_at(&self.places, n))
        } else {
            None
        }
    }
}

impl Digraph for Saved {
    ghost use Rattle.std.specs.Prelude.{length};
    ghost use Rattle.label_graph.specs.GraphViews.{label_number, is_linked};
    ghost use Rattle.label_graph.specs.ViewLaws.{below_span, ends_seen};

    ghost span = { λ s. length s.graph.allocated };

    ghost label_at = { λ s. label_number s.graph };

    ghost edge = { λ s. is_linked s.graph };

    fn size(&self) -> u32
        ensures size { result ≡ length self.now.graph.allocated }
        ensures graph { IsGraph self.now.graph }
        ensures shape { numbered_shape self.now.graph ≡ shape_of self.now.graph }
        ensures lists { (j : ℕ) → j < length self.now.views → length (blocks_at self.now j) ≡ result }
        ensures partitions { (j : ℕ) → j < length self.now.views → IsPartition (shape_of self.now.graph) (blocks_at self.now j) }
    {
        self.created()
    }

    fn is_node(&self, n: NodeId) -> bool {
        self.label_of(n).is_some()
    }

    fn label(&self, n: NodeId) -> u32 {
        self.label_of(n).unwrap()
    }

    fn parents(&self, n: NodeId) -> &[NodeId] {
        self.parent_list(n)
    }

    fn children(&self, n: NodeId) -> &[NodeId] {
        self.child_list(n)
    }

    ghost below = { λ s. below_span s.graph };

    ghost ends = { λ s. ends_seen s.graph };
}
