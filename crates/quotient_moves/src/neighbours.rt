// Buffers for the neighbours of a node.
ghost use Rattle.std.specs.Prelude.{◌≡◌, []};

use px_base::NodeId;
use std::alloc::Global;
use std::marker::Model;

/// Buffers for the parents and the children of a node that moves. They are seen as the children that were read last.
#[derive(Drop)]
pub struct NodeNeighbours {
    pub(crate) parents: Vec<NodeId>,
    pub(crate) children: Vec<NodeId>,
}

impl Model for NodeNeighbours {
    ghost use Rattle.std.specs.Prelude.{ℕ, List};

    ghost Value = { List ℕ };

    ghost view = { λ neighbours. neighbours.children.items };
}

impl NodeNeighbours {
    /// Empty buffers. O(1), no memory until they are used.
    pub fn new(alloc: Global) -> NodeNeighbours
        ensures empty { result ≡ [] }
    {
        NodeNeighbours {
            parents: Vec::new(alloc),
            children: Vec::new(alloc),
        }
    }

    /// The children of the node that was moved last. O(1), no memory.
    pub fn children(&self) -> &[NodeId]
        ensures { result.now ≡ self.now }
    {
        &self.children
    }
}
