// Buffers for placing nodes.
use px_base::NodeId;
use quotient_moves::NodeNeighbours;
use std::alloc::Global;
use std::marker::Model;

/// Buffers for placing nodes, one after the other: a key, and neighbours. A contract sees nothing in them.
#[derive(Drop)]
pub(crate) struct Buffers {
    pub(crate) key: Vec<u32>,
    pub(crate) parents: Vec<NodeId>,
    pub(crate) children: Vec<NodeId>,
    pub(crate) neighbours: NodeNeighbours,
}

impl Model for Buffers {
    ghost use Rattle.std.specs.Prelude.{⊤};

    ghost Value = { ⊤ };

    ghost view = { λ _. tt };
}

impl Buffers {
    /// Empty buffers. They take no memory until they are used.
    pub(crate) fn new(alloc: Global) -> Buffers {
        Buffers {
            key: Vec::new(alloc),
            parents: Vec::new(alloc),
            children: Vec::new(alloc),
            neighbours: NodeNeighbours::new(alloc),
        }
    }
}
