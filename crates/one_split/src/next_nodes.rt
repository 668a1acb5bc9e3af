// The nodes of the next round.
ghost use Rattle.std.specs.Prelude.{◌≡◌, ◌++◌, [], OnOk};

use px_base::{Memory, NodeId};
use quotient_moves::NodeNeighbours;
use std::alloc::Global;

/// Nodes that are to be examined next, with a buffer for the neighbours of a node that moves.
#[derive(Drop)]
pub(crate) struct NextNodes {
    pub(crate) list: Vec<NodeId>,
    pub(crate) neighbours: NodeNeighbours,
}

impl NextNodes {
    /// No nodes yet. They take no memory until one moves.
    pub(crate) fn new(alloc: Global) -> NextNodes
        ensures { result.list.items ≡ [] }
    {
        NextNodes {
            list: Vec::new(alloc),
            neighbours: NodeNeighbours::new(alloc),
        }
    }

    /// Puts the children of the node that moved last behind the nodes in the list.
    pub(crate) fn add_children(&mut self) -> Result<(), Memory>
        ensures list { OnOk result (self.new.list.items ≡ self.old.list.items ++ self.old.neighbours) }
        ensures neighbours { self.new.neighbours ≡ self.old.neighbours }
    {
        self.list.extend_from_slice(self.neighbours.children())?;
        Ok(())
    }
}
