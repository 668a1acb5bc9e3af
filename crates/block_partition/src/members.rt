// The members of a block.
ghost use Rattle.std.specs.Prelude.{◌≡◌};
ghost use Rattle.graph_spec.specs.Members.{at};
ghost use Rattle.block_partition.specs.MemberLinks.{chain};
ghost use Rattle.std.specs.Iterator.{YieldsFirst, item_count};

use crate::slots::Slots;
use px_base::NodeId;
use std::marker::Model;

/// The members of a block that are left, each once, in no stated order. The next one is O(1), no memory.
#[derive(Drop)]
pub struct Members<'a> {
    next: &'a Slots,
    node: Option<NodeId>,
    left: usize,
}

impl<'a> Model for Members<'a> {
    ghost use Rattle.std.specs.Prelude.{ℕ, List};
    ghost use Rattle.graph_spec.specs.Members.{at};
    ghost use Rattle.block_partition.specs.MemberLinks.{chain};

    ghost Value = { List ℕ };

    ghost view = { λ m. chain (at m.next.now.places) m.left m.node };
}

impl<'a> Members<'a> {
    // The first node and what follows it, at most `left` of them.
    pub(crate) fn new(next: &'a Slots, node: Option<NodeId>, left: usize) -> Members<'a>
        ensures { result ≡ chain (at next.now.places) left node }
    {
        Members { next, node, left }
    }
}

impl<'a> Iterator for Members<'a> {
    type Item = NodeId;

    ghost next_gives = { YieldsFirst (λ rest. rest) };

    ghost remaining = { item_count (λ rest. rest) };

    fn next(&mut self) -> Option<NodeId> {
        if self.left == 0 {
            return None;
        }
        let n = self.node?;
        self.node = self.next.get(n);
        self.left -= 1;
        Some(n)
    }
}
