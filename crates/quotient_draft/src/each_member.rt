// The members of a block of a draft, one after another.
ghost use Rattle.std.specs.Prelude.{[], unwrap_or};
ghost use Rattle.std.specs.List.{filter};
ghost use Rattle.graph_spec.specs.Members.{Lists, at, is_this};
ghost use Rattle.std.specs.Iterator.{YieldsFirst, item_count};
ghost use Rattle.quotient_draft.specs.Drafts.{shown_blocks};
ghost use Rattle.quotient_draft.specs.Basis.{IsOver};
ghost use Rattle.quotient_draft.specs.PutLogs.{is_moved_to};
ghost use Rattle.quotient_draft.specs.ShownMembers.{is_unmoved, IsTaken};

use crate::draft::Draft;
use crate::moves::Moves;
use block_partition::Members;
use px_base::NodeId;
use quotient::Summary;
use std::marker::Model;

/// The members of a block as shown that are left, each once, in no stated order.
#[derive(Drop)]
pub struct DraftMembers<'a> {
    moves: &'a Moves,
    b: u32,
    kept: Option<Members<'a>>,
    moved: &'a [NodeId],
}

impl<'a> Model for DraftMembers<'a> {
    ghost use Rattle.std.specs.Prelude.{ℕ, List};
    ghost use Rattle.quotient_draft.specs.ShownMembers.{members_left};

    ghost Value = { List ℕ };

    ghost view = { λ m. members_left m.moves.now.moves m.b m.kept m.moved.now };
}

impl Draft {
    /// The members of a block as shown, each once, in no stated order; none where the number is no block. O(1) to begin, and
    /// expected O(m + d) for all, of m members in the base and d nodes of which moves are drafted; no memory.
    pub fn members<'a>(&'a self, base: &'a Summary, b: u32) -> DraftMembers<'a>
        requires over { IsOver base.now.blocks.block_of base.now.blocks.labels self.now }
        ensures members { Lists (λ n. is_this b (at (shown_blocks base.now self.now) n)) result }
    {
        DraftMembers {
            moves: &self.moves,
            b,
            kept: base_members(base, b),
            moved: self.moves.nodes(),
        }
    }
}

impl<'a> Iterator for DraftMembers<'a> {
    type Item = NodeId;

    ghost next_gives = { YieldsFirst (λ rest. rest) };

    ghost remaining = { item_count (λ rest. rest) };

    fn next(&mut self) -> Option<NodeId> {
        if let Some(n) = next_kept(&mut self.kept, self.moves) {
            return Some(n);
        }
        next_moved(&mut self.moved, self.moves, self.b)
    }
}

// The members of a block in the base, and none where the number is no block there.
fn base_members(base: &Summary, b: u32) -> Option<Members<'_>>
    ensures { Lists (λ n. is_this b (at base.now.blocks.block_of n)) (unwrap_or result []) }
{
    if base.is_block(b) {
        return Some(base.extent(b));
    }
    None
}

// The next of these members, if there are any, that isn't moved.
fn next_kept(kept: &mut Option<Members<'_>>, moves: &Moves) -> Option<NodeId>
    ensures { IsTaken (filter (is_unmoved moves.now.moves) (unwrap_or kept.old [])) result (filter (is_unmoved moves.now.moves) (unwrap_or kept.new [])) }
{
    match kept {
        Some(members) => next_unmoved(members, moves),
        None => None,
    }
}

// The next of these members that isn't moved.
fn next_unmoved(members: &mut Members<'_>, moves: &Moves) -> Option<NodeId>
    ensures { IsTaken (filter (is_unmoved moves.now.moves) members.old) result (filter (is_unmoved moves.now.moves) members.new) }
{
    'members: while let Some(n) = members.next() {
        if !moves.is_moved(n) {
            return Some(n);
        }
    }
    None
}

// The next of these nodes that is moved into a block.
fn next_moved(nodes: &mut &[NodeId], moves: &Moves, b: u32) -> Option<NodeId>
    ensures { IsTaken (filter (is_moved_to moves.now.moves b) nodes.old.now) result (filter (is_moved_to moves.now.moves b) nodes.new.now) }
{
    'nodes: while let Some((n, rest)) = nodes.split_first() {
        *nodes = rest;
        if moves.goes_to(*n, b) {
            return Some(*n);
        }
    }
    None
}
