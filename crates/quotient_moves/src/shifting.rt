// The supports of the edges at a node that moves.
ghost use Rattle.std.specs.Prelude.{◌≡◌, ◌≤◌, ◌<◌, ◌^◌, ℕ, Some, IsSome, IsTrue, true, OnOk};
ghost use Rattle.graph_spec.specs.Members.{at, has};
ghost use Rattle.quotient.specs.QuotientNeighbours.{one_if};
ghost use Rattle.quotient_draft.specs.Drafts.{shown_labels, shown_blocks, shown_support};
ghost use Rattle.quotient_draft.specs.Basis.{IsOver};
ghost use Rattle.quotient_moves.specs.Shifts.{leads, lead_count, ShiftsPair, ShiftsEdges, HasSpaceFor, HasSpaceForEdge};

use bisim_spec::Side;
use px_base::{Memory, NodeId};
use quotient::Summary;
use quotient_draft::Draft;

/// The block of a node that has one.
pub(crate) fn block_of(base: &Summary, draft: &Draft, n: NodeId) -> u32
    requires over { IsOver base.now.blocks.block_of base.now.blocks.labels draft.now }
    requires has { IsSome (at (shown_blocks base.now draft.now) n) }
    ensures block { at (shown_blocks base.now draft.now) n ≡ Some result }
    ensures live { IsSome (at (shown_labels base.now draft.now) result) }
{
    draft.block_of(base, n).unwrap()
}

// An edge that led from one block of the first pair to the other leads between the blocks of the second pair instead.
fn shift(
    base: &Summary,
    draft: &mut Draft,
    before: (u32, u32),
    after: (u32, u32),
) -> Result<(), Memory>
    requires over { IsOver base.now.blocks.block_of base.now.blocks.labels draft.old }
    requires from { IsSome (at (shown_labels base.now draft.old) before.0) }
    requires onto { IsSome (at (shown_labels base.now draft.old) before.1) }
    requires from_after { IsSome (at (shown_labels base.now draft.old) after.0) }
    requires onto_after { IsSome (at (shown_labels base.now draft.old) after.1) }
    requires some { 0 < shown_support base.now draft.old before.0 before.1 }
    requires few { shown_support base.now draft.old after.0 after.1 < 2 ^ 31 }
    ensures added { draft.new.added ≡ draft.old.added }
    ensures moves { draft.new.moves ≡ draft.old.moves }
    ensures over { OnOk result (IsOver base.now.blocks.block_of base.now.blocks.labels draft.new) }
    ensures shifted { OnOk result (ShiftsPair before after (shown_support base.now draft.old) (shown_support base.now draft.new)) }
{
    draft.lower(base, before.0, before.1)?;
    draft.raise(base, after.0, after.1)?;
    Ok(())
}

// The edge between the node that moves and a neighbour. A loop is shifted as an edge from a parent.
fn shift_neighbour(
    base: &Summary,
    draft: &mut Draft,
    side: Side,
    m: NodeId,
    n: NodeId,
    own: u32,
    b: u32,
) -> Result<(), Memory>
    requires over { IsOver base.now.blocks.block_of base.now.blocks.labels draft.old }
    requires own { at (shown_blocks base.now draft.old) n ≡ Some own }
    requires live { IsSome (at (shown_labels base.now draft.old) own) }
    requires block { IsSome (at (shown_labels base.now draft.old) b) }
    requires has { IsSome (at (shown_blocks base.now draft.old) m) }
    requires some { (x y : ℕ) → leads side (shown_blocks base.now draft.old) n x y m ≡ true → 0 < shown_support base.now draft.old x y }
    requires few { HasSpaceForEdge (λ p x y. leads side p n x y m) n own b base.now draft.old }
    ensures added { draft.new.added ≡ draft.old.added }
    ensures moves { draft.new.moves ≡ draft.old.moves }
    ensures over { OnOk result (IsOver base.now.blocks.block_of base.now.blocks.labels draft.new) }
    ensures shifted { OnOk result (ShiftsEdges (λ p x y. one_if (leads side p n x y m)) n own b base.now draft.old draft.new) }
{
    if m == n {
        return match side {
            Side::Parents => shift(base, draft, (own, own), (b, b)),
            Side::Children => Ok(()),
        };
    }
    let a = block_of(base, draft, m);
    shift(base, draft, side.edge(a, own), side.edge(a, b))
}

/// The edges between a node that moves from one block to another and its neighbours on a side. A loop is shifted on the
/// parents' side alone.
pub(crate) fn shift_neighbours(
    base: &Summary,
    draft: &mut Draft,
    side: Side,
    neighbours: &[NodeId],
    n: NodeId,
    own: u32,
    b: u32,
) -> Result<(), Memory>
    requires over { IsOver base.now.blocks.block_of base.now.blocks.labels draft.old }
    requires own { at (shown_blocks base.now draft.old) n ≡ Some own }
    requires live { IsSome (at (shown_labels base.now draft.old) own) }
    requires block { IsSome (at (shown_labels base.now draft.old) b) }
    requires has { (m : ℕ) → IsTrue (has neighbours.now m) → IsSome (at (shown_blocks base.now draft.old) m) }
    requires some { (x y : ℕ) → lead_count side (shown_blocks base.now draft.old) n x y neighbours.now ≤ shown_support base.now draft.old x y }
    requires few { HasSpaceFor (λ p x y. lead_count side p n x y neighbours.now) n own b base.now draft.old }
    ensures added { draft.new.added ≡ draft.old.added }
    ensures moves { draft.new.moves ≡ draft.old.moves }
    ensures over { OnOk result (IsOver base.now.blocks.block_of base.now.blocks.labels draft.new) }
    ensures shifted { OnOk result (ShiftsEdges (λ p x y. lead_count side p n x y neighbours.now) n own b base.now draft.old draft.new) }
{
    for m in neighbours {
        shift_neighbour(base, draft, side, *m, n, own, b)?;
    }
    Ok(())
}
