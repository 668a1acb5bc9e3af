// The supports of two blocks that become one.
ghost use Rattle.std.specs.Prelude.{◌≡◌, ◌≢◌, ◌+◌, ◌<◌, ◌≤◌, ◌^◌, ℕ, IsSome, IsTrue, OnOk, nat_eq, nat_lt};
ghost use Rattle.graph_spec.specs.Members.{at, has, Lists};
ghost use Rattle.quotient_draft.specs.Drafts.{shown_labels, shown_blocks, shown_support};
ghost use Rattle.quotient_draft.specs.Basis.{IsOver};
ghost use Rattle.one_merge.specs.Merged.{support_by, with_loop, merged_support, HasGraph, AddsSupports, AddsAllSupports};

use bisim_spec::Side;
use px_base::Memory;
use quotient::Summary;
use quotient_draft::Draft;

// Adds the support between b and its neighbour m on a side to that between a and m.
fn add_neighbour(
    base: &Summary,
    draft: &mut Draft,
    side: Side,
    a: u32,
    b: u32,
    m: u32,
) -> Result<(), Memory>
    requires over { IsOver base.now.blocks.block_of base.now.blocks.labels draft.old }
    requires stays { IsSome (at (shown_labels base.now draft.old) a) }
    requires goes { IsSome (at (shown_labels base.now draft.old) b) }
    requires neighbour { IsSome (at (shown_labels base.now draft.old) m) }
    requires few { support_by side (shown_support base.now draft.old) m a + support_by side (shown_support base.now draft.old) m b ≤ 2 ^ 30 }
    ensures supports { OnOk result (AddsSupports side (λ u. nat_eq u m) a b (shown_support base.now draft.old) (shown_support base.now draft.new)) }
    ensures added { OnOk result (draft.new.added ≡ draft.old.added) }
    ensures moves { OnOk result (draft.new.moves ≡ draft.old.moves) }
    ensures over { OnOk result (IsOver base.now.blocks.block_of base.now.blocks.labels draft.new) }
{
    let kept = side.edge(m, a);
    let gone = side.edge(m, b);
    let n = draft.support(base, kept.0, kept.1) + draft.support(base, gone.0, gone.1);
    draft.set_support(base, kept.0, kept.1, n)?;
    draft.set_support(base, gone.0, gone.1, 0)?;
    Ok(())
}

// The same for each of these neighbours.
fn add_neighbours(
    base: &Summary,
    draft: &mut Draft,
    side: Side,
    a: u32,
    b: u32,
    list: &[u32],
) -> Result<(), Memory>
    requires over { IsOver base.now.blocks.block_of base.now.blocks.labels draft.old }
    requires apart { a ≢ b }
    requires stays { IsSome (at (shown_labels base.now draft.old) a) }
    requires goes { IsSome (at (shown_labels base.now draft.old) b) }
    requires neighbours { (m : ℕ) → IsTrue (has list.now m) → IsSome (at (shown_labels base.now draft.old) m) }
    requires few { (m : ℕ) → support_by side (shown_support base.now draft.old) m a + support_by side (shown_support base.now draft.old) m b ≤ 2 ^ 30 }
    ensures supports { OnOk result (AddsSupports side (has list.now) a b (shown_support base.now draft.old) (shown_support base.now draft.new)) }
    ensures added { OnOk result (draft.new.added ≡ draft.old.added) }
    ensures moves { OnOk result (draft.new.moves ≡ draft.old.moves) }
    ensures over { OnOk result (IsOver base.now.blocks.block_of base.now.blocks.labels draft.new) }
{
    for i in 0..list.len() {
        add_neighbour(base, draft, side, a, b, list[i])?;
    }
    Ok(())
}

// Makes the list that of the neighbours of a block on a side as shown.
fn fill_neighbours(
    base: &Summary,
    draft: &Draft,
    side: Side,
    b: u32,
    list: &mut Vec<u32>,
) -> Result<(), Memory>
    ensures { OnOk result (Lists (λ m. nat_lt 0 (support_by side (shown_support base.now draft.now) m b)) list.new.items) }
{
    match side {
        Side::Parents => draft.fill_parents(base, b, list),
        Side::Children => draft.fill_children(base, b, list),
    }
}

// Adds all supports between b and its neighbours on a side to those of a.
fn merge_side(
    base: &Summary,
    draft: &mut Draft,
    side: Side,
    a: u32,
    b: u32,
    list: &mut Vec<u32>,
) -> Result<(), Memory>
    requires over { IsOver base.now.blocks.block_of base.now.blocks.labels draft.old }
    requires apart { a ≢ b }
    requires stays { IsSome (at (shown_labels base.now draft.old) a) }
    requires goes { IsSome (at (shown_labels base.now draft.old) b) }
    requires neighbours { (m : ℕ) → 0 < support_by side (shown_support base.now draft.old) m b → IsSome (at (shown_labels base.now draft.old) m) }
    requires few { (m : ℕ) → support_by side (shown_support base.now draft.old) m a + support_by side (shown_support base.now draft.old) m b ≤ 2 ^ 30 }
    ensures supports { OnOk result (AddsAllSupports side a b (shown_support base.now draft.old) (shown_support base.now draft.new)) }
    ensures added { OnOk result (draft.new.added ≡ draft.old.added) }
    ensures moves { OnOk result (draft.new.moves ≡ draft.old.moves) }
    ensures over { OnOk result (IsOver base.now.blocks.block_of base.now.blocks.labels draft.new) }
{
    fill_neighbours(base, draft, side, b, list)?;
    add_neighbours(base, draft, side, a, b, list)?;
    Ok(())
}

// The support of b to itself goes over to a: left to the two sides, it would leave the pair of b and a without support.
fn move_loop(base: &Summary, draft: &mut Draft, a: u32, b: u32) -> Result<(), Memory>
    requires over { IsOver base.now.blocks.block_of base.now.blocks.labels draft.old }
    requires apart { a ≢ b }
    requires stays { IsSome (at (shown_labels base.now draft.old) a) }
    requires goes { IsSome (at (shown_labels base.now draft.old) b) }
    requires few { shown_support base.now draft.old a a + shown_support base.now draft.old b b ≤ 2 ^ 30 }
    ensures supports { OnOk result ((x y : ℕ) → shown_support base.now draft.new x y ≡ with_loop a b (shown_support base.now draft.old) x y) }
    ensures added { OnOk result (draft.new.added ≡ draft.old.added) }
    ensures moves { OnOk result (draft.new.moves ≡ draft.old.moves) }
    ensures over { OnOk result (IsOver base.now.blocks.block_of base.now.blocks.labels draft.new) }
{
    let gone = draft.support(base, b, b);
    if gone == 0 {
        return Ok(());
    }
    let n = draft.support(base, a, a) + gone;
    draft.set_support(base, a, a, n)?;
    draft.set_support(base, b, b, 0)?;
    Ok(())
}

/// Drafts the supports that the index graph has once block `b` is part of block `a`. Each parent and each
/// child of `b` is written once.
pub(crate) fn merge_supports(
    base: &Summary,
    draft: &mut Draft,
    a: u32,
    b: u32,
    list: &mut Vec<u32>,
) -> Result<(), Memory>
    requires over { IsOver base.now.blocks.block_of base.now.blocks.labels draft.old }
    requires graph { HasGraph (shown_blocks base.now draft.old) (at (shown_labels base.now draft.old)) (shown_support base.now draft.old) }
    requires apart { a ≢ b }
    requires stays { IsSome (at (shown_labels base.now draft.old) a) }
    requires goes { IsSome (at (shown_labels base.now draft.old) b) }
    ensures supports { OnOk result ((u v : ℕ) → shown_support base.now draft.new u v ≡ merged_support a b (shown_support base.now draft.old) u v) }
    ensures added { OnOk result (draft.new.added ≡ draft.old.added) }
    ensures moves { OnOk result (draft.new.moves ≡ draft.old.moves) }
    ensures over { OnOk result (IsOver base.now.blocks.block_of base.now.blocks.labels draft.new) }
{
    move_loop(base, draft, a, b)?;
    merge_side(base, draft, Side::Parents, a, b, list)?;
    merge_side(base, draft, Side::Children, a, b, list)?;
    Ok(())
}
