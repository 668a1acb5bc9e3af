// The levels of bisimilarity by parents and children, each from the one below.
ghost use Rattle.std.specs.Prelude.{◌≡◌, ℕ, IfOk, IsSome};
ghost use Rattle.graph_spec.specs.Members.{at};
ghost use Rattle.bisim_spec.specs.declared.sides.Side.TheVariants.{Children};
ghost use Rattle.bisim_spec.specs.Bisimilarity.{Both};
ghost use Rattle.bisim_spec.specs.Partitions.{IsPartition};
ghost use Rattle.round_refinement.specs.NeighbourSides.{is_neighbour};
ghost use Rattle.bisim_spec.specs.Refinement.{IsNextLevel, Refines};
ghost use Rattle.round_refinement.specs.Active.{AreLevels};
ghost use Rattle.round_refinement.specs.Numbering.{AreBelow};
ghost use Rattle.round_refinement.specs.NumberedShapes.{digraph_shape};

use crate::neighbour_lists::label_of;
use crate::refining::refine;
use bisim_spec::Side;
use label_graph::Digraph;
use px_base::Memory;
use std::alloc::Global;

// A level adds few blocks, if there is at most one for so many node numbers.
const FEW: u32 = 1024;

/// The labels of the nodes.
pub fn label_list<G: Digraph>(alloc: Global, g: &G) -> Result<Vec<Option<u32>>, Memory>
    ensures { IfOk result (λ l. (n : ℕ) → at l.items n ≡ G.label_at g.now n) }
{
    let mut labels = Vec::with_capacity(alloc, g.size() as usize)?;
    for n in 0..g.size() {
        labels.push(label_of(g, n))?;
    }
    Ok(labels)
}

/// A number above each value.
pub fn span_of(keys: &[Option<u32>]) -> usize
    ensures { AreBelow keys.now result }
{
    let mut span: usize = 0;
    for key in keys {
        if let Some(b) = key {
            if *b as usize >= span {
                span = *b as usize + 1;
            }
        }
    }
    span
}

// The partition `own`, refined by the blocks of children.
fn refine_children<G: Digraph>(
    alloc: Global,
    g: &G,
    own: &[Option<u32>],
    base: &[Option<u32>],
) -> Result<Vec<Option<u32>>, Memory>
    requires own { (n : ℕ) → IsSome (at own.now n) → IsSome (G.label_at g.now n) }
    requires base { (n : ℕ) → IsSome (G.label_at g.now n) → IsSome (at base.now n) }
    ensures { IfOk result (λ next. Refines (at own.now) base.now (is_neighbour Children (G.edge g.now)) next.items) }
{
    refine(alloc, g, Side::Children, own, base)
}

/// The level above one, by parents and children.
pub fn next_both<G: Digraph>(
    alloc: Global,
    g: &G,
    block: &[Option<u32>],
) -> Result<Vec<Option<u32>>, Memory>
    requires partition { IsPartition (digraph_shape G.Digraph g.now) block.now }
    ensures partition { IfOk result (λ l. IsPartition (digraph_shape G.Digraph g.now) l.items) }
    ensures agrees { IfOk result (λ l. IsNextLevel Both (digraph_shape G.Digraph g.now) block.now l.items) }
{
    let mid = refine(alloc, g, Side::Parents, block, block)?;
    let next = refine_children(alloc, g, &mid, block)?;
    Ok(next)
}

// Whether few blocks were added. It decides how much work is left, and never what is found.
fn adds_few(size: u32, before: usize, after: usize) -> bool {
    after.saturating_sub(before) <= (size / FEW) as usize
}

/// One of the first levels by parents and children, and the one above it. It is the first one to which that adds few blocks, but at most this
/// one.
pub(crate) fn first_levels<G: Digraph>(
    alloc: Global,
    g: &G,
    most: u32,
) -> Result<(Vec<Option<u32>>, Vec<Option<u32>>), Memory>
    ensures { IfOk result (λ l. AreLevels (digraph_shape G.Digraph g.now) l.0.items l.1.items) }
{
    let mut block = label_list(alloc, g)?;
    let mut blocks = 0;
    for j in 0..most {
        let next = next_both(alloc, g, &block)?;
        let more = span_of(&next);
        if adds_few(g.size(), blocks, more) {
            return Ok((block, next));
        }
        block = next;
        blocks = more;
    }
    let next = next_both(alloc, g, &block)?;
    Ok((block, next))
}
