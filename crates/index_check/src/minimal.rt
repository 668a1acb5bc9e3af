// Whether no two blocks of a stable partition can be merged.
ghost use Rattle.std.specs.Prelude.{◌≡◌, ◌↔◌, ℕ, IfOk, IsTrue};
ghost use Rattle.bisim_spec.specs.Stability.{Stable, Minimal};
ghost use Rattle.round_refinement.specs.NumberedShapes.{digraph_shape};

use crate::closed::refine_by_closed;
use crate::comparing::{are_both, determines};
use crate::outer::{inner_labels, tells_by_outer};
use bisim_spec::Side;
use label_graph::Digraph;
use px_base::Memory;
use round_refinement::{label_list, refine};
use std::alloc::Global;

/// Whether no two blocks of a stable partition can be merged (Yi et al. 2004). Two blocks of one label can be merged exactly where
/// their parent blocks are the same once both count as one. Where neither is a parent of the other, both have the same parent blocks, or
/// both are their own parents and have the same others. Where each is a parent of the other, each with its parent blocks makes the same
/// set. Where one alone is a parent of the other, it is its own parent, and has the parent blocks of the other without that one itself.
/// Each is told by keys in one pass.
///
/// The list is as for `fits_level`. `Memory` comes only where memory runs out. Expected O(n + m log m + b) for n node numbers, m edges and
/// block numbers below b; it takes 48 bytes a number, the tables of keys, and 16 bytes for each number below b.
pub(crate) fn is_minimal<G: Digraph>(
    alloc: Global,
    g: &G,
    block: &[Option<u32>],
) -> Result<bool, Memory>
    requires stable { Stable (digraph_shape G.Digraph g.now) block.now }
    ensures { IfOk result (λ yes. IsTrue yes ↔ Minimal (digraph_shape G.Digraph g.now) block.now) }
{
    let labels = label_list(alloc, g)?;
    let next = refine(alloc, g, Side::Parents, &labels, block)?;
    let by_key = determines(alloc, &next, block)?;
    // a node that has a parent of its label
    let linked = inner_labels(alloc, g, &labels)?;
    let closed = refine_by_closed(alloc, g, &linked, block)?;
    let by_closed = determines(alloc, &closed, block)?;
    let inner = inner_labels(alloc, g, block)?;
    let by_outer = tells_by_outer(alloc, g, &inner, block)?;
    Ok(are_both(are_both(by_key, by_closed), by_outer))
}
