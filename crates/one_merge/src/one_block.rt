// Merging two blocks.
ghost use Rattle.std.specs.Prelude.{◌≡◌, ℕ, IsSome, IsTrue, OnOk};
ghost use Rattle.graph_spec.specs.Members.{at, has};
ghost use Rattle.bisim_spec.specs.Stability.{Mergeable};
ghost use Rattle.one_spec.specs.Merges.{IsMerged};
ghost use Rattle.quotient_draft.specs.Drafts.{shown_labels, shown_blocks, shown_support};
ghost use Rattle.quotient_draft.specs.Basis.{IsOver};
ghost use Rattle.one_merge.specs.Merged.{merged_support};
ghost use Rattle.one_merge.specs.MergeableShown.{ShowsSupportsOfGraph, AreShownMergeable, StayEdgeCounts, LabelsStayRight, KeepsStablePartition, PutsNodes};

use crate::supports::merge_supports;
use px_base::{Memory, NodeId};
use quotient::Summary;
use quotient_draft::Draft;

/// Drafts that the members of block `b` go to block `a`, where the two can be merged. Each member of `b` is moved, and
/// each block next to `b` written once; so `b` should be the smaller of the two. `list` is memory to be reused. Where
/// memory runs out, the draft may hold a part of this.
///
/// Expected O(s log s) for s members, parents and children of `b` in the base and as drafted; it takes O(s) memory, by
/// which the draft grows.
pub(crate) fn merge_pair(
    base: &Summary,
    draft: &mut Draft,
    a: u32,
    b: u32,
    list: &mut Vec<u32>,
) -> Result<(), Memory>
    requires over { IsOver base.now.blocks.block_of base.now.blocks.labels draft.old }
    requires graph { ShowsSupportsOfGraph base.now draft.old }
    requires mergeable_pair { AreShownMergeable base.now draft.old a b }
    ensures over { OnOk result (IsOver base.now.blocks.block_of base.now.blocks.labels draft.new) }
    ensures graph { OnOk result (ShowsSupportsOfGraph base.now draft.new) }
    ensures merged { OnOk result (IsMerged a b (shown_blocks base.now draft.old) (shown_blocks base.now draft.new)) }
    ensures labels { OnOk result (shown_labels base.now draft.new ≡ shown_labels base.now draft.old) }
    ensures pairs { OnOk result ((x c : ℕ) → shown_support base.now draft.new x c ≡ merged_support a b (shown_support base.now draft.old) x c) }
    ensures supports { OnOk result (StayEdgeCounts base.now draft.old draft.new) }
    ensures block_labels { OnOk result (LabelsStayRight base.now draft.old draft.new) }
    ensures viewed { OnOk result (KeepsStablePartition base.now draft.old draft.new) }
{
    merge_supports(base, draft, a, b, list)?;
    draft.fill_members(base, b, list)?;
    move_all(base, draft, list, a)?;
    Ok(())
}

// Drafts the move of nodes, each of which has a block as shown, to a block as shown.
fn move_all(base: &Summary, draft: &mut Draft, nodes: &[NodeId], b: u32) -> Result<(), Memory>
    requires over { IsOver base.now.blocks.block_of base.now.blocks.labels draft.old }
    requires nodes { (n : ℕ) → IsTrue (has nodes.now n) → IsSome (at (shown_blocks base.now draft.old) n) }
    requires block { IsSome (at (shown_labels base.now draft.old) b) }
    ensures blocks { OnOk result (PutsNodes nodes.now b (shown_blocks base.now draft.old) (shown_blocks base.now draft.new)) }
    ensures added { draft.new.added ≡ draft.old.added }
    ensures supports { draft.new.supports ≡ draft.old.supports }
    ensures over { OnOk result (IsOver base.now.blocks.block_of base.now.blocks.labels draft.new) }
{
    for i in 0..nodes.len() {
        draft.move_to(base, nodes[i], b)?;
    }
    Ok(())
}
