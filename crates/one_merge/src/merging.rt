// Pairs that are merged, one after another.
ghost use Rattle.std.specs.Prelude.{ℕ, IsTrue, IfSome, IfNone, IfOk, OnOk};
ghost use Rattle.graph_spec.specs.Members.{has};
ghost use Rattle.quotient_draft.specs.Basis.{IsOver};
ghost use Rattle.one_merge.specs.ShownMerges.{ShowsSupportsOfGraph, AreShownMergeable, StayMergeCandidates, NoTwoCanMerge, MergesToEnd, StayEdgeCounts, LabelsStayRight};
ghost use Rattle.one_merge.specs.ParentlessBlocks.{CoversBase, CoversShown};

use crate::finding::find_mergeable;
use crate::kept_blocks::KeptBlocks;
use crate::members::larger_first;
use crate::merge_candidates::MergeCandidates;
use crate::one_block::merge_pair;
use crate::parentless::ParentlessBlocks;
use px_base::Memory;
use quotient::Summary;
use quotient_draft::Draft;
use std::alloc::Global;

// Lists of blocks, in memory that is reused, and the blocks that were kept.
#[derive(Drop)]
struct Buffers {
    children: Vec<u32>,
    others: Vec<u32>,
    kept: KeptBlocks,
}

impl Buffers {
    fn new(alloc: Global) -> Buffers {
        Buffers {
            children: Vec::new(alloc),
            others: Vec::new(alloc),
            kept: KeptBlocks::new(alloc),
        }
    }
}

// Takes merge candidates off until one can be merged with another block. The larger block of the pair comes first.
fn next_pair(
    base: &Summary,
    draft: &Draft,
    parentless: &ParentlessBlocks,
    merge_candidates: &mut MergeCandidates,
    kept: &mut KeptBlocks,
    list: &mut Vec<u32>,
) -> Result<Option<(u32, u32)>, Memory>
    requires over { IsOver base.now.blocks.block_of base.now.blocks.labels draft.now }
    requires graph { ShowsSupportsOfGraph base.now draft.now }
    requires covers { CoversShown base.now draft.now parentless.now }
    ensures some { IfOk result (λ pair. IfSome pair (λ r. AreShownMergeable base.now draft.now r.0 r.1)) }
    ensures rest { IfOk result (λ pair. IfSome pair (λ r. StayMergeCandidates base.now draft.now merge_candidates.old r merge_candidates.new)) }
    ensures none { IfOk result (λ pair. IfNone pair (NoTwoCanMerge base.now draft.now merge_candidates.old)) }
{
    'look: while let Some(a) = merge_candidates.take() {
        if let Some(b) = find_mergeable(base, draft, parentless, kept, a, list)? {
            let pair = larger_first(base, draft, a, b);
            kept.note(pair.0)?;
            return Ok(Some(pair));
        }
    }
    Ok(None)
}

// This block becomes a merge candidate, and so do these children.
fn push_candidates(
    a: u32,
    children: &[u32],
    merge_candidates: &mut MergeCandidates,
) -> Result<(), Memory>
    ensures own { OnOk result (IsTrue (has merge_candidates.new a)) }
    ensures kept { OnOk result ((b : ℕ) → IsTrue (has merge_candidates.old b) → IsTrue (has merge_candidates.new b)) }
    ensures children { OnOk result ((b : ℕ) → IsTrue (has children.now b) → IsTrue (has merge_candidates.new b)) }
{
    merge_candidates.add(a)?;
    merge_candidates.add_all(children)?;
    Ok(())
}

// Merges pairs until no two blocks can be merged. Each merge leaves one block fewer with members. After it only the
// merged block, and those that were children of the smaller of the two, may be merged with blocks with which they
// couldn't be before.
fn merge_pairs(
    base: &Summary,
    draft: &mut Draft,
    parentless: &mut ParentlessBlocks,
    merge_candidates: &mut MergeCandidates,
    buffers: &mut Buffers,
) -> Result<(), Memory>
    requires over { IsOver base.now.blocks.block_of base.now.blocks.labels draft.old }
    requires graph { ShowsSupportsOfGraph base.now draft.old }
    requires covers { CoversBase base.now parentless.old }
    requires shown { CoversShown base.now draft.old parentless.old }
    ensures covers { CoversBase base.now parentless.new }
    ensures shown { OnOk result (CoversShown base.now draft.new parentless.new) }
    ensures over { OnOk result (IsOver base.now.blocks.block_of base.now.blocks.labels draft.new) }
    ensures merged { OnOk result (MergesToEnd base.now draft.old draft.new merge_candidates.old) }
    ensures supports { OnOk result (StayEdgeCounts base.now draft.old draft.new) }
    ensures block_labels { OnOk result (LabelsStayRight base.now draft.old draft.new) }
{
    'pairs: while let Some((a, b)) = next_pair(
        base,
        draft,
        parentless,
        merge_candidates,
        &mut buffers.kept,
        &mut buffers.children,
    )? {
        draft.fill_children(base, b, &mut buffers.children)?;
        merge_pair(base, draft, a, b, &mut buffers.others)?;
        parentless.note_merged(base, draft, a, b)?;
        push_candidates(a, &buffers.children, merge_candidates)?;
    }
    Ok(())
}

/// Merges blocks as shown. If the partition shown is stable, with the right labels and supports, and of any two blocks
/// that can be merged one is among the merge candidates, then no two can be merged afterwards. `parentless` lists each
/// parentless block of the base, and maybe others; those of the settled draft are added. Candidates that are no block, or
/// have no members, are skipped. The supports must be those of a graph with at most 2^30 edges, and blocks with members
/// have labels. Where memory runs out, the draft may hold a part of this.
///
/// Of two blocks that are merged the one with fewer members and children is moved, or the one with far more drafted pairs
/// onto it, most of which have no support; each block next to it is written once. A candidate is compared with another
/// parent of it and that parent's children: a parent with few children is taken, or else the one with the fewest. Where it
/// has no other parent than itself, it is compared with the blocks noted for its label, and with its children where it is a
/// parent of itself. Where these are many, the block into which one with the same label was merged last comes first. So
/// like blocks of one parent are merged in about one comparison each, and looked through once more at the end.
///
/// Expected O(u k p) for u blocks that are examined, which are the merge candidates, and after each merge the
/// merged block and the children of the smaller one, each with at most p parents and compared with at most k blocks;
/// and what `merge_pair` takes for each merge, and `note_touched` once. Most comparisons end at another label or at the
/// first parent that differs. It takes the memory of `merge_pair` and of `note_touched`, and O(u + k + p).
pub fn merge(
    alloc: Global,
    base: &Summary,
    draft: &mut Draft,
    parentless: &mut ParentlessBlocks,
    merge_candidates: Vec<u32>,
) -> Result<(), Memory>
    requires over { IsOver base.now.blocks.block_of base.now.blocks.labels draft.old }
    requires graph { ShowsSupportsOfGraph base.now draft.old }
    requires covers { CoversBase base.now parentless.old }
    ensures covers { CoversBase base.now parentless.new }
    ensures shown { OnOk result (CoversShown base.now draft.new parentless.new) }
    ensures over { OnOk result (IsOver base.now.blocks.block_of base.now.blocks.labels draft.new) }
    ensures merged { OnOk result (MergesToEnd base.now draft.old draft.new merge_candidates.items) }
    ensures supports { OnOk result (StayEdgeCounts base.now draft.old draft.new) }
    ensures block_labels { OnOk result (LabelsStayRight base.now draft.old draft.new) }
{
    parentless.note_touched(base, draft)?;
    let mut worklist = MergeCandidates::of(alloc, merge_candidates);
    let mut buffers = Buffers::new(alloc);
    merge_pairs(base, draft, parentless, &mut worklist, &mut buffers)?;
    Ok(())
}
