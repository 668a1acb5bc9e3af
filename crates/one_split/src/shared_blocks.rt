// The nodes that share their blocks.
ghost use Rattle.std.specs.Prelude.{◌≡◌, ◌++◌, ◌∷◌, [], ℕ, if◌then◌else◌, IfOk, OnOk, IsSome, IsTrue};
ghost use Rattle.std.specs.List.{filter};
ghost use Rattle.graph_spec.specs.Members.{has, at};
ghost use Rattle.quotient_draft.specs.Drafts.{shown_blocks, shown_labels};
ghost use Rattle.quotient_draft.specs.Basis.{IsOver};
ghost use Rattle.one_split.specs.Counted.{shares_block};
ghost use Rattle.one_split.specs.NodeTargetBlocks.{MembersHaveLabels};

use crate::keys::own_block;
use px_base::{Memory, NodeId};
use quotient::Summary;
use quotient_draft::Draft;
use smallvec::SmallVec;
use std::alloc::Global;

/// A list of nodes, up to four without memory of their own.
pub(crate) type FewNodes = SmallVec<NodeId, 4>;

// Whether a node shares its block with another one.
fn is_in_shared_block(base: &Summary, draft: &Draft, n: NodeId) -> bool
    requires over { IsOver base.now.blocks.block_of base.now.blocks.labels draft.now }
    requires live { MembersHaveLabels (shown_blocks base.now draft.now) (at (shown_labels base.now draft.now)) }
    requires block { IsSome (at (shown_blocks base.now draft.now) n) }
    ensures { result ≡ shares_block (shown_blocks base.now draft.now) n }
{
    let own = own_block(base, draft, n);
    draft.member_count(base, own) != 1
}

/// Puts a node behind the list, if it is to stay.
pub(crate) fn push_if(list: &mut FewNodes, n: NodeId, stays: bool) -> Result<(), Memory>
    ensures { OnOk result (list.new.items ≡ (if stays then list.old.items ++ n ∷ [] else list.old.items)) }
{
    if stays {
        list.push(n)?;
    }
    Ok(())
}

/// Lists the nodes among these that share their blocks. A node that is alone can't be parted, so its parents needn't be read.
pub(crate) fn in_shared_blocks(
    alloc: Global,
    base: &Summary,
    draft: &Draft,
    nodes: &[NodeId],
) -> Result<FewNodes, Memory>
    requires over { IsOver base.now.blocks.block_of base.now.blocks.labels draft.now }
    requires live { MembersHaveLabels (shown_blocks base.now draft.now) (at (shown_labels base.now draft.now)) }
    requires blocks { (n : ℕ) → IsTrue (has nodes.now n) → IsSome (at (shown_blocks base.now draft.now) n) }
    ensures { IfOk result (λ list. list.items ≡ filter (shares_block (shown_blocks base.now draft.now)) nodes.now) }
{
    let mut list = FewNodes::new(alloc);
    for n in nodes {
        push_if(&mut list, *n, is_in_shared_block(base, draft, *n))?;
    }
    Ok(list)
}
