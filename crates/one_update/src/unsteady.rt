// The nodes at which a change may leave the partition unstable.
ghost use Rattle.std.specs.Prelude.{◌≡◌, ◌++◌, ◌∷◌, [], if◌then◌else◌, not, ℕ, IsTrue, IfOk, OnOk, OnErr, nat_eq};
ghost use Rattle.std.specs.List.{IsDistinct};
ghost use Rattle.graph_spec.specs.Members.{has};
ghost use Rattle.graph_update.specs.PendingChanges.{graph_after};
ghost use Rattle.bisim_spec.specs.declared.sides.Side.TheVariants.{Parents};
ghost use Rattle.graph_effects.specs.StepEffects.{node_if, live_ends};
ghost use Rattle.one_update.specs.OneDrafts.{IsBefore};
ghost use Rattle.one_update.specs.UnsteadyNodes.{supports_edge, unsupported_ends, unsteady_nodes};
ghost use Rattle.one_update.specs.UnsteadyNodes.{AreUnkept, AreUnsteadyBy, KeepsParentBlock, HasRead, ReadsOne};

use crate::linking::has_parent_in;
use graph_effects::Effects;
use graph_update::After;
use indexmap::IndexSet;
use px_base::{Memory, NodeId, Steps};
use quotient::Summary;
use smallvec::SmallVec;
use std::alloc::Global;
use std::sync::ledger::Ledger;

/// A list of nodes, up to four without memory of their own.
type FewNodes = SmallVec<NodeId, 4>;

// The node is noted where it is wanted.
fn note_if(nodes: &mut FewNodes, n: NodeId, wanted: bool) -> Result<(), Memory>
    ensures { OnOk result (nodes.new.items ≡ nodes.old.items ++ node_if wanted n) }
{
    if wanted {
        nodes.push(n)?;
    }
    Ok(())
}

// Whether both nodes have blocks in the base, that of the first with support to that of the second.
fn is_supported(base: &Summary, u: NodeId, v: NodeId) -> bool
    ensures { result ≡ supports_edge base.now u v }
{
    let Some(a) = base.block_of(u) else {
        return false;
    };
    match base.block_of(v) {
        Some(b) => base.support(a, b) > 0,
        None => false,
    }
}

// The ends of edges that go are noted, where they are nodes after the change.
fn note_lost(
    nodes: &mut FewNodes,
    lost: &[(NodeId, NodeId)],
    after: &After<'_>,
) -> Result<(), Memory>
    ensures { OnOk result (nodes.new.items ≡ nodes.old.items ++ live_ends Parents (graph_after after.now) lost.now) }
{
    let mut left = lost;
    while let Some((edge, rest)) = left.split_first() {
        left = rest;
        note_if(nodes, edge.1, after.is_live(edge.1))?;
    }
    Ok(())
}

// The edge is put behind the list, unless it is left out.
fn push_unless(
    list: &mut Vec<(NodeId, NodeId)>,
    edge: (NodeId, NodeId),
    left_out: bool,
) -> Result<(), Memory>
    ensures { OnOk result (list.new.items ≡ (if left_out then list.old.items else list.old.items ++ edge ∷ [])) }
{
    if !left_out {
        list.push(edge)?;
    }
    Ok(())
}

// Whether it is found that the end of an edge that goes has, after the change, a parent in the block of its beginning. The
// parents of an end are read once: of one in the set nothing is found.
fn keeps_parent<L: Ledger>(
    base: &Summary,
    after: &After<'_>,
    u: NodeId,
    v: NodeId,
    read: &mut IndexSet<NodeId>,
    steps: &mut Steps<L>,
) -> Result<bool, Memory>
    requires before { IsBefore after.now base.now }
    ensures yes { IfOk result (λ kept. IsTrue kept → KeepsParentBlock (graph_after after.now) base.now.blocks.block_of u v) }
    ensures read { OnOk result (ReadsOne after.now v read.old.keys read.new.keys steps.old steps.new) }
    ensures err { OnErr result (steps.new ≡ steps.old) }
{
    let Some(b) = base.block_of(u) else {
        return Ok(false);
    };
    if !after.is_live(v) {
        return Ok(false);
    }
    if read.contains(&v) {
        return Ok(false);
    }
    read.insert(v)?;
    Ok(has_parent_in(base, after, v, b, steps))
}

// Lists the edges that go but for those of which the end is found to keep a parent in the same block.
fn fill_unkept<L: Ledger>(
    list: &mut Vec<(NodeId, NodeId)>,
    read: &mut IndexSet<NodeId>,
    base: &Summary,
    after: &After<'_>,
    lost: &[(NodeId, NodeId)],
    steps: &mut Steps<L>,
) -> Result<(), Memory>
    requires before { IsBefore after.now base.now }
    requires empty { list.old.items ≡ [] }
    requires unread { read.old.keys ≡ [] }
    ensures unkept { OnOk result (AreUnkept (graph_after after.now) base.now.blocks.block_of lost.now list.new.items) }
    ensures read { HasRead after.now lost.now steps.old steps.new }
{
    for i in 0..lost.len() {
        let kept = keeps_parent(base, after, lost[i].0, lost[i].1, read, steps)?;
        push_unless(list, lost[i], kept)?;
    }
    Ok(())
}

// The edges that go but for those of which the end is found to keep a parent in the same block.
fn unkept<L: Ledger>(
    alloc: Global,
    base: &Summary,
    after: &After<'_>,
    lost: &[(NodeId, NodeId)],
    steps: &mut Steps<L>,
) -> Result<Vec<(NodeId, NodeId)>, Memory>
    requires before { IsBefore after.now base.now }
    ensures unkept { IfOk result (λ list. AreUnkept (graph_after after.now) base.now.blocks.block_of lost.now list.items) }
    ensures read { HasRead after.now lost.now steps.old steps.new }
{
    let mut list = Vec::new(alloc);
    let mut read = IndexSet::new(alloc);
    fill_unkept(&mut list, &mut read, base, after, lost, steps)?;
    Ok(list)
}

// The ends of edges that come are noted, but for edges between blocks that have support.
fn note_unsupported(
    nodes: &mut FewNodes,
    added: &[(NodeId, NodeId)],
    base: &Summary,
) -> Result<(), Memory>
    ensures { OnOk result (nodes.new.items ≡ nodes.old.items ++ unsupported_ends base.now added.now) }
{
    let mut left = added;
    while let Some((edge, rest)) = left.split_first() {
        left = rest;
        note_if(nodes, edge.1, !is_supported(base, edge.0, edge.1))?;
    }
    Ok(())
}

// The nodes that come, those that get another label, the ends of these edges, and those that get a parent in a block without
// support.
fn list_unsteady(
    alloc: Global,
    base: &Summary,
    after: &After<'_>,
    effects: &Effects,
    left: &[(NodeId, NodeId)],
) -> Result<FewNodes, Memory>
    ensures { IfOk result (λ nodes. nodes.items ≡ unsteady_nodes base.now (graph_after after.now) effects.now left.now) }
{
    let mut nodes = FewNodes::from_slice(alloc, effects.came())?;
    nodes.extend_from_slice(effects.relabelled())?;
    note_lost(&mut nodes, left, after)?;
    note_unsupported(&mut nodes, effects.added(), base)?;
    Ok(nodes)
}

// Keeps each of the nodes once.
fn keep_once(nodes: &mut FewNodes)
    ensures once { IsDistinct nat_eq nodes.new.items }
    ensures same { (n : ℕ) → has nodes.new.items n ≡ has nodes.old.items n }
{
    nodes.sort_unstable();
    nodes.dedup();
}

/// The nodes at which a change may leave the partition unstable, each once: those that come, those that get another label,
/// those that lose a parent and may have no other one in its block, and those that get one in a block without support to theirs.
/// The parents of each node that loses one are read once.
pub(crate) fn unsteady<L: Ledger>(
    alloc: Global,
    base: &Summary,
    after: &After<'_>,
    effects: &Effects,
    steps: &mut Steps<L>,
) -> Result<FewNodes, Memory>
    requires before { IsBefore after.now base.now }
    ensures once { IfOk result (λ list. IsDistinct nat_eq list.items) }
    ensures same { IfOk result (λ list. AreUnsteadyBy base.now (graph_after after.now) effects.now list.items) }
    ensures read { HasRead after.now effects.now.lost steps.old steps.new }
{
    let left = unkept(alloc, base, after, effects.lost(), steps)?;
    let mut list = list_unsteady(alloc, base, after, effects, &left)?;
    keep_once(&mut list);
    Ok(list)
}
