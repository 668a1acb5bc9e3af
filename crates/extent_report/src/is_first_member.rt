// The members of blocks, sorted, and the least ones.
ghost use Rattle.std.specs.Prelude.{◌≡◌, ◌||◌, ℕ, IsSome, IfOk, OnOk};
ghost use Rattle.std.specs.List.Sorted.{IsStrictlyIncreasing};
ghost use Rattle.graph_spec.specs.Members.{at, has};
ghost use Rattle.block_partition.specs.LabelledPartitions.{is_member};
ghost use Rattle.extent_report.specs.MemberChains.{is_first_member};
ghost use Rattle.extent_report.specs.FirstMembers.{is_head, first_member_block};

use key_table::sort_dedup;
use px_base::{Memory, NodeId};
use quotient::Summary;
use std::alloc::Global;

// Puts the members of a block behind the others.
fn push_members(list: &mut Vec<NodeId>, summary: &Summary, b: u32) -> Result<(), Memory>
    requires block { IsSome (at summary.now.blocks.labels b) }
    ensures { OnOk result ((n : ℕ) → has list.new.items n ≡ (is_member summary.now.blocks b n || has list.old.items n)) }
{
    for n in summary.extent(b) {
        list.push(n)?;
    }
    Ok(())
}

/// Lists the members of a block, rising, replacing what the list held.
pub(crate) fn fill_members(list: &mut Vec<NodeId>, summary: &Summary, b: u32) -> Result<(), Memory>
    requires block { IsSome (at summary.now.blocks.labels b) }
    ensures rising { OnOk result (IsStrictlyIncreasing list.new.items) }
    ensures members { OnOk result ((n : ℕ) → has list.new.items n ≡ is_member summary.now.blocks b n) }
{
    list.clear();
    push_members(list, summary, b)?;
    sort_dedup(list);
    Ok(())
}

// Puts the first of the members behind the others, if there is one.
fn push_head(list: &mut Vec<NodeId>, members: &[NodeId]) -> Result<(), Memory>
    ensures { OnOk result ((n : ℕ) → has list.new.items n ≡ (is_head members.now n || has list.old.items n)) }
{
    if members.is_empty() {
        return Ok(());
    }
    list.push(members[0])?;
    Ok(())
}

// Puts the least member of a block behind the others, if it has members. `members` is memory to be reused.
fn push_least(
    list: &mut Vec<NodeId>,
    members: &mut Vec<NodeId>,
    summary: &Summary,
    b: u32,
) -> Result<(), Memory>
    requires block { IsSome (at summary.now.blocks.labels b) }
    ensures { OnOk result ((n : ℕ) → has list.new.items n ≡ (first_member_block summary.now.blocks b n || has list.old.items n)) }
{
    fill_members(members, summary, b)?;
    push_head(list, members)
}

// The least members of the blocks, block by block.
fn least_members(
    alloc: Global,
    members: &mut Vec<NodeId>,
    summary: &Summary,
) -> Result<Vec<NodeId>, Memory>
    ensures { IfOk result (λ l. (n : ℕ) → has l.items n ≡ is_first_member summary.now.blocks n) }
{
    let mut list = Vec::new(alloc);
    for b in summary.live() {
        push_least(&mut list, members, summary, *b)?;
    }
    Ok(list)
}

/// The least member of each block that has members, rising. `members` is memory to be reused.
pub(crate) fn first_members(
    alloc: Global,
    members: &mut Vec<NodeId>,
    summary: &Summary,
) -> Result<Vec<NodeId>, Memory>
    ensures rising { IfOk result (λ l. IsStrictlyIncreasing l.items) }
    ensures is_first_member { IfOk result (λ l. (n : ℕ) → has l.items n ≡ is_first_member summary.now.blocks n) }
{
    let mut list = least_members(alloc, members, summary)?;
    sort_dedup(&mut list);
    Ok(list)
}
