// The nodes of a block, by lists on which nodes stay that went to another one.
ghost use Rattle.std.specs.Prelude.{◌≡◌, ◌<◌, ℕ, Some, IsSome, IfOk, OnOk};
ghost use Rattle.std.specs.List.Sorted.{IsStrictlyIncreasing};
ghost use Rattle.graph_spec.specs.Members.{at};
ghost use Rattle.round_refinement.specs.Listing.{IsListed, ListsNode, ListsMoved, AddsNode, IsWidened};

use crate::keys::block_of;
use crate::part_sizes::Sizes;
use hash_index::HashIndex;
use key_table::sort_dedup;
use px_base::Memory;
use std::alloc::Global;

// Puts a node on the list of its block.
fn list_node(lists: &mut HashIndex<u32>, block: Option<u32>, n: u32) -> Result<(), Memory>
    ensures { OnOk result (ListsNode block n lists.old lists.new) }
{
    // Called for its contract: each node on a list has the number of that.
    let _known = lists.len();
    if let Some(b) = block {
        lists.push(b, n)?;
    }
    Ok(())
}

/// The numbers below the size on the lists of their blocks.
pub(crate) fn list_all(
    alloc: Global,
    block: &[Option<u32>],
    size: u32,
) -> Result<HashIndex<u32>, Memory>
    requires { (n : ℕ) → IsSome (at block.now n) → n < size }
    ensures { IfOk result (λ lists. IsListed block.now lists) }
{
    let mut lists = HashIndex::new(alloc)?;
    for n in 0..size {
        list_node(&mut lists, block_of(block, n), n)?;
    }
    Ok(lists)
}

/// Puts the nodes on the lists of their blocks. They stay on those where they were.
pub(crate) fn list_moved(
    lists: &mut HashIndex<u32>,
    block: &[Option<u32>],
    moved: &[u32],
) -> Result<(), Memory>
    ensures { OnOk result (ListsMoved block.now moved.now lists.old lists.new) }
{
    for n in moved {
        list_node(lists, block_of(block, *n), *n)?;
    }
    Ok(())
}

// Puts a node behind the others, if it is in the block.
fn push_if(all: &mut Vec<u32>, block: &[Option<u32>], b: u32, n: u32) -> Result<(), Memory>
    ensures { OnOk result (AddsNode block.now b n all.old.items all.new.items) }
{
    if block_of(block, n) == Some(b) {
        all.push(n)?;
    }
    Ok(())
}

// Puts all nodes of the block behind the others.
fn push_members(
    all: &mut Vec<u32>,
    lists: &HashIndex<u32>,
    block: &[Option<u32>],
    b: u32,
) -> Result<(), Memory>
    requires { IsListed block.now lists.now }
    ensures { OnOk result (IsWidened block.now all.old.items all.new.items) }
{
    // Called for its contract: each node on a list has the number of that.
    let _known = lists.len();
    let mut next = lists.newest(b);
    'walk: while let Some(i) = next {
        push_if(all, block, b, lists.item(i))?;
        next = lists.older(i);
    }
    Ok(())
}

// Puts all nodes of the block behind the others, if `takes_rest` says so.
fn push_rest(
    all: &mut Vec<u32>,
    lists: &HashIndex<u32>,
    block: &[Option<u32>],
    sizes: &mut Sizes,
    own: Option<u32>,
) -> Result<(), Memory>
    requires { IsListed block.now lists.now }
    ensures { OnOk result (IsWidened block.now all.old.items all.new.items) }
{
    match own {
        Some(b) if sizes.takes_rest(b) => push_members(all, lists, block, b),
        _ => Ok(()),
    }
}

/// The active nodes, and with them all nodes of those blocks for which `Sizes::takes_rest` says so.
pub(crate) fn with_rest(
    alloc: Global,
    lists: &HashIndex<u32>,
    block: &[Option<u32>],
    sizes: &mut Sizes,
    active: &[u32],
) -> Result<Vec<u32>, Memory>
    requires { IsListed block.now lists.now }
    ensures widened { IfOk result (λ all. IsWidened block.now active.now all.items) }
    ensures rising { IfOk result (λ all. IsStrictlyIncreasing all.items) }
{
    sizes.count_active(block, active);
    let mut all = active.to_vec(alloc)?;
    for n in active {
        push_rest(&mut all, lists, block, sizes, block_of(block, *n))?;
    }
    sort_dedup(&mut all);
    Ok(all)
}
