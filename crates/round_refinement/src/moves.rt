// Active nodes that go to other blocks.
ghost use Rattle.std.specs.Prelude.{◌≡◌, set, IfOk, length};
ghost use Rattle.std.specs.List.Sorted.{IsStrictlyIncreasing};
ghost use Rattle.graph_spec.specs.Members.{at};
ghost use Rattle.round_refinement.specs.Active.{AreMoved, AreRenamed, IsCaughtUp, number_in, renamed};

use crate::keys::block_of;
use crate::part_sizes::number_at;
use px_base::Memory;
use std::alloc::Global;

/// A partition, that before the last round, and the nodes that the round put into other blocks.
#[derive(Drop)]
pub(crate) struct Parts {
    pub(crate) block: Vec<Option<u32>>,
    pub(crate) before: Vec<Option<u32>>,
    pub(crate) moved: Vec<u32>,
}

// The block of an active node in a group, once groups have these names.
fn new_block(block: &[Option<u32>], names: &[u32], n: u32, group: u32) -> Option<u32>
    ensures { result ≡ renamed (at block.now n) (number_in names.now group) }
{
    match block_of(block, n) {
        Some(_) => Some(number_at(names, group)),
        None => None,
    }
}

/// The active nodes that go to another block.
pub(crate) fn moved_nodes(
    alloc: Global,
    block: &[Option<u32>],
    active: &[u32],
    groups: &[u32],
    names: &[u32],
) -> Result<Vec<u32>, Memory>
    requires { length groups.now ≡ length active.now }
    ensures { IfOk result (λ moved. AreMoved block.now active.now groups.now names.now (length active.now) moved.items) }
{
    let mut moved = Vec::new(alloc);
    for i in 0..active.len() {
        let n = active[i];
        if new_block(block, names, n, groups[i]) != block_of(block, n) {
            moved.push(n)?;
        }
    }
    Ok(moved)
}

// Puts a node into another block; a number past the end has none.
fn put_block(block: &mut [Option<u32>], n: u32, b: Option<u32>)
    ensures { block.new ≡ set block.old n b }
{
    if (n as usize) < block.len() {
        block[n as usize] = b;
    }
}

/// Puts the active nodes into the blocks of their groups.
pub(crate) fn rename(block: &mut [Option<u32>], active: &[u32], groups: &[u32], names: &[u32])
    requires groups { length groups.now ≡ length active.now }
    requires rising { IsStrictlyIncreasing active.now }
    ensures { AreRenamed block.old block.new active.now groups.now names.now (length active.now) }
{
    for i in 0..active.len() {
        let n = active[i];
        let b = new_block(block, names, n, groups[i]);
        put_block(block, n, b);
    }
}

/// Puts the nodes into the blocks where they are by now.
pub(crate) fn catch_up(before: &mut [Option<u32>], block: &[Option<u32>], moved: &[u32])
    ensures { IsCaughtUp before.old block.now moved.now before.new }
{
    for n in moved {
        let b = block_of(block, *n);
        put_block(before, *n, b);
    }
}
