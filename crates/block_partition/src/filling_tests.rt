// A partition that is filled from lists.
ghost use Rattle.std.specs.Prelude.{◌≡◌};

use super::*;
use crate::blocks::Blocks;
use px_base::Memory;
use std::alloc::Global;
use std::test::Fail;

// Nodes 0 and 2 in blocks 0 and 1, and node 1 in none.
fn filled(alloc: Global) -> Result<Blocks, Memory> {
    fill(alloc, 3, &[Some(0), None, Some(1)], &[7, 8])
}

// Whether the block of the node has the label.
fn is_labelled(blocks: &Blocks, n: u32, label: u32) -> bool {
    match blocks.block_of(n) {
        Some(b) => blocks.is_block(b) && blocks.label(b) == label,
        None => false,
    }
}

#[test]
fn lists_are_filled_in(rt: HostRuntime) -> Result<(), Fail> {
    let blocks = filled(rt.alloc())?;
    assert!(rt; is_labelled(&blocks, 0, 7));
    assert!(rt; is_labelled(&blocks, 2, 8));
    assert!(rt; blocks.block_of(1).is_none());
    assert!(rt; blocks.count() == 2);
    Ok(())
}
