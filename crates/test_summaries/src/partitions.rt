// Each public call once, on a small partition.
ghost use Rattle.std.specs.Prelude.{◌≡◌, ◌<◌, ◌≤◌, ◌+◌, length};

use block_partition::Blocks;
use px_base::NodeId;
use std::alloc::Global;
use std::process::Abort;
use std::test::Fail;

// Puts a node that has no block into one.
fn put(rt: &impl Abort, blocks: &mut Blocks, n: NodeId, b: u32)
    requires { n < length blocks.old.block_of + blocks.old.reserved.nodes }
    ensures { length blocks.old.block_of + blocks.old.reserved.nodes ≤ length blocks.new.block_of + blocks.new.reserved.nodes }
{
    assert!(rt; blocks.is_block(b));
    assert!(rt; blocks.block_of(n).is_none(), "{n}");
    blocks.place(n, b);
}

// Whether the members of a block are these, in some order.
fn has_members(rt: &impl Abort, blocks: &Blocks, b: u32, nodes: &[NodeId]) -> bool {
    assert!(rt; blocks.is_block(b));
    let all = blocks.members(b).all(|n| nodes.contains(&n));
    all && blocks.member_count(b) as usize == nodes.len()
}

fn small(rt: &impl Abort, alloc: Global) -> Result<Blocks, Fail> {
    let mut blocks = Blocks::new(alloc)?;
    blocks.reserve(6, 3)?;
    let (a, b) = (blocks.new_block(7), blocks.new_block(9));
    put(rt, &mut blocks, 1, a);
    put(rt, &mut blocks, 4, b);
    put(rt, &mut blocks, 0, a);
    put(rt, &mut blocks, 5, a);
    Ok(blocks)
}

fn check_reads(rt: &impl Abort, blocks: &Blocks) {
    assert_eq!(rt;
        (blocks.numbers(), blocks.count(), blocks.span()),
        (6, 2, 2)
    );
    let list = [Some(0), Some(0), None, None, Some(1), Some(0), None];
    for (n, block) in list.iter().enumerate() {
        assert_eq!(rt; blocks.block_of(n as u32), *block, "{n}");
    }
    assert!(rt; has_members(rt, blocks, 0, &[0, 1, 5]));
    assert!(rt; has_members(rt, blocks, 1, &[4]));
    assert!(rt; !blocks.is_block(2));
    assert!(rt; blocks.is_block(1));
    assert_eq!(rt; blocks.label(1), 9);
}

#[test]
fn reads(rt: HostRuntime) -> Result<(), Fail> {
    let blocks = small(&rt, rt.alloc())?;
    check_reads(&rt, &blocks);
    Ok(())
}

// Node 4 goes to the first block, and node 1 has none.
fn empty_the_second(rt: &impl Abort, blocks: &mut Blocks) {
    assert!(rt; blocks.is_block(0));
    assert!(rt; blocks.block_of(4).is_some());
    blocks.move_node(4, 0);
    assert!(rt; blocks.block_of(1).is_some());
    blocks.take_out(1);
    assert!(rt; has_members(rt, blocks, 0, &[0, 4, 5]));
    assert!(rt; has_members(rt, blocks, 1, &[]));
}

// Nodes 6 and 7 come behind the others: the first in the second block, the other in none.
fn append_two(rt: &impl Abort, blocks: &mut Blocks) -> Result<(), Fail> {
    if blocks.numbers() > 6 || blocks.count() > 2 {
        return Err("too much".into());
    }
    blocks.reserve(2, 0)?;
    assert!(rt; blocks.is_block(1));
    blocks.append(Some(1));
    blocks.append(None);
    assert_eq!(rt; blocks.numbers(), 8);
    assert_eq!(rt; (blocks.block_of(6), blocks.block_of(7)), (Some(1), None));
    assert!(rt; has_members(rt, blocks, 1, &[6]));
    Ok(())
}

#[test]
fn moves(rt: HostRuntime) -> Result<(), Fail> {
    let mut blocks = small(&rt, rt.alloc())?;
    empty_the_second(&rt, &mut blocks);
    append_two(&rt, &mut blocks)?;
    Ok(())
}

// The number of a block that was retired is used again before a greater one.
#[test]
fn least_number_again(rt: HostRuntime) -> Result<(), Fail> {
    let mut blocks = Blocks::new(rt.alloc())?;
    blocks.reserve(0, 3)?;
    let (a, b) = (blocks.new_block(1), blocks.new_block(2));
    assert!(&rt; blocks.is_block(a));
    blocks.retire_block(a);
    assert!(&rt; !blocks.is_block(a));
    assert_eq!(&rt; (blocks.count(), a, b), (1, 0, 1));
    assert_eq!(&rt; blocks.new_block(5), 0);
    assert!(&rt; blocks.is_block(0));
    assert_eq!(&rt; blocks.label(0), 5);
    Ok(())
}

// Of four blocks the first and the third are taken away.
#[test]
fn finds_gaps(rt: HostRuntime) -> Result<(), Fail> {
    let mut blocks = Blocks::new(rt.alloc())?;
    blocks.reserve(0, 4)?;
    blocks.new_block(5);
    blocks.new_block(5);
    blocks.new_block(5);
    blocks.new_block(5);
    retire(&rt, &mut blocks, 0);
    retire(&rt, &mut blocks, 2);
    check_gaps(&rt, &blocks);
    check_live(&rt, &blocks);
    Ok(())
}

fn check_live(rt: &impl Abort, blocks: &Blocks) {
    let live = blocks.live();
    assert_eq!(rt; live.len(), 2);
    assert!(rt; live.contains(&1) && live.contains(&3));
}

fn check_gaps(rt: &impl Abort, blocks: &Blocks) {
    assert_eq!(rt; (blocks.next_free(0), blocks.next_free(1)), (0, 2));
    assert_eq!(rt; (blocks.next_free(3), blocks.next_free(6)), (4, 6));
}

// Takes a block of a partition without nodes away.
fn retire(rt: &impl Abort, blocks: &mut Blocks, b: u32) {
    assert!(rt; blocks.numbers() == 0);
    assert!(rt; blocks.is_block(b));
    blocks.retire_block(b);
}

// Nodes 5 and 0 leave the first block for one of their own.
fn split_first(rt: &impl Abort, blocks: &mut Blocks) -> Result<(), Fail> {
    if blocks.numbers() > 6 || blocks.count() > 2 {
        return Err("too much".into());
    }
    blocks.reserve(0, 1)?;
    assert!(rt; blocks.is_block(0));
    assert_eq!(rt; blocks.block_of(5), Some(0));
    assert_eq!(rt; blocks.block_of(0), Some(0));
    let b = blocks.split_off(0, &[5, 0]);
    assert!(rt; has_members(rt, blocks, b, &[0, 5]));
    assert!(rt; has_members(rt, blocks, 0, &[1]));
    Ok(())
}

#[test]
fn splits(rt: HostRuntime) -> Result<(), Fail> {
    let mut blocks = small(&rt, rt.alloc())?;
    split_first(&rt, &mut blocks)?;
    Ok(())
}
