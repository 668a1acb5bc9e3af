// The numbers of blocks that are parted. What a part is called decides how much work is left, and never what is found: so nothing is
// promised here.
ghost use Rattle.std.specs.Prelude.{◌≡◌};
ghost use Rattle.round_refinement.specs.Active.{is_shared, number_in};

use crate::keys::block_of;
use px_base::Memory;
use std::alloc::Global;

/// The number at a place, and 0 past the end.
pub(crate) fn number_at(numbers: &[u32], i: u32) -> u32
    ensures { result ≡ number_in numbers.now i }
{
    if (i as usize) < numbers.len() {
        numbers[i as usize]
    } else {
        0
    }
}

/// Writes a number at a place, unless that is past the end.
pub(crate) fn put_at(numbers: &mut [u32], i: u32, number: u32) {
    if (i as usize) < numbers.len() {
        numbers[i as usize] = number;
    }
}

/// What is known of each block, by its number: how many members it has, and how many nodes are on its list. `work` is 0 for each block
/// between calls. Numbers from `free` on are no blocks.
#[derive(Drop)]
pub(crate) struct Sizes {
    pub(crate) members: Vec<u32>,
    listed: Vec<u32>,
    work: Vec<u32>,
    free: u32,
}

// Active nodes of one block that stay together: the number of their block, and how many there are.
#[derive(Copy, Clone)]
struct Part {
    block: u32,
    size: u32,
}

// A number that no node has as a block.
fn first_free(block: &[Option<u32>]) -> u32 {
    let mut free: u32 = 0;
    for b in block {
        if let Some(b) = b {
            if *b >= free {
                free = b.wrapping_add(1);
            }
        }
    }
    free
}

impl Sizes {
    /// The sizes of the blocks of a partition.
    pub(crate) fn new(alloc: Global, block: &[Option<u32>]) -> Result<Sizes, Memory> {
        let free = first_free(block);
        let mut members = vec![in alloc; 0; free as usize]?;
        for b in block {
            if let Some(b) = b {
                let more = number_at(&members, *b).wrapping_add(1);
                put_at(&mut members, *b, more);
            }
        }
        let listed = members.to_vec(alloc)?;
        Ok(Sizes {
            members,
            listed,
            work: vec![in alloc; 0; free as usize]?,
            free,
        })
    }

    /// Counts the active nodes of each block.
    pub(crate) fn count_active(&mut self, block: &[Option<u32>], active: &[u32]) {
        for n in active {
            if let Some(b) = block_of(block, *n) {
                let more = number_at(&self.work, b).wrapping_add(1);
                put_at(&mut self.work, b, more);
            }
        }
    }

    /// Whether all members of the block should be active: some aren't, more are, and at least an eighth of the nodes on its list are still in
    /// it. If fewer are, it isn't worth while to read the list: the members that are active go to new lists without the others. The block is
    /// asked for once after active nodes were counted.
    pub(crate) fn takes_rest(&mut self, b: u32) -> bool {
        let active = number_at(&self.work, b);
        let size = number_at(&self.members, b);
        let rest = size.wrapping_sub(active);
        put_at(&mut self.work, b, 0);
        0 < rest && rest < active && number_at(&self.listed, b) / 8 <= size
    }
}

// Adds one more to its part.
fn count_one(parts: &mut Vec<Part>, block: u32, k: u32) -> Result<(), Memory> {
    if (k as usize) < parts.len() {
        parts[k as usize].size = parts[k as usize].size.wrapping_add(1);
    } else {
        parts.push(Part { block, size: 1 })?;
    }
    Ok(())
}

// The parts of the active nodes, by the numbers of their groups.
fn parts_of(
    alloc: Global,
    block: &[Option<u32>],
    active: &[u32],
    groups: &[u32],
) -> Result<Vec<Part>, Memory> {
    let mut parts = Vec::new(alloc);
    for i in 0..active.len() {
        if i < groups.len() {
            if let Some(b) = block_of(block, active[i]) {
                count_one(&mut parts, b, groups[i])?;
            }
        }
    }
    Ok(parts)
}

// Makes the part the largest of its block, if that has none yet or one that is smaller. The largest is noted by its number and one more.
fn note_largest(largest: &mut [u32], parts: &[Part], k: u32, part: Part) {
    let noted = number_at(largest, part.block);
    if noted == 0 || noted as usize > parts.len() {
        put_at(largest, part.block, k.wrapping_add(1));
    } else if parts[noted as usize - 1].size < part.size {
        put_at(largest, part.block, k.wrapping_add(1));
    }
}

// Takes the active nodes off the members of their blocks, and notes the largest part of each.
fn take_off(sizes: &mut Sizes, parts: &[Part]) {
    let mut k: u32 = 0;
    for part in parts {
        let left = number_at(&sizes.members, part.block).wrapping_sub(part.size);
        put_at(&mut sizes.members, part.block, left);
        note_largest(&mut sizes.work, parts, k, *part);
        k = k.wrapping_add(1);
    }
}

// The number of a part: that of its block, if all members were active and no part is larger, else a new one.
fn name_part(sizes: &mut Sizes, part: Part, k: u32) -> Result<u32, Memory> {
    let largest = number_at(&sizes.work, part.block) == k.wrapping_add(1);
    if largest && number_at(&sizes.members, part.block) == 0 {
        put_at(&mut sizes.members, part.block, part.size);
        return Ok(part.block);
    }
    let name = sizes.free;
    sizes.free = name.wrapping_add(1);
    sizes.members.push(part.size)?;
    sizes.listed.push(part.size)?;
    sizes.work.push(0)?;
    Ok(name)
}

// Forgets the largest parts of blocks.
fn clear_work(sizes: &mut Sizes, parts: &[Part]) {
    for part in parts {
        put_at(&mut sizes.work, part.block, 0);
    }
}

/// A number for each group of active nodes. The largest part of a block whose members were all active keeps the number of the block.
pub(crate) fn name_groups(
    alloc: Global,
    sizes: &mut Sizes,
    block: &[Option<u32>],
    active: &[u32],
    groups: &[u32],
) -> Result<Vec<u32>, Memory> {
    let parts = parts_of(alloc, block, active, groups)?;
    take_off(sizes, &parts);
    let mut names = Vec::with_capacity(alloc, parts.len())?;
    let mut k: u32 = 0;
    for part in &parts {
        let name = name_part(sizes, *part, k)?;
        names.push(name)?;
        k = k.wrapping_add(1);
    }
    clear_work(sizes, &parts);
    Ok(names)
}

/// Whether the block has more than one member.
pub(crate) fn is_shared(members: &[u32], block: Option<u32>) -> bool
    ensures { result ≡ is_shared members.now block }
{
    match block {
        Some(b) => number_at(members, b) > 1,
        None => false,
    }
}
