// Which group of a block may keep its number: the largest one.
ghost use Rattle.std.specs.Prelude.{◌≡◌, ◌+◌, ◌<◌, ◌≤◌, ℕ, List, OnOk, length, slice_get, vec_len};
ghost use Rattle.block_splitting.specs.Chosen.{HasFirst, RetainedBelow};

use crate::choosing::own_number;
use key_table::KeyTable;
use px_base::{Memory, NodeId};
use std::alloc::Global;

// Counts one more.
#[inline(always)]
fn count_at(sizes: &mut Vec<u32>, k: u32) {
    if (k as usize) < sizes.len() {
        sizes[k as usize] = sizes[k as usize].wrapping_add(1);
    }
}

// The number at a place, and 0 past the end.
#[inline(always)]
fn number_at(numbers: &[u32], i: u32) -> u32 {
    if (i as usize) < numbers.len() {
        numbers[i as usize]
    } else {
        0
    }
}

/// How many of the nodes have each key.
pub(crate) fn sizes_of(
    alloc: Global,
    keys: &KeyTable,
    nodes: &[NodeId],
    group: &[u32],
) -> Result<Vec<u32>, Memory> {
    let mut sizes = vec![in alloc; 0; keys.len() as usize]?;
    for n in nodes {
        count_at(&mut sizes, number_at(group, *n));
    }
    Ok(sizes)
}

// Makes the next group the retained group of its block, if that has none or one that is smaller.
fn note_retained(retained: &mut Vec<u32>, keys: &KeyTable, sizes: &[u32], k: u32)
    requires within { k < length keys.now }
    requires keyed { (i : ℕ) (key : List ℕ) → slice_get keys.now i ≡ Some key → (own : ℕ) × HasFirst key own × (own < vec_len retained.old) }
    requires retained_groups { RetainedBelow keys.now k retained.old.items }
    ensures length { vec_len retained.new ≡ vec_len retained.old }
    ensures retained_groups { RetainedBelow keys.now (k + 1) retained.new.items }
{
    let own = own_number(keys.key(k));
    let before = retained[own as usize];
    if before >= k {
        retained[own as usize] = k;
        return;
    }
    let other = own_number(keys.key(before));
    if other != own || number_at(sizes, before) < number_at(sizes, k) {
        retained[own as usize] = k;
        return;
    }
}

// Makes the list at least that long.
fn lengthen(retained: &mut Vec<u32>, span: u32) -> Result<(), Memory>
    ensures { OnOk result (span ≤ vec_len retained.new) }
{
    'places: for _ in 0..span as usize {
        if retained.len() >= span as usize {
            return Ok(());
        }
        retained.push(0)?;
    }
    Ok(())
}

/// Writes for each block with groups the largest of these.
pub(crate) fn note_all_retained(
    retained: &mut Vec<u32>,
    span: u32,
    keys: &KeyTable,
    sizes: &[u32],
) -> Result<(), Memory>
    requires keyed { (i : ℕ) (key : List ℕ) → slice_get keys.now i ≡ Some key → (own : ℕ) × HasFirst key own × (own < span) }
    ensures long { OnOk result (span ≤ vec_len retained.new) }
    ensures retained_groups { OnOk result (RetainedBelow keys.now (length keys.now) retained.new.items) }
{
    lengthen(retained, span)?;
    for k in 0..keys.len() {
        note_retained(retained, keys, sizes, k);
    }
    Ok(())
}
