// Chains of the items whose hashes fall into one bucket.
ghost use Rattle.std.specs.Prelude.{◌≡◌, ℕ, ◌+◌, ◌^◌, ◌<◌, ◌≤◌, length, slice_set, IfSome};
ghost use Rattle.hash_index.specs.Items.{hash_at};
ghost use Rattle.hash_index.specs.Slots.{hashes_of, links_of, items_of};
ghost use Rattle.hash_index.specs.HashChains.{head_at, link_at, bucket_of, AreChains, FindsNewest};

use crate::slots::{Slot, read_hash, read_link, set_link};
use px_base::Memory;

// The number of buckets is a power of two, so that this takes no division.
#[inline(always)]
pub(crate) fn bucket(heads: &[u32], hash: u32) -> usize
    requires { 0 < length heads.now }
    ensures is { result ≡ bucket_of heads.now hash }
    ensures within { result < length heads.now }
{
    (hash as usize) & (heads.len() - 1)
}

#[inline(always)]
pub(crate) fn read_head(heads: &[u32], b: usize) -> u32
    requires { b < length heads.now }
    ensures { result ≡ head_at heads.now b }
{
    heads[b]
}

#[inline(always)]
pub(crate) fn set_head(heads: &mut Vec<u32>, b: usize, head: u32)
    requires { b < length heads.old.items }
    ensures { heads.new.items ≡ slice_set heads.old.items b head }
{
    heads[b] = head;
}

// The first number that has the hash, along the chain from a link on.
#[inline(always)]
pub(crate) fn along<T>(slots: &[Slot<T>], from: u32, hash: u32) -> Option<u32>
    requires within { from ≤ length slots.now }
    requires falls { (i : ℕ) → i < length slots.now → link_at (links_of slots.now) i ≤ i }
    ensures within { IfSome result (λ i. i < length slots.now) }
    ensures newest { FindsNewest slots.now hash from result }
{
    let mut at = from;
    while at > 0 {
        let n = at - 1;
        if read_hash(slots, n as usize) == hash {
            return Some(n);
        }
        at = read_link(slots, n as usize);
    }
    None
}

// Puts number n at the head of its chain.
fn link<T>(slots: &mut Vec<Slot<T>>, heads: &mut Vec<u32>, n: usize)
    requires linked { AreChains n (hashes_of slots.old.items) (links_of slots.old.items) heads.old.items }
    requires within { n < length slots.old.items }
    requires few { length slots.old.items < 2 ^ 31 }
    requires some { 0 < length heads.old.items }
    ensures hashes { hashes_of slots.new.items ≡ hashes_of slots.old.items }
    ensures items { items_of slots.new.items ≡ items_of slots.old.items }
    ensures linked { AreChains (n + 1) (hashes_of slots.new.items) (links_of slots.new.items) heads.new.items }
    ensures some { 0 < length heads.new.items }
{
    let b = bucket(heads, read_hash(slots, n));
    set_link(slots, n, read_head(heads, b));
    set_head(heads, b, n as u32 + 1);
}

// Doubles the number of buckets where there are no more of them than items.
pub(crate) fn grow_buckets<T>(slots: &mut Vec<Slot<T>>, heads: &mut Vec<u32>) -> Result<(), Memory>
    requires linked { AreChains (length slots.old.items) (hashes_of slots.old.items) (links_of slots.old.items) heads.old.items }
    requires few { length slots.old.items < 2 ^ 31 }
    requires some { 0 < length heads.old.items }
    ensures hashes { hashes_of slots.new.items ≡ hashes_of slots.old.items }
    ensures items { items_of slots.new.items ≡ items_of slots.old.items }
    ensures linked { AreChains (length slots.new.items) (hashes_of slots.new.items) (links_of slots.new.items) heads.new.items }
    ensures some { 0 < length heads.new.items }
{
    let size = heads.len();
    if slots.len() < size || size >= 0x8000_0000 {
        return Ok(());
    }
    heads.reserve(size)?;
    heads.clear();
    heads.resize(2 * size, 0)?;
    relink(slots, heads);
    Ok(())
}

// Links all numbers again.
fn relink<T>(slots: &mut Vec<Slot<T>>, heads: &mut Vec<u32>)
    requires empty { (b : ℕ) → head_at heads.old.items b ≡ 0 }
    requires few { length slots.old.items < 2 ^ 31 }
    requires some { 0 < length heads.old.items }
    ensures hashes { hashes_of slots.new.items ≡ hashes_of slots.old.items }
    ensures items { items_of slots.new.items ≡ items_of slots.old.items }
    ensures linked { AreChains (length slots.new.items) (hashes_of slots.new.items) (links_of slots.new.items) heads.new.items }
    ensures some { 0 < length heads.new.items }
{
    for n in 0..slots.len() {
        link(slots, heads, n);
    }
}
