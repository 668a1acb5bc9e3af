// The index.
ghost use Rattle.std.specs.Prelude.{◌≡◌, ◌<◌, ◌^◌, ◌++◌, ◌∷◌, [], length, slice_get, Some, IfSome, IfOk, OnOk, OnErr};
ghost use Rattle.hash_index.specs.Items.{no_items, with_item, hash_at, IsNewest};
ghost use Rattle.hash_index.specs.Slots.{hashes_of, links_of, items_of};
ghost use Rattle.hash_index.specs.HashChains.{IsIndex};

use crate::chains::{along, bucket, grow_buckets, read_head, set_head};
use crate::slots::{Slot, push_slot, read_hash, read_item, read_link};
use px_base::Memory;
use std::alloc::Global;
use std::marker::Model;

/// How many buckets an empty index has.
const FIRST_BUCKETS: usize = 16;

/// Items, numbered from 0 on in the order in which they came, each with the hash of its key.
///
/// An item takes 8 bytes beside its own, and 4 to 8 for its bucket. There are fewer than 2^31 of them.
///
/// Items of one hash, the newest first:
///
///     let mut index = HashIndex::new(alloc)?;
///     index.push(7, item)?;
///     let mut next = index.newest(7);
///     while let Some(n) = next {
///         take(index.item(n));
///         next = index.older(n);
///     }
#[derive(Drop)]
pub struct HashIndex<T: Copy> {
    slots: Vec<Slot<T>>,
    heads: Vec<u32>,
}

impl<T: Copy> Model for HashIndex<T> {
    ghost use Rattle.hash_index.specs.Items.{Items};
    ghost use Rattle.hash_index.specs.Slots.{hashes_of, items_of};
    ghost use Rattle.hash_index.specs.HashChains.{IsIndex};

    ghost Value = { Items T };

    ghost view = { λ x. record { hashes = hashes_of x.slots.items; items = items_of x.slots.items } };

    ghost invariant = { λ x. IsIndex x.slots.items x.heads.items };
}

impl<T: Copy> HashIndex<T> {
    /// An index without items. O(1); it takes 64 bytes.
    pub fn new(alloc: Global) -> Result<HashIndex<T>, Memory>
        ensures { IfOk result (λ x. x ≡ no_items) }
    {
        let heads = vec![in alloc; 0; FIRST_BUCKETS]?;
        Ok(HashIndex {
            slots: Vec::new(alloc),
            heads,
        })
    }

    /// How many items there are. O(1), no memory.
    #[inline(always)]
    pub fn len(&self) -> u32
        ensures items { result ≡ length self.now.items }
        ensures hashes { result ≡ length self.now.hashes }
        ensures few { result < 2 ^ 31 }
    {
        self.slots.len() as u32
    }

    /// The item of a number. O(1), no memory.
    #[inline(always)]
    pub fn item(&self, n: u32) -> T
        requires { n < length self.now.items }
        ensures { slice_get self.now.items n ≡ Some result }
    {
        read_item(&self.slots, n as usize)
    }

    /// The greatest number that has the hash. Expected O(1), no memory.
    #[inline(always)]
    pub fn newest(&self, hash: u32) -> Option<u32>
        ensures { IsNewest self.now.hashes hash (length self.now.hashes) result }
    {
        along(
            &self.slots,
            read_head(&self.heads, bucket(&self.heads, hash)),
            hash,
        )
    }

    /// The greatest smaller number that has the hash of this one. Expected O(1), no memory.
    #[inline(always)]
    pub fn older(&self, n: u32) -> Option<u32>
        requires { n < length self.now.hashes }
        ensures { IsNewest self.now.hashes (hash_at self.now.hashes n) n result }
    {
        let hash = read_hash(&self.slots, n as usize);
        along(&self.slots, read_link(&self.slots, n as usize), hash)
    }

    /// The number at the head of a hash's chain, whatever its own hash is. It is needed only to read ahead. O(1), no memory.
    #[inline(always)]
    pub fn head(&self, hash: u32) -> Option<u32>
        ensures { IfSome result (λ n. n < length self.now.items) }
    {
        read_head(&self.heads, bucket(&self.heads, hash)).checked_sub(1)
    }

    /// Some number that has the hash, from this one on along its chain. It is needed only to read ahead. Expected O(1), no
    /// memory.
    #[inline(always)]
    pub fn from(&self, n: u32, hash: u32) -> Option<u32>
        requires { n < length self.now.items }
        ensures { IfSome result (λ i. i < length self.now.items) }
    {
        along(&self.slots, n + 1, hash)
    }

    /// Puts an item behind the others, and gives its number. `Memory` comes where memory runs out or there are 2^31 - 1
    /// items, and leaves the items. O(1), amortized; it takes the memory that `HashIndex` states for an item.
    pub fn push(&mut self, hash: u32, item: T) -> Result<u32, Memory>
        ensures number { IfOk result (λ n. n ≡ length self.old.items) }
        ensures ok { OnOk result (self.new ≡ with_item self.old hash item) }
        ensures err { OnErr result (self.new ≡ self.old) }
    {
        grow_buckets(&mut self.slots, &mut self.heads)?;
        add(&mut self.slots, &mut self.heads, hash, item)
    }

    /// Drops all items. One bucket is left, and the memory is kept for items to come. O(1), no memory.
    pub fn clear(&mut self)
        ensures { self.new ≡ no_items }
    {
        self.slots.clear();
        keep_one(&mut self.heads);
    }
}

// Leaves one bucket, without items.
fn keep_one(heads: &mut Vec<u32>)
    requires some { 0 < length heads.old.items }
    ensures { heads.new.items ≡ 0 ∷ [] }
{
    heads.truncate(1);
    heads[0] = 0;
}

// Puts an item behind the others, and at the head of its chain.
fn add<T: Copy>(
    slots: &mut Vec<Slot<T>>,
    heads: &mut Vec<u32>,
    hash: u32,
    item: T,
) -> Result<u32, Memory>
    requires index { IsIndex slots.old.items heads.old.items }
    ensures index { IsIndex slots.new.items heads.new.items }
    ensures number { IfOk result (λ n. n ≡ length slots.old.items) }
    ensures hashes { OnOk result (hashes_of slots.new.items ≡ hashes_of slots.old.items ++ hash ∷ []) }
    ensures items { OnOk result (items_of slots.new.items ≡ items_of slots.old.items ++ item ∷ []) }
    ensures err { OnErr result (slots.new.items ≡ slots.old.items) }
{
    let n = slots.len();
    if n >= 0x7FFF_FFFF {
        return Err(Memory);
    }
    let b = bucket(heads, hash);
    push_slot(slots, hash, read_head(heads, b), item)?;
    set_head(heads, b, n as u32 + 1);
    Ok(n as u32)
}
