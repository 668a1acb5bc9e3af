// The slots of an index, one for each item.
ghost use Rattle.std.specs.Prelude.{◌≡◌, ◌<◌, ◌≤◌, ◌++◌, ◌∷◌, [], length, slice_set, slice_index_or, slice_get, Some, OnOk, OnErr};
ghost use Rattle.hash_index.specs.Slots.{hashes_of, links_of, items_of};

use px_base::Memory;

/// An item, the hash of its key, and one more than the number of the next item in its chain, or 0 where it is the last.
#[derive(Clone, Copy)]
pub struct Slot<T> {
    pub(crate) hash: u32,
    pub(crate) next: u32,
    pub(crate) item: T,
}

#[inline(always)]
pub(crate) fn read_hash<T>(slots: &[Slot<T>], n: usize) -> u32
    requires { n < length slots.now }
    ensures { result ≡ slice_index_or (hashes_of slots.now) n 0 }
{
    slots[n].hash
}

#[inline(always)]
pub(crate) fn read_link<T>(slots: &[Slot<T>], n: usize) -> u32
    requires { n < length slots.now }
    ensures { result ≡ slice_index_or (links_of slots.now) n 0 }
{
    slots[n].next
}

#[inline(always)]
pub(crate) fn set_link<T>(slots: &mut Vec<Slot<T>>, n: usize, next: u32)
    requires { n < length slots.old.items }
    ensures hashes { hashes_of slots.new.items ≡ hashes_of slots.old.items }
    ensures items { items_of slots.new.items ≡ items_of slots.old.items }
    ensures links { links_of slots.new.items ≡ slice_set (links_of slots.old.items) n next }
{
    slots[n].next = next;
}

pub(crate) fn push_slot<T: Copy>(
    slots: &mut Vec<Slot<T>>,
    hash: u32,
    next: u32,
    item: T,
) -> Result<(), Memory>
    ensures hashes { OnOk result (hashes_of slots.new.items ≡ hashes_of slots.old.items ++ hash ∷ []) }
    ensures items { OnOk result (items_of slots.new.items ≡ items_of slots.old.items ++ item ∷ []) }
    ensures links { OnOk result (links_of slots.new.items ≡ links_of slots.old.items ++ next ∷ []) }
    ensures err { OnErr result (slots.new.items ≡ slots.old.items) }
{
    slots.push(Slot { hash, next, item })?;
    Ok(())
}

#[inline(always)]
pub(crate) fn read_item<T: Copy>(slots: &[Slot<T>], n: usize) -> T
    requires { n < length slots.now }
    ensures { slice_get (items_of slots.now) n ≡ Some result }
{
    slots[n].item
}
