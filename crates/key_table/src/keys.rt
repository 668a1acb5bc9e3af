// The table of keys.
ghost use Rattle.std.specs.Prelude.{◌≡◌, ◌<◌, ◌^◌, ◌++◌, ◌∷◌, [], length, slice_get, Some, IfSome, IfNone, IfOk, OnOk, OnErr};
ghost use Rattle.key_table.specs.Hashes.{hash_of};
ghost use Rattle.key_table.specs.Spans.{keys_of, IsKeyTable};
ghost use Rattle.key_table.specs.NumberedKeys.{IsAbsent, AreDistinct, Interns};

use crate::hashing::hash_key;
use crate::spans::{KeyRange, read_span, search};
use hash_index::HashIndex;
use px_base::Memory;
use std::alloc::Global;
use std::marker::Model;

/// Keys, each a list of numbers, numbered from 0 on in the order in which they came.
///
/// A key takes 4 bytes for each of its numbers, 16 for its place in the index and 4 to 8 for its bucket. There are
/// fewer than 2^31 keys, with fewer than 2^32 numbers together.
///
/// A key that comes again keeps its number:
///
///     let mut keys = KeyTable::new(alloc)?;
///     let first = keys.intern(&[7, 1, 4])?;  // 0
///     let other = keys.intern(&[7])?;        // 1
///     let again = keys.intern(&[7, 1, 4])?;  // 0
pub struct KeyTable {
    arena: Vec<u32>,
    index: HashIndex<KeyRange>,
}

impl Drop for KeyTable {
    // By hand, so that no crate above proves how the tables are dropped.
    fn drop(self) {
        let KeyTable { arena, index } = self;
        drop(arena);
        drop(index);
    }
}

impl Model for KeyTable {
    ghost use Rattle.std.specs.Prelude.{ℕ, List};

    ghost Value = { List (List ℕ) };

    ghost use Rattle.key_table.specs.Spans.{keys_of, IsKeyTable};

    ghost view = { λ k. keys_of k.arena.items k.index.items };

    ghost invariant = { λ k. IsKeyTable k.arena.items k.index };
}

impl KeyTable {
    /// A table without keys. O(1); it takes 64 bytes.
    pub fn new(alloc: Global) -> Result<KeyTable, Memory>
        ensures { IfOk result (λ k. k ≡ []) }
    {
        let index = HashIndex::new(alloc)?;
        Ok(KeyTable {
            arena: Vec::new(alloc),
            index,
        })
    }

    /// How many keys there are. O(1), no memory.
    pub fn len(&self) -> u32
        ensures len { result ≡ length self.now }
        ensures distinct { AreDistinct self.now }
        ensures few { result < 2 ^ 31 }
    {
        self.index.len()
    }

    /// The key of a number. O(1), no memory.
    pub fn key(&self, i: u32) -> &[u32]
        requires { i < length self.now }
        ensures { slice_get self.now i ≡ Some result.now }
    {
        let span = read_span(&self.index, i);
        &self.arena[span.from as usize..span.to as usize]
    }

    /// The number of a key, and `None` exactly if it isn't in the table. Expected O(k) for a key of k
    /// numbers, no memory.
    pub fn find(&self, key: &[u32]) -> Option<u32>
        ensures found { IfSome result (λ i. slice_get self.now i ≡ Some key.now) }
        ensures absent { IfNone result (IsAbsent self.now key.now) }
        ensures distinct { AreDistinct self.now }
    {
        search(&self.arena, &self.index, key, hash_key(key))
    }

    /// The number of a key, which is put behind the others where it is new. `Memory` comes where memory runs
    /// out or the table is full, and leaves the keys. Expected O(k), amortized, for a key of
    /// k numbers; a key that is there takes no memory, a new one 4 bytes for each of its numbers and 20 to 24 more.
    pub fn intern(&mut self, key: &[u32]) -> Result<u32, Memory>
        ensures ok { IfOk result (λ i. Interns self.old self.new key.now i) }
        ensures distinct { AreDistinct self.new }
        ensures err { OnErr result (self.new ≡ self.old) }
    {
        let hash = hash_key(key);
        if let Some(i) = search(&self.arena, &self.index, key, hash) {
            return Ok(i);
        }
        add(&mut self.arena, &mut self.index, key, hash)
    }

    /// Drops all keys. The memory is kept for keys to come. O(1), no memory.
    pub fn clear(&mut self)
        ensures { self.new ≡ [] }
    {
        self.arena.clear();
        self.index.clear();
    }
}

// Adds a key that is absent.
fn add(
    arena: &mut Vec<u32>,
    index: &mut HashIndex<KeyRange>,
    key: &[u32],
    hash: u32,
) -> Result<u32, Memory>
    requires table { IsKeyTable arena.old.items index.old }
    requires hash { hash ≡ hash_of key.now }
    requires absent { IsAbsent (keys_of arena.old.items index.old.items) key.now }
    ensures table { IsKeyTable arena.new.items index.new }
    ensures number { IfOk result (λ i. i ≡ length index.old.items) }
    ensures added { OnOk result (keys_of arena.new.items index.new.items ≡ keys_of arena.old.items index.old.items ++ key.now ∷ []) }
    ensures err { OnErr result (keys_of arena.new.items index.new.items ≡ keys_of arena.old.items index.old.items) }
{
    let from = arena.len();
    if key.len() >= 0xFFFF_FFFF - from {
        return Err(Memory);
    }
    arena.extend_from_slice(key)?;
    let to = arena.len();
    let span = KeyRange {
        from: from as u32,
        to: to as u32,
    };
    index.push(hash, span)
}
