// A table of keys in which recent keys are found without a walk along a chain.
ghost use Rattle.std.specs.Prelude.{◌≡◌, ◌∷◌, [], ℕ, List, IfOk, IsTrue, Some, slice_get};
ghost use Rattle.graph_spec.specs.Members.{at};
ghost use Rattle.key_table.specs.NumberedKeys.{AreDistinct, Interns};
ghost use Rattle.bisim_spec.specs.declared.sides.Sides.TheVariants as sided;
ghost use Rattle.bisim_spec.specs.NodeKeys.{IsWritten};
ghost use Rattle.bisim_levels.specs.SidedKeys.{on_side, IsWrittenBy};

use crate::keys::{block_of, write_both_key, write_key};
use key_table::KeyTable;
use px_base::{Memory, NodeId, Recent};
use std::alloc::Global;
use std::marker::Model;

/// A table of keys, which it is seen as, with a cache of the numbers of recent keys of one or two numbers. It takes what the
/// table takes, and 16 KiB.
///
/// A key that comes again at once is found in the cache:
///
///     let mut keys = RecentKeys::new(alloc)?;
///     let first = keys.intern_pair(3, 7)?;
///     let again = keys.intern_pair(3, 7)?;
#[derive(Drop)]
pub struct RecentKeys {
    table: KeyTable,
    recent: Recent,
    // Where a key is written before it is looked for.
    written: Vec<u32>,
}

impl Model for RecentKeys {
    ghost use Rattle.std.specs.Prelude.{ℕ, List};

    ghost Value = { List (List ℕ) };

    ghost view = { λ k. k.table };
}

impl RecentKeys {
    /// No keys. O(1); it takes 16 KiB.
    pub fn new(alloc: Global) -> Result<RecentKeys, Memory>
        ensures { IfOk result (λ k. k ≡ []) }
    {
        Ok(RecentKeys {
            table: KeyTable::new(alloc)?,
            recent: Recent::new(alloc)?,
            written: Vec::new(alloc),
        })
    }

    /// The table. O(1), no memory.
    pub(crate) fn into_table(self) -> KeyTable
        ensures { result ≡ self }
    {
        self.table
    }

    /// The table. O(1), no memory.
    pub fn table(&self) -> &KeyTable
        ensures { result.now ≡ self.now }
    {
        &self.table
    }

    /// Drops all keys. The memory is kept for keys to come. O(1), no memory.
    pub fn clear(&mut self)
        ensures { self.new ≡ [] }
    {
        self.table.clear();
    }

    /// The number of a key, as `KeyTable::intern` gives it.
    pub fn intern(&mut self, key: &[u32]) -> Result<u32, Memory>
        ensures ok { IfOk result (Interns self.old self.new key.now) }
        ensures distinct { AreDistinct self.new }
    {
        self.table.intern(key)
    }

    /// The number of the key of one number, which is looked up in the cache first.
    #[inline(always)]
    pub(crate) fn intern_one(&mut self, a: u32) -> Result<u32, Memory>
        ensures ok { IfOk result (Interns self.old self.new (a ∷ [])) }
        ensures distinct { IfOk result (λ k. AreDistinct self.new) }
    {
        let known = self.recent.get(0, a);
        if is_one_at(&self.table, known, a) {
            return Ok(known);
        }
        let k = self.table.intern(&[a])?;
        self.recent.put(0, a, k);
        Ok(k)
    }

    /// The number of the key of two numbers, which is looked up in the cache first. It costs no more than `intern`, and a few
    /// steps where the key is at hand.
    #[inline(always)]
    pub fn intern_pair(&mut self, a: u32, b: u32) -> Result<u32, Memory>
        ensures ok { IfOk result (Interns self.old self.new (a ∷ b ∷ [])) }
        ensures distinct { IfOk result (λ k. AreDistinct self.new) }
    {
        let known = self.recent.get(a, b);
        if is_pair_at(&self.table, known, a, b) {
            return Ok(known);
        }
        let k = self.table.intern(&[a, b])?;
        self.recent.put(a, b, k);
        Ok(k)
    }

    /// The number of the key of a node with these neighbours, whose own block has this number.
    pub(crate) fn intern_written(
        &mut self,
        base: &[Option<u32>],
        nodes: &[NodeId],
        number: u32,
    ) -> Result<u32, Memory>
        ensures ok { IfOk result (λ k. (key : List ℕ) × IsWritten (at base.now) nodes.now number key × Interns self.old self.new key k) }
        ensures distinct { IfOk result (λ k. AreDistinct self.new) }
    {
        write_key(&mut self.written, nodes, number, |n| block_of(base, n))?;
        self.table.intern(&self.written)
    }

    /// The number of the key of a node with these parents and children, which all count, and whose own block has this
    /// number.
    pub(crate) fn intern_both(
        &mut self,
        base: &[Option<u32>],
        parents: &[NodeId],
        children: &[NodeId],
        number: u32,
    ) -> Result<u32, Memory>
        ensures ok { IfOk result (λ k. (key : List ℕ) × IsWrittenBy sided.Both (at base.now) (on_side parents.now children.now) number key
            × Interns self.old self.new key k) }
        ensures distinct { IfOk result (λ k. AreDistinct self.new) }
    {
        write_both_key(
            &mut self.written,
            parents,
            children,
            number,
            |n| block_of(base, n),
        )?;
        self.table.intern(&self.written)
    }
}

// Whether the key is just this number.
#[inline(always)]
fn is_one(key: &[u32], a: u32) -> bool
    ensures { IsTrue result → key.now ≡ a ∷ [] }
{
    key.len() == 1 && key[0] == a
}

// Whether the key is just these two numbers.
#[inline(always)]
fn is_pair(key: &[u32], a: u32, b: u32) -> bool
    ensures { IsTrue result → key.now ≡ a ∷ b ∷ [] }
{
    key.len() == 2 && key[0] == a && key[1] == b
}

// Whether the key with this number is just the number a.
#[inline(always)]
fn is_one_at(keys: &KeyTable, k: u32, a: u32) -> bool
    ensures at { IsTrue result → slice_get keys.now k ≡ Some (a ∷ []) }
    ensures distinct { AreDistinct keys.now }
{
    k < keys.len() && is_one(keys.key(k), a)
}

// Whether the key with this number is just the numbers a and b.
#[inline(always)]
fn is_pair_at(keys: &KeyTable, k: u32, a: u32, b: u32) -> bool
    ensures at { IsTrue result → slice_get keys.now k ≡ Some (a ∷ b ∷ []) }
    ensures distinct { AreDistinct keys.now }
{
    k < keys.len() && is_pair(keys.key(k), a, b)
}
