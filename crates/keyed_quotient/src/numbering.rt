// Keys by number, with the block of each.
ghost use Rattle.std.specs.Prelude.{◌≡◌, ◌+◌, ◌<◌, ◌≤◌, ◌++◌, ℕ, List, Some, IfOk, IfSome, IfNone, OnOk, length, slice_get, slice_set};
ghost use Rattle.key_table.specs.NumberedKeys.{AreDistinct, IsAbsent, Interns};
ghost use Rattle.keyed_quotient.specs.Changes.{IsKnown};
ghost use Rattle.keyed_quotient.specs.Numberings.{Leads, Grows, Gives};

use key_table::KeyTable;
use px_base::Memory;
use std::alloc::Global;
use std::marker::Model;

/// Keys with a number each, the block of each number, and the number of each block. A key stays when its block goes; then its
/// number and its block no longer lead to each other.
#[derive(Drop)]
pub(crate) struct KeyNumbers {
    table: KeyTable,
    block_of: Vec<u32>,
    number_of: Vec<u32>,
    // The lengths of the keys together, now and at the last renumbering.
    words: u64,
    words_anew: u64,
}

impl Model for KeyNumbers {
    ghost use Rattle.keyed_quotient.specs.Numberings.{Numbering};

    ghost Value = { Numbering };

    ghost view = { λ k. record { table = k.table; block_of = k.block_of.items; number_of = k.number_of.items } };
}

// The numbers below a count.
fn count_up(alloc: Global, count: u32) -> Result<Vec<u32>, Memory>
    ensures count { IfOk result (λ v. length v.items ≡ count) }
    ensures same { IfOk result (λ v. (i : ℕ) → i < count → slice_get v.items i ≡ Some i) }
{
    let mut numbers = Vec::with_capacity(alloc, count as usize)?;
    'numbers: for i in 0..count {
        numbers.push(i)?;
    }
    Ok(numbers)
}

// Makes a list at least that long.
fn grow(list: &mut Vec<u32>, len: usize) -> Result<(), Memory>
    ensures same { (i v : ℕ) → slice_get list.old.items i ≡ Some v → slice_get list.new.items i ≡ Some v }
    ensures longer { length list.old.items ≤ length list.new.items }
    ensures ok { OnOk result (len ≤ length list.new.items) }
{
    'places: for _ in list.len()..len {
        list.push(0)?;
    }
    Ok(())
}

// What stands at a place, and none past the end.
fn read(list: &[u32], i: u32) -> Option<u32>
    ensures { result ≡ slice_get list.now i }
{
    match list.get(i as usize) {
        Some(v) => Some(*v),
        None => None,
    }
}

// Writes a place.
fn write(list: &mut Vec<u32>, i: u32, v: u32)
    requires { i < length list.old.items }
    ensures { list.new.items ≡ slice_set list.old.items i v }
{
    list[i as usize] = v;
}

// The lengths of all keys together.
fn words_of(table: &KeyTable) -> u64 {
    let mut words: u64 = 0;
    for k in 0..table.len() {
        words = words.saturating_add(table.key(k).len() as u64);
    }
    words
}

impl KeyNumbers {
    /// The block of each key is its number.
    pub(crate) fn of(alloc: Global, table: KeyTable) -> Result<KeyNumbers, Memory>
        ensures table { IfOk result (λ k. k.table ≡ table) }
        ensures fits { IfOk result (λ k. length k.table ≤ length k.block_of) }
        ensures leads { IfOk result (λ k. (b : ℕ) (key : List ℕ) → slice_get table b ≡ Some key → Leads k b b key) }
    {
        let block_of = count_up(alloc, table.len())?;
        let number_of = count_up(alloc, table.len())?;
        let words = words_of(&table);
        Ok(KeyNumbers {
            table,
            block_of,
            number_of,
            words,
            words_anew: words,
        })
    }

    /// The number of a key, and none where it has none. It is found by hash.
    pub(crate) fn number(&self, key: &[u32]) -> Option<u32>
        ensures found { IfSome result (λ k. slice_get self.now.table k ≡ Some key.now) }
        ensures absent { IfNone result (IsAbsent self.now.table key.now) }
    {
        self.table.find(key)
    }

    /// The block that is kept for the number of a key.
    pub(crate) fn block(&self, k: u32) -> Option<u32>
        ensures { result ≡ slice_get self.now.block_of k }
    {
        read(&self.block_of, k)
    }

    /// The number that is kept for a block.
    pub(crate) fn number_of(&self, b: u32) -> Option<u32>
        ensures { result ≡ slice_get self.now.number_of b }
    {
        read(&self.number_of, b)
    }

    /// The key with a number.
    pub(crate) fn key(&self, k: u32) -> &[u32]
        requires { k < length self.now.table }
        ensures { slice_get self.now.table k ≡ Some result.now }
    {
        self.table.key(k)
    }

    /// How many keys there are.
    pub(crate) fn len(&self) -> u32
        ensures { result ≡ length self.now.table }
    {
        self.table.len()
    }

    /// Gives a key a number, where it has none.
    pub(crate) fn know(&mut self, key: &[u32]) -> Result<(), Memory>
        requires fits { length self.old.table ≤ length self.old.block_of }
        ensures grows { Grows self.old self.new }
        ensures distinct { AreDistinct self.old.table → AreDistinct self.new.table }
        ensures fits { length self.new.table ≤ length self.new.block_of }
        ensures known { OnOk result (IsKnown self.new.table key.now) }
        ensures number_of { self.new.number_of ≡ self.old.number_of }
        ensures interns { OnOk result ((k : ℕ) × Interns self.old.table self.new.table key.now k) }
    {
        let len = self.table.len();
        grow(&mut self.block_of, len as usize + 1)?;
        self.table.intern(key)?;
        if self.table.len() > len {
            self.words = self.words.saturating_add(key.len() as u64);
        }
        Ok(())
    }

    /// Notes that the keys were renumbered.
    pub(crate) fn mark_anew(&mut self)
        ensures { self.new ≡ self.old }
    {
        self.words_anew = self.words;
    }

    /// Whether the keys are little longer together than at the last renumbering, where blocks have numbers below `span`. O(1).
    pub(crate) fn are_short(&self, span: u32) -> bool {
        let more = (self.words_anew / 2 + 64).max(span as u64 / 2);
        self.words <= self.words_anew.saturating_add(more)
    }

    /// Reserves capacity for blocks with numbers below this one.
    pub(crate) fn reach(&mut self, span: u32) -> Result<(), Memory>
        ensures grows { Grows self.old self.new }
        ensures table { self.new.table ≡ self.old.table }
        ensures block_of { self.new.block_of ≡ self.old.block_of }
        ensures ok { OnOk result (span ≤ length self.new.number_of) }
    {
        grow(&mut self.number_of, span as usize)
    }

    /// A key that has a number becomes that of a block.
    pub(crate) fn give(&mut self, key: &[u32], b: u32)
        requires known { IsKnown self.old.table key.now }
        requires fits { length self.old.table ≤ length self.old.block_of }
        requires span { b < length self.old.number_of }
        ensures given { Gives key.now b self.old self.new }
    {
        let k = self.table.find(key).unwrap();
        write(&mut self.block_of, k, b);
        write(&mut self.number_of, b, k);
    }
}
