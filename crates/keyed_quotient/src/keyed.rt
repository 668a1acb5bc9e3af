// A quotient whose blocks have keys.
ghost use Rattle.std.specs.Prelude.{◌≡◌, ◌↔◌, ℕ, List, Some, IsSome, IsTrue, IsFalse, IfOk, IfSome, slice_get};
ghost use Rattle.graph_spec.specs.Members.{at};
ghost use Rattle.block_partition.specs.LabelledPartitions.{IsBlock};
ghost use Rattle.keyed_quotient.specs.KeyedQuotients.{HasKey, AreKeyed, key_at};
ghost use Rattle.keyed_quotient.specs.Numberings.{block_keys, numbered_key, IsNumbering, Leads};

use crate::numbering::KeyNumbers;
use key_table::KeyTable;
use px_base::Memory;
use quotient::Summary;
use std::alloc::Global;
use std::marker::Model;

/// A quotient, and the key of each of its blocks: a list of numbers, by which the block is found.
///
/// A quotient with two blocks, whose keys are lists of one number and of two:
///
///     let mut keys = KeyTable::new(alloc)?;
///     keys.intern(&[7])?;     // the key of block 0
///     keys.intern(&[8, 0])?;  // the key of block 1
///     let level = KeyedSummary::new(alloc, summary, keys)?;
///     let edges = level.summary().support(0, 1);
pub struct KeyedSummary {
    pub(crate) alloc: Global,
    pub(crate) summary: Summary,
    pub(crate) numbers: KeyNumbers,
}

impl Drop for KeyedSummary {
    // By hand, so that no crate above proves how the tables are dropped.
    fn drop(self) {
        let KeyedSummary {
            alloc: _,
            summary,
            numbers,
        } = self;
        drop(summary);
        drop(numbers);
    }
}

impl Model for KeyedSummary {
    ghost use Rattle.keyed_quotient.specs.KeyedQuotients.{KeyedQuotient, keyed_code};
    ghost use Rattle.keyed_quotient.specs.Numberings.{block_keys, key_reserved, IsNumbering};

    ghost Value = { KeyedQuotient };

    ghost coded = { keyed_code };

    ghost view = { λ s. record { quotient = s.summary; keys = block_keys s.summary.blocks.labels s.numbers; reserved = key_reserved s.numbers } };

    ghost invariant = { λ s. IsNumbering s.summary.blocks.labels s.numbers };
}

impl KeyedSummary {
    /// A quotient whose blocks have these keys: a block has the key with its number. Where memory runs out, both are
    /// dropped. O(l) for keys of l numbers together; it takes 8 bytes a key.
    pub fn new(alloc: Global, summary: Summary, keys: KeyTable) -> Result<KeyedSummary, Memory>
        requires { AreKeyed summary.blocks.labels (slice_get keys) }
        ensures quotient { IfOk result (λ s. s.quotient ≡ summary) }
        ensures keys { IfOk result (λ s. (b : ℕ) → key_at s.keys b ≡ slice_get keys b) }
    {
        let numbers = KeyNumbers::of(alloc, keys)?;
        Ok(KeyedSummary {
            alloc,
            summary,
            numbers,
        })
    }

    /// The quotient. O(1), no memory.
    pub fn summary(&self) -> &Summary
        ensures quotient { result.now ≡ self.now.quotient }
        ensures keyed { AreKeyed self.now.quotient.blocks.labels (key_at self.now.keys) }
    {
        &self.summary
    }

    /// The block that has the key, and `None` exactly where no block has it. It is found by hash.
    pub(crate) fn find(&self, key: &[u32]) -> Option<u32>
        ensures leads { (b : ℕ) → (result ≡ Some b) ↔ HasKey self.now b key.now }
        ensures block { IfSome result (IsBlock self.now.quotient.blocks) }
    {
        find_in(&self.summary, &self.numbers, key)
    }
}

// The block that has the key.
fn find_in(summary: &Summary, numbers: &KeyNumbers, key: &[u32]) -> Option<u32>
    requires { IsNumbering summary.now.blocks.labels numbers.now }
    ensures leads { (b : ℕ) → (result ≡ Some b) ↔ (key_at (block_keys summary.now.blocks.labels numbers.now) b ≡ Some key.now) }
    ensures block { IfSome result (IsBlock summary.now.blocks) }
{
    match numbers.number(key) {
        Some(k) => block_with_number(summary, numbers, k, key),
        None => None,
    }
}

// The block to which the number of a key leads, where that leads back.
fn block_with_number(summary: &Summary, numbers: &KeyNumbers, k: u32, key: &[u32]) -> Option<u32>
    requires numbering { IsNumbering summary.now.blocks.labels numbers.now }
    requires key { slice_get numbers.now.table k ≡ Some key.now }
    ensures leads { (b : ℕ) → (result ≡ Some b) ↔ (key_at (block_keys summary.now.blocks.labels numbers.now) b ≡ Some key.now) }
    ensures block { IfSome result (IsBlock summary.now.blocks) }
{
    // The contract alone reads the key.
    let _ = key;
    match numbers.block(k) {
        Some(b) => if has_number(summary, numbers, k, b) {
            Some(b)
        } else {
            None
        },
        None => None,
    }
}

// Whether the number of a key is that of the block.
fn has_number(summary: &Summary, numbers: &KeyNumbers, k: u32, b: u32) -> bool
    ensures yes { IsTrue result → IsSome (at summary.now.blocks.labels b) × (slice_get numbers.now.number_of b ≡ Some k) }
    ensures no { IsFalse result → IsSome (at summary.now.blocks.labels b) → slice_get numbers.now.number_of b ≡ Some k → ⊥ }
{
    if !summary.is_block(b) {
        return false;
    }
    numbers.number_of(b) == Some(k)
}

// The key of a block that has one.
pub(crate) fn key_in(numbers: &KeyNumbers, b: u32) -> &[u32]
    requires { (k : ℕ) × (key : List ℕ) × Leads numbers.now k b key }
    ensures { numbered_key numbers.now b ≡ Some result.now }
{
    let k = numbers.number_of(b).unwrap();
    numbers.key(k)
}
