// Marked places.
ghost use Rattle.std.specs.Prelude.{◌≡◌, ◌+◌, ◌<◌, ◌≤◌, ◌*◌, ◌/◌, ◌||◌, ℕ, false, true, not, nat_eq, length, IfOk, OnOk, OnErr, slice_set, slice_index_or};
ghost use Rattle.std.proofs.Math.ListN.{replicate};
ghost use Rattle.path_automaton.specs.MarkRows.{bit_of, AreReady};

use px_base::Memory;
use std::alloc::Global;
use std::marker::Model;

/// A mark for each place below a width, one bit each. It takes no memory before a place is marked.
#[derive(Drop)]
pub(crate) struct Row {
    words: Vec<u64>,
    width: usize,
}

/// For each place whether it is marked.
impl Model for Row {
    ghost use Rattle.std.specs.Prelude.{List, Bool};
    ghost use Rattle.path_automaton.specs.MarkRows.{flags_of, AreReady};

    ghost Value = { List Bool };

    ghost view = { λ r. flags_of r.width r.words.items };

    ghost invariant = { λ r. AreReady r.width r.words.items };
}

/// Makes the words of a row that has none. It stays out of the loops that mark.
#[cold]
#[inline(never)]
fn fill_words(alloc: Global, words: &mut Vec<u64>, width: usize) -> Result<(), Memory>
    requires { length words.old.items ≡ 0 }
    ensures ready { OnOk result (width ≤ 64 * length words.new.items) }
    ensures same { OnOk result ((k : ℕ) → bit_of words.new.items k ≡ bit_of words.old.items k) }
    ensures err { OnErr result (words.new.items ≡ words.old.items) }
{
    *words = vec![in alloc; 0; width / 64 + 1]?;
    Ok(())
}

/// Makes the words of a row, where there are none.
#[inline(always)]
fn make_words(alloc: Global, words: &mut Vec<u64>, width: usize) -> Result<(), Memory>
    requires { AreReady width words.old.items }
    ensures ready { OnOk result (width ≤ 64 * length words.new.items) }
    ensures same { OnOk result ((k : ℕ) → bit_of words.new.items k ≡ bit_of words.old.items k) }
    ensures err { OnErr result (words.new.items ≡ words.old.items) }
{
    if words.is_empty() {
        fill_words(alloc, words, width)?;
    }
    Ok(())
}

/// Sets the bit, and says whether it wasn't set before.
#[inline(always)]
fn set_bit(words: &mut [u64], n: usize) -> bool
    requires { n < 64 * length words.old }
    ensures new { result ≡ not (bit_of words.old n) }
    ensures bits { (k : ℕ) → bit_of words.new k ≡ (nat_eq k n || bit_of words.old k) }
    ensures len { length words.new ≡ length words.old }
{
    let word = words[n / 64];
    let bit = 1u64 << (n % 64);
    words[n / 64] = word | bit;
    word & bit == 0
}

impl Row {
    /// No place is marked.
    pub(crate) fn new(alloc: Global, width: usize) -> Row
        ensures { result ≡ replicate width false }
    {
        Row {
            words: Vec::new(alloc),
            width,
        }
    }

    /// Marks the place, and says whether it wasn't marked before.
    #[inline(always)]
    pub(crate) fn insert(&mut self, alloc: Global, place: u32) -> Result<bool, Memory>
        requires { place < length self.old }
        ensures new { IfOk result (λ new. new ≡ not (slice_index_or self.old place false)) }
        ensures after { OnOk result (self.new ≡ slice_set self.old place true) }
    {
        make_words(alloc, &mut self.words, self.width)?;
        Ok(set_bit(&mut self.words, place as usize))
    }
}
