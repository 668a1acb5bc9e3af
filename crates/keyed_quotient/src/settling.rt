// Settling a draft in its base.
ghost use Rattle.std.specs.Prelude.{◌≡◌, ◌<◌, ◌≤◌, ℕ, List, Some, OnOk, length, slice_get};
ghost use Rattle.std.specs.List.{zip};
ghost use Rattle.key_table.specs.NumberedKeys.{AreDistinct};
ghost use Rattle.keyed_quotient.specs.Numberings.{Grows, AreApart, GivenBelow};
ghost use Rattle.quotient.specs.Quotients.{view_of};
ghost use Rattle.keyed_quotient.specs.Changes.{no_keyed_changes, blocks_as_shown, support_as_shown, IsKeyedOver, IsKnown, HasReservedKeys, IsSettled, AreInhabited, AreUnsupported};

use crate::compacting::compact;
use crate::drafting::{KeyedDraft, read};
use crate::keyed::KeyedSummary;
use crate::numbering::KeyNumbers;
use key_table::KeyTable;
use px_base::Memory;

impl KeyedDraft {
    /// Reserves the capacity in the base that settling this draft needs. It leaves the base as it is seen. Expected O(d
    /// + l) for d entries that are drafted, with keys of l numbers together, and linear in a table of the base where
    /// that moves; it takes what the drafted entries take there. Where many keys have no block, or may be long, it
    /// first rebuilds the table of keys without them, in expected O(s + m) for a span s of block numbers and keys of
    /// the blocks of m numbers together. The keys that came before pay for that: it happens again only after new ones.
    pub fn reserve(&self, base: &mut KeyedSummary) -> Result<(), Memory>
        requires over { IsKeyedOver base.old self.now }
        ensures view { view_of base.new.quotient ≡ view_of base.old.quotient }
        ensures keys { base.new.keys ≡ base.old.keys }
        ensures reserved { OnOk result (HasReservedKeys base.new self.now) }
    {
        self.draft.reserve(&mut base.summary)?;
        compact(base.alloc, &base.summary, &mut base.numbers)?;
        know_all(&mut base.numbers, &self.keys)?;
        base.numbers.reach(self.draft.span(&base.summary))?;
        Ok(())
    }

    /// Makes the base what the draft shows, without blocks that have no members, and drops what was drafted.
    /// It can't fail. Each block of the base has a member, and a block that has none as shown has no support as shown.
    /// Expected O(d + l) for d entries that are drafted, with keys of l numbers together, and what `clear` takes; no memory.
    pub fn settle(&mut self, base: &mut KeyedSummary)
        requires over { IsKeyedOver base.old self.old }
        requires reserved { HasReservedKeys base.old self.old }
        requires inhabited { AreInhabited base.old.quotient.blocks.labels base.old.quotient.blocks.block_of }
        requires unsupported { AreUnsupported (blocks_as_shown base.old self.old) (support_as_shown base.old self.old) }
        ensures settled { IsSettled base.old self.old base.new }
        ensures empty { self.new ≡ no_keyed_changes }
    {
        give_all(&mut base.numbers, &self.blocks, &self.keys);
        self.draft.settle(&mut base.summary);
        self.clear();
    }
}

// Gives all keys numbers that have none.
fn know_all(numbers: &mut KeyNumbers, keys: &KeyTable) -> Result<(), Memory>
    requires distinct { AreDistinct numbers.old.table }
    requires fits { length numbers.old.table ≤ length numbers.old.block_of }
    ensures grows { Grows numbers.old numbers.new }
    ensures distinct { AreDistinct numbers.new.table }
    ensures fits { length numbers.new.table ≤ length numbers.new.block_of }
    ensures known { OnOk result ((i : ℕ) (key : List ℕ) → slice_get keys.now i ≡ Some key → IsKnown numbers.new.table key) }
{
    'keys: for i in 0..keys.len() {
        numbers.know(keys.key(i))?;
    }
    Ok(())
}

// The keys, which have numbers, become those of the blocks.
fn give_all(numbers: &mut KeyNumbers, blocks: &[u32], keys: &KeyTable)
    requires even { length blocks.now ≡ length keys.now }
    requires apart { AreApart (zip blocks.now keys.now) }
    requires known { (i b : ℕ) (key : List ℕ) → slice_get (zip blocks.now keys.now) i ≡ Some (b, key) → IsKnown numbers.old.table key }
    requires span { (i b : ℕ) (key : List ℕ) → slice_get (zip blocks.now keys.now) i ≡ Some (b, key) → b < length numbers.old.number_of }
    requires fits { length numbers.old.table ≤ length numbers.old.block_of }
    ensures { GivenBelow (zip blocks.now keys.now) (length (zip blocks.now keys.now)) numbers.old numbers.new }
{
    'keys: for i in 0..keys.len() {
        numbers.give(keys.key(i), read(blocks, i));
    }
}
