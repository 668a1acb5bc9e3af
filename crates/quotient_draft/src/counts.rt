// Counts by block.
ghost use Rattle.std.specs.Prelude.{◌≡◌, ◌+◌, ◌<◌, ◌≤◌, ◌^◌, ℕ, nat_eq};
ghost use Rattle.indexmap.specs.IndexMap.{spare};
ghost use Rattle.quotient.specs.QuotientNeighbours.{one_if};
ghost use Rattle.quotient_draft.specs.MoveTables.{counted};

use indexmap::IndexMap;

/// How many are counted for a block.
pub(crate) fn count_of(counts: &IndexMap<u32, usize>, b: u32) -> usize
    ensures { result ≡ counted counts.now.entries b }
{
    match counts.get(&b) {
        Some(count) => *count,
        None => 0,
    }
}

/// Counts one more for a block, whose count is at most `most` before.
pub(crate) fn count_one(counts: &mut IndexMap<u32, usize>, b: u32, most: usize)
    requires reserved { 0 < spare counts.old }
    requires counted { counted counts.old.entries b ≤ most }
    requires few { most < 2 ^ 63 }
    ensures { (x : ℕ) → counted counts.new.entries x ≡ counted counts.old.entries x + one_if (nat_eq x b) }
{
    let count = count_of(counts, b).min(most) + 1;
    match counts.insert(b, count) {
        Ok(_) => {}
        Err(_) => unreachable!(),
    }
}
