// Rising numbers, each once.
ghost use Rattle.std.specs.Prelude.{◌≡◌, [], ℕ, nat_eq};
ghost use Rattle.std.specs.List.{IsDistinct};
ghost use Rattle.std.specs.List.Retain.{IsFiltered, DiffersFromLast};
ghost use Rattle.std.specs.List.Sorted.{IsStrictlyIncreasing};
ghost use Rattle.graph_spec.specs.Members.{has};

// Of equal numbers in a row only the first stays.
fn drop_repeats(numbers: &mut Vec<u32>)
    ensures { IsFiltered (DiffersFromLast nat_eq) [] numbers.old.items numbers.new.items }
{
    numbers.dedup();
}

/// Sorts the numbers, and keeps each once, as they stand in a key that is a set. O(m log m) for m numbers, no memory.
pub fn sort_dedup(numbers: &mut Vec<u32>)
    ensures rising { IsStrictlyIncreasing numbers.new.items }
    ensures once { IsDistinct nat_eq numbers.new.items }
    ensures same { (n : ℕ) → has numbers.new.items n ≡ has numbers.old.items n }
{
    numbers.sort_unstable();
    drop_repeats(numbers);
}
