// A set of small numbers.
ghost use Rattle.std.specs.Prelude.{◌≡◌, ℕ, ◌<◌, ◌≤◌, ◌^◌, ◌&&◌, ◌||◌, ◌++◌, ◌∷◌, not, nat_eq, nat_le, true, false, [], length, filter, get_or, slice_get, IfOk, OnOk, MatchOption, if◌then◌else◌};
ghost use Rattle.std.specs.List.Sorted.{IsStrictlyIncreasing};
ghost use Rattle.graph_spec.specs.Members.{has};
ghost use Rattle.px_base.specs.BitSets.{IsNext, flags_of, places_from};

use crate::Memory;
use memchr::{memchr, memchr_iter};
use std::alloc::Global;
use std::marker::Model;

/// A set of numbers below a size, seen as that size and the list of its members, rising.
///
/// It takes a byte for each number below the size.
///
/// The members, rising:
///
///     let mut next = nodes.next_from(0);
///     while let Some(node) = next {
///         take(node);
///         next = nodes.next_from(node + 1);
///     }
#[derive(Drop)]
pub struct Bits {
    // 1 for a member, else 0
    flags: Vec<u8>,
    count: u32,
}

impl Model for Bits {
    ghost use Rattle.std.specs.Prelude.{◌≡◌, ◌<◌, ◌^◌, length, vec_len};
    ghost use Rattle.px_base.specs.BitSets.{BitSet, flags_of, places_from};

    ghost Value = { BitSet };

    ghost view = { λ b. record { size = vec_len b.flags; members = places_from 0 (flags_of b.flags.items) } };

    ghost invariant = { λ b. (vec_len b.flags < 2 ^ 32) × (b.count ≡ length (places_from 0 (flags_of b.flags.items))) };
}

impl Bits {
    /// The empty set below `size`, which is any number. O(size); it takes a byte for each number below the size.
    pub fn new(alloc: Global, size: u32) -> Result<Bits, Memory>
        ensures { IfOk result (λ b. b ≡ record { size = size; members = [] }) }
    {
        let flags = vec![in alloc; 0; size as usize]?;
        Ok(Bits { flags, count: 0 })
    }

    /// What each member is below. O(1), no memory.
    pub fn size(&self) -> u32
        ensures size { result ≡ self.now.size }
        ensures rising { IsStrictlyIncreasing self.now.members }
        ensures below { (n : ℕ) → has self.now.members n ≡ true → n < self.now.size }
        ensures small { self.now.size < 2 ^ 32 }
    {
        self.flags.len() as u32
    }

    /// Whether the number is a member; false from the size on. O(1), no memory.
    pub fn contains(&self, n: u32) -> bool
        ensures { result ≡ has self.now.members n }
    {
        is_set(&self.flags, n as usize)
    }

    /// How many members there are. O(1), no memory.
    pub fn count(&self) -> u32
        ensures count { result ≡ length self.now.members }
        ensures rising { IsStrictlyIncreasing self.now.members }
        ensures below { (n : ℕ) → has self.now.members n ≡ true → n < self.now.size }
        ensures small { self.now.size < 2 ^ 32 }
    {
        self.count
    }

    /// The least member that is at least `n`, if there is one. O(d) for the d numbers from `n` up to that
    /// member, or up to the size where there is none; no memory.
    pub fn next_from(&self, n: u32) -> Option<u32>
        ensures next { MatchOption result ((m : ℕ) → n ≤ m → has self.now.members m ≡ false) (λ m. IsNext self.now.members n m) }
        ensures head { result ≡ slice_get (filter (λ m. nat_le n m) self.now.members) 0 }
    {
        if is_set(&self.flags, n as usize) {
            return Some(n);
        }
        let start = (n as usize).min(self.flags.len());
        match memchr(1, &self.flags[start..]) {
            Some(gap) => Some((start + gap) as u32),
            None => None,
        }
    }

    /// The members, rising. O(size); it takes 4 bytes for each member, amortized.
    pub fn list(&self, alloc: Global) -> Result<Vec<u32>, Memory>
        ensures { IfOk result (λ list. list.items ≡ self.now.members) }
    {
        places(alloc, &self.flags)
    }

    /// Makes `n` a member. O(1), no memory.
    pub fn insert(&mut self, n: u32)
        requires { n < self.old.size }
        ensures size { self.new.size ≡ self.old.size }
        ensures members { (m : ℕ) → has self.new.members m ≡ (nat_eq m n || has self.old.members m) }
        ensures rising { IsStrictlyIncreasing self.new.members }
    {
        if self.flags[n as usize] == 1 {
            return;
        }
        self.flags[n as usize] = 1;
        self.count += 1;
    }

    /// Makes `n` no member. O(1), no memory.
    pub fn remove(&mut self, n: u32)
        requires { n < self.old.size }
        ensures size { self.new.size ≡ self.old.size }
        ensures members { (m : ℕ) → has self.new.members m ≡ (not (nat_eq m n) && has self.old.members m) }
        ensures rising { IsStrictlyIncreasing self.new.members }
    {
        if self.flags[n as usize] != 1 {
            return;
        }
        self.flags[n as usize] = 0;
        self.count -= 1;
    }
}

/// Whether there is a flag at this place that is set.
fn is_set(flags: &[u8], place: usize) -> bool
    ensures { result ≡ nat_eq (get_or flags.now place 0) 1 }
{
    place < flags.len() && flags[place] == 1
}

/// The places of the flags that are set.
fn places(alloc: Global, flags: &[u8]) -> Result<Vec<u32>, Memory>
    requires few { length flags.now < 2 ^ 32 }
    ensures { IfOk result (λ list. list.items ≡ places_from 0 (flags_of flags.now)) }
{
    let mut list = Vec::new(alloc);
    for place in memchr_iter(1, flags) {
        list.push(place as u32)?;
    }
    Ok(list)
}
