// A direct-mapped cache of numbers.
use crate::Memory;
use std::alloc::Global;
use std::marker::Model;

/// How many bits the number of a slot has.
const BITS: u32 = 12;

/// A direct-mapped cache of numbers, each found by a pair of numbers. Some bits of the pair choose its slot, which it shares with other
/// pairs, and a slot holds the number that was put there last. Nothing is promised of a number that is found: the caller checks what it
/// leads to before using it.
///
/// It takes 16 KiB.
///
/// A number is looked for here first, and put here where it had to be searched for:
///
///     let number = recent.get(first, last);
///     if !is_right(number) {
///         recent.put(first, last, search());
///     }
#[derive(Drop)]
pub struct Recent {
    slots: Vec<u32>,
}

impl Model for Recent {
    ghost use Rattle.std.specs.Prelude.{⊤};

    ghost Value = { ⊤ };

    ghost view = { λ _. tt };
}

impl Recent {
    /// A cache with the number 0 in each slot. O(1); it takes 16 KiB.
    pub fn new(alloc: Global) -> Result<Recent, Memory> {
        let slots = vec![in alloc; 0; 1 << BITS]?;
        Ok(Recent { slots })
    }

    /// The number that was put last in the slot of these two, and 0 where none was. O(1), no memory.
    #[inline(always)]
    pub fn get(&self, a: u32, b: u32) -> u32 {
        match self.slots.get(slot_of(a, b)) {
            Some(number) => *number,
            None => 0,
        }
    }

    /// Puts a number in the slot of these two, and drops the one that was there. O(1), no memory.
    #[inline(always)]
    pub fn put(&mut self, a: u32, b: u32, number: u32) {
        if let Some(slot) = self.slots.get_mut(slot_of(a, b)) {
            *slot = number;
        }
    }
}

// Both numbers, mixed.
#[inline(always)]
fn slot_of(a: u32, b: u32) -> usize {
    ((a.wrapping_mul(0x9E37_79B9) ^ b.wrapping_mul(0x85EB_CA6B)) >> (32 - BITS)) as usize
}
