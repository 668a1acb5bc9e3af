// Which nodes a search may enter.
ghost use Rattle.std.specs.Prelude.{◌≡◌, ◌<◌, ◌≤◌, ℕ, Bool, true, false};
ghost use Rattle.graph_spec.specs.Members.{has};

use px_base::Bits;

/// The numbers that a search may enter. It takes no memory to ask.
pub(crate) trait Scope {
    /// Whether the number is within.
    ghost keeps: { Self → ℕ → Bool };

    /// Whether the number is within.
    fn contains(&self, n: u32) -> bool
        ensures { result ≡ keeps self.now n };

    /// The least number from `n` on that is within, or one that is at least the end where none below it is.
    fn first_from(&self, n: u32, end: u32) -> u32
        requires { n ≤ end }
        ensures from { n ≤ result }
        ensures passed { (k : ℕ) → n ≤ k → k < result → keeps self.now k ≡ false };
}

/// All numbers.
#[derive(Clone, Copy)]
pub(crate) struct Everywhere;

impl Scope for Everywhere {
    ghost keeps = { λ s n. true };

    #[inline(always)]
    fn contains(&self, _n: u32) -> bool {
        true
    }

    #[inline(always)]
    fn first_from(&self, n: u32, _end: u32) -> u32 {
        n
    }
}

/// The members of a set.
#[derive(Clone, Copy)]
pub(crate) struct Inside<'s> {
    pub set: &'s Bits,
}

impl<'s> Scope for Inside<'s> {
    ghost keeps = { λ s n. has s.set.now.members n };

    #[inline(always)]
    fn contains(&self, n: u32) -> bool {
        self.set.contains(n)
    }

    fn first_from(&self, n: u32, end: u32) -> u32 {
        match self.set.next_from(n) {
            Some(next) => next,
            None => end,
        }
    }
}
