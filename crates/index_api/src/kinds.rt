// Through what a query is asked.
ghost use Rattle.std.specs.Prelude.{◌≡◌, ◌≤◌, slice_get};
ghost use Rattle.index_api.specs.IndexOrder.{place_of, all_indexes};

use bisim_spec::Kind;

/// Through what a query is answered.
///
/// All indexes with levels up to 2, one after another:
///
///     let mut n = 0;
///     while let Some(via) = Via::nth(n, 2) {
///         take(via);
///         n += 1;
///     }
#[derive(Clone, Copy, Debug, PartialEq, Eq)]
pub enum Via {
    /// The graph itself.
    Data,
    /// The A(i)-index of that level i, counted from 0.
    A(u32),
    /// The 1-index.
    One,
    /// The forward and backward index.
    Fb,
    /// The bounded forward and backward index of that level i, counted from 0.
    B(u32),
}

impl Via {
    /// The kind of the index and its level, which is 0 for the 1-index and for the forward and backward index.
    /// None exactly for the graph itself. O(1), no memory.
    pub fn place(self) -> Option<(Kind, u32)>
        ensures { result ≡ place_of self }
    {
        match self {
            Via::Data => None,
            Via::A(level) => Some((Kind::A, level)),
            Via::One => Some((Kind::One, 0)),
            Via::Fb => Some((Kind::Fb, 0)),
            Via::B(level) => Some((Kind::B, level)),
        }
    }

    /// The index at place `n`, counted from 0, in the list of all indexes with levels up to `k`: the A(i)-indexes
    /// from level 0 up to `k`, the 1-index, the forward and backward index, and then the bounded ones from level 0 up to
    /// `k`. None exactly past these. O(1), no memory.
    pub fn nth(n: u32, k: u32) -> Option<Via>
        requires level { k ≤ 8 }
        ensures { result ≡ slice_get (all_indexes k) n }
    {
        if n <= k {
            Some(Via::A(n))
        } else if n == k + 1 {
            Some(Via::One)
        } else if n == k + 2 {
            Some(Via::Fb)
        } else if n <= 2 * k + 3 {
            Some(Via::B(n - k - 3))
        } else {
            None
        }
    }
}
