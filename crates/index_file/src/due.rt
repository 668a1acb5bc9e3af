// What has to come next in an index file, and why a line isn't taken.
ghost use Rattle.std.specs.Prelude.{◌≡◌};
ghost use Rattle.index_file.specs.declared.due.Stop.TheVariants.{Memory as NoMemory};

use px_base::Memory;

/// What has to come next.
#[derive(Clone, Copy, Debug, PartialEq, Eq)]
pub(crate) enum Due {
    /// The first line.
    Title,
    /// How many numbers were allocated.
    Allocated,
    /// So many numbers, and then the number of edges.
    Nodes(u32),
    /// So many edges, and then the number of views.
    EdgesLeft(u32),
    /// So many ranks of the last view, and then views, until there are so many.
    Ranks(usize, u64),
}

/// Why a line isn't taken.
#[derive(Clone, Copy, Debug, PartialEq, Eq)]
pub(crate) enum Stop {
    /// It can't stand there.
    Syntax,
    /// It passes a limit.
    Limit,
    /// An allocation failed.
    Memory,
}

impl From<Memory> for Stop {
    ghost from_gives = { λ _ e. e ≡ NoMemory };

    fn from(_: Memory) -> Self {
        Stop::Memory
    }
}
