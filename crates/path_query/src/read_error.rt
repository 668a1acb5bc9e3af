// Why a text makes no tree.
use px_base::Memory;
use std::alloc::AllocFailed;

/// Why a text, or its tokens, make no tree of a query language.
#[derive(Clone, Copy, Debug, PartialEq, Eq)]
pub enum ReadError {
    /// They spell none.
    Syntax,
    /// Memory ran out.
    Memory,
}

impl<T: Drop> From<AllocFailed<T>> for ReadError {
    ghost use Rattle.std.specs.Prelude.{◌≡◌};
    ghost use Rattle.path_query.specs.declared.read_error.ReadError.TheVariants as variants;

    ghost from_gives = { λ _ e. e ≡ variants.Memory };

    fn from(_: AllocFailed<T>) -> Self {
        ReadError::Memory
    }
}

impl From<Memory> for ReadError {
    ghost use Rattle.std.specs.Prelude.{◌≡◌};
    ghost use Rattle.path_query.specs.declared.read_error.ReadError.TheVariants as variants;

    ghost from_gives = { λ _ e. e ≡ variants.Memory };

    fn from(_: Memory) -> Self {
        ReadError::Memory
    }
}
