// How much the lines of a script print.
ghost use Rattle.std.specs.Prelude.{◌≡◌};
ghost use Rattle.script_interpreter.specs.Rules.{prints_nodes};

/// How much the lines of a script print. A line that is refused, `why`, `check`, `extents`, `sizes` and `save`
/// print the same in both.
#[derive(Clone, Copy, Debug, PartialEq, Eq)]
pub enum Printing {
    /// Each change that is accepted, each index that is forgotten and each answer print their lines.
    Whole,
    /// An accepted change and a forgotten index print nothing, and an answer its first line only.
    Brief,
}

impl Printing {
    /// Whether an answer prints its nodes.
    pub(crate) fn prints_nodes(self) -> bool
        ensures { result ≡ prints_nodes self }
    {
        match self {
            Printing::Whole => true,
            Printing::Brief => false,
        }
    }
}
