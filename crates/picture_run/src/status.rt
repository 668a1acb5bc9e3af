// Exit statuses.
ghost use Rattle.std.specs.Prelude.{◌≡◌};
ghost use Rattle.picture_run.specs.StatusCodes.{code_of};

/// How a call of `run` ends: the exit status of the program, with the numbers that `pathindex` uses.
#[derive(Clone, Copy, Debug, PartialEq, Eq)]
pub enum Status {
    /// The picture was written.
    Done = 0,
    /// The words of the command line are malformed.
    Usage = 2,
    /// A line of the graph file is refused.
    FileLine = 3,
    /// A call of the shelf failed, or the file isn't there.
    NoFile = 5,
    /// A call of the sink failed.
    NoOutput = 6,
    /// There was no memory.
    NoMemory = 7,
}

impl Status {
    /// The number with which the program ends. O(1), no memory.
    pub(crate) fn code(self) -> u8
        ensures { result ≡ code_of self }
    {
        self as u8
    }
}
