// The kinds of indexes.

/// A kind of index.
#[derive(Clone, Copy, Debug, PartialEq, Eq)]
pub enum Kind {
    /// The family of A(i)-indexes: two nodes are in one block where they are bisimilar, by their parents, up to
    /// depth i (Kaushik et al., ICDE 2002).
    A,
    /// The 1-index: the partition is stable under parents, and no two of its blocks can be merged (Milo and
    /// Suciu, ICDT 1999).
    One,
    /// The forward and backward index: the coarsest partition that is stable under parents and children (Kaushik
    /// et al., SIGMOD 2002).
    Fb,
    /// The family of bounded forward and backward indexes: two nodes are in one block where they are bisimilar, by
    /// their parents and children, up to depth i (Kaushik et al., SIGMOD 2002).
    B,
}
