// What a query answers.
use px_base::Bits;

/// How an answer was found. The number is that of the candidates: the nodes in the blocks of the index that the query
/// reaches.
#[derive(Clone, Copy, Debug, PartialEq, Eq)]
pub enum How {
    /// In the graph itself.
    Data,
    /// Through an index that is exact for the query: they are the candidates.
    Exact(u32),
    /// In an index, whose candidates were then looked up in the graph.
    Checked(u32),
}

/// The answer of a query: the nodes, and how they were found.
///
/// How many candidates the index of level 1 gives, and how many of them are answers:
///
///     let answer = engine.path(alloc, Via::A(1), &expr, &mut steps)?;
///     if let How::Checked(candidates) = answer.how {
///         take(candidates, answer.nodes.count());
///     }
#[derive(Drop)]
pub struct Answer {
    /// The nodes, as a set of numbers below the count of the node numbers allocated.
    pub nodes: Bits,
    /// How they were found.
    pub how: How,
}
