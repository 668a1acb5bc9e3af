// Lists of nodes and of edges. Those of a single change take no allocation.
use px_base::NodeId;
use smallvec::SmallVec;

/// A list of nodes, up to four without memory of their own.
pub(crate) type FewNodes = SmallVec<NodeId, 4>;

/// A list of edges, up to two without memory of their own.
pub(crate) type FewEdges = SmallVec<(NodeId, NodeId), 2>;
