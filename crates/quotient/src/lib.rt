//! The quotient of a graph by a partition of its nodes, as an index graph with supports.
//!
//! Supports are numbers of edges, whatever the partition: `Summary::of` asks nothing of the blocks. As a `Digraph` its
//! nodes are the blocks, and edges join pairs with support.
#![tactic(auto)]

mod block_edges;
mod block_neighbours;
mod counting;
mod edges;
mod editing;
mod graph_edges;
mod places;
mod summary;
mod supports;

pub use edges::EdgeList;
pub use summary::Summary;
