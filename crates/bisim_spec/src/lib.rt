//! Definitions of bisimilar nodes and of partitions: bisimilarity by levels, stable and minimal partitions,
//! support counts, index graphs and what fits a graph, with the laws about them; the kinds of indexes, and the sides of a node.
//!
//! Laws in `proofs/`, for shapes whose nodes are below the size and whose edges join nodes:
//! - `Settled`: each level is an equivalence within the one below, and from the number of nodes on all levels are one.
//! - `Keys`: if a partition agrees with a level, nodes are bisimilar one level up exactly if their own blocks and their parents' blocks are
//!   the same.
//! - `RisingLists`, `WrittenKeys`: two rising lists with the same numbers are one; nodes with one key stay together when a partition is refined.
//! - `Stable`: a stable partition lies within each level; full bisimilarity is stable, and no two of its blocks can be merged.
//! - `MergeableBlocks`: two blocks of a stable partition can be merged exactly if they have one label and, counted as one, the same parent
//!   blocks.
//! - `Ranks`: in an acyclic graph a stable partition with no such pair is full bisimilarity; `ring_by_ring_minimal` in `Examples` shows
//!   that a cycle breaks this.
//! - `Differs`, `Changed`, `Outside`: where a node or an edge comes or goes a graph differs at one node; a stable partition is then stable
//!   except at the targets; no pair of blocks becomes mergeable outside the change's reach.
//! - `Affected`: nodes that a change doesn't affect at a level are bisimilar to it exactly where they were, whichever
//!   sides count.
//! - `Moves`, `Supported`: what a moved node and an edge added or removed do to supports; a pair has support exactly if an edge joins the
//!   two blocks.
//! - `FitLaws`: which views fit the 1-index.
#![tactic(auto)]

mod kind;
mod sides;

pub use kind::Kind;
pub use sides::{Side, Sides};
