//! The forward and backward index, kept while its graph changes, and the step of splitting blocks by a set of nodes.
#![tactic(auto)]

mod building;
mod index;

pub use block_splitting::split_by;
pub use index::FbIndex;
