//! Merging blocks of a drafted 1-index: whether two can be merged, by labels and supports alone, their merge, and
//! merging until no two can be.
#![tactic(auto)]

mod finding;
mod kept_blocks;
mod members;
mod merge_candidates;
mod mergeable_pair;
mod merging;
mod one_block;
mod parentless;
mod supports;

pub use merging::merge;
pub use parentless::ParentlessBlocks;
