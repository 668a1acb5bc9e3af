//! Splitting the blocks of a 1-index after a change, in a draft, until the partition shown is stable.
#![tactic(auto)]

mod keys;
mod member_counts;
mod next_nodes;
mod rounds;
mod shared_blocks;
mod target_blocks;
mod targets;

pub use targets::split;
