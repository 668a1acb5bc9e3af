//! Partitions of a graph's nodes by levels of bisimilarity, each made from the one below.
#![tactic(auto)]

mod keys;
mod levels;
mod neighbour_lists;
mod recent_keys;
mod refining;

pub use keys::{block_of, single_block, write_key, write_sided_key};
pub use levels::label_level;
pub use neighbour_lists::neighbours;
pub use recent_keys::RecentKeys;
pub use refining::{Level, next_level};
