//! Partition refinement by rounds over active nodes (J. Hopcroft, 1971): full bisimilarity by parents and children, and its
//! levels, of any `Digraph`. The crates that make the indexes have no part in it.
#![tactic(auto)]

mod active;
mod changes;
mod keys;
mod levels;
mod listing;
mod moves;
mod neighbour_lists;
mod part_sizes;
mod refining;
mod watches;

pub use active::part_active;
pub use keys::{block_of, find_key, write_key};
pub use levels::{label_list, next_both, span_of};
pub use refining::refine;
