//! Blocks of a partition that are split: by the blocks of their members' neighbours, and by a set of nodes.
#![tactic(auto)]

mod choosing;
mod grouping;
mod keys;
mod moving;
mod nodes;
mod parting;
mod reaching;
mod retained_groups;
mod splitter;
mod splitting;

pub use nodes::NodeSet;
pub use reaching::opposite_neighbours;
pub use splitter::split_by;
pub use splitting::{Tables, split};
