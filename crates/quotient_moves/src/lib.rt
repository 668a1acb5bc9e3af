//! A node moves to another block of a draft, and takes the supports of its edges along.
#![tactic(auto)]

mod moving;
mod neighbours;
mod reading;
mod shifting;

pub use moving::move_node;
pub use neighbours::NodeNeighbours;
pub use reading::{read_children, read_parents};

#[cfg(test)]
mod tests;
