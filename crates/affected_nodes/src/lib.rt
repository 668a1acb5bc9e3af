//! The nodes that a change affects, by their distance from its targets, in the graph that it will leave.
#![tactic(auto)]

mod reaching;
mod reading;
mod searching;

pub use reaching::reached_nodes;
pub use searching::{AffectedNodes, affected_nodes};
