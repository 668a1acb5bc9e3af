//! Whether a list of nodes shows why a node answers a path expression: one reading of the list, which searches no graph.
#![tactic(auto)]

mod checking;

pub use checking::holds;
