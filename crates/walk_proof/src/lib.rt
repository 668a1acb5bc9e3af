//! The least walk that shows why a node answers a path expression.
#![tactic(auto)]

mod finding;
mod layering;
mod marks;
mod row;
mod sources;
mod tracing;
mod walk;

pub use finding::{find, find_in};
pub use walk::Walk;
