//! The 1-index: a stable partition of a graph's nodes, no two blocks of which can be merged.
#![tactic(auto)]

mod building;
mod members;
mod merging;
mod stability;
#[cfg(test)]
mod tests;

pub use building::OneIndex;
pub use merging::{is_minimal, mergeable};
pub use stability::is_stable;
