//! A graph as a change will leave it, and how the change is made in two calls, of which the second can't fail.
#![tactic(auto)]

mod neighbours;
mod pending;
mod staging;
#[cfg(test)]
mod tests;

pub use graph_steps::{Change, Step, Verdict, judge};
pub use neighbours::Neighbours;
pub use pending::After;
pub use staging::{Applied, Staged, commit, stage};
