//! Candidates checked against the graph.
#![tactic(auto)]

mod ancestors;
mod checks;

pub use checks::check;
