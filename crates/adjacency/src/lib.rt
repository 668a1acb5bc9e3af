//! The neighbours of the nodes of a graph that doesn't change, in two arrays (compressed sparse rows).
#![tactic(auto)]

mod adjacency;
mod filling;

pub use adjacency::Adjacency;
