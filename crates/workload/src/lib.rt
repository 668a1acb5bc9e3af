//! Large inputs from a number: a graph file and a script that are the same for one seed wherever they are made.
#![tactic(auto)]

mod generator;
mod graph;
mod script;
#[cfg(test)]
mod tests;
mod triples;
mod writing;

pub use graph::made_graph;
pub use script::made_script;
