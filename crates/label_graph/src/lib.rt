//! A directed graph with one label on each node, and the interface over which queries read any graph.
#![tactic(auto)]

mod digraph;
mod gone;
mod graph;
mod labels;
mod node;
mod numbers;
mod pairs;
#[cfg(test)]
mod tests;
mod view;

pub use digraph::Digraph;
pub use graph::Graph;
pub use labels::Labels;
pub use view::GraphView;
