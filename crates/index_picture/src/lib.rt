//! Pictures of an index of a graph, as texts for Graphviz: a box for each block, an arrow for each pair of adjacent blocks.
#![tactic(auto)]

mod blocks;
mod covered;
mod lines;
mod lone;
mod members;
mod names;
mod output;
mod pairs;
mod picture;
mod shortening;
mod term_names;
#[cfg(test)]
mod tests;

pub use lone::lone_blocks;
pub use names::NodeNames;
pub use picture::dot_text;
pub use term_names::{NamesError, name_terms};
