//! Index files: a graph and partitions of its nodes, written and read as text.
#![tactic(auto)]

mod draft;
mod due;
mod graph_lines;
mod graph_text;
mod names;
mod numbers;
mod order;
mod output;
mod read_labels;
mod read_nodes;
mod read_views;
mod reading;
mod saved;
mod view_lines;
mod words;

pub use graph_lines::GraphLines;
pub use graph_text::head;
pub use reading::{SavedError, read};
pub use saved::Saved;
pub use view_lines::{via_text, view_text};
