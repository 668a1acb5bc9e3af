//! The index file of an engine's graph and of the indexes that the engine keeps: the whole text, or its parts one after another.
//!
//! `file_text` gathers the text. To write it part by part, `count_kept` says how many views follow, `index_file::GraphLines` gives the
//! lines of the graph, and `view_lines` each view in turn.
#![tactic(auto)]

mod saving;

pub use saving::{count_kept, file_text, view_lines};
