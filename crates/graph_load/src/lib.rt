//! Graph files: the graph of the triples of an N-Triples text.
//!
//! A text loads to at most one outcome (`proofs/OneOutcome.antt`). The first refused line decides, whatever follows it.
//! `load_named` gives the numbers of terms and triples too, by which the graph represents the triples of the text
//! (`proofs/LoadedTexts.antt`).
#![tactic(auto)]

mod batch;
mod batch_loader;
mod files;
mod hashed;
mod limited_changes;
mod loader;
mod term_changes;
mod text_shelf;
mod texts;

pub use files::{LoadError, load, load_named};
pub use text_shelf::TextShelf;
pub use texts::load_text;
