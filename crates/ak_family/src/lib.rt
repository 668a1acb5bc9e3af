//! Families of levels of bisimilarity of a graph: the A(0)- to A(k)-indexes, and the bounded forward and backward
//! indexes.
//!
//! At level 0 a key is a label's number; above it a block's key is the block one level below of each member, and then
//! numbers for those of its neighbours on the sides that count (`AreNeighbourKeys`).
#![tactic(auto)]

mod drafting;
mod family;
mod keyed;
mod labelled_levels;
mod labels;
mod settling;

pub use drafting::{AkDraft, LevelBlock};
pub use family::AkFamily;
