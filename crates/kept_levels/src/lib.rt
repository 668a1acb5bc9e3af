//! A family of levels of bisimilarity, kept while its graph changes: the family in force, and a draft of what a change to
//! come will make of it.
//!
//! `KeptLevels` serves both families. Which it is, its parameter says: a type for the sides that count.
#![tactic(auto)]

mod levels;

pub use levels::{CountedSides, KeptLevels};
