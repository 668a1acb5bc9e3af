//! The 1-index, kept while its graph changes, and the two phases of a change.
#![tactic(auto)]

mod index;
mod summary;

pub use index::OneKept;
pub use one_update::{merge, split};
pub use summary::KeptSummary;
