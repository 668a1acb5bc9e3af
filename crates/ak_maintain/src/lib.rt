//! The A(0)- to A(k)-indexes, kept while their graph changes.
#![tactic(auto)]

mod index;

pub use index::{AkIndex, ByParents};
