//! The bounded forward and backward indexes B(0) to B(k), kept while their graph changes.
#![tactic(auto)]

mod index;

pub use index::{ByBoth, FbkIndex};
