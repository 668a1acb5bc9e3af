//! Queries of every language: what they answer over any graph, and their relaxed forms. `Branch` and its `eval` are passed on.
#![tactic(auto)]

mod queries;

pub use branch_text::{Branch, eval};
pub use queries::Query;
