//! Queries through an index: whether its answer is exact, and the candidates that its index graph gives, or their number.
#![tactic(auto)]

mod exactness;
mod summary_answers;

pub use exactness::is_exact;
pub use summary_answers::{candidate_count, candidates};
