//! Branching queries as texts: read within limits, written, relaxed, measured in depth, and asked of any graph.
#![tactic(auto)]

mod answers;
mod branch;
mod front;
mod grammar;
mod marks;
mod parsing;
mod token;
mod writing;

pub use answers::eval;
pub use branch::Branch;
