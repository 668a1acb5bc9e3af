//! Whether the views of an index file are what they claim: each is checked against the graph in the file. The code that makes
//! the indexes has no part in it.
#![tactic(auto)]

mod both;
mod closed;
mod comparing;
mod fitting;
mod levels;
mod minimal;
mod outer;
mod stability;

pub use fitting::fits;
