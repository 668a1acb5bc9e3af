//! The definitions that every layer cites: texts and their lines, names, the graph and its changes,
//! shapes and walks; and the two plain types that they speak of.
//!
//! Laws in `proofs/`: the empty graph is a graph (`IsGraph`), a node or an edge more or less leaves one, and its live nodes are a shape.
#![tactic(auto)]

mod limits;
mod refusal;

pub use limits::Limits;
pub use refusal::Refusal;
