//! Terms of RDF 1.1, each once, with a number beside it: in a graph of triples, the number of the term's node. They have
//! places in the order in which they came, and are found by hash. Their texts lie one behind the other in one arena, so
//! that a look-up touches little memory and a new term takes no allocation of its own.
#![tactic(auto)]

mod entries;
mod hashed;
mod parts;
mod storing;
mod table;
#[cfg(test)]
mod tests;

pub use hashed::HashedTerm;
pub use table::{Found, Hint, TermTable};
