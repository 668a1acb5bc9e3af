//! Path expressions as trees: the automata that read their words, their answers over any graph, and their longest
//! words.
//!
//! A law in `proofs/`: the recursion `longest` gives the longest matching word (`longest_is`).
#![tactic(auto)]

mod answers;
mod compile;
mod lengths;
mod nullable;
mod tree;
mod tree_parts;
mod trimming;

pub use answers::{eval, eval_within};
pub use compile::compile_expr;
pub use lengths::longest;
pub use tree::{Atom, Expr, Following, Item, Sep, Seq, Sign};
