//! Branching queries as trees: the sets of nodes that they lead through, their answers over any graph, their relaxed
//! forms, and how far they look.
#![tactic(auto)]

mod answers;
mod axis;
mod depths;
mod holding;
mod leading;
mod meeting;
mod mirror;
mod relaxing;
mod runs;
mod sets;
mod tree;

pub use answers::eval;
pub use axis::Axis;
pub use depths::depth;
pub use relaxing::relax;
pub use tree::{And, BranchTree, Cond, Hop, Or, Rel, Step, Test};
