//! What is printed of an index and of answers: the members of its blocks, its size, the nodes that answer a query, and a walk.
#![tactic(auto)]

mod answers;
mod extents;
mod gathered;
mod is_first_member;
mod member_chains;
mod output;
mod sizes;
mod walks;

pub use answers::answer_text;
pub use extents::extents_text;
pub use sizes::{sizes_head, sizes_line};
pub use walks::walk_text;
