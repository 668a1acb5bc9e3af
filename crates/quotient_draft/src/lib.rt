//! What is drafted over the quotient of a graph: further blocks, moves of nodes, and supports.
//!
//! A draft holds no base: each call takes it. It may be used over a base while that one's blocks stay (`IsOver`). What
//! it shows is the base with its entries written into it; `reserve` reserves capacity, and `settle` makes the base what
//! was shown, without blocks that have no members, without memory and without failing.
#![tactic(auto)]

mod added;
mod base_neighbours;
mod changed;
mod counts;
mod draft;
mod each_member;
mod emptying;
mod ends;
mod members;
mod moves;
mod next;
mod put_log;
mod retiring;
mod settling;
mod touching;
mod writing;

pub use base_neighbours::{base_children, base_parents};
pub use draft::Draft;
pub use each_member::DraftMembers;
