//! A partition of nodes into blocks, in tables that mirror each other, and filled from lists.
#![tactic(auto)]

mod blocks;
mod filling;
#[cfg(test)]
mod filling_tests;
mod freed;
mod live;
mod members;
mod slots;
mod splitting;

pub use blocks::Blocks;
pub use filling::fill;
pub use members::Members;
