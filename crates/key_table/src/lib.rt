//! Keys that are lists of numbers, each kept once and numbered in the order in which they came. All lie
//! one after another in one arena, so that a new key takes no allocation of its own.
#![tactic(auto)]

mod hashing;
mod keys;
mod sorted;
mod spans;
#[cfg(test)]
mod tests;

pub use keys::KeyTable;
pub use sorted::sort_dedup;
