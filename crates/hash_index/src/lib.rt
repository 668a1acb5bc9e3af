//! Items by the hashes of their keys. The items are numbered in the order in which they came; a walk goes over those
//! with one hash, the newest first. The index sees no key: the caller compares them.
#![tactic(auto)]

mod chains;
mod index;
mod slots;
#[cfg(test)]
mod tests;

pub use index::HashIndex;
#[doc(hidden)]
pub use slots::Slot;
