//! What a change of a graph makes of its 1-index, as a draft over the old one: blocks are split and merged.
//!
//! `split` needs a partition that is stable except at the targets, and makes it stable; each block lies within an old
//! one. `merge` needs a stable partition that is the base's outside the reach (`KeepsUnreached`), and merges until no
//! two blocks can be. Both keep labels and supports right, and keep nodes outside the change's reach together or apart.
#![tactic(auto)]

mod adding;
mod counting;
mod drafting;
mod effects;
mod leaving;
mod linking;
mod phases;
mod resettling;
#[cfg(test)]
mod tests;
mod unsteady;

pub use drafting::draft_change;
pub use phases::{merge, split};
