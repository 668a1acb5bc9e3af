//! What a change of a graph makes of indexes by levels, as a draft: the affected nodes move between the blocks of each
//! level.
#![tactic(auto)]

mod adding;
mod buffers;
mod counting;
mod drafting;
mod effects;
mod keys;
mod leaving;
mod level;
mod moving;
mod nearer;
mod placing;
mod relabelling;

pub use drafting::draft_change;
