//! The states in which an automaton can be while it reads labels, as sets.
#![tactic(auto)]

mod reading;
mod states;

pub use reading::{begin, has_end, read};
pub use states::States;
