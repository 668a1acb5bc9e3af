//! An index of any of the four kinds, as one type, and an engine that keeps one of each kind.
#![tactic(auto)]

mod any;
mod engine;

pub use any::AnyIndex;
pub use engine::full_engine;
