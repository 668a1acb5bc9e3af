//! What every layer uses: texts, sets of small numbers, a cache of numbers, counts of steps, files and
//! streams as traits with one version of each in memory, and the lines of a file.
//!
//! A contract names bytes only of a shelf or sink that exposes them (an `Option`). A failed call raises the count of faults of its shelf or
//! sink, which stays at the last value of 64 bits; a call that works leaves it.
#![tactic(auto)]

mod allocation;
mod bits;
mod in_memory;
mod line_end;
mod lines;
mod planned_faults;
mod recent;
mod steps;
mod streams;
#[cfg(test)]
mod tests;
mod text;
mod window;

pub use allocation::Memory;
pub use bits::Bits;
pub use graph_spec::{Limits, Refusal};
pub use in_memory::{MemShelf, MemSink};
pub use lines::{GRAPH_BYTES, LINE_BYTES, LineFault, LineReader, SCRIPT_BYTES};
pub use recent::Recent;
pub use steps::Steps;
pub use streams::{Failed, Shelf, Sink, put_all};
pub use text::{Text, TextError};

/// The number of a node. Nodes are numbered from 0 on, in the order in which they came.
pub type NodeId = u32;
