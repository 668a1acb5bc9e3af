//! Changes of a graph as lists of steps, whether one is accepted, and how the graph is read as the first steps leave it.
#![tactic(auto)]

mod changes;
mod counting;
mod degrees;
mod judging;
mod labels;
mod links;
mod prefix;
mod reads;
#[cfg(test)]
mod tests;

pub use changes::{Change, Step, Verdict};
pub use degrees::{edges_at, is_dropped};
pub use judging::judge;
pub use labels::{has_label, label_after};
pub use prefix::Prefix;
pub use reads::{edge_after, edge_before, has_edge, is_seen};
