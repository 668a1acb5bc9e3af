//! What a change makes of a graph in the end: the nodes and edges that come and go, the nodes that get another label, and
//! the nodes at which it alters the graph; with laws of partitions and supports that follow it.
#![tactic(auto)]

mod edges;
mod effects;
mod lists;
mod nodes;
mod places;
mod relabelling;
mod stepping;

pub use effects::Effects;
