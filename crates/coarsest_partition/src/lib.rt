//! The coarsest stable partition of a graph's nodes, under parents alone and under both parents and children, by
//! rounds over the nodes whose neighbours moved.
#![tactic(auto)]

mod activating;
mod both;
mod labels;
mod numbering;
mod ordered;
mod rounds;
#[cfg(test)]
mod tests;

pub use both::full_bisimulation_both_ways;
pub use rounds::full_bisimulation;
