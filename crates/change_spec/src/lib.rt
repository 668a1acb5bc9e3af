//! Definitions of changes that are lists of steps, with laws: what a list leaves, at which nodes it alters a graph, what it
//! costs, how the partition of the 1-index moves with it, and which neighbours a node will have. No code.
//!
//! Laws in `proofs/`:
//! - `StepGraphs`, `StepPlaces`, `Accepted`: accepted steps leave a graph; what they name is there; numbers that are gone
//!   stay so; higher limits accept them too.
//! - `Prefixes`, `SingleSteps`: the first steps of a list, and lists of one step.
//! - `StepDiffers`, `MoreTargets`: a change alters a graph at its targets alone; more targets reach no less.
//! - `LostEdges`, `RoundBounds`: how many edges go, and what a round over nodes that stay may read.
//! - `ShownNeighbours`, `ShownCounts`, `NamedNodes`: the neighbours that are shown are those of the graph after; how many
//!   come and go; what isn't named isn't concerned.
//! - `KeptEdges`: how many edges pass a test, once an edge comes or goes.
//! - `Examples`, `StepExamples`: worked values, and near misses.
#![tactic(auto)]
