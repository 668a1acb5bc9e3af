//! Automata that read labels along the edges of a graph, and the nodes at which they end. It knows no language of
//! queries.
#![tactic(auto)]

mod follow;
mod frontier;
mod program;
mod row;
mod scope;
mod searching;
mod shared;
mod state;
mod worklist;

pub use follow::has_label;
pub use program::Program;
pub use searching::{search, search_within};
pub use state::State;
