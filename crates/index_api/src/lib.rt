//! Indexes of a graph, of any kind: which there are, through which one a query is answered, and the interface through which an
//! index is kept while its graph changes.
//!
//! What a call of an index leaves is a record over its `Meaning`: `IsBuilt`, `IsPrepared`, `IsCommitted`,
//! `IsRefreshed`. An error leaves the meaning as it was. A box of an index is an index.
#![tactic(auto)]

mod answers;
mod boxed;
mod kinds;
mod path_index;
#[cfg(test)]
mod tests;

pub use answers::{Answer, How};
pub use bisim_spec::Kind;
pub use kinds::Via;
pub use path_index::PathIndex;
