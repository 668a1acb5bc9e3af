//! Triples that are inserted into a graph and deleted from it: the numbers of terms and of triples, the changes, and that the
//! graph represents just the triples that are present.
//!
//! Laws in `proofs/`:
//! - `InsertKept`, `DeleteKept`: an accepted insert of a triple leaves a graph that represents the triples with it; an accepted
//!   delete, without it.
//! - `SameNames`: names with the same numbers give the same changes, and graphs that represent the same triples.
//! - `HistoryLaws`: so do lists of inserts and deletes; two graphs that represent the same triples are isomorphic.
//! - `ItemLaws`, `NumberLaws`, `ImageSteps`: what has a node; what a list has once a key has got a number; a node more, an edge
//!   more, a node less.
//! - `PlaceLaws`, `KeyLaws`, `NeighbourLaws`: where the first element that passes a test stands; which keys are those of a
//!   triple; whether a node has no neighbour but one.
//! - `TableLaws`, `StagedLaws`, `NotedLaws`: the numbers that the tables give, once a triple is staged, and once it is noted.
//! - `Examples`: worked values, and near misses.
#![tactic(auto)]

mod deleting;
mod inserting;
mod name_tables;
mod noting;
mod predicates;
mod triple_table;

pub use deleting::{DeleteError, delete_change};
pub use inserting::{Placed, insert_change};
pub use name_tables::Names;
pub use predicates::Predicates;
pub use triple_table::{Key, TripleTable};
