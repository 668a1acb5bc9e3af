//! An index over what it keeps: its views in force, and a draft of what a change to come will make of them.
//!
//! `KeptViews` is the interface of what is kept, `KeptIndex` the index. A further index kept by drafts is an `impl
//! KeptViews` and an alias of `KeptIndex`.
#![tactic(auto)]

mod index;
mod kept_views;

pub use index::KeptIndex;
pub use kept_views::KeptViews;
