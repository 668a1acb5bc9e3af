//! The calls of a session as numbers and bytes, for callers in other languages, which know no type of this library.
//!
//! A number that names nothing is answered by a code, so no call requires anything. What a call does is said over what is held
//! before and after it (`IsCalled`), by the clauses of the session.
#![tactic(auto)]

mod calls;
mod changes;
mod copying;
mod held;
mod questions;
mod replies;
mod requests;

pub use held::Held;
pub use replies::Reply;
