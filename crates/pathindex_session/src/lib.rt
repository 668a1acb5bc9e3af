//! A session: an engine that is open, with what was last asked of it. Whoever calls the library from another language, or
//! wants one value to hold, calls this.
//!
//! No call but `open` requires anything, so each may come at any time; what it leaves is said over the session as it is seen
//! (`SessionOf`).
#![tactic(auto)]

mod asking;
mod editing;
mod errors;
mod opening;
mod session;

pub use errors::{OpenError, QueryError};
pub use opening::Indexes;
pub use session::Session;
