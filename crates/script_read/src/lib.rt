//! The lines of a script: which command each of them is.
#![tactic(auto)]

mod commands;
mod indexes;
mod nodes;
mod scan;
mod words;

pub use commands::{Command, ScriptError, read};
