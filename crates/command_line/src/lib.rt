//! The words of the command line, read by `clap` as one simple command: a script, options with one text, and flags.
#![tactic(auto)]

mod arguments;
mod form;
mod rules;
#[cfg(test)]
mod tests;

pub use form::{Form, Settings, read_words};
