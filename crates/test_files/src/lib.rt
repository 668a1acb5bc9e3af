//! Tests of index files in memory: what is read of them, and which of their views fit.
#![tactic(auto)]

#[cfg(test)]
mod files;
