//! Tests of whole loads of files in memory.
#![tactic(auto)]

#[cfg(test)]
mod loads;
#[cfg(test)]
mod names;
