//! Tests of the texts that are read and written: triples, path expressions and branching queries.
#![tactic(auto)]

#[cfg(test)]
mod branches;
#[cfg(test)]
mod paths;
#[cfg(test)]
mod triples;
