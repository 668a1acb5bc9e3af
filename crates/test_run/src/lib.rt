//! Tests of whole runs: in memory over an engine with the A(k)-indexes, and once with real files and the real output.
#![tactic(auto)]

#[cfg(test)]
mod checks;
#[cfg(test)]
mod runs;
