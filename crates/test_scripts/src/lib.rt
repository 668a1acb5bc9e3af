//! Tests of what the lines of a script spell, and of a script in both printings.
#![tactic(auto)]

#[cfg(test)]
mod lines;
#[cfg(test)]
mod printings;
