//! Tests of sessions.
#![tactic(auto)]

#[cfg(test)]
mod calls;
#[cfg(test)]
mod sessions;
