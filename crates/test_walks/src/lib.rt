//! Tests of walks that show why nodes answer.
#![tactic(auto)]

#[cfg(test)]
mod checked;
#[cfg(test)]
mod found;
#[cfg(test)]
mod nested;
