//! Tests of the levels of bisimilarity in `bisim_levels`, of the families of `ak_family`, and of the indexes of
//! `ak_maintain` and `fbk_index`.
#![tactic(auto)]

#[cfg(test)]
mod families;
#[cfg(test)]
mod kept;
#[cfg(test)]
mod levels;
