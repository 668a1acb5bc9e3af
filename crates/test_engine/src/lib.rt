//! Tests of the engine over any type of index, also over boxes one of which finds no memory, and of the 1-index by itself.
#![tactic(auto)]

#[cfg(test)]
mod calls;
#[cfg(test)]
mod check_tests;
#[cfg(test)]
mod failing_index;
#[cfg(test)]
mod failing_tests;
#[cfg(test)]
mod full_tests;
#[cfg(test)]
mod kept_ring_tests;
#[cfg(test)]
mod limit_tests;
#[cfg(test)]
mod made_tests;
#[cfg(test)]
mod no_memory_tests;
#[cfg(test)]
mod one_tests;
#[cfg(test)]
mod ring_tests;
#[cfg(test)]
mod script_file;
