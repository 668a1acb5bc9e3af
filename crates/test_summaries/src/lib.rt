//! Tests of the partitions of `block_partition`, of the graphs of blocks of `quotient`, and of what `extent_report`
//! prints of them.
#![tactic(auto)]

#[cfg(test)]
mod partitions;
#[cfg(test)]
mod reports;
#[cfg(test)]
mod summaries;
