//! Tests of the changes of `graph_update`, and of the nodes that `affected_nodes` finds.
#![tactic(auto)]

#[cfg(test)]
mod changes;
#[cfg(test)]
mod distances;
