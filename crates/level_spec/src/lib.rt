//! Definitions of how the levels of bisimilarity are kept while a graph changes, by the keys of the affected nodes,
//! with the laws about them.
//!
//! Laws in `proofs/`, whichever sides count: a node that a change doesn't affect at level i + 1 keeps its key there if
//! nodes that it doesn't affect at level i keep their blocks there, so that each node is in the block of its key once the
//! affected ones are (`keyed_after`). If then no two blocks share a key, the level is that of bisimilarity
//! (`keyed_level`). Keys of nodes are as the supports say (`keyed_by_supports`), and back (`node_key`).
#![tactic(auto)]
