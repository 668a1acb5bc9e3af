//! Definitions of branching queries: their trees, the answers over a graph, their relaxed forms, how far they look,
//! and how they are written, with the laws about them. It has no code.
//!
//! Laws in `proofs/`: a list of tokens has at most one tree; the canonical text spells its tree; a mapping that keeps
//! labels and edges maps answers to answers of the relaxed query; graphs that follow each other's edges both ways
//! have the same answers; nodes that are bisimilar by parents and children to the depth of a query answer it alike
//! (`both_agree`), which has a token or more for each edge of that depth.
#![tactic(auto)]
