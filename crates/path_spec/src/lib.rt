//! Definitions of path expressions: their trees, the words that match, the answers over a graph, what is left of one at its front,
//! the longest word, and how they are written, with the laws about them. It has no code.
//!
//! Laws in `proofs/`: `matches` decides `Matches`; at most one length is the longest (`one_longest`); an expression and its `trimmed`
//! form have the same answers; a list of tokens has at most one tree; the canonical text spells its tree.
#![tactic(auto)]
