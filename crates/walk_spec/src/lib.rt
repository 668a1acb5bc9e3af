//! Definitions of walks that show why a node answers a path expression, of the least of them, and of what an automaton
//! reads along the nodes of a graph, with the laws about them. It has no code.
//!
//! Laws in `proofs/`: `shows` decides `Shows` (`shows_is`); the nodes that walks show are the answers (`shown_answers`,
//! `answer_shown`); at most one walk is the least (`least_once`); the automaton of an expression reads, from before all
//! nodes on, just the walks whose words match (`shows_way`, `way_shows`).
#![tactic(auto)]
