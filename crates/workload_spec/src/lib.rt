//! Laws of the texts that are made from a seed: each line of a graph file spells a triple, and each line of a script a command.
//!
//! Both texts are within the limits. The graph file of each seed loads, to a graph with 1 to 60,000 allocated numbers;
//! the lines of the script are commands for graphs of 1 to 2^32 - 500 nodes. A state of a load takes any triple while
//! the limits allow it, and grows by at most three nodes, two edges and three labels (`triple_taken`).
#![tactic(auto)]
