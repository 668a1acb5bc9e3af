//! Definitions of how an index is kept while its graph changes, by splitting and merging blocks, with the laws about them.
//!
//! Laws in `proofs/`, for any set of targets: a round leaves a partition stable except at the children of what it moved
//! (`SplitRounds`); after a split, of each two blocks that can be merged one is new or holds a target (`OneSteps`);
//! merging keeps a partition stable and joins no two nodes outside the reach (`MergedPairs`); without merge candidates
//! no two blocks can be merged (`MergeCandidates`); a change, a split and merges to the end are one step of the 1-index
//! (`SplitThenMerge`).
#![tactic(auto)]
