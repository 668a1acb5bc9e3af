// The index.
use crate::summary::KeptSummary;
use kept_index::KeptIndex;

/// The 1-index of a graph, kept while it changes (K. Yi, H. He, I. Stanoi and J. Yang, "Incremental Maintenance of XML
/// Structural Indexes", SIGMOD 2004). A change is drafted over the index in force: blocks are split from the change's
/// targets on, and then merged. How much of the graph is read depends on what the change reaches, and not on the size of
/// the graph. The blocks of the index are searched for those without other parents once as many of these have come
/// since the last search as there were then, and 64 more.
///
/// `prepare_counted` counts at most `8 * (r + 1) * w` steps, where the change reaches `r` nodes, and `w` is one for each
/// step of the change, and one for each of these nodes and for each of its parents and children; for a node that goes it
/// is that in the graph before. A change of one link takes none where the blocks of its ends have support already, and
/// then expected O(1) time and memory. Else the time and the memory are those of
/// `one_update::draft_change`. A new search for the parentless blocks passes over all blocks: O(b) more, for
/// b blocks.
///
/// The change is staged before the graph changes:
///
///     let mut index = OneKept::new(alloc)?;
///     index.build(&graph.view(&mut steps), 0)?;
///     index.prepare(&graph, &change)?;
///     index.commit();
pub type OneKept = KeptIndex<KeptSummary>;
