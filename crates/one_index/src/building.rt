// The 1-index of a graph.
ghost use Rattle.std.specs.Prelude.{IfOk};
ghost use Rattle.graph_spec.specs.Shapes.{shape_of};
ghost use Rattle.bisim_spec.specs.Bisimilarity.{Bisim};
ghost use Rattle.bisim_spec.specs.Partitions.{Agrees};
ghost use Rattle.bisim_spec.specs.Fits.{FitsOne};
ghost use Rattle.quotient.specs.Quotients.{view_of};

use coarsest_partition::full_bisimulation;
use label_graph::GraphView;
use px_base::Memory;
use quotient::Summary;
use std::alloc::Global;

/// The 1-index of a graph, as a build makes it (T. Milo and D. Suciu, "Index Structures for Path Expressions",
/// ICDT 1999).
///
/// Its blocks answer each path expression exactly:
///
///     let index = OneIndex::build(alloc, &graph.view(&mut steps))?;
///     let blocks = eval(alloc, &index, graph.labels(), &expr)?;
pub struct OneIndex;

impl OneIndex {
    /// The index graph of the classes of full bisimilarity. It is the coarsest stable partition: each other
    /// one lies within its blocks. `Memory` comes only where memory runs out.
    ///
    /// Expected O(n + m log d) for n node numbers, m edges and at most d parents of a node where the graph has no
    /// cycle: one pass in which parents come first, and one over the edges. One cycle anywhere loses that pass, and all
    /// blocks are found by rounds over active nodes: in the first round all, in each later one those of which a parent
    /// moved in the round before, except those alone in their blocks. A round is expected O(w + p log d + c) for w
    /// active nodes, with p parents, and c children of those that move. There are at most as many rounds as blocks, so
    /// r rounds are O(r (n + m log d)) at most.
    ///
    /// It takes O(n + m) memory. On a graph of triples that `tools/make_triples.py` makes in the shape `deep`, the
    /// tables by which blocks are found take about 28 bytes for each node and edge; the index graph, which is made when
    /// they are gone, takes more.
    pub fn build(alloc: Global, view: &GraphView<'_>) -> Result<Summary, Memory>
        ensures fits { IfOk result (λ s. FitsOne view.now (view_of s)) }
        ensures whole { IfOk result (λ s. Agrees (shape_of view.now) s.blocks.block_of (Bisim (shape_of view.now))) }
    {
        // Called for its contract: what is seen is a graph.
        let _known = view.created();
        let blocks = full_bisimulation(alloc, view)?;
        let summary = Summary::of(alloc, blocks, view)?;
        Ok(summary)
    }
}
