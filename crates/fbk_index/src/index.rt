// The index.
use bisim_spec::Sides;
use kept_index::KeptIndex;
use kept_levels::{CountedSides, KeptLevels};

/// Parents and children count.
pub struct ByBoth;

impl CountedSides for ByBoth {
    ghost use Rattle.bisim_spec.specs.declared.sides.Sides.TheVariants.{Both};

    ghost counted = { Both };

    fn sides() -> Sides {
        Sides::Both
    }
}

/// The bounded forward and backward indexes of levels 0 to k of a graph (Kaushik et al., SIGMOD 2002), kept while it
/// changes. At level i two nodes are in one block where they are bisimilar, by their parents and children, up to depth i. A
/// change is drafted over the family in force: at each level the affected nodes move to the blocks of their keys.
///
/// `prepare_counted` counts at most `16 * (k + 1) * w` steps, where levels up to `k` are kept, and `w` is one for each step
/// of the change, and one for each node that at most `k` edges, each taken in either direction, join to an end of the
/// change in the graph after it, and for each of its parents and children; for a node that goes it is that in the graph
/// before. The ends are the nodes that come, those that get another label, and both nodes of each edge that comes or goes.
/// Time and memory are those of `AkIndex`, where the neighbours of such nodes lie on both sides.
///
/// An index of its own, without an engine:
///
///     let mut index = FbkIndex::new(alloc)?;
///     index.build(&graph.view(&mut steps), 1)?;
///     index.prepare(&graph, &change)?;
///     index.commit();
pub type FbkIndex = KeptIndex<KeptLevels<ByBoth>>;
