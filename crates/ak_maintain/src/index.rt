// The index.
use bisim_spec::Sides;
use kept_index::KeptIndex;
use kept_levels::{CountedSides, KeptLevels};

/// Parents alone count.
pub struct ByParents;

impl CountedSides for ByParents {
    ghost use Rattle.bisim_spec.specs.declared.sides.Sides.TheVariants.{Parents};

    ghost counted = { Parents };

    fn sides() -> Sides {
        Sides::Parents
    }
}

/// The A(0)- to A(k)-indexes of a graph, kept while it changes. A change is drafted over the family in force: at each level the
/// affected nodes move to the blocks of their keys. How much of the graph is read depends on what is within reach of the
/// change, and not on the size of the graph.
///
/// `prepare_counted` counts at most `8 * (k + 1) * w` steps, where levels up to `k` are kept, and `w` is one for each step
/// of the change, and one for each node within `k` edges of the change's targets in the graph after it and for each of its
/// parents and children; for a node that goes it is that in the graph before. Expected O((k + 1) (1 + w log w)), where no
/// table moves and no keys are dropped, as `AkFamily::reserve` says; it takes the memory of the affected nodes, of what is
/// drafted, and of the capacity for it.
///
/// An index of its own, without an engine:
///
///     let mut index = AkIndex::new(alloc)?;
///     index.build(&graph.view(&mut steps), 2)?;
///     index.prepare(&graph, &change)?;
///     index.commit();
pub type AkIndex = KeptIndex<KeptLevels<ByParents>>;
