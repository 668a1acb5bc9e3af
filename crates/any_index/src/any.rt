// An index of any of the four kinds.
use ak_maintain::AkIndex;
use bisim_spec::Kind;
use fb_index::FbIndex;
use fbk_index::FbkIndex;
use graph_update::Change;
use index_api::PathIndex;
use label_graph::{Graph, GraphView};
use one_maintain::OneKept;
use px_base::Memory;
use quotient::Summary;

/// An index of any of the four kinds: an engine over these needs no boxes. What each call costs, and the memory that
/// it takes, are those of the index that it holds.
///
/// The 1-index of a graph, as one of them:
///
///     let mut index = AnyIndex::One(OneKept::new(alloc)?);
///     index.build(&graph.view(&mut steps), 0)?;
pub enum AnyIndex {
    /// The A(k)-indexes.
    A(AkIndex),
    /// The 1-index.
    One(OneKept),
    /// The forward and backward index.
    Fb(FbIndex),
    /// The bounded forward and backward indexes.
    B(FbkIndex),
}

// Written out, so that the proof of an owner sees one call and not the drop of each table.
impl Drop for AnyIndex {
    fn drop(self) {
        match self {
            AnyIndex::A(_index) => {}
            AnyIndex::One(_index) => {}
            AnyIndex::Fb(_index) => {}
            AnyIndex::B(_index) => {}
        }
    }
}

impl PathIndex for AnyIndex {
    ghost use Rattle.any_index.specs.AnyMeanings.{meaning_of as the_meaning_of};

    ghost meaning = { the_meaning_of };

    fn kind(&self) -> Kind {
        match self {
            AnyIndex::A(index) => index.kind(),
            AnyIndex::One(index) => index.kind(),
            AnyIndex::Fb(index) => index.kind(),
            AnyIndex::B(index) => index.kind(),
        }
    }

    fn build(&mut self, view: &GraphView<'_>, k: u32) -> Result<(), Memory> {
        match self {
            AnyIndex::A(index) => index.build(view, k),
            AnyIndex::One(index) => index.build(view, k),
            AnyIndex::Fb(index) => index.build(view, k),
            AnyIndex::B(index) => index.build(view, k),
        }
    }

    fn prepare(&mut self, graph: &Graph, change: &Change) -> Result<(), Memory> {
        match self {
            AnyIndex::A(index) => index.prepare(graph, change),
            AnyIndex::One(index) => index.prepare(graph, change),
            AnyIndex::Fb(index) => index.prepare(graph, change),
            AnyIndex::B(index) => index.prepare(graph, change),
        }
    }

    fn commit(&mut self) {
        match self {
            AnyIndex::A(index) => index.commit(),
            AnyIndex::One(index) => index.commit(),
            AnyIndex::Fb(index) => index.commit(),
            AnyIndex::B(index) => index.commit(),
        }
    }

    fn cancel(&mut self) {
        match self {
            AnyIndex::A(index) => index.cancel(),
            AnyIndex::One(index) => index.cancel(),
            AnyIndex::Fb(index) => index.cancel(),
            AnyIndex::B(index) => index.cancel(),
        }
    }

    fn refresh(&mut self, view: &GraphView<'_>) -> Result<(), Memory> {
        match self {
            AnyIndex::A(index) => index.refresh(view),
            AnyIndex::One(index) => index.refresh(view),
            AnyIndex::Fb(index) => index.refresh(view),
            AnyIndex::B(index) => index.refresh(view),
        }
    }

    fn summary(&self, level: u32) -> Option<&Summary> {
        match self {
            AnyIndex::A(index) => index.summary(level),
            AnyIndex::One(index) => index.summary(level),
            AnyIndex::Fb(index) => index.summary(level),
            AnyIndex::B(index) => index.summary(level),
        }
    }
}
