// The interface of an index that is kept while its graph changes.
ghost use Rattle.std.specs.Prelude.{◌≡◌, ◌≤◌, List, OnOk, OnErr, IsSome, option_map};
ghost use Rattle.graph_steps.specs.NewChanges.{IsNew};
ghost use Rattle.quotient.specs.Quotients.{view_of};
ghost use Rattle.bisim_spec.specs.Fits.{view_at};
ghost use Rattle.index_api.specs.Meanings.{Meaning, IsReady, IsBuilt, IsPrepared, IsCommitted, IsRefreshed, unstaged};

use bisim_spec::Kind;
use graph_update::Change;
use label_graph::{Graph, GraphView};
use px_base::Memory;
use quotient::Summary;

/// An index over a graph, kept while the graph changes. A change is prepared while the graph is still as it was, which takes
/// all the memory that the index needs; then it is committed with the graph, which can't fail, or it is cancelled.
///
/// The views of an index are index graphs, one for each of its levels from 0 on. That of the forward and backward index
/// may be not computed; each other one is there once the index is built. `build`, `prepare` and `refresh` answer
/// `Memory` only where memory runs out, and then leave all as it was. The other calls take no memory, and no call
/// changes the kind.
pub trait PathIndex: Drop {
    /// The kind, the views, and the views that are staged.
    ghost meaning: { Self → Meaning };

    /// The kind of the index. O(1), no memory.
    fn kind(&self) -> Kind
        ensures { result ≡ (meaning self.now).kind };

    /// Builds the index of the graph, instead of the views that there are, with nothing staged. A family has a view for
    /// each level up to `k`, each other index has one. That of the 1-index is full bisimilarity. The cost and the memory
    /// are the index's: `AkFamily::build` says those of `AkIndex` and `FbkIndex`, `OneIndex::build` those of `OneKept`, and
    /// `FbIndex` its own.
    fn build(&mut self, view: &GraphView<'_>, k: u32) -> Result<(), Memory>
        requires level { k ≤ 8 }
        ensures built { OnOk result (IsBuilt (meaning self.old) (meaning self.new) view.now k) }
        ensures err { OnErr result (meaning self.new ≡ meaning self.old) };

    /// Stages what a change will make of the index. The graph is as it was, and `judge` accepts the change as new
    /// within some limits. The partition of the 1-index moves by one step (Yi, He, Stanoi and Yang 2004): nodes that
    /// the change doesn't reach stay together or apart. The cost and the memory are the index's, and grow with what the
    /// change affects: `AkIndex`, `FbkIndex` and `OneKept` say theirs, and `FbIndex` takes O(1), no memory.
    fn prepare(&mut self, graph: &Graph, change: &Change) -> Result<(), Memory>
        requires ready { IsReady (meaning self.old) graph.now.graph }
        requires new { IsNew change.now graph.now.graph }
        ensures staged { OnOk result (IsPrepared (meaning self.old) (meaning self.new) change.now graph.now.graph) }
        ensures err { OnErr result (meaning self.new ≡ meaning self.old) };

    /// Puts what is staged in force. Expected O(d) for d drafted entries and numbers in their keys, and for `FbIndex`
    /// the time to drop its view; no memory.
    fn commit(&mut self)
        requires staged { IsSome (meaning self.old).staged }
        ensures { IsCommitted (meaning self.old) (meaning self.new) };

    /// Drops what is staged, if anything is. O(d) for d drafted entries and numbers in their keys, no memory.
    fn cancel(&mut self)
        ensures { meaning self.new ≡ unstaged (meaning self.old) };

    /// Computes each view of the graph that isn't computed. O(1), no memory, where each is computed; else the cost
    /// and the memory are those of `build`.
    fn refresh(&mut self, view: &GraphView<'_>) -> Result<(), Memory>
        requires ready { IsReady (meaning self.old) view.now }
        ensures refreshed { OnOk result (IsRefreshed (meaning self.old) (meaning self.new) view.now) }
        ensures err { OnErr result (meaning self.new ≡ meaning self.old) };

    /// The view of a level. None exactly where the index has no such level, or its view isn't computed.
    /// O(1), no memory.
    fn summary(&self, level: u32) -> Option<&Summary>
        ensures { option_map (λ s. view_of s.now) result ≡ view_at (meaning self.now).views level };
}
