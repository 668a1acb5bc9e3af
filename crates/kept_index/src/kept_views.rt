// The interface of what is kept.
ghost use Rattle.std.specs.Prelude.{◌≡◌, ◌≤◌, ℕ, List, [], Option, Some, None, OnOk, OnErr, IfOk, IsSome, false, option_map};
ghost use Rattle.graph_spec.specs.Graphs as graphs;
ghost use Rattle.bisim_spec.specs.declared.kind.Kind.TheVariants.{Fb};
ghost use Rattle.bisim_spec.specs.IndexGraphs.{View};
ghost use Rattle.bisim_spec.specs.Fits.{view_at};
ghost use Rattle.change_spec.specs.Steps.{Step};
ghost use Rattle.graph_steps.specs.NewChanges.{IsNew};
ghost use Rattle.quotient.specs.Quotients.{view_of};
ghost use Rattle.index_api.specs.Meanings.{Meaning, IsReady, IsBuilt, IsPrepared, IsCommitted, unstaged};
ghost use Rattle.index_api.specs.IndexKinds.{is_kind};

use graph_update::Change;
use index_api::Kind;
use label_graph::{Graph, GraphView};
use px_base::{Memory, Steps};
use quotient::Summary;
use std::alloc::Global;
use std::sync::ledger::Ledger;

/// What an index keeps: its views in force, and a draft of what a change to come will make of them, where one is
/// prepared. The calls are those of `PathIndex`, with its costs.
pub trait KeptViews: Drop {
    /// What an index means that keeps this, or nothing before its first build.
    ghost meaning_of: { Option Self → Meaning };

    /// Over these views of the graph, staging the change may take as many steps as lie between these two counts.
    ghost IsWithinCost: { List (Option View) → List Step → graphs.Graph → ℕ → ℕ → Type 0 };

    /// The two counts are the same, if staging the change over these views reads nothing of the graph.
    ghost IsFree: { List Step → List (Option View) → ℕ → ℕ → Type 0 };

    /// The kind of the index. O(1), no memory.
    fn kind() -> Kind
        ensures { result ≡ (meaning_of None).kind };

    /// Builds the views of the graph, with nothing staged.
    fn build(alloc: Global, view: &GraphView<'_>, k: u32) -> Result<Self, Memory>
        requires level { k ≤ 8 }
        ensures { IfOk result (λ kept. IsBuilt (meaning_of None) (meaning_of (Some kept)) view.now k) };

    /// Stages what a change will make of the views, and counts steps. Where memory runs out, it leaves the views as they were.
    fn prepare<L: Ledger>(
        &mut self,
        alloc: Global,
        graph: &Graph,
        change: &Change,
        steps: &mut Steps<L>,
    ) -> Result<(), Memory>
        requires ready { IsReady (meaning_of (Some self.old)) graph.now.graph }
        requires new { IsNew change.now graph.now.graph }
        ensures staged { OnOk result (IsPrepared (meaning_of (Some self.old)) (meaning_of (Some self.new)) change.now graph.now.graph) }
        ensures err { OnErr result (meaning_of (Some self.new) ≡ meaning_of (Some self.old)) }
        ensures cost { IsWithinCost (meaning_of (Some self.old)).views change.now graph.now.graph steps.old steps.new }
        ensures free { IsFree change.now (meaning_of (Some self.old)).views steps.old steps.new };

    /// Puts in force what is staged. It takes no memory.
    fn commit(&mut self, alloc: Global)
        requires staged { IsSome (meaning_of (Some self.old)).staged }
        ensures { IsCommitted (meaning_of (Some self.old)) (meaning_of (Some self.new)) };

    /// Drops what is staged, if anything is. It takes no memory.
    fn cancel(&mut self, alloc: Global)
        ensures { meaning_of (Some self.new) ≡ unstaged (meaning_of (Some self.old)) };

    /// The view of a level. None exactly where there is no such level. O(1), no memory.
    fn summary(&self, level: u32) -> Option<&Summary>
        ensures { option_map (λ s. view_of s.now) result ≡ view_at (meaning_of (Some self.now)).views level };

    /// The kind is the same before the first build as after it.
    ghost same_kind: { (kept : Self) → (meaning_of (Some kept)).kind ≡ (meaning_of None).kind };

    /// It is a kind whose views are always computed.
    ghost computed: { is_kind (meaning_of None).kind Fb ≡ false };

    /// Before the first build there is no view.
    ghost no_view: { (meaning_of None).views ≡ [] };

    /// And nothing is staged.
    ghost none_staged: { (meaning_of None).staged ≡ None };
}
