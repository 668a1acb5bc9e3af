// The quotient in force, with what a change to come will make of it.
ghost use Rattle.std.specs.Prelude.{◌≡◌, ◌+◌, ◌≤◌, ◌∷◌, [], ℕ, false, IfOk, OnOk};
ghost use Rattle.change_spec.specs.Steps.{after, link};
ghost use Rattle.bisim_spec.specs.Fits.{FitsOne};
ghost use Rattle.graph_steps.specs.NewChanges.{IsNew};
ghost use Rattle.quotient.specs.Quotients.{view_of};
ghost use Rattle.quotient_draft.specs.Drafts.{no_changes, settled_view};
ghost use Rattle.one_merge.specs.ParentlessBlocks.{CoversBase, CoversShown};
ghost use Rattle.one_update.specs.OneDrafts.{IsSupported, most_steps};
ghost use Rattle.one_maintain.specs.KeptQuotients.{CanSettle, MovesByOneStep};

use graph_update::Change;
use index_api::Kind;
use kept_index::KeptViews;
use label_graph::{Graph, GraphView};
use one_index::OneIndex;
use one_merge::ParentlessBlocks;
use one_update::draft_change;
use px_base::{Memory, Steps};
use quotient::Summary;
use quotient_draft::Draft;
use std::alloc::Global;
use std::marker::Model;
use std::sync::ledger::Ledger;

/// A 1-index in force, and a draft of what a change to come will make of it. Where none is staged nothing is drafted.
/// The blocks to which no other has support are known, those of the base and those as shown.
pub struct KeptSummary {
    base: Summary,
    parentless: ParentlessBlocks,
    draft: Draft,
    staged: bool,
}

// Written out, so that the proof of an owner sees one call and not the drop of each table.
impl Drop for KeptSummary {
    fn drop(self) {
        let KeptSummary {
            base: _base,
            parentless: _parentless,
            draft: _draft,
            staged: _staged,
        } = self;
    }
}

impl Model for KeptSummary {
    ghost use Rattle.one_maintain.specs.KeptQuotients.{KeptQuotient, IsSoundKept, kept_code};

    ghost Value = { KeptQuotient };

    ghost coded = { kept_code };

    ghost view = { λ k. record { base = k.base; draft = k.draft; staged = k.staged } };

    ghost invariant = { λ k. IsSoundKept k.base k.draft k.staged k.parentless };
}

// Drafts what a change will make of a quotient, notes the blocks to which no other has support then, and
// reserves the capacity that settling it needs.
fn fill<L: Ledger>(
    alloc: Global,
    base: &mut Summary,
    parentless: &mut ParentlessBlocks,
    draft: &mut Draft,
    graph: &Graph,
    change: &Change,
    steps: &mut Steps<L>,
) -> Result<(), Memory>
    requires fits { FitsOne graph.now.graph (view_of base.old) }
    requires new { IsNew change.now graph.now.graph }
    requires empty { draft.old ≡ no_changes }
    requires covers { CoversBase base.old parentless.old }
    ensures same { view_of base.new ≡ view_of base.old }
    ensures covers { CoversBase base.new parentless.new }
    ensures shown { OnOk result (CoversShown base.new draft.new parentless.new) }
    ensures ready { OnOk result (CanSettle base.new draft.new) }
    ensures step { OnOk result (MovesByOneStep graph.now.graph change.now base.old (settled_view base.new draft.new)) }
    ensures fits { OnOk result (FitsOne (after change.now graph.now.graph) (settled_view base.new draft.new)) }
    ensures cost { steps.new ≤ steps.old + most_steps graph.now.graph change.now }
    ensures free { (u v : ℕ) → change.now ≡ link u v ∷ [] → IsSupported (view_of base.old) u v → steps.new ≡ steps.old }
{
    draft_change(alloc, base, draft, parentless, graph, change, steps)?;
    draft.reserve(base)?;
    Ok(())
}

// Makes the parentless blocks again from the base where far more were noted since they were made than there were then,
// so that numbers that are no longer blocks go. It passes over all blocks; where memory for it runs out, the parentless
// blocks stay.
fn renew_parentless(alloc: Global, base: &Summary, parentless: &mut ParentlessBlocks)
    requires covers { CoversBase base.now parentless.old }
    ensures covers { CoversBase base.now parentless.new }
{
    if !parentless.are_many() {
        return;
    }
    if let Ok(fresh) = ParentlessBlocks::of(alloc, base) {
        *parentless = fresh;
    }
}

// A quotient with its parentless blocks and an empty draft.
fn unstaged(base: Summary, parentless: ParentlessBlocks, draft: Draft) -> KeptSummary
    requires covers { CoversBase base parentless }
    requires empty { draft ≡ no_changes }
    ensures base { result.base ≡ base }
    ensures unstaged { result.staged ≡ false }
{
    KeptSummary {
        base,
        parentless,
        draft,
        staged: false,
    }
}

// The quotient, with nothing staged.
fn of_base(alloc: Global, base: Summary) -> Result<KeptSummary, Memory>
    ensures base { IfOk result (λ k. k.base ≡ base) }
    ensures unstaged { IfOk result (λ k. k.staged ≡ false) }
{
    let parentless = ParentlessBlocks::of(alloc, &base)?;
    let draft = Draft::new(alloc)?;
    Ok(unstaged(base, parentless, draft))
}

impl KeptViews for KeptSummary {
    ghost use Rattle.std.specs.Prelude.{refl};
    ghost use Rattle.one_maintain.specs.KeptQuotients.{meaning_of as the_meaning_of, TakesFewSteps, IsFreeLink};

    ghost meaning_of = { the_meaning_of };

    ghost IsWithinCost = { TakesFewSteps };

    ghost IsFree = { IsFreeLink };

    ghost same_kind = { λ kept. refl };

    ghost computed = { refl };

    ghost no_view = { refl };

    ghost none_staged = { refl };

    fn kind() -> Kind {
        Kind::One
    }

    fn build(alloc: Global, view: &GraphView<'_>, _k: u32) -> Result<KeptSummary, Memory> {
        let summary = OneIndex::build(alloc, view)?;
        let kept = of_base(alloc, summary)?;
        Ok(kept)
    }

    fn prepare<L: Ledger>(
        &mut self,
        alloc: Global,
        graph: &Graph,
        change: &Change,
        steps: &mut Steps<L>,
    ) -> Result<(), Memory> {
        renew_parentless(alloc, &self.base, &mut self.parentless);
        match fill(
            alloc,
            &mut self.base,
            &mut self.parentless,
            &mut self.draft,
            graph,
            change,
            steps,
        ) {
            Ok(()) => {
                self.staged = true;
                Ok(())
            }
            Err(error) => {
                self.draft.clear();
                Err(error)
            }
        }
    }

    fn commit(&mut self, _alloc: Global) {
        self.draft.settle(&mut self.base);
        self.staged = false;
    }

    fn cancel(&mut self, _alloc: Global) {
        self.draft.clear();
        self.staged = false;
    }

    fn summary(&self, level: u32) -> Option<&Summary> {
        if level == 0 { Some(&self.base) } else { None }
    }
}
