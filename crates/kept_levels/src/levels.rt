// The family in force, with what a change to come will make of it.
ghost use Rattle.std.specs.Prelude.{◌≡◌, ◌+◌, ◌≤◌, ℕ, List, IfOk, length};
ghost use Rattle.change_spec.specs.Steps.{after};
ghost use Rattle.graph_steps.specs.NewChanges.{IsNew};
ghost use Rattle.keyed_quotient.specs.KeyedQuotients.{KeyedQuotient};
ghost use Rattle.ak_family.specs.Families.{HaveSupportedKeys};
ghost use Rattle.ak_family.specs.LevelDrafts.{AreSeenAs, ShowsFamily, ShowsKeys};
ghost use Rattle.level_update.specs.FamilyDrafts.{FamilyFits, ShownFit, most_steps};
ghost use Rattle.bisim_spec.specs.Fits.{kind_of};
ghost use Rattle.kept_levels.specs.KeptFamilies.{CanSettle, IsEmptyOver, IsSpare};

use ak_family::{AkDraft, AkFamily};
use bisim_spec::Sides;
use graph_update::Change;
use index_api::Kind;
use kept_index::KeptViews;
use label_graph::{Graph, GraphView};
use level_update::draft_change;
use px_base::{Memory, Steps};
use quotient::Summary;
use std::alloc::Global;
use std::marker::{Model, PhantomData};
use std::sync::ledger::Ledger;

/// The sides that count in a family, as a type. It has no values.
pub trait CountedSides {
    ghost use Rattle.bisim_spec.specs.declared.sides.Sides.{Sides as Which};

    /// The sides.
    ghost counted: { Which };

    /// The sides. O(1), no memory.
    fn sides() -> Sides
        ensures { result ≡ counted };
}

/// The levels 0 to k in force, by the sides of `S`, and a draft of what a change to come will make of them. Once it is
/// committed the draft is kept, emptied, so that the next change finds its tables made. A large one is dropped.
pub struct KeptLevels<S: CountedSides> {
    family: AkFamily,
    staged: Option<AkDraft>,
    spare: Option<AkDraft>,
    sides: PhantomData<S>,
}

// Written out, so that the proof of an owner sees one call and not the drop of each table.
impl<S: CountedSides> Drop for KeptLevels<S> {
    fn drop(self) {
        let KeptLevels {
            family: _family,
            staged: _staged,
            spare: _spare,
            sides: _sides,
        } = self;
    }
}

impl<S: CountedSides> Model for KeptLevels<S> {
    ghost use Rattle.kept_levels.specs.KeptFamilies.{KeptFamily, IsKeptFamily, kept_code};

    ghost Value = { KeptFamily };

    ghost coded = { kept_code };

    ghost view = { λ k. record { base = k.family; staged = k.staged } };

    ghost invariant = { λ k. IsKeptFamily S.counted k.family k.staged k.spare };
}

// The kind of the family by these sides.
fn kind_of(sides: Sides) -> Kind
    ensures { result ≡ kind_of sides }
{
    match sides {
        Sides::Parents => Kind::A,
        Sides::Both => Kind::B,
    }
}

// A draft in which nothing is drafted: the spare one, or where there is none a new one.
fn emptied(alloc: Global, family: &AkFamily, spare: Option<AkDraft>) -> Result<AkDraft, Memory>
    requires spare { IsSpare family.now spare }
    ensures { IfOk result (IsEmptyOver family.now) }
{
    match spare {
        Some(draft) => Ok(draft),
        None => {
            let draft = AkDraft::new(alloc, family.k())?;
            Ok(draft)
        }
    }
}

// Keeps an emptied draft, unless it is large.
fn keep(spare: &mut Option<AkDraft>, draft: AkDraft)
    ensures { (f : List KeyedQuotient) → IsEmptyOver f draft → IsSpare f spare.new }
{
    if draft.is_large() {
        *spare = None;
    } else {
        *spare = Some(draft);
    }
}

// What a change will make of a family.
fn drafted<L: Ledger>(
    alloc: Global,
    family: &AkFamily,
    spare: Option<AkDraft>,
    sides: Sides,
    graph: &Graph,
    change: &Change,
    steps: &mut Steps<L>,
) -> Result<AkDraft, Memory>
    requires fits { FamilyFits sides graph.now.graph family.now }
    requires supported { HaveSupportedKeys sides family.now }
    requires new { IsNew change.now graph.now.graph }
    requires spare { IsSpare family.now spare }
    ensures shows { IfOk result (ShowsFamily family.now) }
    ensures keys { IfOk result (ShowsKeys sides family.now) }
    ensures fits { IfOk result (ShownFit sides (after change.now graph.now.graph) family.now) }
    ensures cost { (k : ℕ) → length family.now ≡ k + 1 → steps.new ≤ steps.old + most_steps sides graph.now.graph change.now k }
{
    let mut draft = emptied(alloc, family, spare)?;
    draft_change(alloc, family, &mut draft, sides, graph, change, steps)?;
    Ok(draft)
}

// The same, with the capacity that settling the draft needs.
fn drafted_with_reserved<L: Ledger>(
    alloc: Global,
    family: &mut AkFamily,
    spare: Option<AkDraft>,
    sides: Sides,
    graph: &Graph,
    change: &Change,
    steps: &mut Steps<L>,
) -> Result<AkDraft, Memory>
    requires fits { FamilyFits sides graph.now.graph family.old }
    requires supported { HaveSupportedKeys sides family.old }
    requires new { IsNew change.now graph.now.graph }
    requires spare { IsSpare family.old spare }
    ensures same { AreSeenAs family.old family.new }
    ensures supported { HaveSupportedKeys sides family.new }
    ensures ready { IfOk result (CanSettle sides family.new) }
    ensures fits { IfOk result (ShownFit sides (after change.now graph.now.graph) family.new) }
    ensures cost { (k : ℕ) → length family.old ≡ k + 1 → steps.new ≤ steps.old + most_steps sides graph.now.graph change.now k }
{
    let draft = drafted(alloc, family, spare, sides, graph, change, steps)?;
    family.reserve(&draft)?;
    Ok(draft)
}

impl<S: CountedSides> KeptViews for KeptLevels<S> {
    ghost use Rattle.std.specs.Prelude.{refl, ⊤};
    ghost use Rattle.kept_levels.specs.KeptFamilies.{meaning_of as the_meaning_of, always_computed, TakesFewSteps};

    ghost meaning_of = { the_meaning_of S.counted };

    ghost IsWithinCost = { TakesFewSteps S.counted };

    ghost IsFree = { λ c views steps steps2. ⊤ };

    ghost same_kind = { λ kept. refl };

    ghost computed = { always_computed S.counted };

    ghost no_view = { refl };

    ghost none_staged = { refl };

    fn kind() -> Kind {
        kind_of(S::sides())
    }

    fn build(alloc: Global, view: &GraphView<'_>, k: u32) -> Result<KeptLevels<S>, Memory> {
        let family = AkFamily::build(alloc, view, S::sides(), k)?;
        Ok(KeptLevels {
            family,
            staged: None,
            spare: None,
            sides: PhantomData,
        })
    }

    fn prepare<L: Ledger>(
        &mut self,
        alloc: Global,
        graph: &Graph,
        change: &Change,
        steps: &mut Steps<L>,
    ) -> Result<(), Memory> {
        let sides = S::sides();
        let spare = self.spare.take();
        let draft = drafted_with_reserved(
            alloc,
            &mut self.family,
            spare,
            sides,
            graph,
            change,
            steps,
        )?;
        self.staged = Some(draft);
        Ok(())
    }

    fn commit(&mut self, _alloc: Global) {
        if let Some(mut draft) = self.staged.take() {
            self.family.settle(&mut draft);
            keep(&mut self.spare, draft);
        }
    }

    fn cancel(&mut self, _alloc: Global) {
        self.staged = None;
    }

    fn summary(&self, level: u32) -> Option<&Summary> {
        if level <= self.family.k() {
            Some(self.family.level(level))
        } else {
            None
        }
    }
}
