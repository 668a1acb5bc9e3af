// What a change makes of a family.
ghost use Rattle.std.specs.Prelude.{◌≡◌, ◌+◌, ◌≤◌, ℕ, OnOk, length};
ghost use Rattle.change_spec.specs.Steps.{after};
ghost use Rattle.graph_steps.specs.NewChanges.{IsNew};
ghost use Rattle.ak_family.specs.Families.{HaveSupportedKeys};
ghost use Rattle.ak_family.specs.LevelDrafts.{AreOver, AreEmpty, ShowsFamily, ShowsKeys};
ghost use Rattle.level_update.specs.FamilyDrafts.{FamilyFits, ShownFit, most_steps};

use crate::effects::draft_effects;
use ak_family::{AkDraft, AkFamily};
use bisim_spec::Sides;
use graph_effects::Effects;
use graph_steps::Change;
use graph_update::After;
use label_graph::Graph;
use px_base::{Memory, Steps};
use std::alloc::Global;
use std::sync::ledger::Ledger;

/// Drafts what a change, which `judge` accepts as new, will make of a family of a graph, by the sides that count. The graph
/// is as it was. Once the draft is settled, each level is that of the graph after the change.
///
/// For each side that counts it takes at most `8 * (k + 1) * w` steps, where `w` is what the change costs at the nodes
/// within `k` edges of its ends in the graph after it, each edge taken in either direction where both sides count. Beside
/// what it takes to find the effects, expected O((k + 1) (1 + w log w)), as `move_affected`; it takes the memory of the
/// effects, of the affected nodes and of what is drafted. Where memory runs out, the draft must be dropped.
pub fn draft_change<L: Ledger>(
    alloc: Global,
    family: &AkFamily,
    draft: &mut AkDraft,
    sides: Sides,
    graph: &Graph,
    change: &Change,
    steps: &mut Steps<L>,
) -> Result<(), Memory>
    requires fits { FamilyFits sides graph.now.graph family.now }
    requires supported { HaveSupportedKeys sides family.now }
    requires new { IsNew change.now graph.now.graph }
    requires over { AreOver family.now draft.old }
    requires empty { AreEmpty draft.old }
    ensures shows { OnOk result (ShowsFamily family.now draft.new) }
    ensures keys { OnOk result (ShowsKeys sides family.now draft.new) }
    ensures fits { OnOk result (ShownFit sides (after change.now graph.now.graph) family.now draft.new) }
    ensures cost { (k : ℕ) → length family.now ≡ k + 1 → steps.new ≤ steps.old + most_steps sides graph.now.graph change.now k }
{
    let after = After::new(graph, change);
    // Called for their contracts: numbers and edges are few, and the keys are as the levels say.
    let _known = graph.created();
    let _known = after.created();
    let _known = family.k();
    let effects = Effects::of(alloc, graph, change, &after, steps)?;
    let ends = effects.ends(alloc, sides, &after)?;
    draft_effects(alloc, family, draft, sides, &after, &effects, &ends, steps)?;
    Ok(())
}
