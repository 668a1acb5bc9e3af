// What a change makes of a 1-index.
ghost use Rattle.std.specs.Prelude.{◌≡◌, ◌≢◌, ◌+◌, ◌*◌, ◌≤◌, ◌∷◌, [], ℕ, false, length, IfNone, IfSome, IsTrue, OnOk};
ghost use Rattle.graph_spec.specs.Members.{has};
ghost use Rattle.bisim_spec.specs.Fits.{FitsOne};
ghost use Rattle.change_spec.specs.Steps.{after, link, unlink};
ghost use Rattle.change_spec.specs.Altered.{targets};
ghost use Rattle.change_spec.specs.NextOne.{KeepsParents};
ghost use Rattle.graph_steps.specs.NewChanges.{IsNew};
ghost use Rattle.graph_steps.specs.StepLists.{step_of, steps_of};
ghost use Rattle.graph_update.specs.PendingChanges.{graph_after};
ghost use Rattle.graph_effects.specs.Effects.{AreEffects};
ghost use Rattle.quotient.specs.Quotients.{view_of};
ghost use Rattle.quotient_draft.specs.Drafts.{no_changes, has_member, settled_view, shown_blocks, shown_support};
ghost use Rattle.one_merge.specs.ParentlessBlocks.{CoversBase, CoversShown};
ghost use Rattle.one_update.specs.OneDrafts.{IsBefore, IsDrafted, IsSupported, most_steps, rounds_cost};

use crate::effects::draft_effects;
use crate::linking::{draft_link, draft_unlink};
use crate::resettling::resettle;
use crate::unsteady::unsteady;
use graph_effects::Effects;
use graph_steps::{Change, Step};
use graph_update::After;
use label_graph::Graph;
use one_merge::ParentlessBlocks;
use px_base::{Memory, NodeId, Steps};
use quotient::Summary;
use quotient_draft::Draft;
use std::alloc::Global;
use std::sync::ledger::Ledger;

// Drafts the effects of a change, and settles the index again.
fn draft_settled<L: Ledger>(
    alloc: Global,
    base: &Summary,
    draft: &mut Draft,
    parentless: &mut ParentlessBlocks,
    after: &After<'_>,
    effects: &Effects,
    steps: &mut Steps<L>,
) -> Result<(), Memory>
    requires before { IsBefore after.now base.now }
    requires covers { CoversBase base.now parentless.old }
    requires empty { draft.old ≡ no_changes }
    requires effects { AreEffects after.now.before (graph_after after.now) effects.now }
    requires targets { (n : ℕ) → IsTrue (has effects.now.targets n) → IsTrue (targets after.now.change after.now.before n) }
    requires moves { KeepsParents after.now.change (graph_after after.now) base.now.blocks.block_of → ⊥ }
    ensures covers { CoversBase base.now parentless.new }
    ensures shown { OnOk result (CoversShown base.now draft.new parentless.new) }
    ensures drafted { OnOk result (IsDrafted after.now.before after.now.change base.now draft.new) }
    ensures cost { steps.new ≤ steps.old + 6 * rounds_cost after.now.before after.now.change }
{
    draft_effects(base, draft, after, effects)?;
    let found = unsteady(alloc, base, after, effects, steps)?;
    resettle(alloc, base, draft, parentless, after, &found, steps)?;
    Ok(())
}

// What steps make of the index by their effects, whichever they are.
fn draft_steps<L: Ledger>(
    alloc: Global,
    base: &Summary,
    draft: &mut Draft,
    parentless: &mut ParentlessBlocks,
    graph: &Graph,
    change: &Change,
    after: &After<'_>,
    steps: &mut Steps<L>,
) -> Result<(), Memory>
    requires before { IsBefore after.now base.now }
    requires covers { CoversBase base.now parentless.old }
    requires empty { draft.old ≡ no_changes }
    requires graph { after.now.before ≡ graph.now.graph }
    requires same { after.now.change ≡ change.now }
    requires moves { KeepsParents after.now.change (graph_after after.now) base.now.blocks.block_of → ⊥ }
    ensures covers { CoversBase base.now parentless.new }
    ensures shown { OnOk result (CoversShown base.now draft.new parentless.new) }
    ensures drafted { OnOk result (IsDrafted after.now.before after.now.change base.now draft.new) }
    ensures cost { steps.new ≤ steps.old + most_steps after.now.before after.now.change }
{
    let effects = Effects::of(alloc, graph, change, after, steps)?;
    draft_settled(alloc, base, draft, parentless, after, &effects, steps)?;
    Ok(())
}

// An edge comes.
fn add_edge<L: Ledger>(
    alloc: Global,
    base: &Summary,
    draft: &mut Draft,
    parentless: &mut ParentlessBlocks,
    after: &After<'_>,
    u: NodeId,
    v: NodeId,
    steps: &mut Steps<L>,
) -> Result<(), Memory>
    requires before { IsBefore after.now base.now }
    requires covers { CoversBase base.now parentless.old }
    requires empty { draft.old ≡ no_changes }
    requires links { after.now.change ≡ link u v ∷ [] }
    ensures covers { CoversBase base.now parentless.new }
    ensures shown { OnOk result (CoversShown base.now draft.new parentless.new) }
    ensures drafted { OnOk result (IsDrafted after.now.before after.now.change base.now draft.new) }
    ensures cost { steps.new ≤ steps.old + most_steps after.now.before after.now.change }
    ensures free { IsSupported (view_of base.now) u v → steps.new ≡ steps.old }
{
    if draft_link(base, draft, after, u, v)? {
        parentless.note_touched(base, draft)?;
        return Ok(());
    }
    resettle(alloc, base, draft, parentless, after, &[v], steps)
}

// An edge goes.
fn drop_edge<L: Ledger>(
    alloc: Global,
    base: &Summary,
    draft: &mut Draft,
    parentless: &mut ParentlessBlocks,
    after: &After<'_>,
    u: NodeId,
    v: NodeId,
    steps: &mut Steps<L>,
) -> Result<(), Memory>
    requires before { IsBefore after.now base.now }
    requires covers { CoversBase base.now parentless.old }
    requires empty { draft.old ≡ no_changes }
    requires unlinks { after.now.change ≡ unlink u v ∷ [] }
    ensures covers { CoversBase base.now parentless.new }
    ensures shown { OnOk result (CoversShown base.now draft.new parentless.new) }
    ensures drafted { OnOk result (IsDrafted after.now.before after.now.change base.now draft.new) }
    ensures cost { steps.new ≤ steps.old + most_steps after.now.before after.now.change }
{
    if draft_unlink(base, draft, after, u, v, steps)? {
        parentless.note_touched(base, draft)?;
        return Ok(());
    }
    resettle(alloc, base, draft, parentless, after, &[v], steps)
}

// The step that stands alone.
fn single_step(all: &[Step]) -> Option<&Step>
    ensures some { IfSome result (λ s. steps_of all.now ≡ step_of s.now ∷ []) }
    ensures none { IfNone result (length (steps_of all.now) ≢ 1) }
{
    if all.len() == 1 { Some(&all[0]) } else { None }
}

// What a single step makes: an edge that comes or goes is drafted without effects.
fn draft_single<L: Ledger>(
    alloc: Global,
    base: &Summary,
    draft: &mut Draft,
    parentless: &mut ParentlessBlocks,
    graph: &Graph,
    change: &Change,
    step: &Step,
    after: &After<'_>,
    steps: &mut Steps<L>,
) -> Result<(), Memory>
    requires before { IsBefore after.now base.now }
    requires covers { CoversBase base.now parentless.old }
    requires empty { draft.old ≡ no_changes }
    requires graph { after.now.before ≡ graph.now.graph }
    requires same { after.now.change ≡ change.now }
    requires single { after.now.change ≡ step_of step.now ∷ [] }
    ensures covers { CoversBase base.now parentless.new }
    ensures shown { OnOk result (CoversShown base.now draft.new parentless.new) }
    ensures drafted { OnOk result (IsDrafted after.now.before after.now.change base.now draft.new) }
    ensures cost { steps.new ≤ steps.old + most_steps after.now.before after.now.change }
    ensures free { (u v : ℕ) → after.now.change ≡ link u v ∷ [] → IsSupported (view_of base.now) u v → steps.new ≡ steps.old }
{
    match step {
        Step::Node(_) => draft_steps(alloc, base, draft, parentless, graph, change, after, steps),
        Step::Link(u, v) => add_edge(alloc, base, draft, parentless, after, *u, *v, steps),
        Step::Unlink(u, v) => drop_edge(alloc, base, draft, parentless, after, *u, *v, steps),
        Step::Drop(_) => draft_steps(alloc, base, draft, parentless, graph, change, after, steps),
        Step::Relabel(_, _) => draft_steps(
            alloc, base, draft, parentless, graph, change, after, steps,
        ),
    }
}

// What the change makes.
fn draft_pending<L: Ledger>(
    alloc: Global,
    base: &Summary,
    draft: &mut Draft,
    parentless: &mut ParentlessBlocks,
    graph: &Graph,
    change: &Change,
    after: &After<'_>,
    steps: &mut Steps<L>,
) -> Result<(), Memory>
    requires before { IsBefore after.now base.now }
    requires covers { CoversBase base.now parentless.old }
    requires empty { draft.old ≡ no_changes }
    requires graph { after.now.before ≡ graph.now.graph }
    requires same { after.now.change ≡ change.now }
    ensures covers { CoversBase base.now parentless.new }
    ensures shown { OnOk result (CoversShown base.now draft.new parentless.new) }
    ensures drafted { OnOk result (IsDrafted after.now.before after.now.change base.now draft.new) }
    ensures cost { steps.new ≤ steps.old + most_steps after.now.before after.now.change }
    ensures free { (u v : ℕ) → after.now.change ≡ link u v ∷ [] → IsSupported (view_of base.now) u v → steps.new ≡ steps.old }
{
    match single_step(change.steps()) {
        Some(step) => draft_single(
            alloc, base, draft, parentless, graph, change, step, after, steps,
        ),
        None => draft_steps(alloc, base, draft, parentless, graph, change, after, steps),
    }
}

/// Drafts what a change, which `judge` accepts as new, will make of the 1-index of a graph: the next partition,
/// its labels and its supports. The graph is as it was. Once the draft is settled, the 1-index is that of the graph
/// after the change. The blocks of the base to which no other has support are among the parentless blocks, and those of
/// the settled draft come to them.
///
/// It takes at most `8 * (r + 1) * w` steps, where the change reaches `r` nodes, and `w` is what it costs there: one for
/// each of them, for each parent and for each child, one for each step of the change, and one for each node that goes, for
/// each of its parents and for each of its children. It takes no step for a change of one step that is an edge between
/// blocks that have support. Where memory runs out, the draft must be cleared before it is used again.
///
/// Expected O((r + 1) w log w) to split, and then what `one_merge::merge` takes from the blocks that were made;
/// O(s^2) more for s steps; expected O(1) for an edge between blocks that have support. It takes the memory of the draft:
/// O(w), and what is merged.
pub fn draft_change<L: Ledger>(
    alloc: Global,
    base: &Summary,
    draft: &mut Draft,
    parentless: &mut ParentlessBlocks,
    graph: &Graph,
    change: &Change,
    steps: &mut Steps<L>,
) -> Result<(), Memory>
    requires fits { FitsOne graph.now.graph (view_of base.now) }
    requires covers { CoversBase base.now parentless.old }
    requires new { IsNew change.now graph.now.graph }
    requires empty { draft.old ≡ no_changes }
    ensures covers { CoversBase base.now parentless.new }
    ensures shown { OnOk result (CoversShown base.now draft.new parentless.new) }
    ensures drafted { OnOk result (IsDrafted graph.now.graph change.now base.now draft.new) }
    ensures fits { OnOk result (FitsOne (after change.now graph.now.graph) (settled_view base.now draft.new)) }
    ensures from { OnOk result ((b c : ℕ) → has_member (shown_blocks base.now draft.new) b ≡ false → shown_support base.now draft.new b c ≡ 0) }
    ensures onto { OnOk result ((b c : ℕ) → has_member (shown_blocks base.now draft.new) b ≡ false → shown_support base.now draft.new c b ≡ 0) }
    ensures cost { steps.new ≤ steps.old + most_steps graph.now.graph change.now }
    ensures free { (u v : ℕ) → change.now ≡ link u v ∷ [] → IsSupported (view_of base.now) u v → steps.new ≡ steps.old }
{
    // Called for their contracts: nodes and edges are few.
    let _known = graph.created();
    let _known = graph.edge_count();
    let after = After::new(graph, change);
    draft_pending(alloc, base, draft, parentless, graph, change, &after, steps)?;
    Ok(())
}
