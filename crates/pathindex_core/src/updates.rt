// Making a change in a graph and in each of its indexes.
ghost use Rattle.std.specs.Prelude.{◌≡◌, ◌≢◌, ◌↔◌, Ok, Err, false, map, All, OnOk, OnErr, IfOk};
ghost use Rattle.graph_spec.specs.declared.limits.Limits.{Limits as LimitsSeen};
ghost use Rattle.graph_spec.specs.declared.refusal.Refusal.{Refusal};
ghost use Rattle.change_spec.specs.Steps.{after, apply, is_new};
ghost use Rattle.graph_steps.specs.NewChanges.{IsNew};
ghost use Rattle.graph_update.specs.StagedChanges.{applied_of};
ghost use Rattle.index_api.specs.Meanings.{IsReady};
ghost use Rattle.pathindex_core.specs.Engines.{EachBecomes};
ghost use Rattle.pathindex_core.specs.Updates.{IsMoved, IsUpdated, StaysReady, graph_or};

use crate::boxes::{commit_all, prepare_all};
use crate::errors::UpdateError;
use graph_update::{Applied, Change, Verdict, commit, judge, stage};
use index_api::PathIndex;
use label_graph::Graph;
use px_base::{Limits, Memory};
use std::alloc::Global;

/// Makes a change that alters the graph. All memory that it needs is taken before the graph or an index changes; where it
/// runs out, all are as before.
fn make<B: PathIndex>(
    alloc: Global,
    boxes: &mut Vec<B>,
    graph: &mut Graph,
    change: &Change,
) -> Result<Applied, Memory>
    requires ready { All (λ m. IsReady m graph.old.graph) (map B.meaning boxes.old.items) }
    requires new { IsNew change.now graph.old.graph }
    ensures graph { OnOk result (graph.new.graph ≡ after change.now graph.old.graph) }
    ensures moved { OnOk result (EachBecomes (λ a b. IsMoved a b change.now graph.old.graph)
        (map B.meaning boxes.old.items) (map B.meaning boxes.new.items)) }
    ensures applied { IfOk result (λ applied. applied ≡ applied_of change.now graph.old.graph) }
    ensures err_graph { OnErr result (graph.new.graph ≡ graph.old.graph) }
    ensures err_boxes { OnErr result (map B.meaning boxes.new.items ≡ map B.meaning boxes.old.items) }
{
    let staged = stage(alloc, graph, change)?;
    prepare_all(boxes, graph, change)?;
    let applied = commit(graph, staged);
    commit_all(boxes);
    Ok(applied)
}

/// What a change did that leaves the graph as it is: it allocated no number.
fn nothing_added(graph: &Graph, change: &Change) -> Applied
    requires same { (limits : LimitsSeen) × (apply change.now graph.now.graph limits ≡ Ok graph.now.graph) }
    ensures { result ≡ applied_of change.now graph.now.graph }
{
    Applied {
        first: graph.created(),
        added: 0,
    }
}

/// Judges a change, and makes it if it is accepted. A refusal and `Memory` leave all as it was, and so does a change
/// whose steps are all idle, which takes no memory.
pub(crate) fn update<B: PathIndex>(
    alloc: Global,
    boxes: &mut Vec<B>,
    graph: &mut Graph,
    change: &Change,
    limits: &Limits,
) -> Result<Applied, UpdateError>
    requires ready { All (λ m. IsReady m graph.old.graph) (map B.meaning boxes.old.items) }
    ensures refused { (r : Refusal) → (result ≡ Err (UpdateError.Refused r)) ↔ (apply change.now graph.old.graph limits.now ≡ Err r) }
    ensures graph { OnOk result (graph.new.graph ≡ graph_or graph.old.graph (apply change.now graph.old.graph limits.now)) }
    ensures updated { OnOk result (EachBecomes (IsUpdated change.now graph.old.graph)
        (map B.meaning boxes.old.items) (map B.meaning boxes.new.items)) }
    ensures applied { IfOk result (λ applied. applied ≡ applied_of change.now graph.old.graph) }
    ensures same { is_new change.now graph.old.graph ≡ false → result ≢ Err UpdateError.Memory }
    ensures still_graph { is_new change.now graph.old.graph ≡ false → graph.new.graph ≡ graph.old.graph }
    ensures still_boxes { is_new change.now graph.old.graph ≡ false → map B.meaning boxes.new.items ≡ map B.meaning boxes.old.items }
    ensures ready { OnOk result (EachBecomes (λ a b. StaysReady a b graph.new.graph) (map B.meaning boxes.old.items) (map B.meaning boxes.new.items)) }
    ensures err_graph { OnErr result (graph.new.graph ≡ graph.old.graph) }
    ensures err_boxes { OnErr result (map B.meaning boxes.new.items ≡ map B.meaning boxes.old.items) }
{
    match judge(graph, change, limits) {
        Err(refusal) => Err(UpdateError::Refused(refusal)),
        Ok(Verdict::Same) => Ok(nothing_added(graph, change)),
        Ok(Verdict::New) => match make(alloc, boxes, graph, change) {
            Ok(applied) => Ok(applied),
            Err(Memory) => Err(UpdateError::Memory),
        },
    }
}
