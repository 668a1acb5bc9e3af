// Queries that are asked of an engine.
ghost use Rattle.std.specs.Prelude.{◌≡◌, ◌≢◌, ◌+◌, ◌↔◌, ℕ, Bool, Err, false, map, All, IfOk, IsTrue};
ghost use Rattle.graph_spec.specs.Graphs.{IsGraph};
ghost use Rattle.graph_spec.specs.Shapes.{shape_of};
ghost use Rattle.label_graph.specs.GraphViews.{live_count, edge_count};
ghost use Rattle.bisim_spec.specs.Partitions.{Agrees};
ghost use Rattle.quotient.specs.Quotients.{view_of};
ghost use Rattle.index_api.specs.declared.kinds.Via.TheVariants.{Data, Fb};
ghost use Rattle.index_api.specs.declared.answers.How.TheVariants.{Data as InGraph};
ghost use Rattle.index_api.specs.Meanings.{KeepsViews};
ghost use Rattle.index_api.specs.IndexKinds.{is_kept, kept_of};
ghost use Rattle.branch_query.specs.Queries.{query_of, AreQueryAnswers};
ghost use Rattle.index_eval.specs.Exactness.{FitsVia, IsExact};
ghost use Rattle.extent_report.specs.Summaries.{LabelsHaveTexts};
ghost use Rattle.pathindex_core.specs.Engines.{EachBecomes, IsKeptFor, open_seen, opened_by};
ghost use Rattle.pathindex_core.specs.QueryAnswers.{IsFoundBy, IsAnswered, IsQueried, HasNoAnswers};
ghost use Rattle.pathindex_core.specs.Boxes.{IsFbComputed};

use crate::errors::AskError;
use crate::state::Open;
use crate::views::{refresh_for, summary_of};
use branch_query::Query;
use data_validate::check;
use index_api::{Answer, How, PathIndex, Via};
use index_eval::{candidate_count, candidates, is_exact};
use label_graph::Graph;
use px_base::{Bits, Memory, Steps};
use quotient::Summary;
use std::alloc::Global;
use std::sync::ledger::Ledger;

/// Asks the graph itself.
fn ask_graph<L: Ledger>(
    alloc: Global,
    graph: &Graph,
    query: &Query<'_>,
    steps: &mut Steps<L>,
) -> Result<Answer, Memory>
    ensures answers { IfOk result (λ answer. AreQueryAnswers (shape_of graph.now.graph) (query_of query.now) answer.nodes.members) }
    ensures how { IfOk result (λ answer. answer.how ≡ InGraph) }
    ensures cost { steps.new ≡ steps.old + 1 + live_count graph.now.graph + edge_count graph.now.graph }
{
    let view = graph.view(steps);
    let nodes = query.answers(alloc, &view, graph.labels())?;
    Ok(Answer {
        nodes,
        how: How::Data,
    })
}

/// The answers of the graph. Where an index gives no candidates, there are none, and nothing is asked.
fn checked_answers<L: Ledger>(
    alloc: Global,
    graph: &Graph,
    query: &Query<'_>,
    candidates: u32,
    steps: &mut Steps<L>,
) -> Result<Bits, Memory>
    requires candidates { candidates ≡ 0 → HasNoAnswers graph.now.graph (query_of query.now) }
    ensures answers { IfOk result (λ nodes. AreQueryAnswers (shape_of graph.now.graph) (query_of query.now) nodes.members) }
{
    if candidates == 0 {
        return Bits::new(alloc, 0);
    }
    let view = graph.view(steps);
    query.answers(alloc, &view, graph.labels())
}

/// Asks an index by its view: the candidates are the answers, or are looked up in the graph. Of a branching query the
/// graph alone is asked then, since all its answers are among the candidates, and these are only counted.
fn ask_view<L: Ledger>(
    alloc: Global,
    graph: &Graph,
    summary: &Summary,
    via: Via,
    query: &Query<'_>,
    steps: &mut Steps<L>,
) -> Result<Answer, Memory>
    requires fits { FitsVia via graph.now.graph (view_of summary.now) }
    requires texts { LabelsHaveTexts graph.now.graph.seen summary.now.blocks }
    ensures answers { IfOk result (λ answer. AreQueryAnswers (shape_of graph.now.graph) (query_of query.now) answer.nodes.members) }
    ensures how { IfOk result (λ answer. (test : ℕ → ℕ → Bool)
        → Agrees (shape_of graph.now.graph) summary.now.blocks.block_of (λ u v. IsTrue (test u v))
        → IsFoundBy graph.now.graph test via (query_of query.now) answer.how) }
    ensures cost { IsExact via (query_of query.now) → steps.new ≡ steps.old }
    ensures graph { IfOk result (λ _. IsGraph graph.now.graph) }
{
    if is_exact(via, query) {
        let nodes = candidates(alloc, summary, graph.labels(), query, true)?;
        let count = nodes.count();
        return Ok(Answer {
            nodes,
            how: How::Exact(count),
        });
    }
    if matches!(*query, Query::Branch(_)) {
        let count = candidate_count(alloc, summary, graph.labels(), query)?;
        let nodes = checked_answers(alloc, graph, query, count, steps)?;
        return Ok(Answer {
            nodes,
            how: How::Checked(count),
        });
    }
    let set = candidates(alloc, summary, graph.labels(), query, false)?;
    let count = set.count();
    let nodes = check(alloc, graph, query, &set, steps)?;
    Ok(Answer {
        nodes,
        how: How::Checked(count),
    })
}

/// Asks an index whose view is computed, if it is kept.
fn ask_index<B: PathIndex, L: Ledger>(
    alloc: Global,
    boxes: &Vec<B>,
    state: &Open,
    via: Via,
    query: &Query<'_>,
    steps: &mut Steps<L>,
) -> Result<Answer, AskError>
    requires kept { All (IsKeptFor (opened_by state.now)) (map B.meaning boxes.now.items) }
    requires computed { via ≡ Fb → IsFbComputed (map B.meaning boxes.now.items) }
    requires index { via ≢ Data }
    ensures answered { IfOk result (λ answer. IsAnswered state.now.graph.graph (kept_of (map B.meaning boxes.now.items) state.now.k) via
        (query_of query.now) answer.how answer.nodes.members) }
    ensures no_index { (result ≡ Err AskError.NoIndex) ↔ (is_kept (kept_of (map B.meaning boxes.now.items) state.now.k) via ≡ false) }
    ensures cost { IsExact via (query_of query.now) → steps.new ≡ steps.old }
{
    match summary_of(boxes, via) {
        Some(summary) => match ask_view(alloc, &state.graph, summary, via, query, steps) {
            Ok(answer) => Ok(answer),
            Err(Memory) => Err(AskError::Memory),
        },
        None => Err(AskError::NoIndex),
    }
}

/// Asks an index, if it is kept. The view of the forward and backward index is computed first, if it isn't.
fn ask_kept<B: PathIndex, L: Ledger>(
    alloc: Global,
    boxes: &mut Vec<B>,
    state: &Open,
    via: Via,
    query: &Query<'_>,
    steps: &mut Steps<L>,
) -> Result<Answer, AskError>
    requires kept { All (IsKeptFor (opened_by state.now)) (map B.meaning boxes.old.items) }
    requires index { via ≢ Data }
    ensures kept { All (IsKeptFor (opened_by state.now)) (map B.meaning boxes.new.items) }
    ensures keeps { EachBecomes KeepsViews (map B.meaning boxes.old.items) (map B.meaning boxes.new.items) }
    ensures queried { IsQueried (open_seen (map B.meaning boxes.old.items) state.now) (open_seen (map B.meaning boxes.new.items) state.now) via
        (query_of query.now) result steps.old steps.new }
{
    match refresh_for(boxes, via, &state.graph, steps) {
        Ok(()) => ask_index(alloc, boxes, state, via, query, steps),
        Err(Memory) => Err(AskError::Memory),
    }
}

/// Asks the graph itself, or an index if it is kept.
pub(crate) fn ask<B: PathIndex, L: Ledger>(
    alloc: Global,
    boxes: &mut Vec<B>,
    state: &Open,
    via: Via,
    query: &Query<'_>,
    steps: &mut Steps<L>,
) -> Result<Answer, AskError>
    requires kept { All (IsKeptFor (opened_by state.now)) (map B.meaning boxes.old.items) }
    ensures kept { All (IsKeptFor (opened_by state.now)) (map B.meaning boxes.new.items) }
    ensures keeps { EachBecomes KeepsViews (map B.meaning boxes.old.items) (map B.meaning boxes.new.items) }
    ensures queried { IsQueried (open_seen (map B.meaning boxes.old.items) state.now) (open_seen (map B.meaning boxes.new.items) state.now) via
        (query_of query.now) result steps.old steps.new }
{
    match via {
        Via::Data => match ask_graph(alloc, &state.graph, query, steps) {
            Ok(answer) => Ok(answer),
            Err(Memory) => Err(AskError::Memory),
        },
        _ => ask_kept(alloc, boxes, state, via, query, steps),
    }
}
