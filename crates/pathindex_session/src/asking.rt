// Questions to an engine that is open, whose steps nobody counts.
ghost use Rattle.std.specs.Prelude.{◌≡◌, ◌≢◌, ◌<◌, ◌↔◌, Err, false, IfOk, IsTrue, MatchOption};
ghost use Rattle.graph_spec.specs.Graphs.{is_live};
ghost use Rattle.graph_spec.specs.Shapes.{shape_of};
ghost use Rattle.path_spec.specs.PathAnswers.{IsAnswer};
ghost use Rattle.branch_query.specs.Queries.{query_of};
ghost use Rattle.index_api.specs.declared.kinds.Via.TheVariants.{Data as TheGraph};
ghost use Rattle.index_api.specs.IndexKinds.{is_kept};
ghost use Rattle.any_index.specs.AnyMeanings.{meaning_of};
ghost use Rattle.index_file.specs.SavedIndexes.{SavesFile};
ghost use Rattle.index_file.specs.WholeFiles.{HasLabels, IsIndexFile};
ghost use Rattle.extent_report.specs.PrintedLists.{ListsIndex, ListsSizes};
ghost use Rattle.pathindex_core.specs.Engines.{by_meaning, kept_in};
ghost use Rattle.pathindex_core.specs.Calls.{KeepsAllButViews};
ghost use Rattle.pathindex_core.specs.EngineTerms.{engine_graph};
ghost use Rattle.walk_spec.specs.LeastWalks.{IsLeast};
ghost use Rattle.pathindex_session.specs.Sessions.{IsOpenAndSound};
ghost use Rattle.pathindex_session.specs.Asked.{IsAsked};

use any_index::AnyIndex;
use branch_query::Query;
use index_api::{How, Via};
use index_saving::file_text;
use label_graph::Graph;
use path_query::PathExpr;
use pathindex_core::{AskError, Engine};
use px_base::{Memory, NodeId, Steps, Text};
use std::alloc::Global;
use std::sync::ledger::{Blank, Ledger};
use walk_proof::{Walk, find};

/// What a query answers: the nodes, rising, and how they were found.
pub(crate) type Found = (Vec<NodeId>, How);

/// Asks a query of the graph itself or of an index.
pub(crate) fn ask<L: Ledger>(
    alloc: Global,
    engine: &mut Engine<AnyIndex>,
    via: Via,
    query: &Query<'_>,
    blank: Blank,
) -> Result<Found, AskError>
    requires ready { IsOpenAndSound engine.old }
    requires name { blank.name ≡ L.name }
    requires parts { blank.parts ≡ L.parts }
    requires some { 0 < blank.parts }
    ensures ready { IsOpenAndSound engine.new }
    ensures keeps { KeepsAllButViews (by_meaning meaning_of engine.old) (by_meaning meaning_of engine.new) }
    ensures asked { IsAsked (by_meaning meaning_of engine.old) via (query_of query.now) result }
{
    let mut steps = Steps::<L>::new(blank);
    match engine.ask(alloc, via, query, &mut steps) {
        Ok(answer) => match answer.nodes.list(alloc) {
            Ok(nodes) => Ok((nodes, answer.how)),
            Err(_) => Err(AskError::Memory),
        },
        Err(error) => Err(error),
    }
}

/// Lists the blocks of an index.
pub(crate) fn list<L: Ledger>(
    alloc: Global,
    engine: &mut Engine<AnyIndex>,
    via: Via,
    blank: Blank,
) -> Result<Text, AskError>
    requires ready { IsOpenAndSound engine.old }
    requires index { via ≢ TheGraph }
    requires name { blank.name ≡ L.name }
    requires parts { blank.parts ≡ L.parts }
    requires some { 0 < blank.parts }
    ensures ready { IsOpenAndSound engine.new }
    ensures keeps { KeepsAllButViews (by_meaning meaning_of engine.old) (by_meaning meaning_of engine.new) }
    ensures listed { IfOk result (ListsIndex (engine_graph engine.old) (kept_in (by_meaning meaning_of engine.old)) via) }
    ensures no_index { (result ≡ Err AskError.NoIndex) ↔ (is_kept (kept_in (by_meaning meaning_of engine.old)) via ≡ false) }
{
    let mut steps = Steps::<L>::new(blank);
    engine.extents(alloc, via, &mut steps)
}

/// Lists the sizes of the graph and of each index that is kept.
pub(crate) fn measure<L: Ledger>(
    alloc: Global,
    engine: &mut Engine<AnyIndex>,
    blank: Blank,
) -> Result<Text, Memory>
    requires ready { IsOpenAndSound engine.old }
    requires name { blank.name ≡ L.name }
    requires parts { blank.parts ≡ L.parts }
    requires some { 0 < blank.parts }
    ensures ready { IsOpenAndSound engine.new }
    ensures keeps { KeepsAllButViews (by_meaning meaning_of engine.old) (by_meaning meaning_of engine.new) }
    ensures measured { IfOk result (ListsSizes (engine_graph engine.old) (kept_in (by_meaning meaning_of engine.old))) }
{
    let mut steps = Steps::<L>::new(blank);
    engine.sizes(alloc, &mut steps)
}

/// Makes the index file of the graph and of the indexes that are kept.
pub(crate) fn save<L: Ledger>(
    alloc: Global,
    engine: &mut Engine<AnyIndex>,
    blank: Blank,
) -> Result<Text, Memory>
    requires ready { IsOpenAndSound engine.old }
    requires name { blank.name ≡ L.name }
    requires parts { blank.parts ≡ L.parts }
    requires some { 0 < blank.parts }
    ensures ready { IsOpenAndSound engine.new }
    ensures keeps { KeepsAllButViews (by_meaning meaning_of engine.old) (by_meaning meaning_of engine.new) }
    ensures saved { IfOk result (SavesFile (engine_graph engine.old) (kept_in (by_meaning meaning_of engine.old))) }
    ensures whole { IfOk result (λ t. HasLabels (engine_graph engine.old)
        → IsIndexFile (engine_graph engine.old) (kept_in (by_meaning meaning_of engine.old)) t) }
{
    let mut steps = Steps::<L>::new(blank);
    file_text(alloc, engine, &mut steps)
}

/// The least walk that shows why a live node answers, if it does.
pub(crate) fn explain<L: Ledger>(
    alloc: Global,
    graph: &Graph,
    expr: &PathExpr,
    node: NodeId,
    blank: Blank,
) -> Result<Option<Walk>, Memory>
    requires live { IsTrue (is_live graph.now.graph node) }
    requires name { blank.name ≡ L.name }
    requires parts { blank.parts ≡ L.parts }
    requires some { 0 < blank.parts }
    ensures { IfOk result (λ o. MatchOption o
        (IsAnswer (shape_of graph.now.graph) expr.now node → ⊥) (λ w. IsLeast (shape_of graph.now.graph) expr.now node w)) }
{
    let mut steps = Steps::<L>::new(blank);
    find(alloc, graph, expr, node, &mut steps)
}
