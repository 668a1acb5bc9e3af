// A session.
ghost use Rattle.std.specs.Prelude.{◌≡◌, ◌≢◌, ◌≤◌, ◌↔◌, [], Some, Ok, Err, false, IsTrue, IfOk, IfErr, OnOk, OnErr};
ghost use Rattle.graph_spec.specs.ProgramLimits.{program_limits};
ghost use Rattle.graph_spec.specs.Graphs.{is_live};
ghost use Rattle.change_spec.specs.Steps.{is_new};
ghost use Rattle.triple_names.specs.Names.{AreSameNames};
ghost use Rattle.triple_names.specs.TripleChanges.{insert_steps, delete_change};
ghost use Rattle.branch_query.specs.Queries.{query_of};
ghost use Rattle.path_query.specs.Parsed.{is_past};
ghost use Rattle.index_api.specs.IndexKinds.{is_kept, has_kind};
ghost use Rattle.extent_report.specs.PrintedLists.{ListsIndex, ListsSizes};
ghost use Rattle.index_file.specs.SavedIndexes.{SavesFile};
ghost use Rattle.index_file.specs.WholeFiles.{HasLabels, IsIndexFile};
ghost use Rattle.pathindex_core.specs.Engines.{kept_in};
ghost use Rattle.pathindex_core.specs.Calls.{IsMade, IsForgotten, KeepsAllButViews};
ghost use Rattle.pathindex_core.specs.EngineTerms.{engine_kinds, engine_outcome};
ghost use Rattle.pathindex_session.specs.Sessions.{engine_in, graph_of, names_of, KeepsFound};
ghost use Rattle.pathindex_session.specs.Openings.{OpensText, TellsLine};
ghost use Rattle.pathindex_session.specs.Edits.{IsEdited, names_with};
ghost use Rattle.pathindex_session.specs.TextAnswers.{IsAskedHow, IsExplained, SpellsPathQuery, SpellsBranchQuery, AnswersText, ExplainsText, ChecksText};
ghost use Rattle.any_index.specs.AnyMeanings.{meaning_of};

use crate::asking::{ask, explain, list, measure, save};
use crate::editing::{delete, insert};
use crate::errors::{OpenError, QueryError, of_ask, of_text};
use crate::opening::{Indexes, open_text};
use any_index::AnyIndex;
use branch_query::Query;
use branch_text::Branch;
use graph_update::{Applied, Change};
use index_api::{How, Kind, Via};
use label_graph::Graph;
use path_query::PathExpr;
use pathindex_core::{AskError, Engine, UpdateError};
use px_base::{Limits, Memory, NodeId, Refusal, Text};
use std::alloc::Global;
use std::marker::{Brand, Model};
use std::sync::ledger::Blank;
use triple_names::Names;
use triples_read::Triple;
use walk_check::holds;
use walk_proof::Walk;

/// An engine that is open, the numbers of its terms and triples, and what was last asked: answers, a walk, and a text, which is a
/// list of blocks or of sizes, or an index file. A call that fails leaves the graph, its indexes and what was asked before as they were.
///
/// The nodes that Ana knows:
///
///     let kept = Indexes { k: 2, one: true, fb: true, bk: false };
///     let mut session = Session::open(alloc, triples, kept)?;
///     session.path(alloc, Via::One, b"<x:knows>/iri")?;
///     take(session.nodes());
pub struct Session {
    engine: Engine<AnyIndex>,
    names: Names,
    nodes: Vec<NodeId>,
    walk: Walk,
    text: Text,
}

impl Drop for Session {
    // By hand, so that no crate above proves how the indexes are dropped.
    fn drop(self) {
        let Session {
            engine,
            names,
            nodes,
            walk,
            text,
        } = self;
        drop(engine);
        drop(names);
        drop(nodes);
        drop(walk);
        drop(text);
    }
}

impl Model for Session {
    ghost use Rattle.pathindex_session.specs.Sessions.{SessionOf, session_code, IsOpenAndSound};

    ghost Value = { SessionOf };

    ghost coded = { session_code };

    ghost view = { λ s. record { engine = s.engine; names = s.names; nodes = s.nodes.items; walk = s.walk; text = s.text } };

    ghost invariant = { λ s. IsOpenAndSound s.engine };
}

impl Session {
    /// A session of the graph of a text of N-Triples (RDF 1.1 N-Triples), which keeps these indexes. The text may be empty.
    /// Nothing was asked yet. It takes the time and memory of `load_text` and of `Engine::open`.
    pub fn open(alloc: Global, triples: &[u8], kept: Indexes) -> Result<Session, OpenError>
        requires level { kept.k ≤ 8 }
        ensures opened { IfOk result (λ s. OpensText triples.now kept s.engine (names_of s)) }
        ensures nodes { IfOk result (λ s. s.nodes ≡ []) }
        ensures walk { IfOk result (λ s. s.walk ≡ []) }
        ensures text { IfOk result (λ s. s.text ≡ []) }
        ensures refused { IfErr result (TellsLine triples.now) }
    {
        let (engine, names) = match open_text(alloc, triples, kept) {
            Ok(opened) => opened,
            Err(error) => return Err(error),
        };
        let nodes = Vec::new(alloc);
        let Ok(walk) = Walk::of(alloc, &[]) else {
            return Err(OpenError::Memory);
        };
        let text = Text::from_string(String::new(alloc));
        Ok(Session {
            engine,
            names,
            nodes,
            walk,
            text,
        })
    }

    /// The graph. O(1), no memory.
    pub fn graph(&self) -> &Graph
        ensures { result.now.graph ≡ graph_of self.now }
    {
        self.engine.graph()
    }

    /// Makes a change, and says which numbers its new nodes got, as `Engine::update` does and at its cost.
    pub fn update(&mut self, alloc: Global, change: Change) -> Result<Applied, UpdateError>
        ensures refused { (r : Refusal) → (result ≡ Err (UpdateError.Refused r)) ↔ (engine_outcome change self.old.engine ≡ Err r) }
        ensures made { IfOk result (IsMade change (engine_in self.old) (engine_in self.new)) }
        ensures same { is_new change (graph_of self.old) ≡ false → result ≢ Err UpdateError.Memory }
        ensures err { OnErr result (engine_in self.new ≡ engine_in self.old) }
        ensures names { self.new.names ≡ self.old.names }
        ensures found { KeepsFound self.old self.new }
    {
        self.engine.update(alloc, change)
    }

    /// Inserts a triple: its subject, its object and the triple itself get nodes, where they have none, and the triple is linked
    /// between the other two, as one change (`insert_change`). It says which numbers the new nodes got. One that is there already
    /// is accepted, and changes nothing. The cost is that of `insert_change` and of `update`.
    pub fn insert(&mut self, alloc: Global, triple: Triple) -> Result<Applied, UpdateError>
        ensures edited { IsEdited (Some (insert_steps (names_of self.old) (graph_of self.old) triple)) (engine_in self.old) (engine_in self.new) result }
        ensures names { OnOk result (AreSameNames (names_of self.new) (names_with (names_of self.old) (graph_of self.old) triple)) }
        ensures err { OnErr result (AreSameNames (names_of self.new) (names_of self.old)) }
        ensures found { KeepsFound self.old self.new }
    {
        insert(alloc, &mut self.engine, &mut self.names, triple)
    }

    /// Deletes a triple: its node is dropped, and those of its subject and object that have no other neighbour, as one change
    /// (`delete_change`). One that isn't there is refused for `NoNode`. The cost is that of `delete_change` and of `update`.
    pub fn delete(&mut self, alloc: Global, triple: &Triple) -> Result<Applied, UpdateError>
        ensures edited { IsEdited (delete_change (names_of self.old) (graph_of self.old) triple.now) (engine_in self.old) (engine_in self.new) result }
        ensures names { self.new.names ≡ self.old.names }
        ensures found { KeepsFound self.old self.new }
    {
        delete(alloc, &mut self.engine, &self.names, triple)
    }

    // Asks a query. Its answers are kept.
    fn ask(&mut self, alloc: Global, via: Via, query: &Query<'_>) -> Result<How, QueryError>
        ensures asked { IsAskedHow self.old self.new via (query_of query.now) result }
        ensures keeps { KeepsAllButViews (engine_in self.old) (engine_in self.new) }
        ensures names { self.new.names ≡ self.old.names }
        ensures err { OnErr result (self.new.nodes ≡ self.old.nodes) }
        ensures walk { self.new.walk ≡ self.old.walk }
        ensures text { self.new.text ≡ self.old.text }
    {
        match ask::<Brand>(alloc, &mut self.engine, via, query, Blank::new(1)) {
            Ok((nodes, how)) => {
                self.nodes = nodes;
                Ok(how)
            }
            Err(error) => Err(of_ask(error)),
        }
    }

    /// Asks the path expression that the text spells of the graph itself or of an index, as `Engine::path` does and at its
    /// cost, and says how the answers were found. They are the nodes found last from then on.
    pub fn path(&mut self, alloc: Global, via: Via, text: &[u8]) -> Result<How, QueryError>
        ensures answers { AnswersText (SpellsPathQuery text.now) (is_past program_limits text.now) self.old self.new via result }
        ensures keeps { KeepsAllButViews (engine_in self.old) (engine_in self.new) }
        ensures names { self.new.names ≡ self.old.names }
        ensures err { OnErr result (self.new.nodes ≡ self.old.nodes) }
        ensures walk { self.new.walk ≡ self.old.walk }
        ensures text { self.new.text ≡ self.old.text }
    {
        match PathExpr::parse(alloc, text, &Limits::program()) {
            Ok(expr) => self.ask(alloc, via, &Query::Path(&expr)),
            Err(error) => Err(of_text(error)),
        }
    }

    /// Asks the branching query that the text spells, as `path` does, and at the cost of `Engine::branch`.
    pub fn branch(&mut self, alloc: Global, via: Via, text: &[u8]) -> Result<How, QueryError>
        ensures answers { AnswersText (SpellsBranchQuery text.now) (is_past program_limits text.now) self.old self.new via result }
        ensures keeps { KeepsAllButViews (engine_in self.old) (engine_in self.new) }
        ensures names { self.new.names ≡ self.old.names }
        ensures err { OnErr result (self.new.nodes ≡ self.old.nodes) }
        ensures walk { self.new.walk ≡ self.old.walk }
        ensures text { self.new.text ≡ self.old.text }
    {
        match Branch::parse(alloc, text, &Limits::program()) {
            Ok(query) => self.ask(alloc, via, &Query::Branch(&query)),
            Err(error) => Err(of_text(error)),
        }
    }

    // The walk that shows why a live node answers is kept, if there is one.
    fn explain(&mut self, alloc: Global, node: NodeId, expr: &PathExpr) -> Result<bool, QueryError>
        requires live { IsTrue (is_live (graph_of self.old) node) }
        ensures found { IfOk result (λ b. IsExplained b (graph_of self.old) expr.now node self.new.walk) }
        ensures only { (error : QueryError) → result ≡ Err error → error ≡ QueryError.Memory }
        ensures engine { self.new.engine ≡ self.old.engine }
        ensures names { self.new.names ≡ self.old.names }
        ensures no_walk { result ≡ Ok false → self.new.walk ≡ self.old.walk }
        ensures err { OnErr result (self.new.walk ≡ self.old.walk) }
        ensures nodes { self.new.nodes ≡ self.old.nodes }
        ensures text { self.new.text ≡ self.old.text }
    {
        match explain::<Brand>(alloc, self.engine.graph(), expr, node, Blank::new(1)) {
            Ok(Some(walk)) => {
                self.walk = walk;
                Ok(true)
            }
            Ok(None) => Ok(false),
            Err(Memory) => Err(QueryError::Memory),
        }
    }

    /// Finds the least walk that shows why the node answers the path expression that the text spells: the walk found last
    /// from then on. `false`: it doesn't answer, and the walk found last stays. It takes the time and memory of `walk_proof::find`.
    pub fn why(&mut self, alloc: Global, node: NodeId, text: &[u8]) -> Result<bool, QueryError>
        ensures explained { ExplainsText text.now (is_past program_limits text.now) self.old self.new node result }
        ensures engine { self.new.engine ≡ self.old.engine }
        ensures names { self.new.names ≡ self.old.names }
        ensures no_walk { result ≡ Ok false → self.new.walk ≡ self.old.walk }
        ensures err { OnErr result (self.new.walk ≡ self.old.walk) }
        ensures nodes { self.new.nodes ≡ self.old.nodes }
        ensures text { self.new.text ≡ self.old.text }
    {
        match PathExpr::parse(alloc, text, &Limits::program()) {
            Ok(expr) => {
                if self.engine.graph().is_live(node) {
                    self.explain(alloc, node, &expr)
                } else {
                    Err(QueryError::Refused(Refusal::NoNode))
                }
            }
            Err(error) => Err(of_text(error)),
        }
    }

    /// Whether the numbers are the nodes of a walk that ends in `node` and whose word matches the path expression that the
    /// text spells. It takes the time and memory of `walk_check::holds`.
    pub fn check(
        &self,
        alloc: Global,
        node: NodeId,
        walk: &[NodeId],
        text: &[u8],
    ) -> Result<bool, QueryError>
        ensures { ChecksText text.now (is_past program_limits text.now) self.now node walk.now result }
    {
        match PathExpr::parse(alloc, text, &Limits::program()) {
            Ok(expr) => match holds(alloc, self.engine.graph(), &expr, node, walk) {
                Ok(right) => Ok(right),
                Err(Memory) => Err(QueryError::Memory),
            },
            Err(error) => Err(of_text(error)),
        }
    }

    /// Lists the blocks of an index, as `Engine::extents` does and at its cost: the text made last from then on.
    pub fn extents(&mut self, alloc: Global, via: Via) -> Result<(), QueryError>
        ensures listed { OnOk result (ListsIndex (graph_of self.old) (kept_in (engine_in self.old)) via self.new.text) }
        ensures no_index { (result ≡ Err (QueryError.Refused Refusal.NoIndex)) ↔ (is_kept (kept_in (engine_in self.old)) via ≡ false) }
        ensures keeps { KeepsAllButViews (engine_in self.old) (engine_in self.new) }
        ensures names { self.new.names ≡ self.old.names }
        ensures err { OnErr result (self.new.text ≡ self.old.text) }
        ensures nodes { self.new.nodes ≡ self.old.nodes }
        ensures walk { self.new.walk ≡ self.old.walk }
    {
        match via {
            Via::Data => Err(QueryError::Refused(Refusal::NoIndex)),
            _ => match list::<Brand>(alloc, &mut self.engine, via, Blank::new(1)) {
                Ok(text) => {
                    self.text = text;
                    Ok(())
                }
                Err(error) => Err(of_ask(error)),
            },
        }
    }

    /// Lists the sizes of the graph and of each index that is kept, as `Engine::sizes` does and at its cost: the text made
    /// last from then on.
    pub fn sizes(&mut self, alloc: Global) -> Result<(), Memory>
        ensures measured { OnOk result (ListsSizes (graph_of self.old) (kept_in (engine_in self.old)) self.new.text) }
        ensures keeps { KeepsAllButViews (engine_in self.old) (engine_in self.new) }
        ensures names { self.new.names ≡ self.old.names }
        ensures err { OnErr result (self.new.text ≡ self.old.text) }
        ensures nodes { self.new.nodes ≡ self.old.nodes }
        ensures walk { self.new.walk ≡ self.old.walk }
    {
        match measure::<Brand>(alloc, &mut self.engine, Blank::new(1)) {
            Ok(text) => {
                self.text = text;
                Ok(())
            }
            Err(Memory) => Err(Memory),
        }
    }

    /// Makes the index file of the graph and of the indexes that are kept, as `file_text` does and at its cost: the text made last
    /// from then on. If each node's label is one (`HasLabels`), one file alone is spelled so: it holds the graph and these indexes,
    /// and each of its views fits.
    pub fn save(&mut self, alloc: Global) -> Result<(), Memory>
        ensures saved { OnOk result (SavesFile (graph_of self.old) (kept_in (engine_in self.old)) self.new.text) }
        ensures whole { OnOk result (HasLabels (graph_of self.old) → IsIndexFile (graph_of self.old) (kept_in (engine_in self.old)) self.new.text) }
        ensures keeps { KeepsAllButViews (engine_in self.old) (engine_in self.new) }
        ensures names { self.new.names ≡ self.old.names }
        ensures err { OnErr result (self.new.text ≡ self.old.text) }
        ensures nodes { self.new.nodes ≡ self.old.nodes }
        ensures walk { self.new.walk ≡ self.old.walk }
    {
        match save::<Brand>(alloc, &mut self.engine, Blank::new(1)) {
            Ok(text) => {
                self.text = text;
                Ok(())
            }
            Err(Memory) => Err(Memory),
        }
    }

    /// Drops the index of a kind, as `Engine::forget` does.
    pub fn forget(&mut self, kind: Kind) -> Result<(), Refusal>
        ensures forgotten { IsForgotten kind (engine_in self.old) (engine_in self.new) }
        ensures no_index { (result ≡ Err Refusal.NoIndex) ↔ (has_kind (engine_kinds meaning_of self.old.engine) kind ≡ false) }
        ensures no_other { (r : Refusal) → result ≡ Err r → r ≡ Refusal.NoIndex }
        ensures names { self.new.names ≡ self.old.names }
        ensures found { KeepsFound self.old self.new }
    {
        self.engine.forget(kind)
    }

    /// The answers that were found last, rising. O(1), no memory.
    pub fn nodes(&self) -> &[NodeId]
        ensures { result.now ≡ self.now.nodes }
    {
        self.nodes.as_slice()
    }

    /// The walk that was found last. O(1), no memory.
    pub fn walk(&self) -> &[NodeId]
        ensures { result.now ≡ self.now.walk }
    {
        self.walk.nodes()
    }

    /// The list of blocks or of sizes, or the index file, that was made last. O(1), no memory.
    pub fn text(&self) -> &[u8]
        ensures { result.now ≡ self.now.text }
    {
        self.text.as_bytes()
    }
}
