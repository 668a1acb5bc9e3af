// What a load has taken.
ghost use Rattle.std.specs.Prelude.{◌≡◌, ℕ, List, [], length, position, bytes_eq, Some, None, Ok, OnOk, IfOk, IfSome, IsErrOf, false};
ghost use Rattle.change_spec.specs.Steps.{node, link};
ghost use Rattle.graph_load.specs.TripleGraphs.{need, changed, linked, with_triple, nothing_loaded};
ghost use Rattle.triple_names.specs.Items.{predicate_label};
ghost use Rattle.triple_names.specs.NameTables.{names_by};
ghost use Rattle.term_table.specs.Terms.{number_of, place_in};
ghost use Rattle.term_table.specs.FoundTerms.{IsFound, IsFoundAs};
ghost use Rattle.triples_read.specs.declared.term.Term.{Term as TermSeen};
ghost use Rattle.graph_load.specs.Hashed.{triple_of};
ghost use Rattle.graph_load.specs.Loaders.{ArePlaces, is_known, load_state, IsNodeOf, Holds, IsSoundLoader, LoaderStep, IsStopped, IsTaken, IsUntaken};

pub(crate) mod ahead;

use crate::hashed::HashedTriple;
use crate::limited_changes::{Stop, add_node, link};
use crate::loader::ahead::Hints;
use crate::term_changes::TermChanges;
use label_graph::Graph;
use px_base::{Limits, Memory, NodeId, Text};
use std::alloc::Global;
use term_table::{Found, HashedTerm, TermTable};
use triple_names::{Key, Names, Predicates, TripleTable};

/// The graph of the triples that were taken, and the tables by which their terms and the triples are found.
#[derive(Drop)]
pub(crate) struct Loader {
    graph: Graph,
    terms: TermTable,
    predicates: Predicates,
    known: TripleTable,
    term_changes: TermChanges,
}

/// Where the parts of a triple stand: its subject and its object among the terms, its predicate among the
/// predicates.
#[derive(Clone, Copy)]
struct Places {
    subject: Option<Found>,
    predicate: Option<u32>,
    object: Option<Found>,
}

impl Loader {
    /// Nothing is loaded.
    pub(crate) fn new(alloc: Global) -> Result<Loader, Memory>
        ensures sound { IfOk result IsSoundLoader }
        ensures nothing { IfOk result (λ r. Holds r []) }
        ensures empty { IfOk result (λ r. load_state r [] ≡ nothing_loaded) }
    {
        Ok(Loader {
            graph: Graph::new(alloc)?,
            terms: TermTable::new(alloc)?,
            predicates: Predicates::new(alloc),
            known: TripleTable::new(alloc),
            term_changes: TermChanges::new(alloc)?,
        })
    }

    /// The graph, without the tables.
    pub(crate) fn into_graph(self) -> Graph
        ensures { result ≡ self.graph }
    {
        self.graph
    }

    /// The graph, and the numbers of what is loaded.
    pub(crate) fn into_parts(self, alloc: Global) -> (Graph, Names)
        requires { IsSoundLoader self }
        ensures graph { result.0 ≡ self.graph }
        ensures names { result.1 ≡ names_by self.terms self.predicates self.known [] [] }
    {
        let names = Names::from_tables(alloc, self.terms, self.predicates, self.known);
        (self.graph, names)
    }

    // Where the parts of a triple stand. The hints are tried first.
    fn find(&self, triple: &HashedTriple, hints: Option<Hints>) -> Places
        ensures { ArePlaces self.now (triple_of triple.now) result }
    {
        Places {
            subject: self
                .terms
                .find_hinted(&triple.subject, hints.map(|h| h.subject)),
            predicate: self
                .predicates
                .find_hinted(&triple.predicate, hints.and_then(|h| h.predicate)),
            object: self
                .terms
                .find_hinted(&triple.object, hints.map(|h| h.object)),
        }
    }

    // Whether the triple whose parts stand there is loaded.
    fn is_known(&self, triple: &HashedTriple, places: &Places) -> bool
        requires sound { IsSoundLoader self.now }
        requires places { ArePlaces self.now (triple_of triple.now) places.now }
        ensures { result ≡ is_known self.now (triple_of triple.now) }
    {
        let Some(subject) = places.subject else {
            return false;
        };
        let Some(predicate) = places.predicate else {
            return false;
        };
        let Some(object) = places.object else {
            return false;
        };
        self.known.contains(Key {
            subject: subject.place,
            predicate,
            object: object.place,
        })
    }

    // Makes a node of a term that isn't one.
    fn add_term(&mut self, alloc: Global, limits: &Limits, term: &HashedTerm) -> Result<Found, Stop>
        requires sound { IsSoundLoader self.old }
        requires absent { number_of self.old.terms term.now ≡ None }
        ensures steps { OnOk result (LoaderStep (need limits.now term.now) self.old self.new) }
        ensures place { IfOk result (λ f. place_in self.new.terms term.now ≡ Some f.place) }
        ensures number { IfOk result (λ f. number_of self.new.terms term.now ≡ Some f.number) }
        ensures limit { IsErrOf result Stop.Limit → IsStopped (need limits.now term.now) self.old }
    {
        let number = add_node(
            alloc,
            &mut self.graph,
            self.term_changes.node(term.term()),
            limits,
        )?;
        let place = self.terms.insert(term, number)?;
        Ok(Found { place, number })
    }

    // Where the term stands; it becomes a node if it isn't one. `found` is what a look-up gave.
    fn need(
        &mut self,
        alloc: Global,
        limits: &Limits,
        term: &HashedTerm,
        found: Option<Found>,
    ) -> Result<Found, Stop>
        requires sound { IsSoundLoader self.old }
        requires found { IsFoundAs self.old.terms term.now found }
        ensures steps { OnOk result (LoaderStep (need limits.now term.now) self.old self.new) }
        ensures place { IfOk result (λ f. place_in self.new.terms term.now ≡ Some f.place) }
        ensures number { IfOk result (λ f. number_of self.new.terms term.now ≡ Some f.number) }
        ensures limit { IsErrOf result Stop.Limit → IsStopped (need limits.now term.now) self.old }
    {
        if let Some(found) = found {
            return Ok(found);
        }
        self.add_term(alloc, limits, term)
    }

    // Looks a term up again that was looked up before more terms came: if it was found, it still stands there.
    fn find_again(&self, term: &HashedTerm, found: Option<Found>) -> Option<Found>
        requires found { IfSome found (IsFound self.now.terms term.now) }
        ensures { IsFoundAs self.now.terms term.now result }
    {
        match found {
            Some(_) => found,
            None => self.terms.find_hashed(term),
        }
    }

    // Adds the node of a triple, and gives the place of its predicate and the number of the node. The place may
    // be known.
    fn add_node(
        &mut self,
        alloc: Global,
        limits: &Limits,
        predicate: &Text,
        found: Option<u32>,
    ) -> Result<(u32, NodeId), Stop>
        requires sound { IsSoundLoader self.old }
        requires found { IfSome found (λ p. position (bytes_eq predicate.now) self.old.predicates ≡ Some p) }
        ensures steps { OnOk result (LoaderStep (changed limits.now (node (predicate_label predicate.now))) self.old self.new) }
        ensures place { IfOk result (λ f. position (bytes_eq predicate.now) self.new.predicates ≡ Some f.0) }
        ensures number { IfOk result (λ f. f.1 ≡ length self.old.graph.graph.allocated) }
        ensures limit { IsErrOf result Stop.Limit → IsStopped (changed limits.now (node (predicate_label predicate.now))) self.old }
    {
        if self.graph.created() >= limits.nodes {
            return Err(Stop::Limit);
        }
        let place = self.predicates.intern(alloc, predicate, found)?;
        let number = add_node(alloc, &mut self.graph, self.predicates.node(place), limits)?;
        Ok((place, number))
    }

    // Adds an edge.
    fn link(&mut self, limits: &Limits, from: NodeId, to: NodeId) -> Result<(), Stop>
        requires sound { IsSoundLoader self.old }
        ensures steps { OnOk result (LoaderStep (changed limits.now (link from to)) self.old self.new) }
        ensures terms { OnOk result (self.new.terms ≡ self.old.terms) }
        ensures limit { IsErrOf result Stop.Limit → IsStopped (changed limits.now (link from to)) self.old }
    {
        link(&mut self.graph, from, to, limits)
    }

    // Makes a node of the object of a triple, and adds the edges from its subject to its own node and on to
    // the object. It gives the place of the object.
    fn join(
        &mut self,
        alloc: Global,
        limits: &Limits,
        from: NodeId,
        node: NodeId,
        object: &HashedTerm,
        found: Option<Found>,
    ) -> Result<u32, Stop>
        requires sound { IsSoundLoader self.old }
        requires found { IfSome found (IsFound self.old.terms object.now) }
        ensures steps { (x : TermSeen) → IsNodeOf self.old x from → OnOk result (LoaderStep (linked limits.now x node object.now) self.old self.new) }
        ensures place { IfOk result (λ p. place_in self.new.terms object.now ≡ Some p) }
        ensures limit { IsErrOf result Stop.Limit → (x : TermSeen) → IsNodeOf self.old x from → IsStopped (linked limits.now x node object.now) self.old }
    {
        let found = self.find_again(object, found);
        let onto = self.need(alloc, limits, object, found)?;
        self.link(limits, from, node)?;
        self.link(limits, node, onto.number)?;
        Ok(onto.place)
    }

    // Adds the nodes and the edges of a triple that isn't loaded.
    fn add_new(
        &mut self,
        alloc: Global,
        limits: &Limits,
        triple: &HashedTriple,
        places: &Places,
    ) -> Result<(), Stop>
        requires sound { IsSoundLoader self.old }
        requires unknown { is_known self.old (triple_of triple.now) ≡ false }
        requires places { ArePlaces self.old (triple_of triple.now) places.now }
        ensures taken { OnOk result (IsTaken limits.now (triple_of triple.now) self.old self.new) }
        ensures limit { IsErrOf result Stop.Limit → IsUntaken limits.now (triple_of triple.now) self.old }
    {
        let from = self.need(alloc, limits, &triple.subject, places.subject)?;
        let (predicate, node) = self.add_node(alloc, limits, &triple.predicate, places.predicate)?;
        let object = self.join(
            alloc,
            limits,
            from.number,
            node,
            &triple.object,
            places.object,
        )?;
        let key = Key {
            subject: from.place,
            predicate,
            object,
        };
        self.known.add(key, node)?;
        Ok(())
    }

    /// Loads a triple: unless it is loaded already, its nodes and edges are added. It takes constant time beside that
    /// of hashing the triple. The hints change only how fast its terms are found.
    pub(crate) fn add(
        &mut self,
        alloc: Global,
        limits: &Limits,
        triple: &HashedTriple,
        hints: Option<Hints>,
    ) -> Result<(), Stop>
        requires sound { IsSoundLoader self.old }
        ensures taken { OnOk result (IsTaken limits.now (triple_of triple.now) self.old self.new) }
        ensures limit { IsErrOf result Stop.Limit → IsUntaken limits.now (triple_of triple.now) self.old }
    {
        let places = self.find(triple, hints);
        if self.is_known(triple, &places) {
            return Ok(());
        }
        self.add_new(alloc, limits, triple, &places)
    }
}
