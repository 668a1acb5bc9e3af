// Triples are looked up ahead, a batch at once, so that the processor waits for the memory of all of them together. This
// gives hints, and no contract speaks of them.
ghost use Rattle.std.specs.Prelude.{◌≡◌, ◌<◌};

use crate::batch::Waiting;
use crate::hashed::HashedTriple;
use crate::loader::Loader;
use label_graph::Graph;
use px_base::{Memory, NodeId, Steps};
use std::alloc::Global;
use std::marker::Brand;
use std::sync::ledger::{Blank, Ledger};
use term_table::{HashedTerm, Hint};
use triple_names::Key;
use triples_read::Term;

/// Where the terms of a triple may stand, and where its predicate does.
#[derive(Clone, Copy)]
pub(crate) struct Hints {
    pub(crate) subject: Hint,
    pub(crate) predicate: Option<u32>,
    pub(crate) object: Hint,
}

/// What was found out about the triples of a batch, in their order.
#[derive(Drop)]
pub(crate) struct Lookahead {
    triples: Vec<Hints>,
}

// The stages. Each goes over all triples, and reads at addresses that the stages before it have read. What it reads decides
// which hints are left, so that the compiler keeps those reads.
impl Lookahead {
    /// Nothing was looked up.
    pub(crate) fn new(alloc: Global) -> Lookahead {
        Lookahead {
            triples: Vec::new(alloc),
        }
    }

    /// Looks the triples of a batch up.
    pub(crate) fn look_up(&mut self, loader: &Loader, waiting: &[Waiting]) -> Result<(), Memory> {
        self.hash(loader, waiting)?;
        self.enter_chains(loader);
        self.pass_others(loader);
        self.compare_terms(loader, waiting);
        self.compare_ends(loader, waiting);
        Ok(())
    }

    /// The hints for a triple, by its place in the batch.
    pub(crate) fn hints(&self, place: usize) -> Option<Hints> {
        let hints = self.triples.get(place)?;
        Some(*hints)
    }

    fn hash(&mut self, loader: &Loader, waiting: &[Waiting]) -> Result<(), Memory> {
        self.triples.clear();
        for w in waiting {
            self.triples.push(loader.hints(&w.triple))?;
        }
        Ok(())
    }

    fn enter_chains(&mut self, loader: &Loader) {
        for hints in self.triples.iter_mut() {
            *hints = loader.enter_chains(*hints);
        }
    }

    fn pass_others(&mut self, loader: &Loader) {
        for hints in self.triples.iter_mut() {
            *hints = loader.pass_others(*hints);
        }
    }

    fn compare_terms(&mut self, loader: &Loader, waiting: &[Waiting]) {
        for n in 0..waiting.len() {
            if let Some(hints) = self.triples.get_mut(n) {
                *hints = loader.compare_terms(&waiting[n].triple, *hints);
            }
        }
    }

    fn compare_ends(&mut self, loader: &Loader, waiting: &[Waiting]) {
        for n in 0..waiting.len() {
            if let Some(hints) = self.triples.get_mut(n) {
                *hints = loader.compare_ends(&waiting[n].triple, *hints);
            }
        }
    }
}

// What the stages do for one triple.
impl Loader {
    // The hints for a triple, which lead to no terms yet.
    fn hints(&self, triple: &HashedTriple) -> Hints {
        Hints {
            subject: Hint::of(&triple.subject),
            predicate: self.predicates.find(&triple.predicate),
            object: Hint::of(&triple.object),
        }
    }

    fn enter_chains(&self, hints: Hints) -> Hints {
        Hints {
            subject: self.terms.enter_chain(hints.subject),
            object: self.terms.enter_chain(hints.object),
            ..hints
        }
    }

    fn pass_others(&self, hints: Hints) -> Hints {
        Hints {
            subject: self.terms.pass_others(hints.subject),
            object: self.terms.pass_others(hints.object),
            ..hints
        }
    }

    // Drops the hints that lead to terms with another first byte, or to no node.
    fn compare_terms(&self, triple: &HashedTriple, hints: Hints) -> Hints {
        Hints {
            subject: self.compare_term(&triple.subject, hints.subject),
            object: self.compare_term(&triple.object, hints.object),
            ..hints
        }
    }

    fn compare_term(&self, term: &HashedTerm, hint: Hint) -> Hint {
        if self.terms.first_byte(hint) == first_byte(term.term()) && self.has_node(hint) {
            hint
        } else {
            Hint::of(term)
        }
    }

    // Reads where the triple would be put: the set of the known triples, and, if it isn't there, the ends of two lists of
    // neighbours. Where those neighbours aren't nodes, the hints are dropped.
    fn compare_ends(&self, triple: &HashedTriple, hints: Hints) -> Hints {
        if self.is_neighbour(hints) == Some(true) || self.has_ends(hints) {
            hints
        } else {
            self.hints(triple)
        }
    }

    fn is_neighbour(&self, hints: Hints) -> Option<bool> {
        Some(
            self.known.contains(Key {
                subject: hints.subject.place()?,
                predicate: hints.predicate?,
                object: hints.object.place()?,
            }),
        )
    }

    fn has_node(&self, hint: Hint) -> bool {
        match self.terms.number(hint) {
            Some(node) => self.graph.is_live(node),
            None => false,
        }
    }

    // Whether the last child of the subject and the last parent of the object, where there are any, have allocated numbers.
    fn has_ends(&self, hints: Hints) -> bool {
        self.is_allocated(self.child(hints.subject)) && self.is_allocated(self.parent(hints.object))
    }

    fn is_allocated(&self, node: Option<NodeId>) -> bool {
        match node {
            Some(node) => node < self.graph.created(),
            None => true,
        }
    }

    fn child(&self, hint: Hint) -> Option<NodeId> {
        some_child::<Brand>(&self.graph, self.terms.number(hint)?, Blank::new(1))
    }

    fn parent(&self, hint: Hint) -> Option<NodeId> {
        some_parent::<Brand>(&self.graph, self.terms.number(hint)?, Blank::new(1))
    }
}

// The first byte of a term's own text.
fn first_byte(term: &Term) -> Option<u8> {
    match term {
        Term::Iri(text) | Term::Blank(text) | Term::Literal { text, .. } => {
            text.as_bytes().first().copied()
        }
    }
}

fn some_child<L: Ledger>(graph: &Graph, n: NodeId, blank: Blank) -> Option<NodeId>
    requires name { blank.name ≡ L.name }
    requires parts { blank.parts ≡ L.parts }
    requires some { 0 < blank.parts }
{
    let mut steps = Steps::<L>::new(blank);
    graph.any_child(n, &mut steps)
}

fn some_parent<L: Ledger>(graph: &Graph, n: NodeId, blank: Blank) -> Option<NodeId>
    requires name { blank.name ≡ L.name }
    requires parts { blank.parts ≡ L.parts }
    requires some { 0 < blank.parts }
{
    let mut steps = Steps::<L>::new(blank);
    graph.any_parent(n, &mut steps)
}
