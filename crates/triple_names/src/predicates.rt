// The predicates of the triples that are loaded.
ghost use Rattle.std.specs.Prelude.{◌≡◌, ◌<◌, ◌^◌, ◌++◌, ◌∷◌, [], length, position, bytes_eq, Some, None, OnOk, OnErr, IfOk, IfSome, false, true};
ghost use Rattle.std.specs.List.{list_any};
ghost use Rattle.change_spec.specs.Steps.{node};
ghost use Rattle.triple_names.specs.Items.{predicate_label};
ghost use Rattle.triple_names.specs.TableIndexes.{predicate_at, with_predicate};

use graph_update::{Change, Step};
use indexmap::IndexMap;
use px_base::{Memory, Text};
use std::alloc::Global;
use std::marker::Model;
use triples_read::{Term, write_term};

/// The predicates, each once, in the order in which they came. Beside each stands the change that adds the
/// node of a triple with it, so that a label is spelled once and not for each triple. They are found by hash.
#[derive(Drop)]
pub struct Predicates {
    table: IndexMap<Text, Change>,
}

impl Model for Predicates {
    ghost use Rattle.std.specs.Prelude.{List, ℕ, ◌≤◌, ◌^◌, length};
    ghost use Rattle.std.specs.Map.{keys_of};
    ghost use Rattle.triple_names.specs.TableIndexes.{AddLabels};

    ghost Value = { List (List ℕ) };

    ghost view = { λ p. keys_of p.table.entries };

    ghost invariant = { λ p. (length p.table.entries ≤ 2 ^ 30) × AddLabels p.table.entries };
}

// The change that adds the node of a triple with the predicate.
fn node_by(alloc: Global, predicate: &Text) -> Result<Change, Memory>
    ensures { IfOk result (λ c. c ≡ node (predicate_label predicate.now) ∷ []) }
{
    let term = Term::Iri(predicate.copy(alloc)?);
    Change::one(alloc, Step::Node(write_term(alloc, &term)?))
}

impl Predicates {
    /// No predicates.
    pub fn new(alloc: Global) -> Predicates
        ensures { result ≡ [] }
    {
        Predicates {
            table: IndexMap::new(alloc),
        }
    }

    /// How many there are.
    pub fn len(&self) -> u32
        ensures { result ≡ length self.now }
    {
        self.table.len() as u32
    }

    /// The place of the predicate.
    pub fn find(&self, iri: &Text) -> Option<u32>
        ensures { result ≡ position (bytes_eq iri.now) self.now }
    {
        let place = self.table.get_index_of(iri)?;
        Some(place as u32)
    }

    // Whether the predicate stands at that place.
    fn is_at(&self, place: u32, iri: &Text) -> bool
        ensures { result ≡ true → position (bytes_eq iri.now) self.now ≡ Some place }
    {
        // Called for its contract: the predicates are distinct.
        let _known = self.table.len();
        match self.table.get_index(place as usize) {
            Some((text, _)) => *text == *iri,
            None => false,
        }
    }

    /// The place of the predicate. A place where it may stand is tried first.
    pub fn find_hinted(&self, iri: &Text, hint: Option<u32>) -> Option<u32>
        ensures { result ≡ position (bytes_eq iri.now) self.now }
    {
        match hint {
            Some(place) if self.is_at(place, iri) => Some(place),
            _ => self.find(iri),
        }
    }

    /// The change that adds the node of a triple with the predicate at that place.
    pub fn node(&self, place: u32) -> &Change
        requires { place < length self.now }
        ensures { result.now ≡ node (predicate_label (predicate_at self.now place)) ∷ [] }
    {
        let Some((_, node)) = self.table.get_index(place as usize) else {
            unreachable!()
        };
        node
    }

    // Puts in a predicate that isn't there.
    fn add(&mut self, alloc: Global, iri: Text) -> Result<(), Memory>
        requires few { length self.old < 2 ^ 30 }
        requires absent { list_any (bytes_eq iri) self.old ≡ false }
        ensures added { OnOk result (self.new ≡ self.old ++ iri ∷ []) }
        ensures err { OnErr result (self.new ≡ self.old) }
    {
        let node = node_by(alloc, &iri)?;
        self.table.insert(iri, node)?;
        Ok(())
    }

    /// The place of the predicate, which may be known. The predicate is put in if it isn't there.
    pub fn intern(&mut self, alloc: Global, iri: &Text, found: Option<u32>) -> Result<u32, Memory>
        requires few { length self.old < 2 ^ 30 }
        requires found { IfSome found (λ p. position (bytes_eq iri.now) self.old ≡ Some p) }
        ensures added { OnOk result (self.new ≡ with_predicate self.old iri.now) }
        ensures err { OnErr result (self.new ≡ self.old) }
        ensures place { IfOk result (λ p. position (bytes_eq iri.now) self.new ≡ Some p) }
        ensures at { IfOk result (λ p. predicate_at self.new p ≡ iri.now) }
    {
        if let Some(place) = found {
            return Ok(place);
        }
        if let Some(place) = self.find(iri) {
            return Ok(place);
        }
        let place = self.len();
        self.add(alloc, iri.copy(alloc)?)?;
        Ok(place)
    }
}
