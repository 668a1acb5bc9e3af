// The numbers of terms and of triples.
ghost use Rattle.std.specs.Prelude.{◌≡◌, [], Some, IfOk, IfSome, IfNone, nat_eq};
ghost use Rattle.std.specs.Map.{lookup};
ghost use Rattle.term_table.specs.Terms.{number_of};
ghost use Rattle.triple_names.specs.Names.{no_names, triple_number};
ghost use Rattle.triple_names.specs.TableIndexes.{same_key, AreKeysIn, HasKey, LacksKey};
ghost use Rattle.triple_names.specs.NameTables.{later_or, term_number, names_by};

use crate::predicates::Predicates;
use crate::triple_table::{Key, TripleTable};
use indexmap::IndexMap;
use px_base::{Memory, NodeId};
use std::alloc::Global;
use std::marker::Model;
use term_table::{Found, TermTable};
use triples_read::{Term, Triple};

/// What was noted of terms since the load, by their places in the table: it is in front of the table's number. `None` is that of a
/// term that was staged and has no number yet.
pub(crate) type LaterTerms = IndexMap<u32, Option<NodeId>>;

/// The same of triples, by their keys.
pub(crate) type LaterTriples = IndexMap<Key, Option<NodeId>>;

/// The numbers of the nodes of terms and of triples: for each that was ever given one, the last one. It is seen as two lists of
/// what has a number, and the triples that are staged: `stage` reserved the memory to note their numbers.
///
/// A term takes the memory that `TermTable` states for it, and a triple an entry of a hash table. What was staged takes one more
/// entry for its triple, and one for each of its terms.
pub struct Names {
    pub(crate) terms: TermTable,
    pub(crate) predicates: Predicates,
    pub(crate) triples: TripleTable,
    pub(crate) later_terms: LaterTerms,
    pub(crate) later_triples: LaterTriples,
}

impl Drop for Names {
    // By hand, so that no crate above proves how the tables are dropped.
    fn drop(self) {
        let Names {
            terms,
            predicates,
            triples,
            later_terms,
            later_triples,
        } = self;
        drop(terms);
        drop(predicates);
        drop(triples);
        drop(later_terms);
        drop(later_triples);
    }
}

impl Model for Names {
    ghost use Rattle.triple_names.specs.Names.{ReservedNames};
    ghost use Rattle.triple_names.specs.NameCodes.{names_code};
    ghost use Rattle.triple_names.specs.NameTables.{names_by, AreNameTables};

    ghost Value = { ReservedNames };

    ghost coded = { names_code };

    ghost view = { λ n. names_by n.terms n.predicates n.triples n.later_terms.entries n.later_triples.entries };

    ghost invariant = { λ n. AreNameTables n.terms n.predicates n.triples n.later_terms.entries n.later_triples.entries };
}

impl Names {
    /// No numbers. O(1); it takes 64 bytes.
    pub fn new(alloc: Global) -> Result<Names, Memory>
        ensures names { IfOk result (λ n. n.names ≡ no_names) }
        ensures reserved { IfOk result (λ n. n.reserved ≡ []) }
    {
        let terms = TermTable::new(alloc)?;
        Ok(Names {
            terms,
            predicates: Predicates::new(alloc),
            triples: TripleTable::new(alloc),
            later_terms: IndexMap::new(alloc),
            later_triples: IndexMap::new(alloc),
        })
    }

    /// The numbers in these tables, where the places of each key are those of a term, a predicate and a term. O(1), no memory.
    pub fn from_tables(
        alloc: Global,
        terms: TermTable,
        predicates: Predicates,
        triples: TripleTable,
    ) -> Names
        requires { AreKeysIn terms predicates triples }
        ensures { result ≡ names_by terms predicates triples [] [] }
    {
        Names {
            terms,
            predicates,
            triples,
            later_terms: IndexMap::new(alloc),
            later_triples: IndexMap::new(alloc),
        }
    }

    /// The number of a term, and `None` exactly where it has none. Expected O(b) for texts of b bytes, no memory.
    pub fn term(&self, term: &Term) -> Option<NodeId>
        ensures { result ≡ number_of self.now.names.terms term.now }
    {
        number_of_term(&self.terms, &self.later_terms, term)
    }

    /// The number of a triple, and `None` exactly where it has none. Expected O(b) for texts of b bytes, no memory.
    pub fn triple(&self, triple: &Triple) -> Option<NodeId>
        ensures { result ≡ triple_number self.now.names.triples triple.now }
    {
        let Some(key) = find_key(&self.terms, &self.predicates, triple) else {
            return None;
        };
        number_of_key(&self.triples, &self.later_triples, key)
    }
}

// The number of the term that stands there.
fn number_of_found(later: &LaterTerms, found: Found) -> Option<NodeId>
    ensures { result ≡ later_or (lookup (nat_eq found.place) later.now.entries) (Some found.number) }
{
    match later.get(&found.place) {
        Some(number) => *number,
        None => Some(found.number),
    }
}

fn number_of_term(terms: &TermTable, later: &LaterTerms, term: &Term) -> Option<NodeId>
    ensures { result ≡ term_number terms.now later.now.entries term.now }
{
    let Some(found) = terms.find(term) else {
        return None;
    };
    number_of_found(later, found)
}

/// Where the parts of a triple stand, if all of them do.
pub(crate) fn find_key(terms: &TermTable, predicates: &Predicates, triple: &Triple) -> Option<Key>
    ensures found { IfSome result (HasKey terms.now predicates.now triple.now) }
    ensures none { IfNone result (LacksKey terms.now predicates.now triple.now) }
{
    let Some(subject) = terms.find(&triple.subject) else {
        return None;
    };
    let Some(predicate) = predicates.find(&triple.predicate) else {
        return None;
    };
    let Some(object) = terms.find(&triple.object) else {
        return None;
    };
    Some(Key {
        subject: subject.place,
        predicate,
        object: object.place,
    })
}

fn number_of_key(triples: &TripleTable, later: &LaterTriples, key: Key) -> Option<NodeId>
    ensures { result ≡ later_or (lookup (same_key key) later.now.entries) (lookup (same_key key) triples.now) }
{
    match later.get(&key) {
        Some(number) => *number,
        None => triples.get(key),
    }
}
