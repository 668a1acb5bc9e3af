// Noting the numbers of a triple's parts, with memory that is reserved before the change is made.
ghost use Rattle.std.specs.Prelude.{◌≡◌, IsTrue, IsSome, Some, None, OnOk, OnErr, IfOk, nat_eq, position, bytes_eq};
ghost use Rattle.std.specs.Map.{keys_of, lookup};
ghost use Rattle.term_table.specs.Entries.{Begins};
ghost use Rattle.term_table.specs.Terms.{place_in};
ghost use Rattle.triples_read.specs.declared.term.Triple.{Triple as TripleSeen};
ghost use Rattle.triple_names.specs.Names.{AreSameNames};
ghost use Rattle.triple_names.specs.TripleChanges.{noted};
ghost use Rattle.triple_names.specs.Represented.{is_among};
ghost use Rattle.triple_names.specs.TableIndexes.{same_key, HasKey};
ghost use Rattle.triple_names.specs.NameTables.{with_entry, HasPlace, HasPlaces, IsSetAt, IsSetAtKey, NumbersStay};

use crate::inserting::Placed;
use crate::name_tables::{LaterTerms, LaterTriples, Names, find_key};
use crate::predicates::Predicates;
use crate::triple_table::Key;
use px_base::{Memory, NodeId, Text};
use std::alloc::Global;
use term_table::{HashedTerm, TermTable};
use triples_read::{Term, Triple};

/// There are no more predicates than this.
const PREDICATES: u32 = 1 << 30;

fn copy_tag(alloc: Global, tag: &Option<Text>) -> Result<Option<Text>, Memory>
    ensures { IfOk result (λ t. t ≡ tag.now) }
{
    match tag {
        Some(tag) => Ok(Some(tag.copy(alloc)?)),
        None => Ok(None),
    }
}

fn copy_term(alloc: Global, term: &Term) -> Result<Term, Memory>
    ensures { IfOk result (λ t. t ≡ term.now) }
{
    match term {
        Term::Iri(iri) => Ok(Term::Iri(iri.copy(alloc)?)),
        Term::Blank(label) => Ok(Term::Blank(label.copy(alloc)?)),
        Term::Literal {
            text,
            datatype,
            tag,
        } => Ok(Term::Literal {
            text: text.copy(alloc)?,
            datatype: datatype.copy(alloc)?,
            tag: copy_tag(alloc, tag)?,
        }),
    }
}

// Reserves the place of a term, which has that number until another is noted.
fn reserve_place(later: &mut LaterTerms, place: u32, number: NodeId) -> Result<(), Memory>
    ensures added { OnOk result (later.new.entries ≡ with_entry (nat_eq place) (place, Some number) later.old.entries) }
    ensures err { OnErr result (later.new.entries ≡ later.old.entries) }
{
    if later.contains_key(&place) {
        return Ok(());
    }
    later.insert(place, Some(number))?;
    Ok(())
}

// Puts in a term that isn't there. It has no number. An entry of its place may be left of a call that failed.
fn add_term(
    alloc: Global,
    terms: &mut TermTable,
    later: &mut LaterTerms,
    term: &Term,
) -> Result<u32, Memory>
    requires { place_in terms.old term.now ≡ None }
    ensures stay { NumbersStay terms.old later.old.entries terms.new later.new.entries }
    ensures place { IfOk result (HasPlace terms.new later.new.entries term.now) }
{
    let copy = HashedTerm::new(copy_term(alloc, term)?);
    later.insert(terms.len(), None)?;
    let place = terms.insert(&copy, 0)?;
    Ok(place)
}

// The place of a term, which is reserved.
fn reserve_term(
    alloc: Global,
    terms: &mut TermTable,
    later: &mut LaterTerms,
    term: &Term,
) -> Result<u32, Memory>
    ensures stay { NumbersStay terms.old later.old.entries terms.new later.new.entries }
    ensures place { IfOk result (HasPlace terms.new later.new.entries term.now) }
{
    let Some(found) = terms.find(term) else {
        return add_term(alloc, terms, later, term);
    };
    reserve_place(later, found.place, found.number)?;
    Ok(found.place)
}

// The place of a predicate, which is put in if it isn't there.
fn reserve_predicate(alloc: Global, predicates: &mut Predicates, iri: &Text) -> Result<u32, Memory>
    ensures begins { Begins predicates.old predicates.new }
    ensures place { IfOk result (λ p. position (bytes_eq iri.now) predicates.new ≡ Some p) }
{
    if predicates.len() >= PREDICATES {
        return Err(Memory);
    }
    predicates.intern(alloc, iri, None)
}

// The key of a triple. The places of its terms are reserved.
fn reserve_parts(
    alloc: Global,
    terms: &mut TermTable,
    predicates: &mut Predicates,
    later: &mut LaterTerms,
    triple: &Triple,
) -> Result<Key, Memory>
    ensures stay { NumbersStay terms.old later.old.entries terms.new later.new.entries }
    ensures begins { Begins predicates.old predicates.new }
    ensures key { IfOk result (HasKey terms.new predicates.new triple.now) }
    ensures places { IfOk result (HasPlaces later.new.entries) }
{
    let subject = reserve_term(alloc, terms, later, &triple.subject)?;
    let predicate = reserve_predicate(alloc, predicates, &triple.predicate)?;
    let object = reserve_term(alloc, terms, later, &triple.object)?;
    Ok(Key {
        subject,
        predicate,
        object,
    })
}

// Reserves the key of a triple, which has that number until another is noted.
fn reserve_key(later: &mut LaterTriples, key: Key, number: Option<NodeId>) -> Result<(), Memory>
    ensures added { OnOk result (later.new.entries ≡ with_entry (same_key key) (key, number) later.old.entries) }
    ensures err { OnErr result (later.new.entries ≡ later.old.entries) }
{
    if later.contains_key(&key) {
        return Ok(());
    }
    later.insert(key, number)?;
    Ok(())
}

// Notes the number of a term by its place, which is reserved.
fn note_term(later: &mut LaterTerms, place: u32, number: NodeId)
    requires { IsSome (lookup (nat_eq place) later.old.entries) }
    ensures { IsSetAt place (Some number) later.old.entries later.new.entries }
{
    match later.get_mut(&place) {
        Some(noted) => *noted = Some(number),
        None => unreachable!(),
    }
}

// Notes the number of a triple by its key, which is reserved.
fn note_triple(later: &mut LaterTriples, key: Key, number: NodeId)
    requires { IsSome (lookup (same_key key) later.old.entries) }
    ensures keys { keys_of later.new.entries ≡ keys_of later.old.entries }
    ensures set { IsSetAtKey key number later.old.entries later.new.entries }
{
    match later.get_mut(&key) {
        Some(noted) => *noted = Some(number),
        None => unreachable!(),
    }
}

impl Names {
    /// Reserves the memory to note the numbers of a triple's parts. No number changes, also where `Memory` comes. Expected O(b) for
    /// texts of b bytes, amortized; it takes the memory that `Names` states.
    pub fn stage(&mut self, alloc: Global, triple: &Triple) -> Result<(), Memory>
        // No number changes, also where memory is wanting.
        ensures names { AreSameNames self.new.names self.old.names }
        // Its numbers can be noted,
        ensures reserved { OnOk result (IsTrue (is_among self.new.reserved triple.now)) }
        // and those of each triple that was staged before.
        ensures kept { (t : TripleSeen) → IsTrue (is_among self.old.reserved t) → IsTrue (is_among self.new.reserved t) }
    {
        let key = reserve_parts(
            alloc,
            &mut self.terms,
            &mut self.predicates,
            &mut self.later_terms,
            triple,
        )?;
        let number = self.triples.get(key);
        reserve_key(&mut self.later_triples, key, number)?;
        Ok(())
    }

    /// Notes the numbers of a triple's parts, which are theirs from now on. It can't fail: `stage` reserved the memory. Expected
    /// O(b) for texts of b bytes, no memory.
    pub fn note(&mut self, triple: Triple, placed: Placed)
        // It is staged.
        requires { IsTrue (is_among self.old.reserved triple) }
        // The three numbers are those of its parts, and all others stay.
        ensures names { AreSameNames self.new.names (noted triple placed self.old.names) }
        // It stays staged, with all others.
        ensures reserved { self.new.reserved ≡ self.old.reserved }
    {
        let Some(key) = find_key(&self.terms, &self.predicates, &triple) else {
            unreachable!()
        };
        note_term(&mut self.later_terms, key.subject, placed.subject);
        note_term(&mut self.later_terms, key.object, placed.object);
        note_triple(&mut self.later_triples, key, placed.triple);
    }
}
