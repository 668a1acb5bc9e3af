// The table of terms.
ghost use Rattle.std.specs.Prelude.{◌≡◌, ◌<◌, ◌++◌, ◌∷◌, [], length, Some, None, OnOk, OnErr, IfOk, IfSome};
ghost use Rattle.triples_read.specs.declared.term.Term.{Term as Value_of_term};
ghost use Rattle.term_table.specs.Terms.{number_of};
ghost use Rattle.term_table.specs.TermParts.{parts_of, parts_value, hash_of};
ghost use Rattle.term_table.specs.Entries.{IsTermTable, LackParts, terms_of};
ghost use Rattle.term_table.specs.FoundTerms.{IsFoundAs};

use crate::entries::{Entry, has_parts, read_entry};
use crate::hashed::HashedTerm;
use crate::parts::{Parts, hash_parts, parts_of};
use crate::storing::store;
use hash_index::HashIndex;
use px_base::{Memory, NodeId};
use std::alloc::Global;
use std::marker::Model;
use triples_read::Term;

/// Where a term stands in the table, and its number.
#[derive(Clone, Copy)]
pub struct Found {
    /// How many terms stand before it.
    pub place: u32,
    /// Its number.
    pub number: NodeId,
}

/// Where a term may stand: its hash, and a place. Nothing is promised of hints: they change only how fast a term is
/// found.
#[derive(Clone, Copy)]
pub struct Hint {
    hash: u32,
    place: Option<u32>,
}

impl Hint {
    /// The hint of a term, which leads nowhere yet. O(1), no memory.
    pub fn of(term: &HashedTerm) -> Hint {
        Hint {
            hash: term.hash(),
            place: None,
        }
    }

    /// The place to which it leads. O(1), no memory.
    pub fn place(&self) -> Option<u32> {
        self.place
    }
}

/// Terms, each once, with their numbers, in the order in which they came.
///
/// A term takes its bytes, 32 for its entry and 4 to 8 for its bucket. There are fewer than 2^31 terms, with fewer than 2^32
/// bytes together.
///
/// A term is hashed once, and then looked for and put in:
///
///     let mut terms = TermTable::new(alloc)?;
///     let term = HashedTerm::new(term);
///     if terms.find_hashed(&term).is_none() {
///         terms.insert(&term, node)?;
///     }
#[derive(Drop)]
pub struct TermTable {
    arena: Vec<u8>,
    index: HashIndex<Entry>,
}

impl Model for TermTable {
    ghost use Rattle.std.specs.Prelude.{List, ℕ};
    ghost use Rattle.triples_read.specs.declared.term.Term.{Term as Value_of_term};
    ghost use Rattle.term_table.specs.Entries.{IsTermTable, terms_of};

    ghost Value = { List (Value_of_term × ℕ) };

    ghost view = { λ t. terms_of t.arena.items t.index.items };

    ghost invariant = { λ t. IsTermTable t.arena.items t.index };
}

impl TermTable {
    /// No terms. O(1); it takes 64 bytes.
    pub fn new(alloc: Global) -> Result<TermTable, Memory>
        ensures { IfOk result (λ t. t ≡ []) }
    {
        let index = HashIndex::new(alloc)?;
        Ok(TermTable {
            arena: Vec::new(alloc),
            index,
        })
    }

    /// How many terms there are. O(1), no memory.
    pub fn len(&self) -> u32
        ensures { result ≡ length self.now }
    {
        self.index.len()
    }

    /// Where the term stands, with its number, and `None` exactly if it isn't there. Expected O(b) for texts
    /// of b bytes, no memory.
    pub fn find(&self, term: &Term) -> Option<Found>
        ensures { IsFoundAs self.now term.now result }
    {
        let parts = parts_of(term);
        let hash = hash_parts(&parts);
        search(&self.arena, &self.index, &parts, hash)
    }

    /// The same for a term that is hashed already: only the terms with that hash are compared with it. Expected O(b)
    /// for texts of b bytes, no memory.
    pub fn find_hashed(&self, term: &HashedTerm) -> Option<Found>
        ensures { IsFoundAs self.now term.now result }
    {
        search(&self.arena, &self.index, &term.parts(), term.hash())
    }

    /// The same; the place to which the hint leads is tried first. Expected O(b) for texts of b bytes, no memory.
    pub fn find_hinted(&self, term: &HashedTerm, hint: Option<Hint>) -> Option<Found>
        ensures { IsFoundAs self.now term.now result }
    {
        if let Some(found) = self.at_hint(term, hint) {
            return Some(found);
        }
        self.find_hashed(term)
    }

    fn at_hint(&self, term: &HashedTerm, hint: Option<Hint>) -> Option<Found>
        ensures { IfSome result (λ f. IsFoundAs self.now term.now (Some f)) }
    {
        let place = hint?.place?;
        at_place(&self.arena, &self.index, place, &term.parts())
    }

    /// Puts a term that isn't there behind the others, and gives its place. `Memory` comes where memory runs out or the
    /// table is full, and leaves the terms. O(b) for texts of b bytes, amortized; it takes the memory that `TermTable`
    /// states for a term.
    pub fn insert(&mut self, term: &HashedTerm, number: NodeId) -> Result<u32, Memory>
        requires absent { number_of self.old term.now ≡ None }
        ensures added { OnOk result (self.new ≡ self.old ++ (term.now, number) ∷ []) }
        ensures place { IfOk result (λ p. p ≡ length self.old) }
        ensures err { OnErr result (self.new ≡ self.old) }
    {
        put(&mut self.arena, &mut self.index, term, number)
    }
}

// Hints.
impl TermTable {
    /// The hint that leads to the first term of its chain. O(1), no memory.
    pub fn enter_chain(&self, hint: Hint) -> Hint {
        Hint {
            place: self.index.head(hint.hash),
            ..hint
        }
    }

    /// The hint that leads past terms with another hash. Expected O(1), no memory.
    pub fn pass_others(&self, hint: Hint) -> Hint {
        match hint.place {
            Some(place) if place < self.index.len() => Hint {
                place: self.index.from(place, hint.hash),
                ..hint
            },
            _ => hint,
        }
    }

    /// The number of the term to which the hint leads. O(1), no memory.
    pub fn number(&self, hint: Hint) -> Option<NodeId> {
        let e = self.entry(hint)?;
        Some(e.number)
    }

    /// The first byte of the texts of the term to which the hint leads. O(1), no memory.
    pub fn first_byte(&self, hint: Hint) -> Option<u8> {
        let e = self.entry(hint)?;
        self.arena.get(e.span.from as usize).copied()
    }

    fn entry(&self, hint: Hint) -> Option<Entry> {
        let place = hint.place?;
        if place >= self.index.len() {
            return None;
        }
        Some(self.index.item(place))
    }
}

// Where the term with these parts stands.
fn search(arena: &[u8], index: &HashIndex<Entry>, parts: &Parts<'_>, hash: u32) -> Option<Found>
    requires table { IsTermTable arena.now index.now }
    requires hash { hash ≡ hash_of (parts_value parts.now) }
    ensures { (x : Value_of_term) → parts_value parts.now ≡ parts_of x → IsFoundAs (terms_of arena.now index.now.items) x result }
{
    let mut at = index.newest(hash);
    'walk: while let Some(n) = at {
        let e = read_entry(index, n);
        if has_parts(arena, &e, parts) {
            return Some(Found {
                place: n,
                number: e.number,
            });
        }
        at = index.older(n);
    }
    None
}

// The term at the place, where it has these parts.
fn at_place(arena: &[u8], index: &HashIndex<Entry>, place: u32, parts: &Parts<'_>) -> Option<Found>
    requires { IsTermTable arena.now index.now }
    ensures { (x : Value_of_term) → parts_value parts.now ≡ parts_of x → IfSome result (λ f. IsFoundAs (terms_of arena.now index.now.items) x (Some f)) }
{
    if place >= index.len() {
        return None;
    }
    let e = read_entry(index, place);
    if !has_parts(arena, &e, parts) {
        return None;
    }
    Some(Found {
        place,
        number: e.number,
    })
}

// Puts in a term that is absent.
fn put(
    arena: &mut Vec<u8>,
    index: &mut HashIndex<Entry>,
    term: &HashedTerm,
    number: NodeId,
) -> Result<u32, Memory>
    requires table { IsTermTable arena.old.items index.old }
    requires absent { LackParts arena.old.items index.old.items (parts_of term.now) }
    ensures table { IsTermTable arena.new.items index.new }
    ensures added { OnOk result (terms_of arena.new.items index.new.items ≡ terms_of arena.old.items index.old.items ++ (term.now, number) ∷ []) }
    ensures place { IfOk result (λ p. p ≡ length index.old.items) }
    ensures err { OnErr result (terms_of arena.new.items index.new.items ≡ terms_of arena.old.items index.old.items) }
{
    let parts = term.parts();
    let span = store(arena, &parts)?;
    let entry = Entry {
        span,
        sort: parts.sort,
        number,
    };
    index.push(term.hash(), entry)
}
