// Terms with their hashes.
ghost use Rattle.std.specs.Prelude.{◌≡◌};
ghost use Rattle.term_table.specs.TermParts.{parts_value, parts_of, hash_of};

use crate::parts::{Parts, hash_parts, parts_of};
use std::marker::Model;
use triples_read::Term;

/// A term, and the hash by which tables find it. It is hashed once, where this is made.
#[derive(Drop)]
pub struct HashedTerm {
    term: Term,
    hash: u32,
}

impl Model for HashedTerm {
    ghost use Rattle.std.specs.Prelude.{◌≡◌};
    ghost use Rattle.triples_read.specs.declared.term.Term.{Term as Value_of_term};
    ghost use Rattle.term_table.specs.TermParts.{parts_of, hash_of};

    ghost Value = { Value_of_term };

    ghost view = { λ t. t.term };

    ghost invariant = { λ t. t.hash ≡ hash_of (parts_of t.term) };
}

impl HashedTerm {
    /// The term with its hash. O(b) for texts of b bytes, no memory.
    pub fn new(term: Term) -> HashedTerm
        ensures { result ≡ term }
    {
        let hash = hash_parts(&parts_of(&term));
        HashedTerm { term, hash }
    }

    /// The term. O(1), no memory.
    #[inline(always)]
    pub fn term(&self) -> &Term
        ensures { result.now ≡ self.now }
    {
        &self.term
    }

    /// The term, without its hash. O(1), no memory.
    pub fn into_term(self) -> Term
        ensures { result ≡ self }
    {
        self.term
    }

    #[inline(always)]
    pub(crate) fn parts(&self) -> Parts<'_>
        ensures { parts_value result ≡ parts_of self.now }
    {
        parts_of(&self.term)
    }

    #[inline(always)]
    pub(crate) fn hash(&self) -> u32
        ensures { result ≡ hash_of (parts_of self.now) }
    {
        self.hash
    }
}
