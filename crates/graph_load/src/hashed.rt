// Triples with the hashes of their terms.
ghost use Rattle.std.specs.Prelude.{◌≡◌};
ghost use Rattle.graph_load.specs.Hashed.{triple_of, hashed};

use px_base::Text;
use term_table::HashedTerm;
use triples_read::Triple;

/// A triple whose terms are hashed.
#[derive(Drop)]
pub(crate) struct HashedTriple {
    pub(crate) subject: HashedTerm,
    pub(crate) predicate: Text,
    pub(crate) object: HashedTerm,
}

impl HashedTriple {
    /// The triple with the hashes of its terms.
    pub(crate) fn new(triple: Triple) -> HashedTriple
        ensures { result ≡ hashed triple }
    {
        HashedTriple {
            subject: HashedTerm::new(triple.subject),
            predicate: triple.predicate,
            object: HashedTerm::new(triple.object),
        }
    }

    /// The triple without them.
    pub(crate) fn into_triple(self) -> Triple
        ensures { result ≡ triple_of self }
    {
        Triple {
            subject: self.subject.into_term(),
            predicate: self.predicate,
            object: self.object.into_term(),
        }
    }
}
