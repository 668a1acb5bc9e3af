// Terms and triples.
ghost use Rattle.std.specs.Prelude.{◌≡◌, bytes_eq};
ghost use Rattle.triples_read.specs.Lines.{xsd_string};

use px_base::Text;

/// The datatype of a literal with neither a datatype nor a tag: `xsd:string`.
pub(crate) const XSD_STRING: &str = "http://www.w3.org/2001/XMLSchema#string";

/// The datatype of a literal with a tag: `rdf:langString`.
pub(crate) const LANG_STRING: &str = "http://www.w3.org/1999/02/22-rdf-syntax-ns#langString";

/// A term of RDF 1.1: what stands as the subject or the object of a triple. Its texts are as they are once escapes are
/// read. Two terms are equal where their kind and all their characters are.
///
/// A term, and its canonical spelling `<x:ana>`:
///
///     let term = Term::Iri(Text::from_bytes(alloc, b"x:ana")?);
///     let text = write_term(alloc, &term)?;
#[derive(Debug, Drop, PartialEq, Eq, Hash)]
pub enum Term {
    /// An IRI, without its brackets. It isn't checked to be absolute, and may be empty.
    Iri(Text),
    /// A blank node, by its label without the `_:`.
    Blank(Text),
    /// A literal.
    Literal {
        /// The characters of the string, without its quotes.
        text: Text,
        /// The IRI of its datatype: that of `xsd:string` for a plain literal, that of
        /// `rdf:langString` for one with a tag.
        datatype: Text,
        /// The language tag in lower case, without its `@`.
        tag: Option<Text>,
    },
}

/// A triple of RDF 1.1. Not every value of this type is one that a line can spell: the subject may be a literal.
/// `is_triple` is the test.
///
/// The triple of a line:
///
///     let triple = read_line(alloc, b"<x:ana> <x:knows> <x:bo> .")?;
#[derive(Debug, Drop, PartialEq, Eq)]
pub struct Triple {
    /// What the triple is about.
    pub subject: Term,
    /// The IRI of the property.
    pub predicate: Text,
    /// The value of the property.
    pub object: Term,
}

/// Whether a datatype is that of strings, `xsd:string`, which a literal with neither a datatype nor a tag has.
///
/// O(n) for n bytes; it takes no memory.
#[inline]
pub fn is_xsd_string(datatype: &str) -> bool
    ensures { result ≡ bytes_eq datatype.now xsd_string }
{
    datatype == XSD_STRING
}
