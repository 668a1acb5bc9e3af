// The parts of a term, by which it is found.
ghost use Rattle.std.specs.Prelude.{◌≡◌, [], None, bytes_eq};
ghost use Rattle.triples_read.specs.Lines.{xsd_string};
ghost use Rattle.term_table.specs.TermParts.{parts_of, literal_parts, parts_value, hash_of};

use px_base::Text;
use std::hash::{FoldHasher, Hasher};
use triples_read::{Term, is_xsd_string};

/// What a term is.
#[derive(Clone, Copy, PartialEq, Eq)]
pub(crate) enum Sort {
    Iri,
    Blank,
    /// A literal of the datatype of strings, which isn't kept.
    Simple,
    /// A literal of another datatype, without a language tag.
    Plain,
    /// A literal with one.
    Tagged,
}

/// A term's sort and its texts. Texts that a term of its sort doesn't have are empty.
#[derive(Clone, Copy)]
pub(crate) struct Parts<'a> {
    pub(crate) sort: Sort,
    pub(crate) text: &'a [u8],
    pub(crate) datatype: &'a [u8],
    pub(crate) tag: &'a [u8],
}

/// The parts of the term.
#[inline(always)]
pub(crate) fn parts_of(term: &Term) -> Parts<'_>
    ensures { parts_value result ≡ parts_of term.now }
{
    match term {
        Term::Iri(text) => alone(Sort::Iri, text.as_bytes()),
        Term::Blank(text) => alone(Sort::Blank, text.as_bytes()),
        Term::Literal {
            text,
            datatype,
            tag: None,
        } => untagged(text, datatype),
        Term::Literal {
            text,
            datatype,
            tag: Some(tag),
        } => Parts {
            sort: Sort::Tagged,
            text: text.as_bytes(),
            datatype: datatype.as_bytes(),
            tag: tag.as_bytes(),
        },
    }
}

#[inline(always)]
fn untagged<'a>(text: &'a Text, datatype: &'a Text) -> Parts<'a>
    ensures { parts_value result ≡ literal_parts text.now datatype.now None }
{
    if is_xsd_string(datatype.as_str()) {
        return alone(Sort::Simple, text.as_bytes());
    }
    Parts {
        sort: Sort::Plain,
        text: text.as_bytes(),
        datatype: datatype.as_bytes(),
        tag: &[],
    }
}

#[inline(always)]
fn alone(sort: Sort, text: &[u8]) -> Parts<'_>
    ensures { parts_value result ≡ record { sort = sort; text = text.now; datatype = []; tag = [] } }
{
    Parts {
        sort,
        text,
        datatype: &[],
        tag: &[],
    }
}

/// A hash of the texts.
pub(crate) fn hash_parts(parts: &Parts<'_>) -> u32
    ensures { result ≡ hash_of (parts_value parts.now) }
{
    let mut hasher = FoldHasher::default();
    hasher.write(parts.text);
    hasher.write(parts.datatype);
    hasher.write(parts.tag);
    (hasher.finish() >> 32) as u32
}
