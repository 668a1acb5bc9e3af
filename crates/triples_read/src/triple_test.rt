// Whether a triple is one that a line can spell.
ghost use Rattle.std.specs.Prelude.{◌≡◌, true, List, ℕ, bytes_eq, encode_utf8_all};
ghost use Rattle.triples_read.specs.Terminals.{STRING_LITERAL_QUOTE};
ghost use Rattle.triples_read.specs.Lines.{IsIri, IsSubject, IsObject, Suffix, lang_string};
ghost use Rattle.triples_read.specs.Canonical.{IsSpelled};

use crate::labels::is_label;
use crate::tags::is_tag;
use crate::term::{LANG_STRING, Term, Triple};
use px_base::Text;

// Whether some IRIREF spells the text. Each text has one, with escapes where it needs them.
fn is_iri(_text: &str) -> bool
    ensures always { result ≡ true }
    ensures spelled { (s : List ℕ) × IsIri s _text.now }
{
    true
}

// Whether some quoted string spells the text. Each text has one, with escapes where it needs them.
fn is_string(_text: &str) -> bool
    ensures always { result ≡ true }
    ensures spelled { (s : List ℕ) × (v : List ℕ) × STRING_LITERAL_QUOTE s v × (_text.now ≡ encode_utf8_all v) }
{
    true
}

fn is_subject(term: &Term) -> bool
    ensures sound { result ≡ true → (s : List ℕ) × IsSubject s term.now }
    ensures complete { (s : List ℕ) → IsSubject s term.now → result ≡ true }
{
    match term {
        Term::Iri(iri) => is_iri(iri.as_str()),
        Term::Blank(label) => is_label(label.as_str()),
        Term::Literal { .. } => false,
    }
}

fn is_lang_string(datatype: &str) -> bool
    ensures { result ≡ bytes_eq datatype.now lang_string }
{
    datatype == LANG_STRING
}

// Whether the datatype and the tag of a literal go together.
fn is_suffix(datatype: &Text, tag: &Option<Text>) -> bool
    ensures sound { result ≡ true → (s : List ℕ) × Suffix s datatype.now tag.now }
    ensures complete { (s : List ℕ) → Suffix s datatype.now tag.now → result ≡ true }
{
    match tag {
        Some(tag) => is_lang_string(datatype.as_str()) && is_tag(tag.as_bytes()),
        None => is_iri(datatype.as_str()),
    }
}

fn is_object(term: &Term) -> bool
    ensures sound { result ≡ true → (s : List ℕ) × IsObject s term.now }
    ensures complete { (s : List ℕ) → IsObject s term.now → result ≡ true }
{
    match term {
        Term::Literal {
            text,
            datatype,
            tag,
        } => is_string(text.as_str()) && is_suffix(datatype, tag),
        _ => is_subject(term),
    }
}

fn has_predicate_and_object(t: &Triple) -> bool
    ensures sound { result ≡ true → (y : List ℕ) × (z : List ℕ) × IsIri y t.now.predicate × IsObject z t.now.object }
    ensures complete { (z : List ℕ) → IsObject z t.now.object → result ≡ true }
{
    is_iri(t.predicate.as_str()) && is_object(&t.object)
}

/// Whether some line spells the triple: its subject is no literal, its blank nodes have labels of the grammar,
/// and a tag is a language tag in lower case, whose literal has the datatype `rdf:langString`. O(b) for labels
/// and a tag of b bytes, no memory.
pub fn is_triple(t: &Triple) -> bool
    ensures sound { result ≡ true → IsSpelled t.now }
    ensures complete { IsSpelled t.now → result ≡ true }
{
    is_subject(&t.subject) && has_predicate_and_object(t)
}
