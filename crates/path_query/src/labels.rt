// Labels, as they are written.
ghost use Rattle.std.specs.Prelude.{◌≡◌, ◌↔◌, ◌≤◌, ℕ, List, length, take, drop, IsTrue, IfOk, IfSome, IfNone};
ghost use Rattle.std.specs.List.{list_all, prefix_len};
ghost use Rattle.graph_spec.specs.Words.{is_letter, is_name_byte, is_name};
ghost use Rattle.triples_read.specs.Lines.{IsIriPrefix};
ghost use Rattle.triples_read.specs.Canonical.{iri_spelling};
ghost use Rattle.triples_read.specs.ByteReaders.{starts_with};
ghost use Rattle.path_spec.specs.Spelling.{EndsName};
ghost use Rattle.path_query.specs.Labels.{IsPlainLabel, SpellsLabel, IsNamePrefix, IsRead};

use px_base::{Memory, Text, TextError};
use std::alloc::Global;
use triples_read::{Term, read_iri_prefix, write_term};

fn is_letter(byte: u8) -> bool
    ensures { result ≡ is_letter byte }
{
    (b'A' <= byte && byte <= b'Z') || (b'a' <= byte && byte <= b'z')
}

pub(crate) fn is_name_byte(byte: u8) -> bool
    ensures { result ≡ is_name_byte byte }
{
    is_letter(byte) || (b'0' <= byte && byte <= b'9') || byte == b'_' || byte == b'-'
}

fn are_name_bytes(bytes: &[u8]) -> bool
    ensures { result ≡ list_all is_name_byte bytes.now }
{
    bytes.iter().all(|byte| is_name_byte(*byte))
}

fn is_name(word: &[u8]) -> bool
    ensures { result ≡ is_name word.now }
{
    !word.is_empty() && is_letter(word[0]) && are_name_bytes(&word[1..])
}

/// Whether the bytes are a name, and none of the words of the query languages.
fn is_plain_label(word: &[u8]) -> bool
    ensures { IsTrue result ↔ IsPlainLabel word.now }
{
    is_name(word)
        && word != b"and".as_slice()
        && word != b"or".as_slice()
        && word != b"not".as_slice()
}

/// How many bytes of a name stand at the front, up to the first byte that no name has. O(n) for n of them, no memory.
pub fn name_len(bytes: &[u8]) -> usize
    ensures count { result ≡ prefix_len is_name_byte bytes.now }
    ensures within { result ≤ length bytes.now }
{
    bytes.iter().take_while(|byte| is_name_byte(**byte)).count()
}

/// The name at the front, as long as it can be, and its length.
fn read_name(alloc: Global, text: &[u8]) -> Result<Option<(Text, usize)>, Memory>
    ensures found { IfOk result (λ r. IfSome r (λ f. (f.1 ≤ length text.now) × IsPlainLabel (take f.1 text.now) × (f.0 ≡ take f.1 text.now))) }
    ensures only { (n : ℕ) → n ≤ length text.now → IsPlainLabel (take n text.now) → EndsName (drop n text.now)
        → IfOk result (IsRead (take n text.now) n) }
{
    let len = name_len(text);
    let (name, _) = text.split_at(len);
    if !is_plain_label(name) {
        return Ok(None);
    }
    match Text::from_bytes(alloc, name) {
        Ok(label) => Ok(Some((label, len))),
        Err(TextError::NotUtf8) => unreachable!(),
        Err(TextError::Memory) => Err(Memory),
    }
}

/// The one spelling of the IRI whose IRIREF is at the front, and the length of that IRIREF.
fn read_iri(alloc: Global, text: &[u8]) -> Result<Option<(Text, usize)>, Memory>
    ensures found { IfOk result (λ r. IfSome r (λ f. (iri : List ℕ) × IsIriPrefix text.now f.1 iri × (f.0 ≡ iri_spelling iri))) }
    ensures only { (n : ℕ) (iri : List ℕ) → IsIriPrefix text.now n iri → IfOk result (IsRead (iri_spelling iri) n) }
{
    let Some((iri, len)) = read_iri_prefix(alloc, text)? else {
        return Ok(None);
    };
    let label = write_term(alloc, &Term::Iri(iri))?;
    Ok(Some((label, len)))
}

/// Whether the text begins with '<'.
fn opens_iri(text: &[u8]) -> bool
    ensures { result ≡ starts_with 60 text.now }
{
    matches!(text, [b'<', ..])
}

/// The label at the front of the text, and how many bytes spell it. Where a label stands there and no
/// name goes on behind it, that one is read. None where no label stands there. Linear in what it reads.
pub(crate) fn read_prefix(alloc: Global, text: &[u8]) -> Result<Option<(Text, usize)>, Memory>
    ensures found { IfOk result (λ r. IfSome r (λ f. IsNamePrefix text.now f.1 f.0)) }
    ensures only { (n : ℕ) (t : List ℕ) → IsNamePrefix text.now n t → EndsName (drop n text.now) → IfOk result (IsRead t n) }
{
    if opens_iri(text) {
        read_iri(alloc, text)
    } else {
        read_name(alloc, text)
    }
}

/// The label that the word spells: a name, which is its own label, or an IRIREF (RDF 1.1 N-Triples, section 7), whose
/// label is the canonical spelling of its IRI. None exactly where the word spells none. `Memory` comes only where
/// memory runs out. O(n) for n bytes; it takes O(n) memory.
pub fn read_label(alloc: Global, word: &[u8]) -> Result<Option<Text>, Memory>
    ensures found { IfOk result (λ r. IfSome r (λ t. SpellsLabel word.now t)) }
    ensures none { IfOk result (λ r. IfNone r ((t : List ℕ) → SpellsLabel word.now t → ⊥)) }
    ensures once { (t u : List ℕ) → SpellsLabel word.now t → SpellsLabel word.now u → t ≡ u }
{
    match read_prefix(alloc, word)? {
        Some((label, len)) if len == word.len() => Ok(Some(label)),
        _ => Ok(None),
    }
}
