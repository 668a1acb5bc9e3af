// IRIs in angle brackets.
ghost use Rattle.std.specs.Prelude.{◌≡◌, ◌++◌, ◌∷◌, [], List, ℕ, IfOk, IfSome, IsSomeAnd, encode_utf8_all};
ghost use Rattle.triples_read.specs.SpelledPrefixes.{Prefix, IsText, EachPrefix, IfRead, IsRead, Lacks};
ghost use Rattle.triples_read.specs.Lines.{IsIri, IsIriPrefix};

use crate::quoted::{Quote, read_quoted};
use crate::spare::SpareTexts;
use bstr::ByteSlice;
use px_base::{Memory, Text};
use std::alloc::Global;

// The bytes up to the first `>`, with which an IRIREF ends.
fn up_to_end(b: &[u8]) -> Option<&[u8]>
    ensures prefix { IfSome result (λ prefix. (rest : List ℕ) × (b.now ≡ prefix.now ++ rest)) }
    ensures whole { (xs ys : List ℕ) → b.now ≡ xs ++ 62 ∷ ys → Lacks 62 xs → IsSomeAnd result (λ prefix. prefix.now ≡ xs ++ 62 ∷ []) }
{
    let Some(end) = b.find_byte(b'>') else {
        return None;
    };
    let (prefix, _) = b.split_at(end + 1);
    Some(prefix)
}

/// The IRI whose IRIREF is at the front of the bytes, with its escapes read, and the length in bytes of that IRIREF.
/// None exactly where no prefix of the bytes is an IRIREF (RDF 1.1 N-Triples, section 7). Any bytes may follow it. O(b)
/// for the b bytes up to the first `>`, or for all of them where there is none; the IRI is all the memory that it
/// takes.
pub fn read_iri_prefix(alloc: Global, b: &[u8]) -> Result<Option<(Text, usize)>, Memory>
    // What is read stands at the front.
    ensures found { IfOk result (λ r. IfSome r (λ f. IsIriPrefix b.now f.1 f.0)) }
    // What stands at the front is read.
    ensures only { (n : ℕ) (iri : List ℕ) → IsIriPrefix b.now n iri → IfOk result (λ r. IsSomeAnd r (λ f. (f.0 ≡ iri) × (f.1 ≡ n))) }
{
    let Some(prefix) = up_to_end(b) else {
        return Ok(None);
    };
    let Ok(text) = prefix.to_str() else {
        return Ok(None);
    };
    let mut spare = SpareTexts::new(alloc);
    let Some((iri, rest)) = read_quoted(Quote::Angle, &mut spare, text)? else {
        return Ok(None);
    };
    Ok(Some((Text::from_string(iri), prefix.len() - rest.len())))
}

/// The IRI whose IRIREF is at the front, and what follows it.
pub(crate) fn read_iri<'a>(
    spare: &mut SpareTexts,
    text: &'a str,
) -> Result<Option<(Text, &'a str)>, Memory>
    ensures found { (cs : List ℕ) → IsText text.now cs → IfRead result (λ f. Prefix (λ s. IsIri s f.0) cs f.1.now) }
    ensures whole { EachPrefix IsIri text.now (λ iri r. IsRead result (λ f. (f.0 ≡ iri) × (f.1.now ≡ encode_utf8_all r))) }
{
    let Some((iri, rest)) = read_quoted(Quote::Angle, spare, text)? else {
        return Ok(None);
    };
    Ok(Some((Text::from_string(iri), rest)))
}
