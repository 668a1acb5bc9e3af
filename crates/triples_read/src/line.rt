// Lines.
ghost use Rattle.std.specs.Prelude.{◌≡◌, List, ℕ, true, false, Ok, Some, None, ◌⊎◌, IfOk, IfSome, IfNone, IsErrOf, encode_utf8_all};
ghost use Rattle.triples_read.specs.Lines.{IsIri, IsBlankNode, IsSubject, IsObject, SpellsTriple, Empty};
ghost use Rattle.triples_read.specs.SpelledPrefixes.{Prefix, IsText, EachPrefix, IfRead, IsRead, EndsLabel};
ghost use Rattle.triples_read.specs.LineRests.{EachRest, AfterObject, AfterPredicate, AfterSubject, FromSubject};

use crate::blanks::{is_over, past_byte, skip_blanks, starts_with};
use crate::iri::read_iri;
use crate::labels::read_label;
use crate::literal::read_literal;
use crate::spare::SpareTexts;
use crate::term::{Term, Triple};
use px_base::{Memory, Text};
use simdutf8::basic::from_utf8;
use std::alloc::Global;

/// Why no triple was read from a line.
#[derive(Clone, Copy, Debug, PartialEq, Eq)]
pub enum LineError {
    /// The line is neither a triple, nor a blank line, nor a comment.
    Syntax,
    /// An allocation failed.
    Memory,
}

fn read_iri_term<'a>(
    spare: &mut SpareTexts,
    text: &'a str,
) -> Result<Option<(Term, &'a str)>, Memory>
    ensures found { (cs : List ℕ) → IsText text.now cs → IfRead result (λ f. Prefix (λ s. IsSubject s f.0) cs f.1.now) }
    ensures whole { EachPrefix IsIri text.now (λ iri r. IsRead result (λ f. (f.0 ≡ Term.Iri iri) × (f.1.now ≡ encode_utf8_all r))) }
{
    let Some((iri, rest)) = read_iri(spare, text)? else {
        return Ok(None);
    };
    Ok(Some((Term::Iri(iri), rest)))
}

fn read_blank_node<'a>(
    spare: &mut SpareTexts,
    text: &'a str,
) -> Result<Option<(Term, &'a str)>, Memory>
    ensures found { (cs : List ℕ) → IsText text.now cs → IfRead result (λ f. Prefix (λ s. IsSubject s f.0) cs f.1.now) }
    ensures whole { EachPrefix IsBlankNode text.now (λ label r. EndsLabel r
        → IsRead result (λ f. (f.0 ≡ Term.Blank label) × (f.1.now ≡ encode_utf8_all r))) }
{
    let Some((label, rest)) = read_label(spare, text)? else {
        return Ok(None);
    };
    Ok(Some((Term::Blank(label), rest)))
}

// The subject at the front, and what follows it.
fn read_subject<'a>(
    spare: &mut SpareTexts,
    text: &'a str,
) -> Result<Option<(Term, &'a str)>, Memory>
    ensures found { (cs : List ℕ) → IsText text.now cs → IfRead result (λ f. Prefix (λ s. IsSubject s f.0) cs f.1.now) }
    ensures whole { EachPrefix IsSubject text.now (λ t r. EndsLabel r → IsRead result (λ f. (f.0 ≡ t) × (f.1.now ≡ encode_utf8_all r))) }
{
    if starts_with(b'<', text) {
        return read_iri_term(spare, text);
    }
    read_blank_node(spare, text)
}

// The object at the front, and what follows it.
fn read_object<'a>(spare: &mut SpareTexts, text: &'a str) -> Result<Option<(Term, &'a str)>, Memory>
    ensures found { (cs : List ℕ) → IsText text.now cs → IfRead result (λ f. Prefix (λ s. IsObject s f.0) cs f.1.now) }
    ensures whole { EachPrefix IsObject text.now (λ t r. AfterObject r → IsRead result (λ f. (f.0 ≡ t) × (f.1.now ≡ encode_utf8_all r))) }
{
    if starts_with(b'"', text) {
        return read_literal(spare, text);
    }
    read_subject(spare, text)
}

// Whether the dot of a triple comes next, and then nothing or a comment.
fn ends_triple(text: &str) -> bool
    ensures found { (cs : List ℕ) → IsText text.now cs → result ≡ true → AfterObject cs }
    ensures whole { (cs : List ℕ) → IsText text.now cs → AfterObject cs → result ≡ true }
{
    let Some(behind) = past_byte(b'.', skip_blanks(text)) else {
        return false;
    };
    is_over(skip_blanks(behind))
}

// The object of the triple whose predicate was read, if the rest of the line is well formed.
fn read_last(spare: &mut SpareTexts, text: &str) -> Result<Option<Term>, Memory>
    ensures found { (cs : List ℕ) → IsText text.now cs → IfRead result (λ o. AfterPredicate cs o) }
    ensures whole { (cs : List ℕ) (object : Term) → IsText text.now cs → AfterPredicate cs object → IsRead result (λ o. o ≡ object) }
{
    let Some((object, rest)) = read_object(spare, skip_blanks(text))? else {
        return Ok(None);
    };
    if !ends_triple(rest) {
        return Ok(None);
    }
    Ok(Some(object))
}

// The predicate and the object of the triple whose subject was read.
fn read_rest(spare: &mut SpareTexts, text: &str) -> Result<Option<(Text, Term)>, Memory>
    ensures found { (cs : List ℕ) → IsText text.now cs → IfRead result (λ f. AfterSubject cs f.0 f.1) }
    ensures whole { EachRest text.now (λ predicate object. IsRead result (λ f. (f.0 ≡ predicate) × (f.1 ≡ object))) }
{
    let Some((predicate, rest)) = read_iri(spare, skip_blanks(text))? else {
        return Ok(None);
    };
    let Some(object) = read_last(spare, rest)? else {
        return Ok(None);
    };
    Ok(Some((predicate, object)))
}

// The triple that begins at the front and takes the whole rest of the line.
fn read_triple(spare: &mut SpareTexts, text: &str) -> Result<Option<Triple>, Memory>
    ensures found { (cs : List ℕ) → IsText text.now cs → IfRead result (λ t. FromSubject cs t) }
    ensures whole { (cs : List ℕ) (t : Triple) → IsText text.now cs → FromSubject cs t → IsRead result (λ u. u ≡ t) }
{
    let Some((subject, rest)) = read_subject(spare, text)? else {
        return Ok(None);
    };
    let Some((predicate, object)) = read_rest(spare, rest)? else {
        return Ok(None);
    };
    Ok(Some(Triple {
        subject,
        predicate,
        object,
    }))
}

/// The triple that a line spells (RDF 1.1 N-Triples, section 7), with its escapes read; None where the line is blank or
/// a comment. The line is given without its end, so it holds neither LF nor CR. All of it must be UTF-8, including a
/// comment. `Syntax` exactly where it is none of these. O(b) for a line of b bytes; the texts of the triple are all the
/// memory that it takes.
pub fn read_line(alloc: Global, line: &[u8]) -> Result<Option<Triple>, LineError>
    // A triple comes only where the line spells it.
    ensures triple { IfOk result (λ r. IfSome r (λ t. SpellsTriple line.now t)) }
    // None comes only where the line is blank or a comment.
    ensures none { IfOk result (λ r. IfNone r (Empty line.now)) }
    // What the line spells is read.
    ensures spelled { (t : Triple) → SpellsTriple line.now t → (result ≡ Ok (Some t)) ⊎ IsErrOf result LineError.Memory }
    // A blank line or a comment is read as such.
    ensures empty { Empty line.now → (result ≡ Ok None) ⊎ IsErrOf result LineError.Memory }
    // Syntax comes only where the line is neither.
    ensures syntax { IsErrOf result LineError.Syntax → (¬ Empty line.now) × ((t : Triple) → SpellsTriple line.now t → ⊥) }
{
    let mut spare = SpareTexts::new(alloc);
    read_line_with(&mut spare, line)
}

/// Reads as `read_line` does, into the memory of the spare texts where there are any. O(b) for a line of b bytes; it
/// takes memory only for a text that is longer than its spare one, or for which none is left.
pub fn read_line_with(spare: &mut SpareTexts, line: &[u8]) -> Result<Option<Triple>, LineError>
    // A triple comes only where the line spells it.
    ensures triple { IfOk result (λ r. IfSome r (λ t. SpellsTriple line.now t)) }
    // None comes only where the line is blank or a comment.
    ensures none { IfOk result (λ r. IfNone r (Empty line.now)) }
    // What the line spells is read.
    ensures spelled { (t : Triple) → SpellsTriple line.now t → (result ≡ Ok (Some t)) ⊎ IsErrOf result LineError.Memory }
    // A blank line or a comment is read as such.
    ensures empty { Empty line.now → (result ≡ Ok None) ⊎ IsErrOf result LineError.Memory }
    // Syntax comes only where the line is neither.
    ensures syntax { IsErrOf result LineError.Syntax → (¬ Empty line.now) × ((t : Triple) → SpellsTriple line.now t → ⊥) }
{
    let Ok(text) = from_utf8(line) else {
        return Err(LineError::Syntax);
    };
    let rest = skip_blanks(text);
    if is_over(rest) {
        return Ok(None);
    }
    match read_triple(spare, rest) {
        Ok(Some(triple)) => Ok(Some(triple)),
        Ok(None) => Err(LineError::Syntax),
        Err(Memory) => Err(LineError::Memory),
    }
}
