// Literals.
ghost use Rattle.std.specs.Prelude.{◌≡◌, List, ℕ, Option, IfOk, encode_utf8_all};
ghost use Rattle.triples_read.specs.Lines.{Suffix, IsObject, xsd_string as xsd_string_iri, lang_string as lang_string_iri};
ghost use Rattle.triples_read.specs.SpelledPrefixes.{Prefix, IsText, EachPrefix, IfRead, IsRead};
ghost use Rattle.triples_read.specs.LineRests.{IsDatatype, EachLiteral, EachSuffix};

use crate::blanks::{past_byte, past_two, skip_blanks, starts_with};
use crate::iri::read_iri;
use crate::quoted::{Quote, read_quoted};
use crate::spare::SpareTexts;
use crate::tags::read_tag;
use crate::term::{LANG_STRING, Term, XSD_STRING};
use px_base::{Memory, Text};

fn xsd_string(spare: &mut SpareTexts) -> Result<Text, Memory>
    ensures { IfOk result (λ t. t ≡ xsd_string_iri) }
{
    spare.copy(XSD_STRING)
}

fn lang_string(spare: &mut SpareTexts) -> Result<Text, Memory>
    ensures { IfOk result (λ t. t ≡ lang_string_iri) }
{
    spare.copy(LANG_STRING)
}

// The datatype whose `^^` is at the front, and what follows it.
fn read_datatype<'a>(
    spare: &mut SpareTexts,
    text: &'a str,
) -> Result<Option<(Text, &'a str)>, Memory>
    ensures found { (cs : List ℕ) → IsText text.now cs → IfRead result (λ f. Prefix (λ s. IsDatatype s f.0) cs f.1.now) }
    ensures whole { EachPrefix IsDatatype text.now (λ datatype r. IsRead result (λ f. (f.0 ≡ datatype) × (f.1.now ≡ encode_utf8_all r))) }
{
    let Some(after) = past_two(b'^', b'^', text) else {
        return Ok(None);
    };
    read_iri(spare, skip_blanks(after))
}

// The datatype and the tag of the literal whose string was read, and what follows them.
fn read_suffix<'a>(
    spare: &mut SpareTexts,
    text: &'a str,
) -> Result<Option<(Text, Option<Text>, &'a str)>, Memory>
    ensures found { (cs : List ℕ) → IsText text.now cs → IfRead result (λ f. Prefix (λ s. Suffix s f.0 f.1) cs f.2.now) }
    ensures whole { EachSuffix text.now (λ datatype tag r. IsRead result (λ f. (f.0 ≡ datatype) × (f.1 ≡ tag) × (f.2.now ≡ encode_utf8_all r))) }
{
    let after = skip_blanks(text);
    if starts_with(b'^', after) {
        let Some((datatype, rest)) = read_datatype(spare, after)? else {
            return Ok(None);
        };
        return Ok(Some((datatype, None, rest)));
    }
    let Some(behind) = past_byte(b'@', after) else {
        return Ok(Some((xsd_string(spare)?, None, text)));
    };
    let Some((tag, rest)) = read_tag(spare, behind)? else {
        return Ok(None);
    };
    Ok(Some((lang_string(spare)?, Some(tag), rest)))
}

/// The literal at the front, and what follows it.
pub(crate) fn read_literal<'a>(
    spare: &mut SpareTexts,
    text: &'a str,
) -> Result<Option<(Term, &'a str)>, Memory>
    ensures found { (cs : List ℕ) → IsText text.now cs → IfRead result (λ f. Prefix (λ s. IsObject s f.0) cs f.1.now) }
    ensures whole { EachLiteral text.now (λ t r. IsRead result (λ f. (f.0 ≡ t) × (f.1.now ≡ encode_utf8_all r))) }
{
    let Some((string, behind)) = read_quoted(Quote::Double, spare, text)? else {
        return Ok(None);
    };
    let Some((datatype, tag, rest)) = read_suffix(spare, behind)? else {
        return Ok(None);
    };
    let text = Text::from_string(string);
    Ok(Some((
        Term::Literal {
            text,
            datatype,
            tag,
        },
        rest,
    )))
}
