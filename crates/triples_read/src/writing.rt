// The canonical spelling.
ghost use Rattle.std.specs.Prelude.{◌≡◌, ◌<◌, ℕ, List, IfOk, OnOk, encode_utf8_all, bytes_eq, false, Option};
ghost use Rattle.std.specs.Str.{chars};
ghost use Rattle.triples_read.specs.Characters.{is_iri_char};
ghost use Rattle.triples_read.specs.Lines.{SpellsTriple, xsd_string};
ghost use Rattle.triples_read.specs.Quotes.{quoted_char, quoted_chars, quoted_text};
ghost use Rattle.triples_read.specs.Canonical.{upper_hex as upper_hex_of, iri_char, string_char, suffix_text, term_text, triple_text, IsSpelled, IsAppended};

use crate::characters::stands_in_iri;
use crate::labels::next_char;
use crate::quoted::Quote;
use crate::term::{Term, Triple, is_xsd_string};
use px_base::{Memory, Text};
use std::alloc::{AllocError, Global};

fn upper_hex(d: u32) -> char
    requires { d < 16 }
    ensures { result ≡ upper_hex_of d }
{
    if d < 10 {
        return (48 + d as u8) as char;
    }
    (55 + d as u8) as char
}

// Writes a character by its number.
fn push_number(out: &mut String, c: char) -> Result<(), AllocError>
    requires { is_iri_char c ≡ false }
    ensures { OnOk result (IsAppended out.old out.new (iri_char c)) }
{
    let code = c as u32;
    out.push_str("\\u00")?;
    out.push(upper_hex(code / 16))?;
    out.push(upper_hex(code % 16))
}

fn push_iri_char(out: &mut String, c: char) -> Result<(), AllocError>
    ensures { OnOk result (IsAppended out.old out.new (iri_char c)) }
{
    if stands_in_iri(c) {
        return out.push(c);
    }
    push_number(out, c)
}

fn push_string_char(out: &mut String, c: char) -> Result<(), AllocError>
    ensures { OnOk result (IsAppended out.old out.new (string_char c)) }
{
    match c {
        '"' => out.push_str("\\\""),
        '\\' => out.push_str("\\\\"),
        '\n' => out.push_str("\\n"),
        '\r' => out.push_str("\\r"),
        _ => out.push(c),
    }
}

fn push_char(quote: Quote, out: &mut String, c: char) -> Result<(), AllocError>
    ensures { OnOk result (IsAppended out.old out.new (quoted_char quote c)) }
{
    match quote {
        Quote::Angle => push_iri_char(out, c),
        Quote::Double => push_string_char(out, c),
    }
}

fn push_chars(quote: Quote, out: &mut String, text: &str) -> Result<(), AllocError>
    ensures { (cs : List ℕ) → text.now ≡ encode_utf8_all cs → OnOk result (IsAppended out.old out.new (quoted_chars quote cs)) }
{
    let mut rest = text;
    'chars: while let Some((c, after)) = next_char(rest) {
        push_char(quote, out, c)?;
        rest = after;
    }
    Ok(())
}

fn push_quoted(quote: Quote, out: &mut String, text: &str) -> Result<(), AllocError>
    ensures { OnOk result (IsAppended out.old out.new (quoted_text quote (chars text.now))) }
{
    out.push(quote.opening() as char)?;
    push_chars(quote, out, text)?;
    out.push(quote.closing() as char)
}

fn push_label(out: &mut String, label: &str) -> Result<(), AllocError>
    ensures { OnOk result (IsAppended out.old out.new (term_text (Term.Blank label.now))) }
{
    out.push_str("_:")?;
    out.push_str(label)
}

fn push_datatype(out: &mut String, datatype: &str) -> Result<(), AllocError>
    requires { bytes_eq datatype.now xsd_string ≡ false }
    ensures { OnOk result (IsAppended out.old out.new (suffix_text datatype.now Option.None)) }
{
    out.push_str("^^")?;
    push_quoted(Quote::Angle, out, datatype)
}

fn push_tag(out: &mut String, datatype: &Text, tag: &str) -> Result<(), AllocError>
    ensures { OnOk result (IsAppended out.old out.new (suffix_text datatype.now (Option.Some tag.now))) }
{
    out.push_str("@")?;
    out.push_str(tag)
}

// What follows the quotes of a literal.
fn push_suffix(out: &mut String, datatype: &Text, tag: &Option<Text>) -> Result<(), AllocError>
    ensures { OnOk result (IsAppended out.old out.new (suffix_text datatype.now tag.now)) }
{
    match tag {
        Some(tag) => push_tag(out, datatype, tag.as_str()),
        None => {
            if is_xsd_string(datatype.as_str()) {
                return Ok(());
            }
            push_datatype(out, datatype.as_str())
        }
    }
}

fn push_literal(
    out: &mut String,
    text: &Text,
    datatype: &Text,
    tag: &Option<Text>,
) -> Result<(), AllocError>
    ensures { OnOk result (IsAppended out.old out.new (term_text (Term.Literal text.now datatype.now tag.now))) }
{
    push_quoted(Quote::Double, out, text.as_str())?;
    push_suffix(out, datatype, tag)
}

fn push_term(out: &mut String, term: &Term) -> Result<(), AllocError>
    ensures { OnOk result (IsAppended out.old out.new (term_text term.now)) }
{
    match term {
        Term::Iri(iri) => push_quoted(Quote::Angle, out, iri.as_str()),
        Term::Blank(label) => push_label(out, label.as_str()),
        Term::Literal {
            text,
            datatype,
            tag,
        } => push_literal(out, text, datatype, tag),
    }
}

fn push_triple(out: &mut String, t: &Triple) -> Result<(), AllocError>
    ensures { OnOk result (IsAppended out.old out.new (triple_text t.now)) }
{
    push_term(out, &t.subject)?;
    out.push_str(" ")?;
    push_quoted(Quote::Angle, out, t.predicate.as_str())?;
    out.push_str(" ")?;
    push_term(out, &t.object)?;
    out.push_str(" .")
}

/// The canonical spelling of a term: an IRI in brackets, a blank node behind `_:`, a literal with its tag, or
/// with its datatype if that isn't `xsd:string`. Only the characters that must be escaped are. O(b) for a
/// spelling of b bytes, which is all the memory that it takes.
pub fn write_term(alloc: Global, t: &Term) -> Result<Text, Memory>
    ensures { IfOk result (λ text. text ≡ encode_utf8_all (term_text t.now)) }
{
    let mut out = String::new(alloc);
    push_term(&mut out, t)?;
    Ok(Text::from_string(out))
}

/// The canonical spelling of a triple, as a line without its end: its three parts, each followed by one space,
/// and a dot. O(b) for a spelling of b bytes, which is all the memory that it takes.
pub fn write_triple(alloc: Global, t: &Triple) -> Result<Text, Memory>
    ensures text { IfOk result (λ text. text ≡ encode_utf8_all (triple_text t.now)) }
    // Where some line spells the triple, this one does.
    ensures spelled { IsSpelled t.now → IfOk result (λ text. SpellsTriple text t.now) }
{
    let mut out = String::new(alloc);
    push_triple(&mut out, t)?;
    Ok(Text::from_string(out))
}
