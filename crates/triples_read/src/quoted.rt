// What stands between quotes, with escapes: the body of an IRIREF and of a string.
ghost use Rattle.std.specs.Prelude.{◌≡◌, ◌<◌, ◌≤◌, ◌+◌, ◌∷◌, List, ℕ, true, false, length, IfOk, IfSome, IfNone, IsUtf8, string_bytes, encode_utf8_all};
ghost use Rattle.std.specs.List.{position_or_len, position};
ghost use Rattle.std.proofs.Common.{not};
ghost use Rattle.triples_read.specs.Bodies.{StopsAt, IsBodyPrefix};
ghost use Rattle.triples_read.specs.Quotes.{opening as opening_of, closing as closing_of, inner, escape_at, PieceIn, BodyIn, AddsPieces, IsQuoted};
ghost use Rattle.triples_read.specs.SpelledPrefixes.{IfRead, IsRead};

use crate::blanks::past_byte;
use crate::characters::{is_iri_byte, stands_in_string};
use crate::escapes::{string_escape, uchar};
use crate::spare::SpareTexts;
use std::alloc::AllocError;

/// Which quotes enclose a part.
#[derive(Clone, Copy)]
pub(crate) enum Quote {
    /// `<` and `>`, around an IRI.
    Angle,
    /// `"` at both ends, around a string.
    Double,
}

impl Quote {
    pub(crate) fn opening(self) -> u8
        ensures is { result ≡ opening_of self }
        ensures ascii { result < 128 }
    {
        match self {
            Quote::Angle => b'<',
            Quote::Double => b'"',
        }
    }

    pub(crate) fn closing(self) -> u8
        ensures is { result ≡ closing_of self }
        ensures ascii { result < 128 }
    {
        match self {
            Quote::Angle => b'>',
            Quote::Double => b'"',
        }
    }
}

// The place of the first byte that doesn't stand for itself in an IRIREF.
fn iri_run_end(bytes: &[u8]) -> Option<usize>
    ensures { result ≡ position (λ b. not (inner Quote.Angle b)) bytes.now }
{
    bytes.iter().position(|b| !is_iri_byte(*b))
}

// The same in a string.
fn string_run_end(bytes: &[u8]) -> Option<usize>
    ensures { result ≡ position (λ b. not (inner Quote.Double b)) bytes.now }
{
    bytes.iter().position(|b| !stands_in_string(*b as char))
}

fn run_end(quote: Quote, bytes: &[u8]) -> Option<usize>
    ensures { result ≡ position (λ b. not (inner quote b)) bytes.now }
{
    match quote {
        Quote::Angle => iri_run_end(bytes),
        Quote::Double => string_run_end(bytes),
    }
}

// How many bytes at the front stand for themselves.
fn run_len(quote: Quote, bytes: &[u8]) -> usize
    ensures is { result ≡ position_or_len (λ b. not (inner quote b)) bytes.now }
    ensures within { result ≤ length bytes.now }
{
    match run_end(quote, bytes) {
        Some(len) => len,
        None => bytes.len(),
    }
}

// The character of the escape whose backslash was read, and its length with the backslash.
fn escape_behind(quote: Quote, bytes: &[u8]) -> Option<(char, usize)>
    ensures { result ≡ escape_at quote bytes.now }
{
    match quote {
        Quote::Angle => uchar(bytes),
        Quote::Double => string_escape(bytes),
    }
}

// The same, with the bounds of that length.
fn escape(quote: Quote, bytes: &[u8]) -> Option<(char, usize)>
    ensures is { result ≡ escape_at quote bytes.now }
    ensures within { IfSome result (λ found. (0 < found.1) × (found.1 ≤ length bytes.now + 1)) }
{
    escape_behind(quote, bytes)
}

// Takes the run of characters that stand for themselves, as one slice.
fn take_run<'a>(quote: Quote, text: &mut String, rest: &'a str) -> Result<&'a str, AllocError>
    ensures found { IfOk result (λ after. AddsPieces quote text.old text.new rest.now after.now) }
    ensures ended { IfOk result (λ after. StopsAt (inner quote) after.now) }
    ensures shorter { IfOk result (λ after. length after.now ≤ length rest.now) }
    ensures utf8 { IfOk result (λ after. IsUtf8 after.now) }
{
    let (run, after) = rest.split_at(run_len(quote, rest.as_bytes()));
    text.push_str(run)?;
    Ok(after)
}

// Takes the escape whose backslash was read.
fn take_escape<'a>(
    quote: Quote,
    text: &mut String,
    rest: &'a str,
) -> Result<Option<&'a str>, AllocError>
    ensures found { IfRead result (λ after. AddsPieces quote text.old text.new (92 ∷ rest.now) after.now) }
    ensures none { IfOk result (λ r. IfNone r ((v tail : List ℕ) → BodyIn quote (92 ∷ rest.now) v tail → ⊥)) }
    ensures shorter { IfRead result (λ after. length after.now < length rest.now + 1) }
    ensures utf8 { IfRead result (λ after. IsUtf8 after.now) }
{
    match escape(quote, rest.as_bytes()) {
        Some((c, len)) => {
            text.push(c)?;
            let (_, after) = rest.split_at(len - 1);
            Ok(Some(after))
        }
        None => Ok(None),
    }
}

// Takes a run and what follows it: an escape, or the end, after which it hands out the rest, with true.
fn take_piece<'a>(
    quote: Quote,
    text: &mut String,
    rest: &'a str,
) -> Result<Option<(bool, &'a str)>, AllocError>
    ensures more { IfRead result (λ f. f.0 ≡ false → AddsPieces quote text.old text.new rest.now f.1.now) }
    ensures shorter { IfRead result (λ f. length f.1.now < length rest.now) }
    ensures utf8 { IfRead result (λ f. IsUtf8 f.1.now) }
    ensures end { IfRead result (λ f. f.0 ≡ true → AddsPieces quote text.old text.new rest.now (closing_of quote ∷ f.1.now)) }
    ensures none { IfOk result (λ r. IfNone r ((v tail : List ℕ) → BodyIn quote rest.now v tail → ⊥)) }
{
    let after = take_run(quote, text, rest)?;
    if let Some(behind) = past_byte(quote.closing(), after) {
        return Ok(Some((true, behind)));
    }
    let Some(behind) = past_byte(b'\\', after) else {
        return Ok(None);
    };
    let Some(next) = take_escape(quote, text, behind)? else {
        return Ok(None);
    };
    Ok(Some((false, next)))
}

// Reads what follows the opening quote, up to the closing one, and hands out what lies behind that.
fn quoted_body<'a>(
    quote: Quote,
    spare: &mut SpareTexts,
    body: &'a str,
) -> Result<Option<(String, &'a str)>, AllocError>
    ensures found { IfRead result (λ f. IsBodyPrefix (PieceIn quote) (closing_of quote) body.now (string_bytes f.0) f.1.now) }
    ensures only { (v tail : List ℕ) → BodyIn quote body.now v tail
        → IsRead result (λ f. (string_bytes f.0 ≡ encode_utf8_all v) × (f.1.now ≡ tail)) }
{
    let mut text = spare.take();
    let mut rest = body;
    loop {
        let Some((ended, after)) = take_piece(quote, &mut text, rest)? else {
            return Ok(None);
        };
        if ended {
            return Ok(Some((text, after)));
        }
        rest = after;
    }
}

/// The text between quotes that stand at the front, and what lies behind them. None where no such
/// quotes stand there, or what is between them spells no text.
pub(crate) fn read_quoted<'a>(
    quote: Quote,
    spare: &mut SpareTexts,
    text: &'a str,
) -> Result<Option<(String, &'a str)>, AllocError>
    ensures found { IfRead result (λ f. (v : List ℕ) × (string_bytes f.0 ≡ encode_utf8_all v) × IsQuoted quote text.now v f.1.now) }
    ensures only { (v tail : List ℕ) → IsQuoted quote text.now v tail
        → IsRead result (λ f. (string_bytes f.0 ≡ encode_utf8_all v) × (f.1.now ≡ tail)) }
{
    let Some(body) = past_byte(quote.opening(), text) else {
        return Ok(None);
    };
    quoted_body(quote, spare, body)
}
