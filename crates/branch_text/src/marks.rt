// The tokens that are no labels, and where a label ends.
ghost use Rattle.std.specs.Prelude.{◌≡◌, ◌≤◌, List, ℕ, Option, length, nat_eq, option_map};
ghost use Rattle.std.specs.List.{position_or_len};
ghost use Rattle.triples_read.specs.ByteReaders.{starts_with};
ghost use Rattle.branch_expr.specs.Axes.{axis_of};
ghost use Rattle.branch_text.specs.BranchTokens.{token_of};
ghost use Rattle.branch_text.specs.BranchTokenPrefixes.{mark_at, axis_prefix, sign_prefix, word_token, word_prefix, mark_prefix, iri_len, label_len};

use crate::token::{Mark, Token};
use branch_expr::Axis;
use path_query::name_len;

/// The token of the byte.
fn mark_at(byte: u8) -> Option<Token>
    ensures { option_map token_of result ≡ mark_at byte }
{
    if byte == b'_' {
        Some(Token::Mark(Mark::Any))
    } else if byte == b'[' {
        Some(Token::Mark(Mark::Left))
    } else if byte == b']' {
        Some(Token::Mark(Mark::Right))
    } else if byte == b'(' {
        Some(Token::Mark(Mark::Open))
    } else if byte == b')' {
        Some(Token::Mark(Mark::Close))
    } else {
        None
    }
}

/// The token of an axis whose first byte is this one, with what follows it: the far axis where the byte comes twice.
fn axis_prefix(byte: u8, single: Axis, double: Axis, rest: &[u8]) -> (Token, &[u8])
    ensures { (token_of result.0, result.1.now) ≡ axis_prefix byte (axis_of single) (axis_of double) rest.now }
{
    match rest.split_first() {
        Some((next, after)) if *next == byte => (Token::Along(double), after),
        _ => (Token::Along(single), rest),
    }
}

/// The token at the front that is no word, and what follows it.
fn sign_prefix(text: &[u8]) -> Option<(Token, &[u8])>
    ensures { option_map (λ r. (token_of r.0, r.1.now)) result ≡ sign_prefix text.now }
{
    let (byte, rest) = text.split_first()?;
    if *byte == b'/' {
        return Some(axis_prefix(b'/', Axis::Child, Axis::Below, rest));
    }
    if *byte == b'\\' {
        return Some(axis_prefix(b'\\', Axis::Parent, Axis::Above, rest));
    }
    let token = mark_at(*byte)?;
    Some((token, rest))
}

/// The token of a word that is no label.
fn word_token(word: &[u8]) -> Option<Token>
    ensures { option_map token_of result ≡ word_token word.now }
{
    if word == b"not".as_slice() {
        Some(Token::Mark(Mark::Not))
    } else if word == b"and".as_slice() {
        Some(Token::Mark(Mark::And))
    } else if word == b"or".as_slice() {
        Some(Token::Mark(Mark::Or))
    } else {
        None
    }
}

/// The word at the front that is no label, and what follows it.
fn word_prefix(text: &[u8]) -> Option<(Token, &[u8])>
    ensures { option_map (λ r. (token_of r.0, r.1.now)) result ≡ word_prefix text.now }
{
    let (word, rest) = text.split_at(name_len(text));
    let token = word_token(word)?;
    Some((token, rest))
}

/// The token at the front that is no label, and what follows it.
pub(crate) fn mark_prefix(text: &[u8]) -> Option<(Token, &[u8])>
    ensures { option_map (λ r. (token_of r.0, r.1.now)) result ≡ mark_prefix text.now }
{
    match sign_prefix(text) {
        Some(found) => Some(found),
        None => word_prefix(text),
    }
}

/// How many bytes stand before the first `>`.
fn before_end(text: &[u8]) -> usize
    ensures count { result ≡ position_or_len (λ b. nat_eq b 62) text.now }
    ensures within { result ≤ length text.now }
{
    text.iter().take_while(|byte| **byte != b'>').count()
}

/// How many bytes stand up to the first `>`, with it; all of them where there is none.
fn iri_len(text: &[u8]) -> usize
    ensures count { result ≡ iri_len text.now }
    ensures within { result ≤ length text.now }
{
    let before = before_end(text);
    if before < text.len() {
        before + 1
    } else {
        before
    }
}

/// Whether the text begins with '<'.
fn opens_iri(text: &[u8]) -> bool
    ensures { result ≡ starts_with 60 text.now }
{
    matches!(text, [b'<', ..])
}

/// How many bytes a label at the front has, where one stands there. Linear in that number.
pub(crate) fn label_len(text: &[u8]) -> usize
    ensures count { result ≡ label_len text.now }
    ensures within { result ≤ length text.now }
{
    if opens_iri(text) {
        iri_len(text)
    } else {
        name_len(text)
    }
}
