// The tokens that are no labels.
ghost use Rattle.std.specs.Prelude.{◌≡◌, ◌↔◌, List, ℕ, Option, option_map, IsTrue};
ghost use Rattle.path_spec.specs.Spelling.{EndsName};
ghost use Rattle.path_query.specs.PathTokens.{token_of};
ghost use Rattle.path_query.specs.PathTokenPrefixes.{mark_at, slash_prefix, mark_prefix};

use crate::labels::is_name_byte;
use crate::token::Token;
use path_expr::{Sep, Sign};

/// The token of the byte.
fn mark_at(byte: u8) -> Option<Token>
    ensures { option_map token_of result ≡ mark_at byte }
{
    if byte == b'_' {
        Some(Token::Any)
    } else if byte == b'|' {
        Some(Token::Bar)
    } else if byte == b'(' {
        Some(Token::Open)
    } else if byte == b')' {
        Some(Token::Close)
    } else if byte == b'*' {
        Some(Token::Sign(Sign::Star))
    } else if byte == b'+' {
        Some(Token::Sign(Sign::Plus))
    } else if byte == b'?' {
        Some(Token::Sign(Sign::Opt))
    } else {
        None
    }
}

/// The token of a '/' with what follows it.
fn slash_prefix(rest: &[u8]) -> (Token, &[u8])
    ensures { (token_of result.0, result.1.now) ≡ slash_prefix rest.now }
{
    match rest.split_first() {
        Some((byte, after)) if *byte == b'/' => (Token::Sep(Sep::Below), after),
        _ => (Token::Sep(Sep::Child), rest),
    }
}

/// The token at the front that is no label, and what follows it.
pub(crate) fn mark_prefix(text: &[u8]) -> Option<(Token, &[u8])>
    ensures { option_map (λ r. (token_of r.0, r.1.now)) result ≡ mark_prefix text.now }
{
    let (byte, rest) = text.split_first()?;
    if *byte == b'/' {
        return Some(slash_prefix(rest));
    }
    let token = mark_at(*byte)?;
    Some((token, rest))
}

/// Whether no name goes on into the text. O(1).
pub(crate) fn ends_name(text: &[u8]) -> bool
    ensures { IsTrue result ↔ EndsName text.now }
{
    match text.split_first() {
        None => true,
        Some((byte, _)) => !is_name_byte(*byte),
    }
}
