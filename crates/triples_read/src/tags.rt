// Language tags.
ghost use Rattle.std.specs.Prelude.{[], ◌↔◌, ◌≡◌, List, ℕ, true, false, None, Some, MatchOption, IfOk, encode_utf8_all, map};
ghost use Rattle.std.specs.Char.{to_ascii_lowercase};
ghost use Rattle.std.specs.List.{list_all};
ghost use Rattle.std.proofs.Common.{not};
ghost use Rattle.triples_read.specs.Characters.{from_to};
ghost use Rattle.triples_read.specs.ByteReaders.{tag_part, past_tag as past};
ghost use Rattle.triples_read.specs.SpelledPrefixes.{Prefix, IsText, EachPrefix, IfRead, IsRead, IsTag, EndsTag};

use crate::characters::{is_letter, is_letter_or_digit};
use crate::spare::SpareTexts;
use px_base::{Memory, Text};

// Whether the first part of a tag, or another part, may hold the byte.
fn is_in_part(main: bool, b: u8) -> bool
    ensures { result ≡ tag_part main b }
{
    if main {
        is_letter(u32::from(b))
    } else {
        is_letter_or_digit(u32::from(b))
    }
}

// What follows the longest tag at the front, behind its `@`. None where one of its parts is empty.
fn past_tag(bytes: &[u8]) -> Option<&[u8]>
    ensures { MatchOption result (past true true bytes.now ≡ None) (λ rest. past true true bytes.now ≡ Some rest.now) }
{
    let mut rest = bytes;
    let mut main = true;
    let mut fresh = true;
    'bytes: while let Some((first, after)) = rest.split_first() {
        if is_in_part(main, *first) {
            fresh = false;
        } else if fresh {
            return None;
        } else if *first == b'-' {
            main = false;
            fresh = true;
        } else {
            return Some(rest);
        }
        rest = after;
    }
    if fresh {
        return None;
    }
    Some(rest)
}

// The same text with its ASCII letters in lower case.
fn lower(spare: &mut SpareTexts, tag: &str) -> Result<Text, Memory>
    ensures { IfOk result (λ t. t ≡ map to_ascii_lowercase tag.now) }
{
    let mut text = spare.take();
    text.push_str(tag)?;
    text.make_ascii_lowercase();
    Ok(Text::from_string(text))
}

/// The language tag behind an `@` that was read, in lower case, and what follows it.
pub(crate) fn read_tag<'a>(
    spare: &mut SpareTexts,
    text: &'a str,
) -> Result<Option<(Text, &'a str)>, Memory>
    ensures found { (cs : List ℕ) → IsText text.now cs → IfRead result (λ f. Prefix (λ s. IsTag s f.0) cs f.1.now) }
    ensures whole { EachPrefix IsTag text.now (λ tag r. EndsTag (encode_utf8_all r)
        → IsRead result (λ f. (f.0 ≡ tag) × (f.1.now ≡ encode_utf8_all r))) }
{
    let Some(behind) = past_tag(text.as_bytes()) else {
        return Ok(None);
    };
    let (tag, rest) = text.split_at(text.len() - behind.len());
    Ok(Some((lower(spare, tag)?, rest)))
}

fn is_not_upper(b: u8) -> bool
    ensures { result ≡ not (from_to 65 90 b) }
{
    b < 65 || 90 < b
}

fn has_no_upper(bytes: &[u8]) -> bool
    ensures { result ≡ list_all (λ b. not (from_to 65 90 b)) bytes.now }
{
    bytes.iter().all(|b| is_not_upper(*b))
}

fn is_tag_in_any_case(bytes: &[u8]) -> bool
    ensures { result ≡ true ↔ past true true bytes.now ≡ Some [] }
{
    match past_tag(bytes) {
        Some(rest) => rest.is_empty(),
        None => false,
    }
}

/// Whether the whole text is a language tag in lower case, without its `@`.
pub(crate) fn is_tag(bytes: &[u8]) -> bool
    ensures sound { result ≡ true → IsTag bytes.now bytes.now }
    ensures complete { (s : List ℕ) → IsTag s bytes.now → result ≡ true }
{
    is_tag_in_any_case(bytes) && has_no_upper(bytes)
}
