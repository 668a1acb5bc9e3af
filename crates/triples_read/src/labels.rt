// Blank node labels.
ghost use Rattle.std.specs.Prelude.{true, ◌≡◌, ◌++◌, [], List, ℕ, MatchOption, IfSome, IsSomeAnd, encode_utf8, encode_utf8_all, ◌∷◌};
ghost use Rattle.triples_read.specs.ByteReaders.{past_label};
ghost use Rattle.triples_read.specs.SpelledPrefixes.{IsLabelPrefix, EndsLabel, EachLabel, Prefix, IsText, EachPrefix, IfRead, IsRead};
ghost use Rattle.triples_read.specs.Lines.{IsBlankNode};
ghost use Rattle.std.specs.Str.{chars};

use crate::blanks::past_two;
use crate::characters::{is_label_char, is_label_first};
use crate::spare::SpareTexts;
use px_base::{Memory, Text};

/// The first character, and what follows.
pub(crate) fn next_char(text: &str) -> Option<(char, &str)>
    ensures { MatchOption result (text.now ≡ []) (λ p. text.now ≡ encode_utf8 p.0 ++ p.1.now) }
{
    let mut chars = text.chars();
    let c = chars.next()?;
    Some((c, chars.as_str()))
}

// What follows the longest front that holds label characters and dots and doesn't end in a dot.
fn after_label(text: &str) -> &str
    ensures { (cs : List ℕ) → text.now ≡ encode_utf8_all cs → result.now ≡ encode_utf8_all (past_label cs cs) }
{
    let mut tail = text;
    let mut rest = text;
    while let Some((c, after)) = next_char(rest) {
        if is_label_char(c) {
            tail = after;
        } else if c != '.' {
            return tail;
        }
        rest = after;
    }
    tail
}

// What follows the longest label at the front.
fn past_prefix(text: &str) -> Option<&str>
    ensures found { IfSome result (λ tail. IsLabelPrefix text.now tail.now) }
    ensures whole { EachLabel text.now (λ tail. IsSomeAnd result (λ left. left.now ≡ encode_utf8_all tail)) }
{
    let Some((first, after)) = next_char(text) else {
        return None;
    };
    if !is_label_first(first) {
        return None;
    }
    Some(after_label(after))
}

/// The longest blank node label at the front, without its `_:`, and what follows it.
pub(crate) fn read_label<'a>(
    spare: &mut SpareTexts,
    text: &'a str,
) -> Result<Option<(Text, &'a str)>, Memory>
    ensures found { (cs : List ℕ) → IsText text.now cs → IfRead result (λ f. Prefix (λ s. IsBlankNode s f.0) cs f.1.now) }
    ensures whole { EachPrefix IsBlankNode text.now (λ label r. EndsLabel r → IsRead result (λ f. (f.0 ≡ label) × (f.1.now ≡ encode_utf8_all r))) }
{
    let Some(after) = past_two(b'_', b':', text) else {
        return Ok(None);
    };
    let Some(tail) = past_prefix(after) else {
        return Ok(None);
    };
    let (label, rest) = after.split_at(after.len() - tail.len());
    Ok(Some((spare.copy(label)?, rest)))
}

/// Whether the whole text is a blank node label, without its `_:`.
pub(crate) fn is_label(text: &str) -> bool
    ensures sound { result ≡ true → IsBlankNode (95 ∷ 58 ∷ chars text.now) text.now }
    ensures complete { (s : List ℕ) → IsBlankNode s text.now → result ≡ true }
{
    match past_prefix(text) {
        Some(rest) => rest.is_empty(),
        None => false,
    }
}
