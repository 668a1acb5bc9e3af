// Indexes and their kinds, as lines name them.
ghost use Rattle.std.specs.Prelude.{◌≡◌, ◌≢◌, ◌<◌, ◌^◌, ℕ, IfSome, IfNone, [], ◌∷◌, decimal};
ghost use Rattle.graph_spec.specs.Words.{words};
ghost use Rattle.bisim_spec.specs.declared.kind.Kind.{Kind as AnyKind};
ghost use Rattle.index_api.specs.declared.kinds.Via.{Via as AnyVia};
ghost use Rattle.index_api.specs.Spelling.{via_word, kind_word};
ghost use Rattle.script_read.specs.Commands.{IsIndex, IsVia};

use crate::nodes::printed_number;
use crate::words::{is_word, one_word};
use index_api::{Kind, Via};

/// The level of an index of a family that is written with this letter, as `a2` is.
fn level_of(word: &[u8], letter: u8) -> Option<u32>
    ensures found { IfSome result (λ n. word.now ≡ letter ∷ decimal n) }
    ensures absent { IfNone result ((n : ℕ) → n < 2 ^ 32 → word.now ≢ letter ∷ decimal n) }
{
    match word.split_first() {
        Some((first, digits)) => {
            if *first == letter {
                printed_number(digits)
            } else {
                None
            }
        }
        None => None,
    }
}

/// The index of a family that the word names.
fn family_index(word: &[u8]) -> Option<Via>
    ensures found { IfSome result (λ v. word.now ≡ via_word v) }
    ensures index { IfSome result IsIndex }
    ensures no_a { IfNone result ((n : ℕ) → n < 2 ^ 32 → word.now ≢ 97 ∷ decimal n) }
    ensures no_b { IfNone result ((n : ℕ) → n < 2 ^ 32 → word.now ≢ 98 ∷ decimal n) }
{
    match level_of(word, b'a') {
        Some(level) => Some(Via::A(level)),
        None => match level_of(word, b'b') {
            Some(level) => Some(Via::B(level)),
            None => None,
        },
    }
}

/// The index that the word names.
fn index_of(word: &[u8]) -> Option<Via>
    ensures found { IfSome result (λ v. word.now ≡ via_word v) }
    ensures index { IfSome result IsIndex }
    ensures absent { IfNone result ((v : AnyVia) → IsIndex v → word.now ≢ via_word v) }
{
    if is_word(word, "one") {
        Some(Via::One)
    } else if is_word(word, "fb") {
        Some(Via::Fb)
    } else {
        family_index(word)
    }
}

/// Through what the word asks a query.
pub(crate) fn via_of(word: &[u8]) -> Option<Via>
    ensures found { IfSome result (λ v. word.now ≡ via_word v) }
    ensures lawful { IfSome result IsVia }
    ensures absent { IfNone result ((v : AnyVia) → IsVia v → word.now ≢ via_word v) }
{
    if is_word(word, "data") {
        Some(Via::Data)
    } else {
        index_of(word)
    }
}

/// The kind of indexes that the word names.
fn kind_of(word: &[u8]) -> Option<Kind>
    ensures found { IfSome result (λ k. word.now ≡ kind_word k) }
    ensures absent { IfNone result ((k : AnyKind) → word.now ≢ kind_word k) }
{
    if is_word(word, "a") {
        Some(Kind::A)
    } else if is_word(word, "one") {
        Some(Kind::One)
    } else if is_word(word, "fb") {
        Some(Kind::Fb)
    } else if is_word(word, "b") {
        Some(Kind::B)
    } else {
        None
    }
}

/// The one kind of indexes that follows.
pub(crate) fn one_kind(rest: &[u8]) -> Option<Kind>
    ensures found { IfSome result (λ k. words rest.now ≡ kind_word k ∷ []) }
    ensures absent { IfNone result ((k : AnyKind) → words rest.now ≢ kind_word k ∷ []) }
{
    match one_word(rest) {
        Some(word) => kind_of(word),
        None => None,
    }
}

/// The one index that follows.
pub(crate) fn one_index(rest: &[u8]) -> Option<Via>
    ensures found { IfSome result (λ v. words rest.now ≡ via_word v ∷ []) }
    ensures index { IfSome result IsIndex }
    ensures absent { IfNone result ((v : AnyVia) → IsIndex v → words rest.now ≢ via_word v ∷ []) }
{
    match one_word(rest) {
        Some(word) => index_of(word),
        None => None,
    }
}
