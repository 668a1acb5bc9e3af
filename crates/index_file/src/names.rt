// The names of indexes.
ghost use Rattle.std.specs.Prelude.{ℕ, ◌<◌, IfSome, IfNone, codes};
ghost use Rattle.index_api.specs.declared.kinds.Via.{Via};
ghost use Rattle.index_file.specs.Statements.{NamesIndex, HasPrefix, IsNumber};
ghost use Rattle.index_file.specs.NamedIndexes.{IsNamed, IsTooHigh};

use crate::numbers::number;
use crate::words::{behind, is_word};
use index_api::Via;

// The level, where there may be one as high.
fn level_of(digits: &[u8]) -> Option<u32>
    ensures found { IfSome result (λ n. IsNumber digits.now n) }
    ensures none { IfNone result ((n : ℕ) → IsNumber digits.now n → 8 < n) }
{
    let level = number(digits)?;
    if level <= 8 { Some(level as u32) } else { None }
}

// The index that the word names. None where it names none, or a level past 8.
fn index_of(word: &[u8]) -> Option<Via>
    ensures found { IfSome result (λ via. IsNamed (NamesIndex word.now) via) }
    ensures none { IfNone result ((via : Via) → NamesIndex word.now via → IsTooHigh via) }
{
    if is_word(word, b"one") {
        return Some(Via::One);
    }
    if is_word(word, b"fb") {
        return Some(Via::Fb);
    }
    if let Some(digits) = behind(word, b"a") {
        let level = level_of(digits)?;
        return Some(Via::A(level));
    }
    let digits = behind(word, b"b")?;
    let level = level_of(digits)?;
    Some(Via::B(level))
}

/// The index that the line of a view names. None where it names none, or a level past 8. O(b) for a line of b bytes,
/// no memory.
pub(crate) fn view_of(line: &[u8]) -> Option<Via>
    ensures found { IfSome result (λ via. IsNamed (λ v. HasPrefix (codes "view ") line.now (λ word. NamesIndex word v)) via) }
    ensures none { IfNone result ((via : Via) → HasPrefix (codes "view ") line.now (λ word. NamesIndex word via) → IsTooHigh via) }
{
    let word = behind(line, b"view ")?;
    let via = index_of(word)?;
    Some(via)
}
