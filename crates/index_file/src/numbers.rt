// Numbers in decimal.
ghost use Rattle.std.specs.Prelude.{◌≡◌, ◌∷◌, ◌≤◌, ◌+◌, ◌*◌, ◌-◌, ℕ, List, IfSome, IfNone, IsTrue, slice_index_or};
ghost use Rattle.std.specs.List.{list_all, prefix_len};
ghost use Rattle.std.specs.Char.{is_ascii_digit};
ghost use Rattle.std.specs.Str.Parse.{digits_value};
ghost use Rattle.index_file.specs.Statements as spelled;
ghost use Rattle.index_file.specs.Statements.{IsNumber, AreNumbers, HasPrefix};
ghost use Rattle.index_file.specs.FoundNumbers.{IsFound, AreFound, saturated, digits_ahead, after_digits};

use crate::words::behind;

/// Numbers past this are read as this.
const MOST: u64 = 1_000_000_000_000_000_000;

// The first byte, or the other one where there is none.
fn first_or(bytes: &[u8], other: u8) -> u8
    ensures { result ≡ slice_index_or bytes.now 0 other }
{
    if bytes.is_empty() { other } else { bytes[0] }
}

// Whether digits begin with no needless zero, and there are some.
fn is_plain(digits: &[u8]) -> bool
    requires { IsTrue (list_all is_ascii_digit digits.now) }
    ensures { result ≡ spelled.is_decimal digits.now }
{
    digits.len() == 1 || first_or(digits, b'0') != b'0'
}

// The value with one more digit behind it, and 10^18 where it is past that.
fn with_digit(value: u64, digit: u8) -> u64
    requires digit { IsTrue (is_ascii_digit digit) }
    requires value { value ≤ 1000000000000000000 }
    ensures { result ≡ saturated (value * 10 + (digit - 48)) }
{
    let wide = value * 10 + u64::from(digit - b'0');
    if wide <= MOST { wide } else { MOST }
}

// How many digits stand in front, and their value, which is 10^18 where it is past that.
fn leading_digits(text: &[u8]) -> (usize, u64)
    ensures count { result.0 ≡ prefix_len is_ascii_digit text.now }
    ensures value { result.1 ≡ saturated (digits_value 10 (digits_ahead text.now)) }
{
    let mut value: u64 = 0;
    for (i, d) in text.iter().enumerate() {
        if !d.is_ascii_digit() {
            return (i, value);
        }
        value = with_digit(value, *d);
    }
    (text.len(), value)
}

// The number that the digits in front write, as `number` gives it, and what stands behind them. None exactly where they
// write none. O(d) for d digits, no memory.
fn leading_number(text: &[u8]) -> Option<(u64, &[u8])>
    ensures found { IfSome result (λ p. IsFound (IsNumber (digits_ahead text.now)) p.0 × (p.1.now ≡ after_digits text.now)) }
    ensures none { IfNone result ((n : ℕ) → IsNumber (digits_ahead text.now) n → ⊥) }
{
    let (count, value) = leading_digits(text);
    let (digits, rest) = text.split_at(count);
    if is_plain(digits) {
        Some((value, rest))
    } else {
        None
    }
}

/// The number that is written so, without leading zeros, and 10^18 where it is past that. None exactly where
/// no number is. O(d) for d digits, no memory.
pub(crate) fn number(digits: &[u8]) -> Option<u64>
    ensures found { IfSome result (IsFound (IsNumber digits.now)) }
    ensures none { IfNone result ((n : ℕ) → IsNumber digits.now n → ⊥) }
{
    let (n, rest) = leading_number(digits)?;
    if rest.is_empty() { Some(n) } else { None }
}

/// Two numbers with this word between them, which begins with a space. O(d) for d bytes, no memory.
pub(crate) fn two_numbers(text: &[u8], word: &[u8]) -> Option<(u64, u64)>
    requires space { (rest : List ℕ) × (word.now ≡ 32 ∷ rest) }
    ensures found { IfSome result (AreFound (AreNumbers word.now text.now)) }
    ensures none { IfNone result ((n m : ℕ) → AreNumbers word.now text.now n m → ⊥) }
{
    let (n, rest) = leading_number(text)?;
    let second = behind(rest, word)?;
    let m = number(second)?;
    Some((n, m))
}

/// The number behind a word. O(d) for d bytes, no memory.
pub(crate) fn number_behind(line: &[u8], word: &[u8]) -> Option<u64>
    ensures found { IfSome result (IsFound (λ n. HasPrefix word.now line.now (λ digits. IsNumber digits n))) }
    ensures none { IfNone result ((n : ℕ) → HasPrefix word.now line.now (λ digits. IsNumber digits n) → ⊥) }
{
    let digits = behind(line, word)?;
    let n = number(digits)?;
    Some(n)
}

/// Two numbers behind a word, with a word between them, which begins with a space. O(d) for d bytes, no memory.
pub(crate) fn two_numbers_behind(line: &[u8], word: &[u8], between: &[u8]) -> Option<(u64, u64)>
    requires space { (rest : List ℕ) × (between.now ≡ 32 ∷ rest) }
    ensures found { IfSome result (AreFound (λ n m. HasPrefix word.now line.now (λ rest. AreNumbers between.now rest n m))) }
    ensures none { IfNone result ((n m : ℕ) → HasPrefix word.now line.now (λ rest. AreNumbers between.now rest n m) → ⊥) }
{
    let rest = behind(line, word)?;
    let pair = two_numbers(rest, between)?;
    Some(pair)
}

/// The number, which is below 2^32. O(1), no memory.
pub(crate) fn to_u32(n: usize) -> u32
    requires { n ≤ 4294967295 }
    ensures { result ≡ n }
{
    n as u32
}
