// What stands at the front of a text: blanks, a comment, an ASCII character.
ghost use Rattle.std.specs.Prelude.{◌≡◌, ◌<◌, ◌∷◌, List, ℕ, false, MatchOption};
ghost use Rattle.std.specs.List.{prefix_len};
ghost use Rattle.graph_spec.specs.Words.{is_blank as blank};
ghost use Rattle.triples_read.specs.ByteReaders.{past_blanks, is_over as over, starts_with as starts};

fn is_blank(b: u8) -> bool
    ensures { result ≡ blank b }
{
    b == b' ' || b == b'\t'
}

fn blanks_len(bytes: &[u8]) -> usize
    ensures { result ≡ prefix_len blank bytes.now }
{
    bytes.iter().take_while(|b| is_blank(**b)).count()
}

/// What follows the leading blanks.
pub(crate) fn skip_blanks(text: &str) -> &str
    ensures { result.now ≡ past_blanks text.now }
{
    let (_, after) = text.split_at(blanks_len(text.as_bytes()));
    after
}

/// Whether nothing or a comment is left.
pub(crate) fn is_over(text: &str) -> bool
    ensures { result ≡ over text.now }
{
    match text.as_bytes().split_first() {
        Some((first, _)) => *first == b'#',
        None => true,
    }
}

/// Whether the first byte is this one.
pub(crate) fn starts_with(byte: u8, text: &str) -> bool
    ensures { result ≡ starts byte text.now }
{
    match text.as_bytes().split_first() {
        Some((first, _)) => *first == byte,
        None => false,
    }
}

/// What follows this ASCII character at the front.
pub(crate) fn past_byte(byte: u8, text: &str) -> Option<&str>
    requires { byte < 128 }
    ensures { MatchOption result (starts byte text.now ≡ false) (λ after. text.now ≡ byte ∷ after.now) }
{
    if !starts_with(byte, text) {
        return None;
    }
    let (_, after) = text.split_at(1);
    Some(after)
}

/// What follows these two ASCII characters at the front.
pub(crate) fn past_two(first: u8, second: u8, text: &str) -> Option<&str>
    requires { (first < 128) × (second < 128) }
    ensures { MatchOption result ((x : List ℕ) → text.now ≡ first ∷ second ∷ x → ⊥) (λ after. text.now ≡ first ∷ second ∷ after.now) }
{
    let Some(behind) = past_byte(first, text) else {
        return None;
    };
    past_byte(second, behind)
}
