// Words at the front of a line.
ghost use Rattle.std.specs.Prelude.{◌≡◌, ◌≢◌, ◌++◌, ℕ, List, ◌↔◌, IfSome, IfNone, IsTrue};

/// What stands behind the word, and none where the text doesn't begin with it. O(w) for a word of w bytes, no memory.
pub(crate) fn behind<'a>(text: &'a [u8], word: &[u8]) -> Option<&'a [u8]>
    ensures found { IfSome result (λ rest. text.now ≡ word.now ++ rest.now) }
    ensures none { IfNone result ((rest : List ℕ) → text.now ≢ word.now ++ rest) }
{
    if text.len() < word.len() {
        return None;
    }
    let (front, rest) = text.split_at(word.len());
    if is_word(front, word) {
        Some(rest)
    } else {
        None
    }
}

/// Whether the line is the word. O(w) for a word of w bytes, no memory.
pub(crate) fn is_word(line: &[u8], word: &[u8]) -> bool
    ensures { IsTrue result ↔ (line.now ≡ word.now) }
{
    // Words are short: `==`, which tests bytes in groups, takes longer.
    line.iter().eq(word)
}
