// The words of a line, one after another.
ghost use Rattle.std.specs.Prelude.{◌≡◌, ◌≢◌, ◌↔◌, ℕ, List, IsTrue, IfSome, IfNone, [], ◌∷◌};
ghost use Rattle.graph_spec.specs.Words.{words};
ghost use Rattle.script_read.specs.FirstWords.{first_word, behind_word, without_blanks, IsSplit};

use path_query::{skip_blanks, trim_end_blanks};

/// The first word of the line, which is empty if there is none, and what follows it.
pub(crate) fn split_word(line: &[u8]) -> (&[u8], &[u8])
    ensures word { result.0.now ≡ first_word line.now }
    ensures rest { result.1.now ≡ behind_word line.now }
    ensures parts { IsSplit line.now result.0.now result.1.now }
{
    path_query::split_word(skip_blanks(line))
}

/// The text without the blanks at both ends.
pub(crate) fn trim_blanks(text: &[u8]) -> &[u8]
    ensures { result.now ≡ without_blanks text.now }
{
    trim_end_blanks(skip_blanks(text))
}

/// Whether the line has no word.
pub(crate) fn is_over(line: &[u8]) -> bool
    ensures { IsTrue result ↔ (words line.now ≡ []) }
{
    split_word(line).0.is_empty()
}

/// Whether the word is this text.
pub(crate) fn is_word(word: &[u8], text: &str) -> bool
    ensures { IsTrue result ↔ (word.now ≡ text.now) }
{
    word == text.as_bytes()
}

/// The one word that follows.
pub(crate) fn one_word(rest: &[u8]) -> Option<&[u8]>
    ensures found { IfSome result (λ w. words rest.now ≡ w.now ∷ []) }
    ensures absent { IfNone result ((w : List ℕ) → words rest.now ≢ w ∷ []) }
{
    let (word, rest) = split_word(rest);
    if !word.is_empty() && is_over(rest) {
        Some(word)
    } else {
        None
    }
}
