// Texts that are no longer used, whose memory the next ones take.
ghost use Rattle.std.specs.Prelude.{◌≡◌, [], IfOk, string_bytes};

use crate::term::{Term, Triple};
use px_base::{Memory, Text};
use std::alloc::Global;
use std::marker::Model;

// Enough for the texts of the triples that are read before the first of them is given back: a triple that a line spells
// has five at most.
const KEPT: usize = 128;

/// A text with more memory isn't kept, so that a long line doesn't hold its memory until the end.
const KEPT_BYTES: usize = 4096;

/// Texts of triples that are no longer used, for `read_line_with`: the next texts that are read take their memory. It
/// keeps at most 128, each with at most 4,096 bytes of memory.
///
/// Two lines, where the texts of the second take the memory of the first one's:
///
///     let mut spare = SpareTexts::new(alloc);
///     if let Some(triple) = read_line_with(&mut spare, first)? {
///         spare.give_back(triple);
///     }
///     let triple = read_line_with(&mut spare, second)?;
#[derive(Drop)]
pub struct SpareTexts {
    alloc: Global,
    texts: Vec<String>,
}

impl Model for SpareTexts {
    ghost use Rattle.std.specs.Prelude.{⊤, ◌≡◌, [], All, string_bytes};

    ghost Value = { ⊤ };

    ghost view = { λ _. tt };

    ghost invariant = { λ s. All (λ text. string_bytes text ≡ []) s.texts.items };
}

impl SpareTexts {
    /// No texts. O(1), no memory.
    pub fn new(alloc: Global) -> SpareTexts {
        SpareTexts {
            alloc,
            texts: Vec::new(alloc),
        }
    }

    /// An empty string, with the memory of a text that was given back where there is one.
    pub(crate) fn take(&mut self) -> String
        ensures { string_bytes result ≡ [] }
    {
        match self.texts.pop() {
            Some(text) => text,
            None => String::new(self.alloc),
        }
    }

    /// A text of its own with the same bytes.
    pub(crate) fn copy(&mut self, content: &str) -> Result<Text, Memory>
        ensures { IfOk result (λ t. t ≡ content.now) }
    {
        let mut text = self.take();
        text.push_str(content)?;
        Ok(Text::from_string(text))
    }

    /// Takes the texts of a triple back, for the next ones. Those that don't fit are dropped. O(1); it takes
    /// memory only for the list of the texts.
    pub fn give_back(&mut self, triple: Triple) {
        let Triple {
            subject,
            predicate,
            object,
        } = triple;
        // What is read first is taken from the end.
        self.keep_term(object);
        self.keep(predicate);
        self.keep_term(subject);
    }

    fn keep_term(&mut self, term: Term) {
        match term {
            Term::Iri(text) | Term::Blank(text) => self.keep(text),
            Term::Literal {
                text,
                datatype,
                tag,
            } => {
                self.keep(datatype);
                if let Some(tag) = tag {
                    self.keep(tag);
                }
                self.keep(text);
            }
        }
    }

    fn keep(&mut self, text: Text) {
        let mut text = text.into_string();
        text.clear();
        if self.texts.len() < KEPT && text.capacity() <= KEPT_BYTES {
            let _ = self.texts.push(text);
        }
    }
}
