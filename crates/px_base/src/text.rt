// Text as a value of its own.
ghost use Rattle.std.specs.Prelude.{◌≡◌, ◌↔◌, IsUtf8, IfOk, OnOk, IsErrOf, string_bytes};

use crate::Memory;
use std::alloc::Global;
use std::cmp::Ordering;
use std::hash::{Hash, Hasher};
use std::marker::Model;

/// Why no text was made of some bytes.
#[derive(Clone, Copy, Debug, PartialEq, Eq)]
pub enum TextError {
    /// The bytes aren't UTF-8.
    NotUtf8,
    /// An allocation failed.
    Memory,
}

/// A text, seen as the list of its bytes, which are UTF-8. Texts are compared byte by byte.
///
/// A text, and another one with the same bytes:
///
///     let text = Text::from_bytes(alloc, "né".as_bytes())?;
///     let again = text.copy(alloc)?;
///     take(again.as_str());
#[derive(Debug, Drop)]
pub struct Text {
    content: String,
}

impl Model for Text {
    ghost use Rattle.std.specs.Prelude.{List, ℕ, string_bytes, IsUtf8};

    ghost Value = { List ℕ };

    ghost view = { λ t. string_bytes t.content };

    ghost invariant = { λ t. IsUtf8 (string_bytes t.content) };
}

impl Text {
    /// The text of these bytes. `NotUtf8` exactly if they aren't UTF-8. O(b) for b bytes; it takes b bytes.
    pub fn from_bytes(alloc: Global, bytes: &[u8]) -> Result<Text, TextError>
        ensures ok { IfOk result (λ t. t ≡ bytes.now) }
        ensures utf8 { OnOk result (IsUtf8 bytes.now) }
        ensures not_utf8 { IsErrOf result TextError.NotUtf8 ↔ ¬ IsUtf8 bytes.now }
    {
        match str::from_utf8(bytes) {
            Ok(content) => match String::from_str(alloc, content) {
                Ok(content) => Ok(Text { content }),
                Err(_) => Err(TextError::Memory),
            },
            Err(_) => Err(TextError::NotUtf8),
        }
    }

    /// The text of a string, without a copy. O(1), no memory.
    pub fn from_string(content: String) -> Text
        ensures { result ≡ string_bytes content }
    {
        Text { content }
    }

    /// The string, without a copy. O(1), no memory.
    pub fn into_string(self) -> String
        ensures { string_bytes result ≡ self }
    {
        self.content
    }

    /// Its bytes. O(1), no memory.
    pub fn as_bytes(&self) -> &[u8]
        ensures bytes { result.now ≡ self.now }
        ensures utf8 { IsUtf8 self.now }
    {
        self.content.as_bytes()
    }

    /// The text as a `str`. O(1), no memory.
    pub fn as_str(&self) -> &str
        ensures { result.now ≡ self.now }
    {
        self.content.as_str()
    }

    /// A text of its own with the same bytes. O(b) for b bytes; it takes b bytes.
    pub fn copy(&self, alloc: Global) -> Result<Text, Memory>
        ensures { IfOk result (λ t. t ≡ self.now) }
    {
        let content = String::from_str(alloc, self.content.as_str())?;
        Ok(Text { content })
    }
}

impl PartialEq for Text {
    ghost use Rattle.std.specs.Prelude.{bytes_eq};
    ghost use Rattle.std.proofs.Common.{rules};
    ghost use Rattle.std.specs.Cmp.Rules.{comparing};

    ghost eq = { bytes_eq };

    ghost laws = { Prim.search (comparing, rules) };

    fn eq(&self, other: &Text) -> bool {
        self.content.as_str() == other.content.as_str()
    }
}

impl Eq for Text {
    ghost use Rattle.std.proofs.Common.{rules};
    ghost use Rattle.std.specs.Cmp.Rules.{comparing};

    ghost laws = { Prim.search (comparing, rules) };
}

impl Hash for Text {
    ghost use Rattle.std.proofs.Common.{rules};
    ghost use Rattle.std.specs.Hash as fed;
    ghost use Rattle.std.specs.Cmp.Rules.{hashing};

    ghost hash_input = { fed.str };

    ghost respects_eq = { Prim.search (hashing, rules) };

    fn hash<H: Hasher>(&self, state: &mut H) {
        self.content.as_str().hash(state);
    }
}

impl PartialOrd for Text {
    ghost use Rattle.std.specs.Prelude.{Some};
    ghost use Rattle.std.proofs.Common.{rules};
    ghost use Rattle.std.specs.Cmp.Rules.{comparing};
    ghost use Rattle.std.specs.Cmp.Lexicographic.{slice_cmp, texts_po};
    ghost use Rattle.std.specs.Ordering.{nat_cmp};

    ghost partial_cmp = { λ x y. Some (slice_cmp nat_cmp x y) };

    ghost laws = { texts_po };

    fn partial_cmp(&self, other: &Text) -> Option<Ordering> {
        Some(self.cmp(other))
    }
}

impl Ord for Text {
    ghost use Rattle.std.specs.Prelude.{refl};
    ghost use Rattle.std.specs.Cmp.Lexicographic.{slice_cmp, nat_list_cmp_total, texts_ties};
    ghost use Rattle.std.specs.Ordering.{nat_cmp};

    ghost cmp = { slice_cmp nat_cmp };

    ghost total = { nat_list_cmp_total };

    ghost matches_partial_cmp = { λ x y. refl };

    ghost matches_eq = { texts_ties };

    fn cmp(&self, other: &Text) -> Ordering {
        self.content.as_str().cmp(other.content.as_str())
    }
}
