// The labels of a file as they are read, each once.
ghost use Rattle.std.specs.Prelude.{◌≡◌, ◌<◌, ◌++◌, ◌∷◌, ℕ, List, [], length, slice_get, Some, false};
ghost use Rattle.std.specs.Prelude.{IfOk, OnOk, OnErr, IsTrue, IsErrOf, bytes_eq, position};
ghost use Rattle.graph_spec.specs.Graphs.{is_seen};
ghost use Rattle.path_query.specs.Labels.{SpellsLabel};
ghost use Rattle.index_file.specs.ReadLabels.{IsNumbered, IsOneTooMany};

use crate::due::Stop;
use crate::words::is_word;
use indexmap::IndexSet;
use path_query::read_label;
use px_base::{Memory, Recent, Text};
use std::alloc::Global;
use std::marker::Model;

/// Labels, each once, in the order in which they came. Those that were used recently are at hand by their texts.
#[derive(Drop)]
pub(crate) struct ReadLabels {
    texts: IndexSet<Text>,
    recent: Recent,
}

impl Model for ReadLabels {
    ghost use Rattle.std.specs.Prelude.{List, ℕ};
    ghost use Rattle.index_file.specs.ReadLabels.{AreReadLabels};

    ghost Value = { List (List ℕ) };

    ghost view = { λ l. l.texts.keys };

    ghost invariant = { λ l. AreReadLabels l.texts.keys };
}

// The bytes by which a label is at hand: the last two before the last one.
fn last_bytes(word: &[u8]) -> (u32, u32) {
    match word {
        [.., a, b, _] => (u32::from(*a), u32::from(*b)),
        _ => (0, 0),
    }
}

fn is_text(text: &Text, word: &[u8]) -> bool
    ensures { IsTrue result → text.now ≡ word.now }
{
    is_word(text.as_bytes(), word)
}

impl ReadLabels {
    /// No labels. O(1); it takes 16 KiB.
    pub(crate) fn new(alloc: Global) -> Result<ReadLabels, Memory>
        ensures { IfOk result (λ l. l ≡ []) }
    {
        Ok(ReadLabels {
            texts: IndexSet::new(alloc),
            recent: Recent::new(alloc)?,
        })
    }

    /// How many labels there are. O(1), no memory.
    pub(crate) fn len(&self) -> u32
        ensures { result ≡ length self.now }
    {
        self.texts.len() as u32
    }

    // Whether the word is the text of the label.
    fn is_at(&self, l: u32, word: &[u8]) -> bool
        ensures { IsTrue result → slice_get self.now l ≡ Some word.now }
    {
        (l as usize) < self.texts.len() && is_text(&self.texts.as_slice()[l as usize], word)
    }

    // The number of the label, and `None` exactly where the text is none.
    fn find(&self, t: &Text) -> Option<u32>
        ensures { result ≡ position (bytes_eq t.now) self.now }
    {
        let l = self.texts.get_index_of(t)?;
        Some(l as u32)
    }

    // Puts a label behind the others.
    fn put(&mut self, label: Text) -> Result<u32, Memory>
        requires unseen { is_seen self.old label ≡ false }
        requires few { length self.old < 4294967295 }
        requires spelled { SpellsLabel label label }
        ensures ok { OnOk result (self.new ≡ self.old ++ label ∷ []) }
        ensures number { IfOk result (λ l. l ≡ length self.old) }
        ensures err { OnErr result (self.new ≡ self.old) }
    {
        let l = self.texts.len();
        self.texts.insert(label)?;
        Ok(l as u32)
    }

    // The number of a label that isn't there yet, where there may be `most` labels.
    fn put_within(&mut self, word: &[u8], label: Text, most: u32) -> Result<u32, Stop>
        requires unseen { is_seen self.old label ≡ false }
        requires spells { SpellsLabel word.now label }
        ensures ok { IfOk result (IsNumbered word.now most self.old self.new) }
        ensures over { IsErrOf result Stop.Limit → IsOneTooMany word.now most self.old }
        ensures wrong { IsErrOf result Stop.Syntax → ⊥ }
        ensures err { OnErr result (self.new ≡ self.old) }
    {
        if self.len() >= most {
            return Err(Stop::Limit);
        }
        match self.put(label) {
            Ok(l) => Ok(l),
            Err(_) => Err(Stop::Memory),
        }
    }

    // The number of the label that the word spells.
    fn intern(&mut self, word: &[u8], label: Text, most: u32) -> Result<u32, Stop>
        requires spells { SpellsLabel word.now label }
        ensures ok { IfOk result (IsNumbered word.now most self.old self.new) }
        ensures over { IsErrOf result Stop.Limit → IsOneTooMany word.now most self.old }
        ensures wrong { IsErrOf result Stop.Syntax → ⊥ }
        ensures err { OnErr result (self.new ≡ self.old) }
    {
        match self.find(&label) {
            Some(l) => Ok(l),
            None => self.put_within(word, label, most),
        }
    }

    // The number of the label that the word spells, if it isn't at hand.
    fn read(&mut self, alloc: Global, word: &[u8], most: u32) -> Result<u32, Stop>
        ensures ok { IfOk result (IsNumbered word.now most self.old self.new) }
        ensures over { IsErrOf result Stop.Limit → IsOneTooMany word.now most self.old }
        ensures wrong { IsErrOf result Stop.Syntax → (t : List ℕ) → SpellsLabel word.now t → ⊥ }
        ensures err { OnErr result (self.new ≡ self.old) }
    {
        match read_label(alloc, word) {
            Ok(Some(label)) => self.intern(word, label, most),
            Ok(None) => Err(Stop::Syntax),
            Err(_) => Err(Stop::Memory),
        }
    }

    // Has the label at hand by these bytes.
    fn keep(&mut self, a: u32, b: u32, l: u32)
        ensures { self.new ≡ self.old }
    {
        self.recent.put(a, b, l);
    }

    /// The number of the label that the word spells, which becomes one where it is new and there are fewer than
    /// `most`. `Limit` comes exactly where it is new and there are as many, `Syntax` exactly where the word spells no
    /// label. O(b) for a word that is the text of a label used recently, no memory; expected O(b) for others, and a
    /// new label takes its text.
    pub(crate) fn number(&mut self, alloc: Global, word: &[u8], most: u32) -> Result<u32, Stop>
        ensures ok { IfOk result (IsNumbered word.now most self.old self.new) }
        ensures over { IsErrOf result Stop.Limit → IsOneTooMany word.now most self.old }
        ensures wrong { IsErrOf result Stop.Syntax → (t : List ℕ) → SpellsLabel word.now t → ⊥ }
        ensures err { OnErr result (self.new ≡ self.old) }
    {
        let (a, b) = last_bytes(word);
        let hinted = self.recent.get(a, b);
        if self.is_at(hinted, word) {
            return Ok(hinted);
        }
        match self.read(alloc, word, most) {
            Ok(l) => {
                self.keep(a, b, l);
                Ok(l)
            }
            Err(stop) => Err(stop),
        }
    }
}
