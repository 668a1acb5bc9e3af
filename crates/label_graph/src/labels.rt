// The table of labels.
ghost use Rattle.std.specs.Prelude.{◌≡◌, ◌<◌, ◌≤◌, ◌^◌, ◌++◌, ◌∷◌, [], length, slice_get, Some, bytes_eq, position, false, swap, IfOk, IsTrue, OnOk, OnErr};
ghost use Rattle.std.specs.List.{IsDistinct};
ghost use Rattle.graph_spec.specs.Graphs.{is_seen};
ghost use Rattle.label_graph.specs.LabelTable.{entries, with_ahead, with_shown, renumbered};

use indexmap::IndexSet;
use px_base::{Memory, Recent, Text};
use std::alloc::Global;
use std::marker::Model;

/// How many entries there are at most.
const MOST_ENTRIES: usize = 1 << 31;

/// The labels that were seen, in the order in which they came. Texts may lie ahead of them that are no labels yet, for which
/// capacity is reserved. Numbers of labels that were used recently are at hand by their texts.
///
/// The text of the label of a graph's node:
///
///     let labels = graph.labels();
///     take(labels.text(graph.label(node)));
pub struct Labels {
    table: IndexSet<Text>,
    effective: usize,
    recent: Recent,
}

impl Drop for Labels {
    // By hand, so that no crate above proves how the table is dropped.
    fn drop(self) {
        let Labels {
            table,
            effective: _,
            recent,
        } = self;
        drop(table);
        drop(recent);
    }
}

impl Model for Labels {
    ghost use Rattle.std.specs.Prelude.{take, drop};
    ghost use Rattle.label_graph.specs.LabelTable.{LabelTable, IsLabelTable};

    ghost Value = { LabelTable };

    ghost view = { λ l. record { texts = take l.effective l.table.keys; ahead = drop l.effective l.table.keys } };

    ghost invariant = { λ l. IsLabelTable l.table.keys l.effective };
}

impl Labels {
    pub(crate) fn new(alloc: Global) -> Result<Labels, Memory>
        ensures { IfOk result (λ l. l ≡ record { texts = []; ahead = [] }) }
    {
        Ok(Labels {
            table: IndexSet::new(alloc),
            effective: 0,
            recent: Recent::new(alloc)?,
        })
    }

    /// How many labels were seen. O(1), no memory.
    pub fn len(&self) -> u32
        ensures count { result ≡ length self.now.texts }
        ensures distinct { IsDistinct bytes_eq self.now.texts }
    {
        self.effective as u32
    }

    /// The text of a label, by its number. O(1), no memory.
    pub fn text(&self, l: u32) -> &Text
        requires { l < length self.now.texts }
        ensures { slice_get self.now.texts l ≡ Some result.now }
    {
        &self.table.as_slice()[l as usize]
    }

    /// The number of the label, and `None` exactly where the text is no label. Expected O(b) for a text of b
    /// bytes, no memory.
    pub fn find(&self, t: &Text) -> Option<u32>
        ensures place { result ≡ position (bytes_eq t.now) self.now.texts }
        ensures distinct { IsDistinct bytes_eq self.now.texts }
    {
        let at = self.table.get_index_of(t)?;
        if at < self.effective {
            Some(at as u32)
        } else {
            None
        }
    }

    // Whether the number is that of the entry.
    #[inline(always)]
    fn is_at(&self, l: u32, t: &Text) -> bool
        ensures { IsTrue result → position (bytes_eq t.now) (entries self.now) ≡ Some l }
    {
        (l as usize) < self.table.len() && self.table.as_slice()[l as usize] == *t
    }

    /// The number of the label; of a text that is ahead, the number that it will have if the texts ahead become labels in
    /// their order; and `None` exactly where the text is neither. Expected O(b) for a text of b bytes, no memory.
    pub fn entry(&self, t: &Text) -> Option<u32>
        ensures { result ≡ position (bytes_eq t.now) (entries self.now) }
    {
        let at = self.table.get_index_of(t)?;
        Some(at as u32)
    }

    // The number of the entry, as `entry` gives it. It is looked up at hand first, and is at hand afterwards.
    fn recall(&mut self, t: &Text) -> Option<u32>
        ensures same { self.new ≡ self.old }
        ensures place { result ≡ position (bytes_eq t.now) (entries self.old) }
    {
        let (a, b) = last_bytes(t);
        let hinted = self.recent.get(a, b);
        if self.is_at(hinted, t) {
            return Some(hinted);
        }
        let l = self.entry(t)?;
        self.recent.put(a, b, l);
        Some(l)
    }

    /// Reserves capacity for a label, and gives the number that it has or will have: if it isn't an entry yet, it
    /// becomes the last one.
    pub(crate) fn reserve(&mut self, alloc: Global, text: &Text) -> Result<u32, Memory>
        ensures ahead { OnOk result (self.new ≡ with_ahead self.old text.now) }
        ensures number { IfOk result (λ l. slice_get (entries self.new) l ≡ Some text.now) }
        ensures err { OnErr result (self.new ≡ self.old) }
    {
        match self.recall(text) {
            Some(l) => Ok(l),
            None => self.put_ahead(alloc, text),
        }
    }

    /// Takes out the texts that are ahead.
    #[inline(always)]
    pub(crate) fn clear(&mut self)
        ensures { self.new ≡ record self.old { ahead = [] } }
    {
        if self.table.len() > self.effective {
            self.table.truncate(self.effective);
        }
    }

    /// Makes a label of the entry, and gives the number that it has then. If it isn't a label yet, it has changed places
    /// with the first text ahead.
    pub(crate) fn show(&mut self, l: u32) -> u32
        requires few { length self.old.texts ≤ l → length self.old.texts < 2 ^ 30 }
        requires entry { l < length (entries self.old) }
        ensures shown { self.new ≡ with_shown self.old l }
        ensures number { result ≡ renumbered self.old l l }
    {
        if (l as usize) < self.effective {
            return l;
        }
        let first = self.effective;
        bring_forward(&mut self.table, first, l as usize);
        self.effective = first + 1;
        first as u32
    }

    // Puts a text that is no entry behind the entries.
    fn put_ahead(&mut self, alloc: Global, text: &Text) -> Result<u32, Memory>
        requires unseen { is_seen (entries self.old) text.now ≡ false }
        ensures ok { OnOk result (self.new ≡ record self.old { ahead = self.old.ahead ++ text.now ∷ [] }) }
        ensures number { IfOk result (λ l. l ≡ length (entries self.old)) }
        ensures err { OnErr result (self.new ≡ self.old) }
    {
        let l = self.table.len();
        if l >= MOST_ENTRIES {
            return Err(Memory);
        }
        let key = text.copy(alloc)?;
        self.table.insert(key)?;
        Ok(l as u32)
    }
}

// Exchanges an entry with the first of those that are no labels.
fn bring_forward(table: &mut IndexSet<Text>, first: usize, l: usize)
    requires first { first < length table.old.keys }
    requires entry { l < length table.old.keys }
    ensures { table.new.keys ≡ swap table.old.keys first l }
{
    if l != first {
        table.swap_indices(first, l);
    }
}

// The bytes by which a label is at hand: the last two before the bracket of an IRI.
fn last_bytes(t: &Text) -> (u32, u32) {
    match t.as_bytes() {
        [.., a, b, _] => (u32::from(*a), u32::from(*b)),
        _ => (0, 0),
    }
}
