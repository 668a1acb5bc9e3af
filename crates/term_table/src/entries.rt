// The entries of the table of terms, one for each term.
ghost use Rattle.std.specs.Prelude.{◌≡◌, ◌≢◌, ◌<◌, ◌≤◌, length, IsTrue, IsFalse};
ghost use Rattle.term_table.specs.TermParts.{parts_value};
ghost use Rattle.term_table.specs.Entries.{entry_at, parts_in, has_texts, AreWithin};

use crate::parts::{Parts, Sort};
use hash_index::HashIndex;
use px_base::NodeId;

/// Where the parts of a term lie, one behind the other, in the arena.
#[derive(Clone, Copy)]
pub(crate) struct TermRange {
    pub(crate) from: u32,
    pub(crate) text_end: u32,
    pub(crate) datatype_end: u32,
    pub(crate) to: u32,
}

/// A term and its number.
#[derive(Clone, Copy)]
pub(crate) struct Entry {
    pub(crate) span: TermRange,
    pub(crate) sort: Sort,
    pub(crate) number: NodeId,
}

#[inline(always)]
pub(crate) fn read_entry(index: &HashIndex<Entry>, n: u32) -> Entry
    requires { n < length index.now.items }
    ensures { result ≡ entry_at index.now.items n }
{
    index.item(n)
}

#[inline(always)]
fn same_texts(arena: &[u8], s: &TermRange, parts: &Parts<'_>) -> bool
    requires within { AreWithin (length arena.now) s.now }
    ensures { result ≡ has_texts arena.now s.now (parts_value parts.now) }
{
    &arena[s.from as usize..s.text_end as usize] == parts.text
        && &arena[s.text_end as usize..s.datatype_end as usize] == parts.datatype
        && &arena[s.datatype_end as usize..s.to as usize] == parts.tag
}

// Whether the entry's term has these parts.
#[inline(always)]
pub(crate) fn has_parts(arena: &[u8], e: &Entry, parts: &Parts<'_>) -> bool
    requires within { AreWithin (length arena.now) e.now.span }
    ensures same { IsTrue result → parts_in arena.now e.now ≡ parts_value parts.now }
    ensures other { IsFalse result → parts_in arena.now e.now ≢ parts_value parts.now }
{
    e.sort == parts.sort && same_texts(arena, &e.span, parts)
}
