// Terms in the arena.
ghost use Rattle.std.specs.Prelude.{◌≡◌, ◌+◌, ◌≤◌, ◌^◌, ◌<◌, ◌++◌, length, slice_range, IfOk, OnOk};
ghost use Rattle.term_table.specs.TermParts.{parts_value};
ghost use Rattle.term_table.specs.Entries.{AreWithin, HasTexts};
ghost use Rattle.term_table.specs.Entries.{Begins};

use crate::entries::TermRange;
use crate::parts::Parts;
use px_base::Memory;

// Puts a text behind what is stored, and gives its end. The arena has fewer than 2^32 bytes.
fn store_text(arena: &mut Vec<u8>, text: &[u8]) -> Result<u32, Memory>
    requires short { length arena.old.items < 2 ^ 32 }
    ensures begins { Begins arena.old.items arena.new.items }
    ensures short { length arena.new.items < 2 ^ 32 }
    ensures end { IfOk result (λ end. end ≡ length arena.new.items) }
    ensures text { OnOk result (arena.new.items ≡ arena.old.items ++ text.now) }
{
    if text.len() >= 0xFFFF_FFFF - arena.len() {
        return Err(Memory);
    }
    arena.extend_from_slice(text)?;
    Ok(arena.len() as u32)
}

/// Puts the texts of a term behind what is stored.
pub(crate) fn store(arena: &mut Vec<u8>, parts: &Parts<'_>) -> Result<TermRange, Memory>
    requires short { length arena.old.items < 2 ^ 32 }
    ensures begins { Begins arena.old.items arena.new.items }
    ensures short { length arena.new.items < 2 ^ 32 }
    ensures within { IfOk result (AreWithin (length arena.new.items)) }
    ensures texts { IfOk result (λ s. HasTexts arena.new.items s (parts_value parts.now)) }
{
    let from = arena.len() as u32;
    let text_end = store_text(arena, parts.text)?;
    let datatype_end = store_text(arena, parts.datatype)?;
    let to = store_text(arena, parts.tag)?;
    Ok(TermRange {
        from,
        text_end,
        datatype_end,
        to,
    })
}
