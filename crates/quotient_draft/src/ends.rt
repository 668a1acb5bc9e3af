// The other ends of pairs, by block.
ghost use Rattle.std.specs.Prelude.{◌≡◌, [], OnOk, OnErr};
ghost use Rattle.quotient_draft.specs.PairEnds.{listed, NotesEnd, HaveSameEnds, TakesBack};

use indexmap::IndexMap;
use px_base::Memory;
use smallvec::SmallVec;

/// For each block a list of other blocks. Short lists take no memory of their own.
pub(crate) type Ends = IndexMap<u32, SmallVec<u32, 4>>;

/// The ends that are noted for a block.
pub(crate) fn ends_of(ends: &Ends, b: u32) -> &[u32]
    ensures { result.now ≡ listed ends.now.entries b }
{
    match ends.get(&b) {
        Some(list) => list.as_slice(),
        None => &[],
    }
}

/// Notes one more end of a block. On `Memory` all ends stay.
pub(crate) fn note(ends: &mut Ends, b: u32, end: u32) -> Result<(), Memory>
    ensures ok { OnOk result (NotesEnd b end ends.old.entries ends.new.entries) }
    ensures err { OnErr result (HaveSameEnds ends.old.entries ends.new.entries) }
{
    match ends.get_mut(&b) {
        Some(list) => list.push(end)?,
        None => add_list(ends, b, end)?,
    }
    Ok(())
}

// Adds a list of one end.
fn add_list(ends: &mut Ends, b: u32, end: u32) -> Result<(), Memory>
    requires { listed ends.old.entries b ≡ [] }
    ensures ok { OnOk result (NotesEnd b end ends.old.entries ends.new.entries) }
    ensures err { OnErr result (HaveSameEnds ends.old.entries ends.new.entries) }
{
    let mut list = SmallVec::new(*ends.allocator());
    list.push(end)?;
    ends.insert(b, list)?;
    Ok(())
}

/// Takes back the end that was noted last for a block.
pub(crate) fn forget(ends: &mut Ends, b: u32)
    ensures { TakesBack b ends.old.entries ends.new.entries }
{
    if let Some(list) = ends.get_mut(&b) {
        // The end isn't needed.
        let _end = list.pop();
    }
}
