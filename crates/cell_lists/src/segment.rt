// Lists of numbers that lie among the cells of one array, or in a segment itself.
ghost use Rattle.std.specs.Prelude.{◌≡◌, ◌<◌, ◌≤◌, ◌+◌, ◌++◌, ◌∷◌, [], ◌-◌, length, position, nat_eq, nat_lt, take, slice_get, Some, true, false, IfOk, OnOk, IsTrue};
ghost use Rattle.std.specs.List.{IsDistinct, swap_remove};
ghost use Rattle.graph_spec.specs.Members.{has};
ghost use Rattle.cell_lists.specs.Segments.{items_in, LiesWithin, IsApart, Writes, IsMoved, IsCopied, Exchanges, Begins, IsWithout};

use px_base::Memory;
use std::mem::swap;
use std::slice::from_ref;

/// How many numbers of a long list are searched at once.
const PIECE: usize = 256;

/// How many cells there are at most.
const MOST_CELLS: usize = 0xFFFF_FFFF;

/// Where a list lies. Where its capacity is one the list takes no cell, and `first` is that number. So a list takes 12
/// bytes; as an enum it would take 16.
#[derive(Clone, Copy)]
pub struct Segment {
    /// The place of its first cell, or its number.
    pub first: u32,
    /// How many numbers it has.
    pub len: u32,
    /// How many fit before it has to be moved: its capacity.
    pub reserved: u32,
}

/// Whether the list takes no cell. O(1), no memory.
#[inline(always)]
pub fn is_short(segment: &Segment) -> bool
    ensures { result ≡ nat_lt segment.now.reserved 2 }
{
    segment.reserved < 2
}

/// A list without numbers, with capacity for one. It takes no cell.
pub const EMPTY: Segment = Segment {
    first: 0,
    len: 0,
    reserved: 1,
};

/// The numbers of a list. O(1), no memory.
#[inline(always)]
pub fn items<'a>(cells: &'a [u32], segment: &'a Segment) -> &'a [u32]
    requires { LiesWithin (length cells.now) segment.now }
    ensures { result.now ≡ items_in cells.now segment.now }
{
    let len = segment.len as usize;
    if is_short(segment) {
        return &from_ref(&segment.first)[..len];
    }
    let from = segment.first as usize;
    &cells[from..from + len]
}

/// How many more numbers fit. O(1), no memory.
#[inline(always)]
pub fn spare(segment: &Segment) -> usize
    ensures { result ≡ segment.now.reserved - segment.now.len }
{
    if segment.len < segment.reserved {
        (segment.reserved - segment.len) as usize
    } else {
        0
    }
}

/// Reserves capacity for one number more than that many, unless it is there. The list then lies behind all others, and the
/// cells that it had are used no more. O(1), or O(n) to move a list of n numbers; where memory runs out the list stays.
#[inline(always)]
pub fn make_place(cells: &mut Vec<u32>, segment: &mut Segment, taken: usize) -> Result<(), Memory>
    requires { LiesWithin (length cells.old.items) segment.old }
    ensures writes { Writes cells.old.items cells.new.items segment.old segment.new }
    ensures items { items_in cells.new.items segment.new ≡ items_in cells.old.items segment.old }
    ensures capacity { segment.old.reserved ≤ segment.new.reserved }
    ensures ok { OnOk result (taken ≤ segment.old.reserved - segment.old.len → taken < segment.new.reserved - segment.new.len) }
{
    if spare(segment) > taken {
        return Ok(());
    }
    *segment = moved(cells, *segment, more_reserved(segment.reserved))?;
    Ok(())
}

/// Reserves capacity for that many numbers more, unless it is there. The list then lies behind all others, with at least
/// twice its capacity, and the cells that it had are used no more. O(1), or O(n + m) to move a list of n numbers for m
/// more; where memory runs out the list stays.
pub fn make_places(cells: &mut Vec<u32>, segment: &mut Segment, more: usize) -> Result<(), Memory>
    requires { LiesWithin (length cells.old.items) segment.old }
    ensures writes { Writes cells.old.items cells.new.items segment.old segment.new }
    ensures items { items_in cells.new.items segment.new ≡ items_in cells.old.items segment.old }
    ensures capacity { segment.old.reserved ≤ segment.new.reserved }
    ensures ok { OnOk result (more ≤ segment.new.reserved - segment.new.len) }
{
    if spare(segment) >= more {
        return Ok(());
    }
    if more > MOST_CELLS {
        return Err(Memory);
    }
    let least = segment.len as usize + more;
    let reserved = least.max(more_reserved(segment.reserved));
    *segment = moved(cells, *segment, reserved)?;
    Ok(())
}

/// The capacity of a list once it is moved: twice as much, and at least four. O(1), no memory.
pub fn more_reserved(reserved: u32) -> usize
    ensures more { reserved < result }
    ensures long { 2 ≤ result }
{
    if reserved < 2 {
        4
    } else {
        2 * reserved as usize
    }
}

// Puts the numbers of a list behind all cells.
fn put_behind(cells: &mut Vec<u32>, segment: Segment) -> Result<(), Memory>
    requires { LiesWithin (length cells.old.items) segment }
    ensures begins { Begins cells.old.items cells.new.items }
    ensures put { OnOk result (cells.new.items ≡ cells.old.items ++ items_in cells.old.items segment) }
{
    let len = segment.len as usize;
    if is_short(&segment) {
        cells.extend_from_slice(&from_ref(&segment.first)[..len])?;
        return Ok(());
    }
    let start = segment.first as usize;
    cells.extend_from_within(start..start + len)?;
    Ok(())
}

// Copies a list behind all cells, with that capacity.
fn moved(cells: &mut Vec<u32>, segment: Segment, reserved: usize) -> Result<Segment, Memory>
    requires within { LiesWithin (length cells.old.items) segment }
    requires more { segment.reserved < reserved }
    requires long { 2 ≤ reserved }
    ensures begins { Begins cells.old.items cells.new.items }
    ensures moved { IfOk result (IsMoved cells.old.items cells.new.items segment) }
    ensures capacity { IfOk result (λ t. t.reserved ≡ reserved) }
{
    let at = cells.len();
    if at > MOST_CELLS || reserved > MOST_CELLS - at {
        return Err(Memory);
    }
    cells.reserve(reserved)?;
    put_behind(cells, segment)?;
    cells.resize(at + reserved, 0)?;
    Ok(Segment {
        first: at as u32,
        len: segment.len,
        reserved: reserved as u32,
    })
}

/// Moves a list into the cells of an empty one, which gets its cells instead. If those aren't more, nothing is done.
/// O(n) for n numbers, no memory.
pub fn exchange(cells: &mut Vec<u32>, list: &mut Segment, vacant: &mut Segment)
    requires list { LiesWithin (length cells.old.items) list.old }
    requires vacant { LiesWithin (length cells.old.items) vacant.old }
    requires apart { IsApart list.old vacant.old }
    ensures { Exchanges cells.old.items cells.new.items list.old vacant.old list.new vacant.new }
{
    if vacant.len > 0 || is_short(vacant) || vacant.reserved <= list.reserved {
        return;
    }
    copy_into(cells, *list, *vacant);
    let len = list.len;
    swap(list, vacant);
    list.len = len;
    vacant.len = 0;
}

// Writes the numbers of a list into the cells of another.
fn copy_into(cells: &mut Vec<u32>, list: Segment, target: Segment)
    requires list { LiesWithin (length cells.old.items) list }
    requires target { LiesWithin (length cells.old.items) target }
    requires long { 2 ≤ target.reserved }
    requires larger { list.reserved ≤ target.reserved }
    ensures { IsCopied cells.old.items cells.new.items list target }
{
    let to = target.first as usize;
    if is_short(&list) {
        cells[to] = list.first;
        return;
    }
    let from = list.first as usize;
    cells.copy_within(from..from + list.len as usize, to);
}

/// Puts a number behind the others of a list, where capacity is left. O(1), no memory.
#[inline(always)]
pub fn push(cells: &mut Vec<u32>, segment: &mut Segment, n: u32)
    requires within { LiesWithin (length cells.old.items) segment.old }
    requires reserved { segment.old.len < segment.old.reserved }
    ensures writes { Writes cells.old.items cells.new.items segment.old segment.new }
    ensures items { items_in cells.new.items segment.new ≡ items_in cells.old.items segment.old ++ n ∷ [] }
    ensures capacity { segment.new.reserved ≡ segment.old.reserved }
    ensures len { segment.new.len ≡ segment.old.len + 1 }
{
    if is_short(segment) {
        segment.first = n;
    } else {
        cells[segment.first as usize + segment.len as usize] = n;
    }
    segment.len += 1;
}

/// Takes a number out of a list that has it at most once. The last one comes into its place. It is O(1) for the last and
/// the first number of the list, else O(n) for n numbers; it takes no memory.
pub fn take_out(cells: &mut Vec<u32>, segment: &mut Segment, n: u32)
    requires within { LiesWithin (length cells.old.items) segment.old }
    requires once { IsDistinct nat_eq (items_in cells.old.items segment.old) }
    ensures writes { Writes cells.old.items cells.new.items segment.old segment.new }
    ensures without { IsWithout (items_in cells.old.items segment.old) (items_in cells.new.items segment.new) n }
    ensures capacity { segment.new.reserved ≡ segment.old.reserved }
    ensures len { segment.new.len ≤ segment.old.len }
{
    let Some(place) = place_of(items(cells, segment), n) else {
        return;
    };
    take_at(cells, segment, place);
}

/// Takes the number at a place out of a list. The last one comes into its place. O(1), no memory.
pub fn take_at(cells: &mut Vec<u32>, segment: &mut Segment, place: usize)
    requires within { LiesWithin (length cells.old.items) segment.old }
    requires place { place < segment.old.len }
    ensures writes { Writes cells.old.items cells.new.items segment.old segment.new }
    ensures items { items_in cells.new.items segment.new ≡ swap_remove (items_in cells.old.items segment.old) place 0 }
    ensures capacity { segment.new.reserved ≡ segment.old.reserved }
    ensures len { segment.new.len ≡ segment.old.len - 1 }
{
    segment.len -= 1;
    if is_short(segment) {
        return;
    }
    let from = segment.first as usize;
    cells[from + place] = cells[from + segment.len as usize];
}

// The place at which the number stands, if it stands there once. The last place is looked at first.
fn place_of(list: &[u32], n: u32) -> Option<usize>
    requires { IsDistinct nat_eq list.now }
    ensures { result ≡ position (nat_eq n) list.now }
{
    if is_last(list, n) {
        return Some(list.len() - 1);
    }
    position_of(list, n)
}

/// Whether the number is the last of the list. O(1), no memory.
pub fn is_last(list: &[u32], n: u32) -> bool
    ensures last { IsTrue result → slice_get list.now (length list.now - 1) ≡ Some n }
    ensures some { IsTrue result → 0 < length list.now }
    ensures member { IsTrue result → has list.now n ≡ true }
{
    list.last() == Some(&n)
}

// The first place at which the number stands.
fn position_of(list: &[u32], n: u32) -> Option<usize>
    ensures { result ≡ position (nat_eq n) list.now }
{
    let front = prefix_without(list, n);
    let at = position_by_one(&list[front..], n)?;
    Some(front + at)
}

// The same, number by number.
fn position_by_one(list: &[u32], n: u32) -> Option<usize>
    ensures { result ≡ position (nat_eq n) list.now }
{
    list.iter().position(|m| n == *m)
}

// How many places at the front don't have the number, in whole pieces. A piece is searched as `contains` does it,
// several numbers at a time.
fn prefix_without(list: &[u32], n: u32) -> usize
    ensures within { result ≤ length list.now }
    ensures without { has (take result list.now) n ≡ false }
{
    let mut front = 0;
    while list.len() - front >= PIECE && !is_among(&list[front..front + PIECE], n) {
        front += PIECE;
    }
    front
}

fn is_among(list: &[u32], n: u32) -> bool
    ensures { result ≡ has list.now n }
{
    list.contains(&n)
}
