// The lines of a file.
ghost use Rattle.std.specs.Prelude.{◌≡◌, ◌≢◌, ◌+◌, ◌^◌, ◌≤◌, length, IfOk, OnOk, IsErrOf, IsTrue, Err, is_err, false};
ghost use Rattle.std.specs.Io.KnownBytes.{prepend_known};
ghost use Rattle.px_base.specs.Causes.{MayHaveRisen};
ghost use Rattle.px_base.specs.declared.lines.LineFault.TheVariants.{Fault, Memory as NoMemory};
ghost use Rattle.px_base.specs.LineEnds.{has_end, IsAtStop};
ghost use Rattle.px_base.specs.GatheredLines.{TakesPart, Overfills, GathersAhead, IsTooLong, TakesWhole, IsLong};
ghost use Rattle.px_base.specs.ReaderStates.{ReaderState, new_reader, stream, TakesLine, TakesNone, IsPast};

use crate::line_end::{LineEnd, take_end};
use crate::window::{self, Window, plain_len};
use crate::{Failed, Memory, Shelf};
use std::alloc::{AllocError, Global};
use std::marker::Model;

/// How many bytes a line has at most, without its end: 2^20.
pub const LINE_BYTES: u32 = 1_048_576;

/// How many bytes the text of a graph has at most: 2^30.
pub const GRAPH_BYTES: u32 = 1_073_741_824;

/// How many bytes the text of a script has at most: 2^26.
pub const SCRIPT_BYTES: u32 = 67_108_864;

/// Why no line was taken.
#[derive(Clone, Copy, Debug, PartialEq, Eq)]
pub enum LineFault {
    /// A read failed.
    Fault,
    /// The line passes a limit.
    Limit,
    /// An allocation failed.
    Memory,
}

impl From<Failed> for LineFault {
    ghost from_gives = { λ _ e. e ≡ Fault };

    fn from(_: Failed) -> Self {
        LineFault::Fault
    }
}

impl From<AllocError> for LineFault {
    ghost from_gives = { λ _ e. e ≡ NoMemory };

    fn from(_: AllocError) -> Self {
        LineFault::Memory
    }
}

/// Puts what is ahead behind the line, up to the first LF or CR, or else all of it. `Limit` where
/// the line would have more bytes than `most`.
fn take_ahead(window: &mut Window, line: &mut Vec<u8>, most: usize) -> Result<(), LineFault>
    requires short { length line.old.items ≤ most }
    requires most { most ≤ 2 ^ 30 }
    ensures part { OnOk result (TakesPart most window.old line.old.items window.new line.new.items) }
    ensures limit { IsErrOf result LineFault.Limit → Overfills most window.old line.old.items }
    ensures no_fault { result ≢ Err LineFault.Fault }
{
    let bytes = window.bytes();
    let count = plain_len(bytes);
    if count > most - line.len() {
        return Err(LineFault::Limit);
    }
    line.extend_from_slice(&bytes[..count])?;
    window.skip(count);
    Ok(())
}

/// Puts the bytes up to the next LF or CR or the end behind the line, which then has at most
/// `most`. It reads only where no LF or CR is ahead.
fn gather<H: Shelf>(
    window: &mut Window,
    line: &mut Vec<u8>,
    most: usize,
    shelf: &mut H,
) -> Result<(), LineFault>
    requires short { length line.old.items ≤ most }
    requires most { most ≤ 2 ^ 30 }
    requires open { IsTrue (H.is_open shelf.old) }
    ensures ok { OnOk result (GathersAhead most line.old.items line.new.items window.old (H.left shelf.old) window.new (H.left shelf.new)) }
    ensures stop { OnOk result (IsAtStop window.new (H.left shelf.new)) }
    ensures limit { IsErrOf result LineFault.Limit → IsTooLong most line.old.items (prepend_known window.old (H.left shelf.old)) }
    ensures unread { IsTrue (has_end window.old) → shelf.new ≡ shelf.old }
    ensures ahead { OnOk result (IsTrue (has_end window.old) → IsTrue (has_end window.new)) }
    ensures files { H.files shelf.new ≡ H.files shelf.old }
    ensures open { OnOk result (IsTrue (H.is_open shelf.new)) }
    ensures fault { IsErrOf result LineFault.Fault → MayHaveRisen (H.faults shelf.old) (H.faults shelf.new) }
    ensures no_fault { result ≢ Err LineFault.Fault → H.faults shelf.new ≡ H.faults shelf.old }
{
    loop {
        take_ahead(window, line, most)?;
        if !window.is_empty() {
            return Ok(());
        }
        if !window.fill(shelf)? {
            return Ok(());
        }
    }
}

/// Replaces the old line by the next one, and takes its end. `Limit` where the line has more
/// bytes than `line_limit`, or with its end more than `most`.
fn take_line<H: Shelf>(
    window: &mut Window,
    line: &mut Vec<u8>,
    line_limit: usize,
    most: usize,
    shelf: &mut H,
) -> Result<LineEnd, LineFault>
    requires limit { line_limit ≤ 2 ^ 30 }
    requires open { IsTrue (H.is_open shelf.old) }
    ensures ok { IfOk result (λ end. TakesWhole line_limit most line.new.items end window.old (H.left shelf.old) window.new (H.left shelf.new)) }
    ensures limit { IsErrOf result LineFault.Limit → IsLong line_limit most (prepend_known window.old (H.left shelf.old)) }
    ensures unread { IsTrue (has_end window.old) → shelf.new ≡ shelf.old }
    ensures files { H.files shelf.new ≡ H.files shelf.old }
    ensures open { OnOk result (IsTrue (H.is_open shelf.new)) }
    ensures fault { IsErrOf result LineFault.Fault → MayHaveRisen (H.faults shelf.old) (H.faults shelf.new) }
    ensures no_fault { result ≢ Err LineFault.Fault → H.faults shelf.new ≡ H.faults shelf.old }
{
    line.clear();
    gather(window, line, line_limit.min(most), shelf)?;
    take_end(window, most - line.len(), shelf)
}

/// Takes a text line by line from the file that a shelf has open, seen as how far it has come.
///
/// A line ends at LF, at CR LF, which is one end, or at a CR that no LF follows. The last line needs no end, and an end
/// that nothing follows begins no further line. All lines are taken into one buffer, and reads fill one block of 64
/// KiB.
///
/// The lines of a file, in order:
///
///     let mut reader = LineReader::new(alloc, 1 << 20, 1 << 26)?;
///     shelf.open("name")?;
///     while reader.next(&mut shelf)? {
///         take(reader.number(), reader.line());
///     }
#[derive(Drop)]
pub struct LineReader {
    window: Window,
    line: Vec<u8>,
    number: u32,
    taken: u32,
    line_limit: u32,
    text_limit: u32,
    failed: bool,
}

impl Model for LineReader {
    ghost use Rattle.px_base.specs.ReaderStates.{ReaderState, StaysWithin};

    ghost Value = { ReaderState };

    ghost view = { λ r. record {
      ahead = r.window;
      line = r.line.items;
      number = r.number;
      taken = r.taken;
      line_limit = r.line_limit;
      text_limit = r.text_limit;
      failed = r.failed;
    } };

    ghost invariant = { λ r. StaysWithin r.line_limit r.text_limit r.taken r.number r.failed };
}

impl LineReader {
    /// A reader that has taken nothing. A line has at most `line_limit` bytes without its end, and the lines
    /// with their ends at most `text_limit`; both are at most 2^30. O(1); it takes 64 KiB, in which it
    /// reads ahead.
    pub fn new(alloc: Global, line_limit: u32, text_limit: u32) -> Result<LineReader, Memory>
        requires line { line_limit ≤ 2 ^ 30 }
        requires text { text_limit ≤ 2 ^ 30 }
        ensures { IfOk result (λ r. r ≡ new_reader line_limit text_limit) }
    {
        Ok(LineReader {
            window: Window::new(alloc)?,
            line: Vec::new(alloc),
            number: 0,
            taken: 0,
            line_limit,
            text_limit,
            failed: false,
        })
    }

    /// The line that was taken last, without its end. O(1), no memory.
    pub fn line(&self) -> &[u8]
        ensures { result.now ≡ self.now.line }
    {
        &self.line
    }

    /// The number of the line that was taken last, from 1 on; 0 before the first. Where a line passed a limit,
    /// it is that line's. O(1), no memory.
    pub fn number(&self) -> u32
        ensures { result ≡ self.now.number }
    {
        self.number
    }

    /// Whether the next line has been read whole with its end, so that `next` reads nothing. A CR that was read
    /// last is no whole end, since LF may follow. O(b) for the b bytes ahead up to the first LF or CR, at most
    /// 65,536; no memory.
    pub fn has_line_ahead(&self) -> bool
        ensures { result ≡ has_end self.now.ahead }
    {
        window::has_end(self.window.bytes())
    }

    /// Takes the next line. `Ok(false)`: the text is over. `Limit` only where the line passes a
    /// limit, and `Fault` only where a read failed. After an error the reader can only be dropped.
    ///
    /// O(b) for the b bytes of the line and its end, beside the shelf's reads. It takes memory only where the
    /// line is longer than each before it.
    pub fn next<H: Shelf>(&mut self, shelf: &mut H) -> Result<bool, LineFault>
        requires ready { self.old.failed ≡ false }
        requires open { IsTrue (H.is_open shelf.old) }
        ensures line { IfOk result (λ found. IsTrue found → TakesLine self.old (H.left shelf.old) self.new (H.left shelf.new)) }
        ensures over { IfOk result (λ found. found ≡ false → TakesNone self.old (H.left shelf.old) self.new (H.left shelf.new)) }
        ensures failed { self.new.failed ≡ is_err result }
        ensures limit { IsErrOf result LineFault.Limit → IsPast self.old (stream self.old (H.left shelf.old)) }
        ensures number { IsErrOf result LineFault.Limit → self.new.number ≡ self.old.number + 1 }
        ensures unread { IsTrue (has_end self.old.ahead) → shelf.new ≡ shelf.old }
        ensures files { H.files shelf.new ≡ H.files shelf.old }
        ensures open { OnOk result (IsTrue (H.is_open shelf.new)) }
        ensures fault { IsErrOf result LineFault.Fault → MayHaveRisen (H.faults shelf.old) (H.faults shelf.new) }
        ensures no_fault { result ≢ Err LineFault.Fault → H.faults shelf.new ≡ H.faults shelf.old }
    {
        let left = self.text_limit - self.taken;
        let (window, line) = (&mut self.window, &mut self.line);
        match take_line(window, line, self.line_limit as usize, left as usize, shelf) {
            Ok(end) => {
                let size = self.line.len() as u32 + end.len();
                if size == 0 {
                    return Ok(false);
                }
                self.number += 1;
                self.taken += size;
                Ok(true)
            }
            Err(LineFault::Limit) => {
                self.number += 1;
                self.failed = true;
                Err(LineFault::Limit)
            }
            Err(fault) => {
                self.failed = true;
                Err(fault)
            }
        }
    }
}
