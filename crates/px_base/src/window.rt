// The bytes that were read and belong to no line yet.
ghost use Rattle.std.specs.Prelude.{◌≡◌, ◌≢◌, ◌<◌, ◌≤◌, [], length, take, drop, slice_get, IfOk, OnOk, IsTrue, true, false};
ghost use Rattle.std.specs.Io.KnownBytes.{Keeps, Consumes, IsAtEnd, prepend_known};
ghost use Rattle.px_base.specs.Causes.{HasCause};
ghost use Rattle.px_base.specs.LineEnds as ends;
ghost use Rattle.px_base.specs.LineEnds.{IsStopped};
ghost use Rattle.graph_spec.specs.Lines.{IsUncut};

use crate::{Failed, Shelf};
use memchr::memchr2;
use std::alloc::{AllocError, Global};
use std::marker::Model;

/// How many bytes are read at a time, at most.
const BLOCK_BYTES: usize = 65536;

/// A block that is filled by reads, seen as the bytes of it that are not used yet.
#[derive(Drop)]
pub(crate) struct Window {
    block: Vec<u8>,
    from: usize,
    to: usize,
}

impl Model for Window {
    ghost use Rattle.std.specs.Prelude.{List, ℕ, ◌<◌, ◌≤◌, slice_range, vec_len};

    ghost Value = { List ℕ };

    ghost view = { λ w. slice_range w.block.items w.from w.to };

    ghost invariant = { λ w. (w.from ≤ w.to) × (w.to ≤ vec_len w.block) × (0 < vec_len w.block) };
}

impl Window {
    /// A block with nothing in it.
    pub(crate) fn new(alloc: Global) -> Result<Window, AllocError>
        ensures { IfOk result (λ w. w ≡ []) }
    {
        let block = vec![in alloc; 0; BLOCK_BYTES]?;
        Ok(Window {
            block,
            from: 0,
            to: 0,
        })
    }

    /// The bytes ahead.
    pub(crate) fn bytes(&self) -> &[u8]
        ensures { result.now ≡ self.now }
    {
        &self.block[self.from..self.to]
    }

    /// Whether nothing is ahead.
    pub(crate) fn is_empty(&self) -> bool
        ensures none { result ≡ true → self.now ≡ [] }
        ensures some { result ≡ false → self.now ≢ [] }
    {
        self.bytes().is_empty()
    }

    /// The first byte ahead, if there is one.
    pub(crate) fn first(&self) -> Option<u8>
        ensures { result ≡ slice_get self.now 0 }
    {
        self.bytes().first().copied()
    }

    /// Takes the first bytes out.
    pub(crate) fn skip(&mut self, count: usize)
        requires { count ≤ length self.old }
        ensures { self.new ≡ drop count self.old }
    {
        self.from += count;
    }

    /// Reads on, where nothing is ahead. `Ok(false)`: the text is over.
    pub(crate) fn fill<H: Shelf>(&mut self, shelf: &mut H) -> Result<bool, Failed>
        requires empty { self.old ≡ [] }
        requires open { IsTrue (H.is_open shelf.old) }
        ensures bytes { OnOk result (Consumes (H.left shelf.old) (H.left shelf.new) self.new) }
        ensures found { IfOk result (λ found. found ≡ true → 0 < length self.new) }
        ensures over { IfOk result (λ found. found ≡ false → (self.new ≡ []) × IsAtEnd (H.left shelf.new)) }
        ensures files { H.files shelf.new ≡ H.files shelf.old }
        ensures open { OnOk result (IsTrue (H.is_open shelf.new)) }
        ensures cause { HasCause (H.faults shelf.old) (H.faults shelf.new) result }
    {
        self.from = 0;
        self.to = 0;
        let count = shelf.read(&mut self.block)?;
        self.to = count;
        Ok(count > 0)
    }

    /// Reads on if nothing is ahead, and otherwise does nothing. If nothing is ahead afterwards, the text is over.
    pub(crate) fn fill_empty<H: Shelf>(&mut self, shelf: &mut H) -> Result<(), Failed>
        requires open { IsTrue (H.is_open shelf.old) }
        ensures keeps { OnOk result (Keeps (prepend_known self.old (H.left shelf.old)) (prepend_known self.new (H.left shelf.new))) }
        ensures over { OnOk result (self.new ≡ [] → IsAtEnd (H.left shelf.new)) }
        ensures unread { self.old ≢ [] → shelf.new ≡ shelf.old }
        ensures files { H.files shelf.new ≡ H.files shelf.old }
        ensures open { OnOk result (IsTrue (H.is_open shelf.new)) }
        ensures cause { HasCause (H.faults shelf.old) (H.faults shelf.new) result }
    {
        if !self.is_empty() {
            return Ok(());
        }
        self.fill(shelf)?;
        Ok(())
    }
}

/// How many bytes stand before the first LF or CR.
pub(crate) fn plain_len(bytes: &[u8]) -> usize
    ensures within { result ≤ length bytes.now }
    ensures plain { IsUncut (take result bytes.now) }
    ensures stopped { IsStopped (drop result bytes.now) }
{
    match memchr2(b'\n', b'\r', bytes) {
        Some(place) => place,
        None => bytes.len(),
    }
}

/// Whether a whole end is among the bytes: LF, or a CR with a byte behind it.
pub(crate) fn has_end(bytes: &[u8]) -> bool
    ensures { result ≡ ends.has_end bytes.now }
{
    match &bytes[plain_len(bytes)..] {
        [] => false,
        [byte] => *byte == b'\n',
        _ => true,
    }
}
