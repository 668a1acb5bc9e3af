// A shelf and a sink in memory, of which everything is observable, and which fail as they are planned to.
ghost use Rattle.std.specs.Prelude.{◌≡◌, ◌-◌, ◌<◌, ◌≤◌, ◌↔◌, ◌||◌, ◌==◌, [], length, take, map, min, Some, None, is_some, is_err, Ok, true, IfOk, OnOk, IsOk, IsTrue, unwrap_or, if◌then◌else◌};
ghost use Rattle.std.specs.Io.{ReadsAtMost};
ghost use Rattle.std.specs.Io.KnownBytes.{ReadConsumes, WriteAppends};
ghost use Rattle.std.specs.List.{position};
ghost use Rattle.std.specs.Str.{bytes_eq};
ghost use Rattle.graph_spec.specs.Members.{has};
ghost use Rattle.px_base.specs.Causes.{HasCause, one_more};
ghost use Rattle.px_base.specs.Files.{Finds};
ghost use Rattle.px_base.specs.InMemory.{ShelfInMemory, SinkInMemory, file_of};

use crate::planned_faults::PlannedFaults;
use crate::{Failed, Memory, Shelf, Sink, Text};
use std::alloc::Global;
use std::marker::Model;

/// Files in memory, seen as what they hold, how far the open one was read, and which calls fail.
///
/// A shelf with one file, on which no call fails:
///
///     let mut files = Vec::new(alloc);
///     files.push((name, bytes))?;
///     let shelf = MemShelf::new(files, 4096, Vec::new(alloc));
#[derive(Drop)]
pub struct MemShelf {
    files: Vec<(Text, Vec<u8>)>,
    /// The place of the open file in the list, and then that of its first byte not yet read.
    current: Option<usize>,
    next: usize,
    piece: u32,
    plan: PlannedFaults,
}

impl Model for MemShelf {
    ghost use Rattle.std.specs.Prelude.{◌≤◌, map};
    ghost use Rattle.px_base.specs.InMemory.{ShelfInMemory, file_of, left_of, IsAt};

    ghost Value = { ShelfInMemory };

    ghost view = { λ s. record {
      files = map file_of s.files.items;
      left = left_of s.files.items s.current s.next;
      piece = s.piece;
      failing = s.plan.numbers.items;
      calls = s.plan.calls;
      faults = s.plan.faults;
    } };

    ghost invariant = { λ s. (1 ≤ s.piece) × IsAt s.files.items s.current s.next };
}

impl MemShelf {
    /// These files by name, none of them open. Of several of one name the first counts.
    ///
    /// One read moves at most `piece` bytes, which is 1 or more. The calls of `open` and `read` are numbered
    /// together from 1 on, and exactly those fail whose numbers are listed in `failing`. O(1), no memory beside
    /// what it is given.
    pub fn new(files: Vec<(Text, Vec<u8>)>, piece: u32, failing: Vec<u32>) -> MemShelf
        requires { 1 ≤ piece }
        ensures { result ≡ record { files = map file_of files.items; left = None; piece = piece; failing = failing.items; calls = 0; faults = 0 } }
    {
        MemShelf {
            files,
            current: None,
            next: 0,
            piece,
            plan: PlannedFaults {
                numbers: failing,
                calls: 0,
                faults: 0,
            },
        }
    }
}

impl Shelf for MemShelf {
    ghost files = { λ s. Some s.files };

    ghost is_open = { λ s. is_some s.left };

    ghost left = { λ s. s.left };

    ghost faults = { λ s. s.faults };

    /// Looks at the names one by one. A failed call leaves no file open.
    fn open(&mut self, name: &str) -> Result<bool, Failed>
        ensures files { Some self.new.files ≡ Some self.old.files }
        ensures found { IfOk result (λ found. Finds (Some self.old.files) name.now found self.new.left) }
        ensures open { IsTrue (is_some self.new.left) ↔ (result ≡ Ok true) }
        ensures cause { HasCause self.old.faults self.new.faults result }
        ensures kept { self.new ≡ record self.old { left = self.new.left; calls = one_more self.old.calls; faults = self.new.faults } }
        ensures fails { is_err result ≡ has self.old.failing self.new.calls }
        ensures counted { self.new.faults ≡ (if is_err result then one_more self.old.faults else self.old.faults) }
        ensures succeeds { self.old.failing ≡ [] → IsOk result }
    {
        self.current = None;
        self.next = 0;
        self.plan.call()?;
        match find(&self.files, name) {
            Some(at) => {
                self.current = Some(at);
                Ok(true)
            }
            None => Ok(false),
        }
    }

    /// Moves as many bytes as are left, as fit, and as one read moves, whichever is least.
    fn read(&mut self, buf: &mut [u8]) -> Result<usize, Failed>
        requires nonempty { 0 < length buf.old }
        requires open { IsTrue (is_some self.old.left) }
        ensures files { Some self.new.files ≡ Some self.old.files }
        ensures at_most { ReadsAtMost result buf.new }
        ensures bytes { ReadConsumes self.old.left self.new.left result buf.new }
        ensures open { OnOk result (IsTrue (is_some self.new.left)) }
        ensures cause { HasCause self.old.faults self.new.faults result }
        ensures kept { self.new ≡ record self.old { left = self.new.left; calls = one_more self.old.calls; faults = self.new.faults } }
        ensures moved { IfOk result (λ n. n ≡ min (min (length (unwrap_or self.old.left [])) (length buf.old)) self.old.piece) }
        ensures fails { is_err result ≡ has self.old.failing self.new.calls }
        ensures counted { self.new.faults ≡ (if is_err result then one_more self.old.faults else self.old.faults) }
        ensures succeeds { self.old.failing ≡ [] → IsOk result }
    {
        self.plan.call()?;
        match self.current {
            Some(at) => {
                let (_, bytes) = &self.files[at];
                let count = copy_prefix(&bytes[self.next..], self.piece as usize, buf);
                self.next += count;
                Ok(count)
            }
            None => Ok(0),
        }
    }
}

/// The place of the first file of that name.
fn find(files: &[(Text, Vec<u8>)], name: &str) -> Option<usize>
    ensures { result ≡ position (λ file. bytes_eq file.0 name.now) files.now }
{
    files.iter().position(|file| file.0.as_str() == name)
}

/// Copies the first bytes, as many as fit and at most `most`, and answers how many.
fn copy_prefix(bytes: &[u8], most: usize, buf: &mut [u8]) -> usize
    ensures count { result ≡ min (min (length bytes.now) (length buf.old)) most }
    ensures len { length buf.new ≡ length buf.old }
    ensures prefix { take result buf.new ≡ take result bytes.now }
{
    let count = bytes.len().min(buf.len()).min(most);
    buf[..count].copy_from_slice(&bytes[..count]);
    count
}

/// Bytes that are written to memory, seen as all that was written, its capacity, and which calls fail.
///
/// A sink for at most 1,024 bytes, on which no call fails:
///
///     let mut sink = MemSink::new(alloc, 64, Vec::new(alloc), 1024)?;
///     put_all(&mut sink, b"blocks 2\n")?;
///     take(sink.written());
#[derive(Drop)]
pub struct MemSink {
    bytes: Vec<u8>,
    capacity: u32,
    piece: u32,
    plan: PlannedFaults,
}

impl Model for MemSink {
    ghost use Rattle.std.specs.Prelude.{◌≤◌, vec_len, vec_capacity};
    ghost use Rattle.px_base.specs.InMemory.{SinkInMemory};

    ghost Value = { SinkInMemory };

    ghost view = { λ s. record {
      written = s.bytes.items;
      capacity = s.capacity;
      piece = s.piece;
      failing = s.plan.numbers.items;
      calls = s.plan.calls;
      faults = s.plan.faults;
    } };

    ghost invariant = { λ s. (1 ≤ s.piece) × (vec_len s.bytes ≤ s.capacity) × (s.capacity ≤ vec_capacity s.bytes) };
}

impl MemSink {
    /// An empty sink for at most `capacity` bytes in all.
    ///
    /// One call writes at most `piece` bytes, which is 1 or more. Calls are numbered from 1 on, and exactly
    /// those fail whose numbers are listed in `failing`, or that find it full. O(1); it takes `capacity`
    /// bytes, and a write takes no memory.
    pub fn new(
        alloc: Global,
        piece: u32,
        failing: Vec<u32>,
        capacity: u32,
    ) -> Result<MemSink, Memory>
        requires { 1 ≤ piece }
        ensures { IfOk result (λ s. s ≡ record { written = []; capacity = capacity; piece = piece; failing = failing.items; calls = 0; faults = 0 }) }
    {
        Ok(MemSink {
            bytes: Vec::with_capacity(alloc, capacity as usize)?,
            capacity,
            piece,
            plan: PlannedFaults {
                numbers: failing,
                calls: 0,
                faults: 0,
            },
        })
    }

    /// All that was written. O(1), no memory.
    pub fn written(&self) -> &[u8]
        ensures { result.now ≡ self.now.written }
    {
        &self.bytes
    }
}

impl Sink for MemSink {
    ghost written = { λ s. Some s.written };

    ghost faults = { λ s. s.faults };

    /// Moves as many bytes as there are, as one write moves, and as still fit, whichever is
    /// least.
    fn write(&mut self, piece: &[u8]) -> Result<usize, Failed>
        requires { 0 < length piece.now }
        ensures taken { IfOk result (λ n. (0 < n) × (n ≤ length piece.now)) }
        ensures bytes { WriteAppends (Some self.old.written) (Some self.new.written) result piece.now }
        ensures cause { HasCause self.old.faults self.new.faults result }
        ensures kept { self.new ≡ record self.old { written = self.new.written; calls = one_more self.old.calls; faults = self.new.faults } }
        ensures moved { IfOk result (λ n. n ≡ min (min (length piece.now) self.old.piece) (self.old.capacity - length self.old.written)) }
        ensures fails { is_err result ≡ (has self.old.failing self.new.calls || (length self.old.written == self.old.capacity)) }
        ensures counted { self.new.faults ≡ (if is_err result then one_more self.old.faults else self.old.faults) }
        ensures succeeds { self.old.failing ≡ [] → length self.old.written < self.old.capacity → IsOk result }
    {
        self.plan.call()?;
        let left = self.capacity as usize - self.bytes.len();
        let count = piece.len().min(self.piece as usize).min(left);
        if count == 0 {
            return Err(self.plan.fault());
        }
        match self.bytes.extend_from_slice(&piece[..count]) {
            Ok(()) => Ok(count),
            Err(_) => Err(self.plan.fault()),
        }
    }
}
