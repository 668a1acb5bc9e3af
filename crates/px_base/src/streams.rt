// Files that are read and a stream that is written, as traits.
ghost use Rattle.std.specs.Prelude.{◌≡◌, ◌<◌, ◌≤◌, ◌↔◌, ℕ, Bool, List, Option, length, IfOk, OnOk, OnErr, IsTrue, Ok, true};
ghost use Rattle.std.specs.Io.{ReadsAtMost};
ghost use Rattle.std.specs.Io.KnownBytes.{ReadConsumes, WriteAppends, Appends};
ghost use Rattle.px_base.specs.Causes.{HasCause};
ghost use Rattle.px_base.specs.Files.{File, Finds, AppendsPrefix};

/// A call on a shelf or a sink failed.
#[derive(Clone, Copy, Debug, PartialEq, Eq)]
pub struct Failed;

/// Files that are read, one at a time, from the first byte on.
///
/// What the files hold is observable for files in memory, and not by those of a system.
///
/// The bytes of a file, where it is there:
///
///     if shelf.open("name")? {
///         let mut count = shelf.read(&mut block)?;
///         while count > 0 {
///             take(&block[..count]);
///             count = shelf.read(&mut block)?;
///         }
///     }
pub trait Shelf {
    /// The files, where they are observable. Of several of one name the first counts.
    ghost files: { Self → Option (List File) };

    /// Whether a file is open.
    ghost is_open: { Self → Bool };

    /// What is left to read of the open file, where it is observable.
    ghost left: { Self → Option (List ℕ) };

    /// How often a call has failed, up to the last value of a u64.
    ghost faults: { Self → ℕ };

    /// Opens the file of that name instead of the open one. `Ok(false)`: there is none. Where it
    /// fails, the count of faults rises. O(1) beside what the system takes, no memory.
    fn open(&mut self, name: &str) -> Result<bool, Failed>
        ensures files { files self.new ≡ files self.old }
        ensures found { IfOk result (λ found. Finds (files self.old) name.now found (left self.new)) }
        ensures open { IsTrue (is_open self.new) ↔ (result ≡ Ok true) }
        ensures cause { HasCause (faults self.old) (faults self.new) result };

    /// Reads some of the next bytes of the open file into the front of `buf`, and answers how many;
    /// 0 only at the end. Where it fails, none are read, and the count of faults rises. O(r) for r bytes
    /// read, no memory.
    fn read(&mut self, buf: &mut [u8]) -> Result<usize, Failed>
        requires nonempty { 0 < length buf.old }
        requires open { IsTrue (is_open self.old) }
        ensures files { files self.new ≡ files self.old }
        ensures at_most { ReadsAtMost result buf.new }
        ensures bytes { ReadConsumes (left self.old) (left self.new) result buf.new }
        ensures open { OnOk result (IsTrue (is_open self.new)) }
        ensures cause { HasCause (faults self.old) (faults self.new) result };
}

/// A stream of bytes that is written.
///
/// What was written is observable for a sink in memory, and not by one of a system.
pub trait Sink {
    /// The bytes that were written, where they are observable.
    ghost written: { Self → Option (List ℕ) };

    /// How often a call has failed, up to the last value of a u64.
    ghost faults: { Self → ℕ };

    /// Writes some of the bytes, from the first on, and answers how many. Where it fails, none are
    /// written, and the count of faults rises. O(w) for w bytes written, no memory.
    fn write(&mut self, piece: &[u8]) -> Result<usize, Failed>
        requires { 0 < length piece.now }
        ensures taken { IfOk result (λ n. (0 < n) × (n ≤ length piece.now)) }
        ensures bytes { WriteAppends (written self.old) (written self.new) result piece.now }
        ensures cause { HasCause (faults self.old) (faults self.new) result };
}

/// Writes all the bytes. Where a write fails, some prefix of them was written, and nothing more is tried. O(w) for w
/// writes, beside what each of them takes; no memory.
pub fn put_all<K: Sink>(sink: &mut K, bytes: &[u8]) -> Result<(), Failed>
    ensures all { OnOk result (Appends (K.written sink.old) (K.written sink.new) bytes.now) }
    ensures part { OnErr result (AppendsPrefix (K.written sink.old) (K.written sink.new) bytes.now) }
    ensures cause { HasCause (K.faults sink.old) (K.faults sink.new) result }
{
    let mut rest = bytes;
    while !rest.is_empty() {
        let count = sink.write(rest)?;
        rest = &rest[count..];
    }
    Ok(())
}
