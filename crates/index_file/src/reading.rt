// Index files that are read.
ghost use Rattle.std.specs.Prelude.{◌≡◌, ◌≢◌, ◌<◌, ◌^◌, ◌-◌, ◌+◌, false, List, ℕ, OnOk, IfOk, IfErr, IsErrOf, IsTrue, Err};
ghost use Rattle.px_base.specs.Causes.{MayHaveRisen};
ghost use Rattle.index_file.specs.Readings.{is_complete, file_of};
ghost use Rattle.index_file.specs.Reads.{ReadOutcome, Reads, Spelled, holds, read_start, IsTaken};
ghost use Rattle.index_file.specs.ReadFiles.{SpelledIn, RefusesNone, IsWithin};
ghost use Rattle.index_file.specs.SavedFiles.{SavedFile};
ghost use Rattle.index_file.specs.ReadSteps.{TellsOutcome, TellsLine, ReadsAhead, ReadsRest, ReadsObservable, LacksFile, CanRead, ReadsOn};
ghost use Rattle.index_file.specs.declared.reading.SavedError.TheVariants.{Memory as NoMemory};

use crate::draft::Draft;
use crate::due::Stop;
use crate::saved::Saved;
use px_base::{GRAPH_BYTES, LINE_BYTES, Limits, LineFault, LineReader, Memory, Shelf};
use std::alloc::Global;
use thiserror::Error;

/// Why an index file wasn't read.
#[derive(Clone, Copy, Debug, PartialEq, Eq, Error)]
pub enum SavedError {
    /// The line of this number, from 1 on, can't stand there, or is missing.
    #[error("line {0} is no line of an index file, or can't stand there")]
    Syntax(u32),
    /// The line of this number passes a limit.
    #[error("line {0} passes a limit")]
    Limit(u32),
    /// There is no file of that name.
    #[error("there is no such file")]
    Missing,
    /// A call on the shelf failed.
    #[error("the file could not be read")]
    Fault,
    /// An allocation failed.
    #[error("out of memory")]
    Memory,
}

impl From<Memory> for SavedError {
    ghost from_gives = { λ _ e. e ≡ NoMemory };

    fn from(_: Memory) -> Self {
        SavedError::Memory
    }
}

// Takes the line of that number. True where it is taken.
fn take_line(
    alloc: Global,
    limits: &Limits,
    draft: &mut Draft,
    line: &[u8],
    number: u32,
) -> Result<bool, SavedError>
    ensures taken { IfOk result (λ more. IsTrue more × IsTaken limits.now line.now draft.old draft.new) }
    ensures refused { IfErr result (TellsLine limits.now line.now number draft.old) }
{
    match draft.take(alloc, limits, line) {
        Ok(()) => Ok(true),
        Err(Stop::Syntax) => Err(SavedError::Syntax(number)),
        Err(Stop::Limit) => Err(SavedError::Limit(number)),
        Err(Stop::Memory) => Err(SavedError::Memory),
    }
}

// Reads the next line. False where the text is over.
fn read_next<H: Shelf>(
    alloc: Global,
    limits: &Limits,
    reader: &mut LineReader,
    draft: &mut Draft,
    shelf: &mut H,
) -> Result<bool, SavedError>
    requires can { CanRead reader.old (H.is_open shelf.old) }
    ensures { ReadsOn limits.now H.left H.is_open H.files H.faults reader.old reader.new draft.old draft.new shelf.old shelf.new result }
{
    match reader.next(shelf) {
        Ok(true) => take_line(alloc, limits, draft, reader.line(), reader.number()),
        Ok(false) => Ok(false),
        Err(LineFault::Limit) => Err(SavedError::Limit(reader.number())),
        Err(LineFault::Fault) => Err(SavedError::Fault),
        Err(LineFault::Memory) => Err(SavedError::Memory),
    }
}

// Whether the file may end behind the line of that number.
fn check_end(draft: &Draft, number: u32) -> Result<(), SavedError>
    requires { number < 2 ^ 32 - 1 }
    ensures complete { OnOk result (IsTrue (is_complete draft.now)) }
    ensures early { IfErr result (λ e. (e ≡ SavedError.Syntax (number + 1)) × (is_complete draft.now ≡ false)) }
{
    if draft.is_complete() {
        Ok(())
    } else {
        Err(SavedError::Syntax(number + 1))
    }
}

// Reads what is left of the open file.
fn read_lines<H: Shelf>(
    alloc: Global,
    limits: &Limits,
    reader: &mut LineReader,
    draft: &mut Draft,
    shelf: &mut H,
) -> Result<(), SavedError>
    requires can { CanRead reader.old (H.is_open shelf.old) }
    ensures read { OnOk result (ReadsRest limits.now reader.old (H.left shelf.old) draft.old (holds (file_of draft.new))) }
    ensures complete { OnOk result (IsTrue (is_complete draft.new)) }
    ensures refused { IfErr result (TellsOutcome (ReadsRest limits.now reader.old (H.left shelf.old) draft.old)) }
    ensures found { result ≢ Err SavedError.Missing }
    ensures files { H.files shelf.new ≡ H.files shelf.old }
    ensures fault { IsErrOf result SavedError.Fault → MayHaveRisen (H.faults shelf.old) (H.faults shelf.new) }
    ensures no_fault { result ≢ Err SavedError.Fault → H.faults shelf.new ≡ H.faults shelf.old }
{
    'lines: loop {
        match read_next(alloc, limits, reader, draft, shelf) {
            Ok(true) => (),
            Ok(false) => return check_end(draft, reader.number()),
            Err(error) => return Err(error),
        }
    }
}

// Reads the file that is open.
fn read_open<H: Shelf>(alloc: Global, limits: &Limits, shelf: &mut H) -> Result<Draft, SavedError>
    requires { IsTrue (H.is_open shelf.old) }
    ensures read { IfOk result (λ d. ReadsAhead limits.now (H.left shelf.old) read_start (holds (file_of d))) }
    ensures complete { IfOk result (λ d. IsTrue (is_complete d)) }
    ensures refused { IfErr result (TellsOutcome (ReadsAhead limits.now (H.left shelf.old) read_start)) }
    ensures found { result ≢ Err SavedError.Missing }
    ensures files { H.files shelf.new ≡ H.files shelf.old }
    ensures fault { IsErrOf result SavedError.Fault → MayHaveRisen (H.faults shelf.old) (H.faults shelf.new) }
    ensures no_fault { result ≢ Err SavedError.Fault → H.faults shelf.new ≡ H.faults shelf.old }
{
    let mut reader = LineReader::new(alloc, LINE_BYTES, GRAPH_BYTES)?;
    let mut draft = Draft::new(alloc)?;
    match read_lines(alloc, limits, &mut reader, &mut draft, shelf) {
        Ok(()) => Ok(draft),
        Err(error) => Err(error),
    }
}

// Reads a file to its end.
#[tactic(auto, using(crate::proofs::OneOutcome::one_outcome))]
fn read_draft<H: Shelf>(
    alloc: Global,
    shelf: &mut H,
    name: &str,
    limits: &Limits,
) -> Result<Draft, SavedError>
    ensures read { IfOk result (λ d. ReadsObservable limits.now (H.files shelf.old) name.now (holds (file_of d))) }
    ensures complete { IfOk result (λ d. IsTrue (is_complete d)) }
    ensures refused { IfErr result (TellsOutcome (ReadsObservable limits.now (H.files shelf.old) name.now)) }
    ensures once { (text : List ℕ) (a b : ReadOutcome) → Reads limits.now text a → Reads limits.now text b → a ≡ b }
    ensures missing { IsErrOf result SavedError.Missing → LacksFile (H.files shelf.old) name.now }
    ensures files { H.files shelf.new ≡ H.files shelf.old }
    ensures fault { IsErrOf result SavedError.Fault → MayHaveRisen (H.faults shelf.old) (H.faults shelf.new) }
    ensures no_fault { result ≢ Err SavedError.Fault → H.faults shelf.new ≡ H.faults shelf.old }
{
    match shelf.open(name) {
        Ok(true) => read_open(alloc, limits, shelf),
        Ok(false) => Err(SavedError::Missing),
        Err(_) => Err(SavedError::Fault),
    }
}

fn saved_of(alloc: Global, draft: Draft) -> Result<Saved, SavedError>
    requires { IsTrue (is_complete draft) }
    ensures saved { IfOk result (λ s. s ≡ file_of draft) }
    ensures err { IfErr result (λ e. e ≡ SavedError.Memory) }
{
    match draft.into_saved(alloc) {
        Ok(saved) => Ok(saved),
        Err(_) => Err(SavedError::Memory),
    }
}

/// Reads an index file. The first line that is refused ends it: `Limit` and `Syntax` have its number, and a text that ends too
/// early gives `Syntax` with the number behind its last line. `Missing` comes where there is no file of that name, and `Fault` where
/// a call on the shelf failed. Expected O(b) for a file of b bytes. While it reads it takes 8 bytes for each number and for each
/// edge, 4 for each rank, the texts of the labels, and the longest line.
#[tactic(auto, using(crate::proofs::ReadSpelled::spelled_read))]
pub fn read<H: Shelf>(
    alloc: Global,
    shelf: &mut H,
    name: &str,
    limits: &Limits,
) -> Result<Saved, SavedError>
    // A value comes only where the text of the file holds it.
    ensures read { IfOk result (λ s. ReadsObservable limits.now (H.files shelf.old) name.now (holds s)) }
    // The number of a line comes only where the text of the file is refused there, for that reason.
    ensures refused { IfErr result (TellsOutcome (ReadsObservable limits.now (H.files shelf.old) name.now)) }
    // That text spells the value.
    ensures spelled { IfOk result (SpelledIn (H.files shelf.old) name.now) }
    // `Syntax` comes only where the text spells nothing.
    ensures unspelled { IfErr result (RefusesNone (H.files shelf.old) name.now) }
    // A text that spells a file is read as that file, if no line of it passes a limit.
    ensures whole { (text : List ℕ) (file : SavedFile) → Spelled text file → IsWithin limits.now text → Reads limits.now text (holds file) }
    // A text gives one outcome at most.
    ensures once { (text : List ℕ) (a b : ReadOutcome) → Reads limits.now text a → Reads limits.now text b → a ≡ b }
    ensures missing { IsErrOf result SavedError.Missing → LacksFile (H.files shelf.old) name.now }
    ensures files { H.files shelf.new ≡ H.files shelf.old }
    ensures fault { IsErrOf result SavedError.Fault → MayHaveRisen (H.faults shelf.old) (H.faults shelf.new) }
    ensures no_fault { result ≢ Err SavedError.Fault → H.faults shelf.new ≡ H.faults shelf.old }
{
    match read_draft(alloc, shelf, name, limits) {
        Ok(draft) => saved_of(alloc, draft),
        Err(error) => Err(error),
    }
}
