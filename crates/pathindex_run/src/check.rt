// The check of an index file.
ghost use Rattle.std.specs.Prelude.{◌≡◌, ◌≢◌, ◌⊎◌, [], None, IfOk};
ghost use Rattle.std.specs.Io.KnownBytes.{Keeps};
ghost use Rattle.px_base.specs.Causes.{MayHaveRisen};
ghost use Rattle.command_line.specs.Forms.{checks};
ghost use Rattle.index_file.specs.Reads.{holds};
ghost use Rattle.pathindex_core.specs.Engines.{IsSound, by_meaning};
ghost use Rattle.pathindex_core.specs.EngineTerms.{IsUnopened, engine_kinds};
ghost use Rattle.pathindex_run.specs.CheckedFiles.{ChecksNamed, EndsCheck, FitsBut, ShowsFit, ShowsOutcome};
ghost use Rattle.pathindex_run.specs.Headline.{ChecksWhole, HasStatus};
ghost use Rattle.pathindex_run.specs.StatusCodes.{code_of};

use crate::entry::leave_out;
use crate::output::{show_fits, show_misfit, show_refusal};
use crate::status::Status;
use index_api::{Kind, PathIndex, Via};
use index_check::fits;
use index_file::{Saved, SavedError, read};
use pathindex_core::Engine;
use px_base::{Limits, Memory, Shelf, Sink};
use std::alloc::Global;

/// The index of the first view that doesn't fit the graph of the file; none where each fits.
fn first_misfit(alloc: Global, saved: &Saved) -> Result<Option<Via>, Memory>
    ensures { IfOk result (FitsBut saved.now) }
{
    for j in 0..saved.views() {
        let yes = fits(alloc, saved, j)?;
        if !yes {
            return Ok(Some(saved.via(j)));
        }
    }
    Ok(None)
}

/// Writes whether each view fits, or the first that doesn't.
fn show_fit<K: Sink>(alloc: Global, misfit: Option<Via>, sink: &mut K) -> Status
    ensures does { ShowsFit misfit (K.written sink.old) (K.written sink.new) (code_of result) }
    ensures sink { code_of result ≡ 6 → MayHaveRisen (K.faults sink.old) (K.faults sink.new) }
    ensures kept { code_of result ≢ 6 → K.faults sink.new ≡ K.faults sink.old }
{
    match misfit {
        None => show_fits(sink),
        Some(via) => show_misfit(alloc, via, sink),
    }
}

/// Checks the views of a file that was read, and writes what that gives.
fn check_views<K: Sink>(alloc: Global, saved: &Saved, sink: &mut K) -> Status
    ensures does { ShowsOutcome (holds saved.now) (K.written sink.old) (K.written sink.new) (code_of result)
        ⊎ ((code_of result ≡ 7) × Keeps (K.written sink.old) (K.written sink.new)) }
    ensures sink { code_of result ≡ 6 → MayHaveRisen (K.faults sink.old) (K.faults sink.new) }
    ensures kept { code_of result ≢ 6 → K.faults sink.new ≡ K.faults sink.old }
    ensures ends { EndsCheck (code_of result) }
{
    match first_misfit(alloc, saved) {
        Ok(misfit) => show_fit(alloc, misfit, sink),
        Err(_) => Status::NoMemory,
    }
}

/// Reads the index file of that name, and checks its views.
fn check_file<H: Shelf, K: Sink>(alloc: Global, name: &str, shelf: &mut H, sink: &mut K) -> Status
    ensures does { ChecksNamed (H.files shelf.old) name.now (K.written sink.old) (K.written sink.new) (code_of result) }
    ensures status { HasStatus (checks name.now) (H.files shelf.old) (H.faults shelf.old) (H.faults shelf.new) (K.faults sink.old)
        (K.faults sink.new) (code_of result) }
    ensures whole { ChecksWhole (checks name.now) (H.files shelf.old) (H.faults shelf.old) (H.faults shelf.new) (K.faults sink.old)
        (K.faults sink.new) (code_of result) }
    ensures files { H.files shelf.new ≡ H.files shelf.old }
{
    match read(alloc, shelf, name, &Limits::program()) {
        Ok(saved) => check_views(alloc, &saved, sink),
        Err(SavedError::Syntax(line)) => show_refusal(alloc, "index ", line, "syntax", sink),
        Err(SavedError::Limit(line)) => show_refusal(alloc, "index ", line, "limit", sink),
        Err(SavedError::Missing) => Status::NoFile,
        Err(SavedError::Fault) => Status::NoFile,
        Err(SavedError::Memory) => Status::NoMemory,
    }
}

/// Drops all indexes.
fn drop_indexes<B: PathIndex>(engine: &mut Engine<B>)
    requires closed { IsUnopened engine.old }
    requires sound { IsSound (by_meaning B.meaning engine.old) }
    ensures sound { IsSound (by_meaning B.meaning engine.new) }
    ensures dropped { engine_kinds B.meaning engine.new ≡ [] }
{
    leave_out(engine, Kind::A, true);
    leave_out(engine, Kind::One, true);
    leave_out(engine, Kind::Fb, true);
    leave_out(engine, Kind::B, true);
}

/// Drops the indexes of the engine, and checks the index file of that name.
pub(crate) fn run_check<B: PathIndex, H: Shelf, K: Sink>(
    alloc: Global,
    name: &str,
    engine: &mut Engine<B>,
    shelf: &mut H,
    sink: &mut K,
) -> Status
    requires closed { IsUnopened engine.old }
    requires sound { IsSound (by_meaning B.meaning engine.old) }
    ensures sound { IsSound (by_meaning B.meaning engine.new) }
    ensures dropped { engine_kinds B.meaning engine.new ≡ [] }
    ensures does { ChecksNamed (H.files shelf.old) name.now (K.written sink.old) (K.written sink.new) (code_of result) }
    ensures status { HasStatus (checks name.now) (H.files shelf.old) (H.faults shelf.old) (H.faults shelf.new) (K.faults sink.old)
        (K.faults sink.new) (code_of result) }
    ensures whole { ChecksWhole (checks name.now) (H.files shelf.old) (H.faults shelf.old) (H.faults shelf.new) (K.faults sink.old)
        (K.faults sink.new) (code_of result) }
    ensures files { H.files shelf.new ≡ H.files shelf.old }
{
    drop_indexes(engine);
    check_file(alloc, name, shelf, sink)
}
