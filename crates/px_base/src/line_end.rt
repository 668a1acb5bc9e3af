// What ends a line.
ghost use Rattle.std.specs.Prelude.{◌≡◌, ◌≢◌, ◌<◌, [], length, slice_get, IfOk, OnOk, IsErrOf, IsTrue, Some, Ok, Err};
ghost use Rattle.std.specs.Io.KnownBytes.{prepend_known};
ghost use Rattle.px_base.specs.Causes.{MayHaveRisen};
ghost use Rattle.px_base.specs.LineEnds.{end_bytes, has_end, IsAtStop, TakesEnd, EndPasses};

use crate::window::Window;
use crate::{LineFault, Shelf};

/// What ends a line.
#[derive(Clone, Copy)]
pub(crate) enum LineEnd {
    /// LF.
    Feed,
    /// CR, where no LF follows.
    Return,
    /// CR and LF.
    ReturnFeed,
    /// The end of the text.
    Over,
}

impl LineEnd {
    /// How many bytes it has.
    pub(crate) fn len(self) -> u32
        ensures { result ≡ length (end_bytes self) }
    {
        match self {
            LineEnd::Over => 0,
            LineEnd::Feed | LineEnd::Return => 1,
            LineEnd::ReturnFeed => 2,
        }
    }
}

/// Takes the CR that is ahead, and the LF behind it, if there is one. `Limit` where the end has
/// more bytes than `most`.
fn take_return<H: Shelf>(
    window: &mut Window,
    most: usize,
    shelf: &mut H,
) -> Result<LineEnd, LineFault>
    requires at { slice_get window.old 0 ≡ Some 13 }
    requires most { 0 < most }
    requires open { IsTrue (H.is_open shelf.old) }
    ensures ok { IfOk result (λ end. TakesEnd most end (prepend_known window.old (H.left shelf.old)) (prepend_known window.new (H.left shelf.new))) }
    ensures some { result ≢ Ok LineEnd.Over }
    ensures limit { IsErrOf result LineFault.Limit → EndPasses most (prepend_known window.old (H.left shelf.old)) }
    ensures unread { IsTrue (has_end window.old) → shelf.new ≡ shelf.old }
    ensures files { H.files shelf.new ≡ H.files shelf.old }
    ensures open { OnOk result (IsTrue (H.is_open shelf.new)) }
    ensures fault { IsErrOf result LineFault.Fault → MayHaveRisen (H.faults shelf.old) (H.faults shelf.new) }
    ensures no_fault { result ≢ Err LineFault.Fault → H.faults shelf.new ≡ H.faults shelf.old }
{
    window.skip(1);
    window.fill_empty(shelf)?;
    if window.first() != Some(b'\n') {
        return Ok(LineEnd::Return);
    }
    if most < 2 {
        return Err(LineFault::Limit);
    }
    window.skip(1);
    Ok(LineEnd::ReturnFeed)
}

/// Takes the end that is ahead, LF, CR LF or CR. After a CR it has to see one byte more, and reads
/// on where none is ahead. `Limit` where the end has more bytes than `most`.
pub(crate) fn take_end<H: Shelf>(
    window: &mut Window,
    most: usize,
    shelf: &mut H,
) -> Result<LineEnd, LineFault>
    requires stop { IsAtStop window.old (H.left shelf.old) }
    requires open { IsTrue (H.is_open shelf.old) }
    ensures ok { IfOk result (λ end. TakesEnd most end (prepend_known window.old (H.left shelf.old)) (prepend_known window.new (H.left shelf.new))) }
    ensures over { result ≡ Ok LineEnd.Over → window.new ≡ [] }
    ensures limit { IsErrOf result LineFault.Limit → EndPasses most (prepend_known window.old (H.left shelf.old)) }
    ensures unread { IsTrue (has_end window.old) → shelf.new ≡ shelf.old }
    ensures files { H.files shelf.new ≡ H.files shelf.old }
    ensures open { OnOk result (IsTrue (H.is_open shelf.new)) }
    ensures fault { IsErrOf result LineFault.Fault → MayHaveRisen (H.faults shelf.old) (H.faults shelf.new) }
    ensures no_fault { result ≢ Err LineFault.Fault → H.faults shelf.new ≡ H.faults shelf.old }
{
    let Some(byte) = window.first() else {
        return Ok(LineEnd::Over);
    };
    if most == 0 {
        return Err(LineFault::Limit);
    }
    if byte == b'\n' {
        window.skip(1);
        return Ok(LineEnd::Feed);
    }
    take_return(window, most, shelf)
}
