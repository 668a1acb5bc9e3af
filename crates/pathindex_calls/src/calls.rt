// A call that is carried out.
ghost use Rattle.pathindex_calls.specs.Calls.{ObeysCall};

use crate::changes::{begin, cancel, delete, end, insert, take_node, take_relabel, take_step};
use crate::questions::{branch, extents, forget, path, save, sizes, why};
use crate::replies::Reply;
use crate::requests::Call;
use graph_update::{Change, Step};
use pathindex_session::Session;
use std::alloc::Global;

/// Carries out a call.
pub(crate) fn obey(
    alloc: Global,
    session: &mut Session,
    group: &mut Option<Change>,
    call: Call,
    text: &[u8],
) -> Reply
    ensures { ObeysCall call text.now session.old group.old session.new group.new result }
{
    match call {
        Call::Node => take_node(alloc, session, group, text),
        Call::Link(from, to) => take_step(alloc, session, group, Step::Link(from, to)),
        Call::Unlink(from, to) => take_step(alloc, session, group, Step::Unlink(from, to)),
        Call::Drop(n) => take_step(alloc, session, group, Step::Drop(n)),
        Call::Relabel(n) => take_relabel(alloc, session, group, n, text),
        Call::Begin => begin(alloc, group),
        Call::End => end(alloc, session, group),
        Call::Cancel => cancel(group),
        Call::Insert => insert(alloc, session, text),
        Call::Delete => delete(alloc, session, text),
        Call::Path(via) => path(alloc, session, via, text),
        Call::Branch(via) => branch(alloc, session, via, text),
        Call::Why(n) => why(alloc, session, n, text),
        Call::Extents(via) => extents(alloc, session, via),
        Call::Sizes => sizes(alloc, session),
        Call::Save => save(alloc, session),
        Call::Forget(kind) => forget(session, kind),
    }
}
