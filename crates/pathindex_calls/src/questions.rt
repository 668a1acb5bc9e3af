// Questions to a session.
ghost use Rattle.pathindex_session.specs.TextAnswers.{SpellsPathQuery, SpellsBranchQuery};
ghost use Rattle.pathindex_calls.specs.Questions.{Asks, Explains, Checks, Lists, Measures, Saves, Forgets};

use crate::replies::{Reply, of_answer, of_check, of_forget, of_list, of_sizes, of_why};
use index_api::{Kind, Via};
use pathindex_session::Session;
use px_base::NodeId;
use std::alloc::Global;

/// Asks a path expression.
pub(crate) fn path(alloc: Global, session: &mut Session, via: Via, text: &[u8]) -> Reply
    ensures { Asks (SpellsPathQuery text.now) text.now via session.old session.new result }
{
    of_answer(session.path(alloc, via, text), session.nodes())
}

/// Asks a branching query.
pub(crate) fn branch(alloc: Global, session: &mut Session, via: Via, text: &[u8]) -> Reply
    ensures { Asks (SpellsBranchQuery text.now) text.now via session.old session.new result }
{
    of_answer(session.branch(alloc, via, text), session.nodes())
}

/// Asks why a node answers.
pub(crate) fn why(alloc: Global, session: &mut Session, n: NodeId, text: &[u8]) -> Reply
    ensures { Explains text.now n session.old session.new result }
{
    of_why(session.why(alloc, n, text), session.walk())
}

/// Asks whether a walk shows that a node answers.
pub(crate) fn check(
    alloc: Global,
    session: &Session,
    n: NodeId,
    walk: &[NodeId],
    text: &[u8],
) -> Reply
    ensures { Checks text.now n walk.now session.now result }
{
    of_check(session.check(alloc, n, walk, text))
}

/// Lists the blocks of an index.
pub(crate) fn extents(alloc: Global, session: &mut Session, via: Via) -> Reply
    ensures { Lists via session.old session.new result }
{
    of_list(session.extents(alloc, via), session.text())
}

/// Lists the sizes of the graph and of the indexes.
pub(crate) fn sizes(alloc: Global, session: &mut Session) -> Reply
    ensures { Measures session.old session.new result }
{
    of_sizes(session.sizes(alloc), session.text())
}

/// Makes the index file of the graph and of the indexes.
pub(crate) fn save(alloc: Global, session: &mut Session) -> Reply
    ensures { Saves session.old session.new result }
{
    of_sizes(session.save(alloc), session.text())
}

/// Drops the index of a kind.
pub(crate) fn forget(session: &mut Session, kind: Kind) -> Reply
    ensures { Forgets kind session.old session.new result }
{
    of_forget(session.forget(kind))
}
