// What a call came to, as numbers.
ghost use Rattle.std.specs.Prelude.{◌≡◌, length};
ghost use Rattle.pathindex_calls.specs.Replies as replies;

use graph_update::Applied;
use index_api::How;
use pathindex_core::UpdateError;
use pathindex_session::{OpenError, QueryError};
use px_base::{Memory, Refusal};

/// What a call came to.
#[derive(Clone, Copy, Debug, PartialEq, Eq, Drop)]
pub struct Reply {
    /// 0 where the call was carried out. Else why it wasn't: 1 for `no-node`, 2 `no-edge`, 4 `limit`, 5 `no-index`, 6 a text that
    /// spells nothing of its kind, 7 want of memory, 8 a number that names nothing or a call out of turn.
    pub code: u32,
    /// How answers were found: 0 in the graph itself, 1 through an index that is exact for the query, 2 in an index whose
    /// candidates were looked up in the graph.
    pub how: u32,
    /// How many there are: nodes that a change added, answers, nodes of a walk, or bytes of a list; where a text isn't opened,
    /// the number of its line.
    pub count: u64,
    /// The first number that a change allocated, or how many candidates there were.
    pub number: u64,
}

/// The code of a text that spells nothing of its kind.
pub(crate) const SYNTAX: u32 = 6;

/// The code of a call that found no memory.
pub(crate) const MEMORY: u32 = 7;

/// The code of a call that has no meaning, or none at that time.
pub(crate) const MISUSE: u32 = 8;

/// A code alone.
pub(crate) fn said(code: u32) -> Reply
    ensures { result ≡ replies.said code }
{
    Reply {
        code,
        how: 0,
        count: 0,
        number: 0,
    }
}

// A code and the number of a line.
fn at_line(code: u32, line: u32) -> Reply
    ensures { result ≡ replies.at_line code line }
{
    Reply {
        code,
        how: 0,
        count: u64::from(line),
        number: 0,
    }
}

/// A call that was carried out, with a count.
pub(crate) fn counted(count: usize) -> Reply
    ensures { result ≡ replies.counted count }
{
    Reply {
        code: 0,
        how: 0,
        count: count as u64,
        number: 0,
    }
}

// How answers were found, how many there are, and how many candidates there were.
fn found(how: u32, count: usize, candidates: u32) -> Reply
    ensures { result ≡ replies.found how count candidates }
{
    Reply {
        code: 0,
        how,
        count: count as u64,
        number: u64::from(candidates),
    }
}

fn refusal_code(refusal: Refusal) -> u32
    ensures { result ≡ replies.refusal_code refusal }
{
    refusal as u32
}

/// Why a text isn't opened.
pub(crate) fn of_open(error: OpenError) -> Reply
    ensures { result ≡ replies.of_open error }
{
    match error {
        OpenError::Syntax(line) => at_line(SYNTAX, line),
        OpenError::Limit(line) => at_line(refusal_code(Refusal::Limit), line),
        OpenError::Memory => said(MEMORY),
    }
}

/// Why a query isn't answered.
pub(crate) fn of_query(error: QueryError) -> Reply
    ensures { result ≡ replies.of_query error }
{
    match error {
        QueryError::Refused(refusal) => said(refusal_code(refusal)),
        QueryError::Syntax => said(SYNTAX),
        QueryError::Memory => said(MEMORY),
    }
}

/// What a change came to.
pub(crate) fn of_update(answer: Result<Applied, UpdateError>) -> Reply
    ensures { result ≡ replies.of_update answer }
{
    match answer {
        Ok(applied) => Reply {
            code: 0,
            how: 0,
            count: u64::from(applied.added),
            number: u64::from(applied.first),
        },
        Err(UpdateError::Refused(refusal)) => said(refusal_code(refusal)),
        Err(UpdateError::Memory) => said(MEMORY),
    }
}

/// What a query came to, which found so many nodes. Of the graph itself each is a candidate.
pub(crate) fn of_answer(answer: Result<How, QueryError>, nodes: &[u32]) -> Reply
    ensures { result ≡ replies.of_answer answer (length nodes.now) }
{
    match answer {
        Ok(How::Data) => found(0, nodes.len(), 0),
        Ok(How::Exact(candidates)) => found(1, nodes.len(), candidates),
        Ok(How::Checked(candidates)) => found(2, nodes.len(), candidates),
        Err(error) => of_query(error),
    }
}

/// What the question why a node answers came to; no nodes, where it doesn't.
pub(crate) fn of_why(answer: Result<bool, QueryError>, walk: &[u32]) -> Reply
    ensures { result ≡ replies.of_why answer (length walk.now) }
{
    match answer {
        Ok(true) => counted(walk.len()),
        Ok(false) => counted(0),
        Err(error) => of_query(error),
    }
}

/// What a check of a walk came to: 1 where it shows that the node answers, and 0 where it doesn't.
pub(crate) fn of_check(answer: Result<bool, QueryError>) -> Reply
    ensures { result ≡ replies.of_check answer }
{
    match answer {
        Ok(true) => counted(1),
        Ok(false) => counted(0),
        Err(error) => of_query(error),
    }
}

/// What a list of blocks came to.
pub(crate) fn of_list(answer: Result<(), QueryError>, text: &[u8]) -> Reply
    ensures { result ≡ replies.of_list answer (length text.now) }
{
    match answer {
        Ok(()) => counted(text.len()),
        Err(error) => of_query(error),
    }
}

/// What a list of sizes came to.
pub(crate) fn of_sizes(answer: Result<(), Memory>, text: &[u8]) -> Reply
    ensures { result ≡ replies.of_sizes answer (length text.now) }
{
    match answer {
        Ok(()) => counted(text.len()),
        Err(_) => said(MEMORY),
    }
}

/// What dropping an index came to.
pub(crate) fn of_forget(answer: Result<(), Refusal>) -> Reply
    ensures { result ≡ replies.of_forget answer }
{
    match answer {
        Ok(()) => said(0),
        Err(refusal) => said(refusal_code(refusal)),
    }
}
