// Why a session isn't opened, or doesn't answer.
ghost use Rattle.std.specs.Prelude.{◌≡◌};
ghost use Rattle.pathindex_session.specs.Asked as asked;

use path_query::ExprError;
use pathindex_core::AskError;
use px_base::Refusal;

/// Why a text isn't opened.
#[derive(Clone, Copy, Debug, PartialEq, Eq, Drop)]
pub enum OpenError {
    /// The line of this number, from 1 on, is neither a triple, nor blank, nor a comment.
    Syntax(u32),
    /// The line of this number passes a limit.
    Limit(u32),
    /// Memory ran out.
    Memory,
}

/// Why a query isn't answered. The session is as it was then, but for views that were computed.
#[derive(Clone, Copy, Debug, PartialEq, Eq, Drop)]
pub enum QueryError {
    /// It is refused: its text passes a limit, the index isn't kept, or the node isn't live.
    Refused(Refusal),
    /// The text spells no expression.
    Syntax,
    /// Memory ran out.
    Memory,
}

/// Why a text is no query.
pub(crate) fn of_text(error: ExprError) -> QueryError
    ensures { result ≡ asked.of_text error }
{
    match error {
        ExprError::Limit => QueryError::Refused(Refusal::Limit),
        ExprError::Syntax => QueryError::Syntax,
        ExprError::Memory => QueryError::Memory,
    }
}

/// Why an index doesn't answer.
pub(crate) fn of_ask(error: AskError) -> QueryError
    ensures { result ≡ asked.of_ask error }
{
    match error {
        AskError::NoIndex => QueryError::Refused(Refusal::NoIndex),
        AskError::Memory => QueryError::Memory,
    }
}
