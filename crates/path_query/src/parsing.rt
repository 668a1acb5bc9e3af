// Trees from texts.
ghost use Rattle.std.specs.Prelude.{◌≡◌, IfOk, IsErrOf};
ghost use Rattle.path_spec.specs.Trees as tree;
ghost use Rattle.path_query.specs.Parsed.{SpellsPath, is_past};

use crate::depth::depth_of;
use crate::grammar::read_tokens;
use crate::lexer::lex;
use crate::read_error::ReadError;
use crate::token::Token;
use graph_spec::Limits;
use path_expr::Expr;
use std::alloc::Global;

/// Whether the text has more bytes than `expr_bytes`, or its brackets nest deeper than `expr_depth`. O(n)
/// for n bytes, no memory.
pub fn is_past(limits: &Limits, text: &[u8]) -> bool
    ensures { result ≡ is_past limits.now text.now }
{
    (limits.expr_bytes as usize) < text.len() || (limits.expr_depth as usize) < depth_of(text)
}

/// The one tree that the text spells, whatever its size.
pub(crate) fn read(alloc: Global, text: &[u8]) -> Result<Expr, ReadError>
    ensures ok { IfOk result (λ e. SpellsPath text.now e) }
    ensures syntax { IsErrOf result ReadError.Syntax → (f : tree.Expr) → SpellsPath text.now f → ⊥ }
{
    let tokens = lex::<Token>(alloc, text)?;
    read_tokens(alloc, &tokens)
}
