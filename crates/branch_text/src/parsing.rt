// Trees from texts.
ghost use Rattle.std.specs.Prelude.{◌≡◌, IfOk, IsErrOf};
ghost use Rattle.branch_spec.specs.Trees as tree;
ghost use Rattle.branch_text.specs.Parsed.{SpellsBranch};

use crate::grammar::read_tokens;
use crate::token::Token;
use branch_expr::BranchTree;
use path_query::{ReadError, lex};
use std::alloc::Global;

/// The one tree that the text spells, whatever its size.
pub(crate) fn read(alloc: Global, text: &[u8]) -> Result<BranchTree, ReadError>
    ensures ok { IfOk result (λ q. SpellsBranch text.now q) }
    ensures syntax { IsErrOf result ReadError.Syntax → (p : tree.Branch) → SpellsBranch text.now p → ⊥ }
{
    let tokens = lex::<Token>(alloc, text)?;
    read_tokens(alloc, &tokens)
}
