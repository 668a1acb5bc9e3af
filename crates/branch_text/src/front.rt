// The token at the front of a text.
ghost use Rattle.std.specs.Prelude.{◌≡◌, ℕ, List, None, IfOk, IsErrOf};
ghost use Rattle.branch_spec.specs.Tokens as tokens;
ghost use Rattle.branch_text.specs.BranchTokens.{token_of};
ghost use Rattle.branch_text.specs.BranchTokenPrefixes.{IsTokenPrefix, mark_prefix};

use crate::marks::{label_len, mark_prefix};
use crate::token::Token;
use path_query::{Lexeme, ReadError};
use std::alloc::Global;

/// The label at the front, where no other token stands, and what follows it.
fn read_label(alloc: Global, text: &[u8]) -> Result<(Token, &[u8]), ReadError>
    requires { mark_prefix text.now ≡ None }
    ensures ok { IfOk result (λ r. IsTokenPrefix text.now (token_of r.0) r.1.now) }
    ensures syntax { IsErrOf result ReadError.Syntax → (t : tokens.Token) (q : List ℕ) → IsTokenPrefix text.now t q → ⊥ }
{
    let (word, rest) = text.split_at(label_len(text));
    match path_query::read_label(alloc, word)? {
        Some(label) => Ok((Token::Label(label), rest)),
        None => Err(ReadError::Syntax),
    }
}

impl Lexeme for Token {
    ghost use Rattle.path_query.specs.Labels.{SpellsLabel};
    ghost use Rattle.branch_spec.specs.Tokens as tokens;
    ghost use Rattle.branch_spec.specs.Spelling as spelling;
    ghost use Rattle.branch_text.specs.BranchTokens.{token_of};

    ghost Seen = { tokens.Token };

    ghost seen = { token_of };

    ghost SpellsToken = { spelling.SpellsToken SpellsLabel };

    ghost EndsToken = { spelling.EndsToken };

    ghost SpellsTokens = { spelling.SpellsTokens SpellsLabel };

    fn read_front(alloc: Global, text: &[u8]) -> Result<(Token, &[u8]), ReadError> {
        match mark_prefix(text) {
            Some(found) => Ok(found),
            None => read_label(alloc, text),
        }
    }
}
