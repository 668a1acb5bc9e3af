// A text as the tokens of a query language.
ghost use Rattle.std.specs.Prelude.{◌≡◌, ℕ, List, map, IfOk, IsErrOf};
ghost use Rattle.path_query.specs.Languages.{IsTokenPrefix, IsLanguage};

use crate::read_error::ReadError;
use crate::words::skip_blanks;
use std::alloc::Global;

/// A token of a query language.
pub trait Lexeme: Drop {
    /// Tokens, as contracts see them.
    ghost Seen: { Type 0 };

    /// What contracts see of a token.
    ghost seen: { Self → Seen };

    /// The word spells the token.
    ghost SpellsToken: { List ℕ → Seen → Type 0 };

    /// The token may stand before the rest of a text.
    ghost EndsToken: { Seen → List ℕ → Type 0 };

    /// The text is spelled by the tokens, with blanks between them and at both ends.
    ghost SpellsTokens: { List ℕ → List Seen → Type 0 };

    /// The token at the front, and what follows it. Linear in the token.
    fn read_front(alloc: Global, text: &[u8]) -> Result<(Self, &[u8]), ReadError>
        ensures ok { IfOk result (λ r. IsTokenPrefix SpellsToken EndsToken text.now (seen r.0) r.1.now) }
        ensures syntax { IsErrOf result ReadError.Syntax → (t : Seen) (q : List ℕ) → IsTokenPrefix SpellsToken EndsToken text.now t q → ⊥ };
}

/// The tokens of the text, with blanks between them and at both ends. `Memory` comes only where memory runs out. Linear in the text.
pub fn lex<T: Lexeme>(alloc: Global, text: &[u8]) -> Result<Vec<T>, ReadError>
    requires language { IsLanguage T.SpellsToken T.EndsToken T.SpellsTokens }
    ensures ok { IfOk result (λ ts. T.SpellsTokens text.now (map T.seen ts.items)) }
    ensures only { IfOk result (λ ts. (us : List T.Seen) → T.SpellsTokens text.now us → us ≡ map T.seen ts.items) }
    ensures syntax { IsErrOf result ReadError.Syntax → (us : List T.Seen) → T.SpellsTokens text.now us → ⊥ }
{
    let mut all = Vec::new(alloc);
    let mut left = skip_blanks(text);
    'tokens: while !left.is_empty() {
        let (token, rest) = T::read_front(alloc, left)?;
        all.push(token)?;
        left = skip_blanks(rest);
    }
    Ok(all)
}
