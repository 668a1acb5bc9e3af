// Tokens of path expressions.
ghost use Rattle.std.specs.Prelude.{◌≡◌, ◌↔◌, ◌<◌, [], ◌∷◌, ℕ, List, length, IsTrue, IfSome, IfNone};
ghost use Rattle.path_spec.specs.Trees as tree;
ghost use Rattle.path_spec.specs.Tokens as tokens;
ghost use Rattle.path_expr.specs.ExprTrees.{sign_of, sep_of};
ghost use Rattle.path_query.specs.PathTokens.{token_of, seen};

use path_expr::{Sep, Sign};
use px_base::Text;

/// A token.
#[derive(Drop)]
pub(crate) enum Token {
    /// A label.
    Label(Text),
    /// `_`
    Any,
    /// `/` or `//`
    Sep(Sep),
    /// `|`
    Bar,
    /// `(`
    Open,
    /// `)`
    Close,
    /// `*`, `+` or `?`
    Sign(Sign),
}

/// The token at the front, and what follows it.
pub(crate) fn first_token(left: &[Token]) -> Option<(&Token, &[Token])>
    ensures some { IfSome result (λ p. seen left.now ≡ token_of p.0.now ∷ seen p.1.now) }
    ensures shorter { IfSome result (λ p. length p.1.now < length left.now) }
    ensures none { IfNone result (seen left.now ≡ []) }
{
    left.split_first()
}

/// The sign at the front, and what follows it.
pub(crate) fn first_sign(left: &[Token]) -> Option<(Sign, &[Token])>
    ensures some { IfSome result (λ p. seen left.now ≡ tokens.sign (sign_of p.0) ∷ seen p.1.now) }
    ensures shorter { IfSome result (λ p. length p.1.now < length left.now) }
    ensures none { IfNone result ((g : tree.Sign) (r : List tokens.Token) → seen left.now ≡ tokens.sign g ∷ r → ⊥) }
{
    match left.split_first() {
        Some((Token::Sign(sign), rest)) => Some((*sign, rest)),
        _ => None,
    }
}

/// The separator at the front, and what follows it.
pub(crate) fn first_sep(left: &[Token]) -> Option<(Sep, &[Token])>
    ensures some { IfSome result (λ p. seen left.now ≡ tokens.sep_token (sep_of p.0) ∷ seen p.1.now) }
    ensures shorter { IfSome result (λ p. length p.1.now < length left.now) }
    ensures none { IfNone result ((g : tree.Sep) (r : List tokens.Token) → seen left.now ≡ tokens.sep_token g ∷ r → ⊥) }
{
    match left.split_first() {
        Some((Token::Sep(sep), rest)) => Some((*sep, rest)),
        _ => None,
    }
}

/// What follows a `|` at the front.
pub(crate) fn after_bar(left: &[Token]) -> Option<&[Token]>
    ensures some { IfSome result (λ r. seen left.now ≡ tokens.bar ∷ seen r.now) }
    ensures shorter { IfSome result (λ r. length r.now < length left.now) }
    ensures none { IfNone result ((r : List tokens.Token) → seen left.now ≡ tokens.bar ∷ r → ⊥) }
{
    match left.split_first() {
        Some((Token::Bar, rest)) => Some(rest),
        _ => None,
    }
}

/// What follows a `)` at the front.
pub(crate) fn after_close(left: &[Token]) -> Option<&[Token]>
    ensures some { IfSome result (λ r. seen left.now ≡ tokens.closing ∷ seen r.now) }
    ensures shorter { IfSome result (λ r. length r.now < length left.now) }
    ensures none { IfNone result ((r : List tokens.Token) → seen left.now ≡ tokens.closing ∷ r → ⊥) }
{
    match left.split_first() {
        Some((Token::Close, rest)) => Some(rest),
        _ => None,
    }
}

/// Whether an item may end here.
pub(crate) fn ends_item(left: &[Token]) -> bool
    ensures { IsTrue result ↔ tokens.EndsItem (seen left.now) }
{
    match left.split_first() {
        None => true,
        Some((token, _)) => matches!(token, Token::Sep(_) | Token::Bar | Token::Close),
    }
}
