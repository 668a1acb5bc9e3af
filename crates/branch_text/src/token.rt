// Tokens of branching queries.
ghost use Rattle.std.specs.Prelude.{◌≡◌, ◌↔◌, ◌<◌, ◌∷◌, ℕ, List, length, IsTrue, IfSome, IfNone};
ghost use Rattle.branch_spec.specs.Trees as tree;
ghost use Rattle.branch_spec.specs.Tokens as tokens;
ghost use Rattle.branch_expr.specs.Axes.{axis_of};
ghost use Rattle.branch_text.specs.BranchTokens.{mark_token, token_of, seen};

use branch_expr::Axis;
use px_base::Text;

/// A token without content.
#[derive(Clone, Copy, PartialEq, Eq)]
pub(crate) enum Mark {
    /// `_`
    Any,
    /// `[`
    Left,
    /// `]`
    Right,
    /// `(`
    Open,
    /// `)`
    Close,
    /// `not`
    Not,
    /// `and`
    And,
    /// `or`
    Or,
}

/// A token.
#[derive(Drop)]
pub(crate) enum Token {
    /// A label.
    Label(Text),
    /// `/`, `//`, `\` or `\\`
    Along(Axis),
    /// Any other.
    Mark(Mark),
}

/// The label at the front, and what follows it.
pub(crate) fn first_label(left: &[Token]) -> Option<(&Text, &[Token])>
    ensures some { IfSome result (λ p. seen left.now ≡ tokens.lab p.0.now ∷ seen p.1.now) }
    ensures shorter { IfSome result (λ p. length p.1.now < length left.now) }
    ensures none { IfNone result ((t : List ℕ) (r : List tokens.Token) → seen left.now ≡ tokens.lab t ∷ r → ⊥) }
{
    match left.split_first() {
        Some((Token::Label(label), rest)) => Some((label, rest)),
        _ => None,
    }
}

/// The axis at the front, and what follows it.
pub(crate) fn first_axis(left: &[Token]) -> Option<(Axis, &[Token])>
    ensures some { IfSome result (λ p. seen left.now ≡ tokens.axis (axis_of p.0) ∷ seen p.1.now) }
    ensures shorter { IfSome result (λ p. length p.1.now < length left.now) }
    ensures none { IfNone result ((a : tree.Axis) (r : List tokens.Token) → seen left.now ≡ tokens.axis a ∷ r → ⊥) }
{
    match left.split_first() {
        Some((Token::Along(axis), rest)) => Some((*axis, rest)),
        _ => None,
    }
}

/// Whether the token is this mark.
fn is_mark(token: &Token, mark: Mark) -> bool
    ensures { IsTrue result ↔ (token_of token.now ≡ mark_token mark) }
{
    match token {
        Token::Mark(found) => *found == mark,
        _ => false,
    }
}

/// What follows the mark, where it is at the front.
pub(crate) fn after(left: &[Token], mark: Mark) -> Option<&[Token]>
    ensures some { IfSome result (λ r. seen left.now ≡ mark_token mark ∷ seen r.now) }
    ensures shorter { IfSome result (λ r. length r.now < length left.now) }
    ensures none { IfNone result ((r : List tokens.Token) → seen left.now ≡ mark_token mark ∷ r → ⊥) }
{
    match left.split_first() {
        Some((token, rest)) if is_mark(token, mark) => Some(rest),
        _ => None,
    }
}

/// Whether a step may end here.
pub(crate) fn ends_step(left: &[Token]) -> bool
    ensures { IsTrue result ↔ tokens.EndsStep (seen left.now) }
{
    match left.split_first() {
        None => true,
        Some((token, _)) => matches!(
            token,
            Token::Along(_) | Token::Mark(Mark::Right | Mark::Close | Mark::And | Mark::Or)
        ),
    }
}

/// Whether a condition may end here.
pub(crate) fn ends_cond(left: &[Token]) -> bool
    ensures { IsTrue result ↔ tokens.EndsChain (seen left.now) }
{
    match left.split_first() {
        None => true,
        Some((token, _)) => matches!(
            token,
            Token::Mark(Mark::Right | Mark::Close | Mark::And | Mark::Or)
        ),
    }
}
