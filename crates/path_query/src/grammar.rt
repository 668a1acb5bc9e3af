// The grammar of path expressions, over tokens.
ghost use Rattle.std.specs.Prelude.{◌≡◌, ◌<◌, ◌≤◌, length, IfOk, IsErrOf};
ghost use Rattle.path_spec.specs.Trees as tree;
ghost use Rattle.path_spec.specs.Tokens as tokens;
ghost use Rattle.path_expr.specs.ExprTrees.{atom_of, signed_by, item_of, seq_of};
ghost use Rattle.path_query.specs.PathTokens.{seen};
ghost use Rattle.path_query.specs.Heads.{HasNoAtom, HasNoItem, HasNoSeq, HasNoExpr, EndsItemBefore};

use crate::read_error::ReadError;
use crate::token::{Token, after_bar, after_close, ends_item, first_sep, first_sign, first_token};
use path_expr::{Atom, Expr, Following, Item, Seq, Sign};
use std::alloc::Global;

/// The atom at the front, and what follows it.
#[cycle(read)]
fn read_atom<'t>(alloc: Global, left: &'t [Token]) -> Result<(Atom, &'t [Token]), ReadError>
    ensures ok { IfOk result (λ r. seen left.now ≡ tokens.atom_onto (atom_of r.0) (seen r.1.now)) }
    ensures shorter { IfOk result (λ r. length r.1.now < length left.now) }
    ensures syntax { IsErrOf result ReadError.Syntax → HasNoAtom (seen left.now) }
{
    let Some((token, rest)) = first_token(left) else {
        return Err(ReadError::Syntax);
    };
    match token {
        Token::Label(label) => Ok((Atom::Label(label.copy(alloc)?), rest)),
        Token::Any => Ok((Atom::Any, rest)),
        Token::Open => {
            let (expr, inside) = read_expr(alloc, rest)?;
            let Some(after) = after_close(inside) else {
                return Err(ReadError::Syntax);
            };
            Ok((Atom::Group(Box::new(alloc, expr)?), after))
        }
        _ => Err(ReadError::Syntax),
    }
}

/// The item at the front, and what follows it.
#[cycle(read)]
fn read_item<'t>(alloc: Global, left: &'t [Token]) -> Result<(Item, &'t [Token]), ReadError>
    ensures ok { IfOk result (λ r. seen left.now ≡ tokens.item_onto (item_of r.0) (seen r.1.now)) }
    ensures ends { IfOk result (λ r. tokens.EndsItem (seen r.1.now)) }
    ensures shorter { IfOk result (λ r. length r.1.now < length left.now) }
    ensures syntax { IsErrOf result ReadError.Syntax → HasNoItem (seen left.now) }
{
    let (atom, rest) = read_atom(alloc, left)?;
    let (sign, after) = split_sign(rest);
    if ends_item(after) {
        Ok((Item { atom, sign }, after))
    } else {
        Err(ReadError::Syntax)
    }
}

/// The sign at the front, if there is one, and what follows.
fn split_sign(left: &[Token]) -> (Option<Sign>, &[Token])
    ensures whole { (a : tree.Atom) → tokens.atom_onto a (seen left.now) ≡ tokens.item_onto (signed_by a result.0) (seen result.1.now) }
    ensures only { EndsItemBefore (seen left.now) (seen result.1.now) }
    ensures shorter { length result.1.now ≤ length left.now }
{
    match first_sign(left) {
        Some((sign, rest)) => (Some(sign), rest),
        None => (None, left),
    }
}

/// The sequence at the front, and what follows it.
#[cycle(read)]
fn read_seq<'t>(alloc: Global, left: &'t [Token]) -> Result<(Seq, &'t [Token]), ReadError>
    ensures ok { IfOk result (λ r. seen left.now ≡ tokens.seq_onto (seq_of r.0) (seen r.1.now)) }
    ensures ends { IfOk result (λ r. tokens.EndsSeq (seen r.1.now)) }
    ensures shorter { IfOk result (λ r. length r.1.now < length left.now) }
    ensures syntax { IsErrOf result ReadError.Syntax → HasNoSeq (seen left.now) }
{
    let (first, mut behind) = read_item(alloc, left)?;
    let mut rest = Vec::new(alloc);
    'steps: while let Some((sep, after)) = first_sep(behind) {
        let (item, next) = read_item(alloc, after)?;
        rest.push(Following { sep, item })?;
        behind = next;
    }
    Ok((Seq { first, rest }, behind))
}

/// The expression at the front, and what follows it.
#[cycle(read)]
fn read_expr<'t>(alloc: Global, left: &'t [Token]) -> Result<(Expr, &'t [Token]), ReadError>
    ensures ok { IfOk result (λ r. seen left.now ≡ tokens.onto r.0 (seen r.1.now)) }
    ensures ends { IfOk result (λ r. tokens.EndsExpr (seen r.1.now)) }
    ensures shorter { IfOk result (λ r. length r.1.now < length left.now) }
    ensures syntax { IsErrOf result ReadError.Syntax → HasNoExpr (seen left.now) }
{
    let (first, mut behind) = read_seq(alloc, left)?;
    let mut more = Vec::new(alloc);
    'alternatives: while let Some(after) = after_bar(behind) {
        let (seq, next) = read_seq(alloc, after)?;
        more.push(seq)?;
        behind = next;
    }
    Ok((Expr { first, more }, behind))
}

/// The expression of which these are the tokens.
pub(crate) fn read_tokens(alloc: Global, all: &[Token]) -> Result<Expr, ReadError>
    ensures ok { IfOk result (λ e. seen all.now ≡ tokens.tokens e) }
    ensures syntax { IsErrOf result ReadError.Syntax → (e : tree.Expr) → seen all.now ≡ tokens.tokens e → ⊥ }
{
    let (expr, behind) = read_expr(alloc, all)?;
    if behind.is_empty() {
        Ok(expr)
    } else {
        Err(ReadError::Syntax)
    }
}
