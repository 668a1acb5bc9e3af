// Whether the empty word matches.
ghost use Rattle.std.specs.Prelude.{◌≡◌, []};
ghost use Rattle.path_spec.specs.Tests.{matches, seq_matches, item_matches, atom_matches};
ghost use Rattle.path_expr.specs.ExprTrees.{atom_of, item_of, seq_of};

use crate::tree::{Atom, Expr, Item, Seq, Sign};

#[cycle(nullable)]
fn atom_is_nullable(atom: &Atom) -> bool
    ensures { result ≡ atom_matches (atom_of atom.now) [] }
{
    match atom {
        Atom::Label(_) | Atom::Any => false,
        Atom::Group(expr) => is_nullable(expr),
    }
}

#[cycle(nullable)]
pub(crate) fn item_is_nullable(item: &Item) -> bool
    ensures { result ≡ item_matches (item_of item.now) [] }
{
    match item.sign {
        Some(Sign::Star) => true,
        Some(Sign::Plus) => atom_is_nullable(&item.atom),
        Some(Sign::Opt) => true,
        None => atom_is_nullable(&item.atom),
    }
}

#[cycle(nullable)]
pub(crate) fn seq_is_nullable(seq: &Seq) -> bool
    ensures { result ≡ seq_matches (seq_of seq.now) [] }
{
    let mut nullable = item_is_nullable(&seq.first);
    for j in 0..seq.rest.len() {
        nullable &= item_is_nullable(&seq.rest[j].item);
    }
    nullable
}

#[cycle(nullable)]
fn is_nullable(expr: &Expr) -> bool
    ensures { result ≡ matches expr.now [] }
{
    let mut nullable = seq_is_nullable(&expr.first);
    for j in 0..expr.more.len() {
        nullable |= seq_is_nullable(&expr.more[j]);
    }
    nullable
}
