// The length of the longest matching word.
ghost use Rattle.std.specs.Prelude.{◌≡◌, ℕ, Option, None};
ghost use Rattle.path_spec.specs.Longest.{greater};
ghost use Rattle.path_expr.specs.declared.tree.Sep.TheVariants as seps;
ghost use Rattle.path_expr.specs.ExprTrees.{atom_of, item_of, seq_of};
ghost use Rattle.path_expr.specs.WordLengths.{longest, seq_longest, item_longest, atom_longest, together};
ghost use Rattle.path_expr.specs.Capped.{IsCapped};

use crate::tree::{Atom, Expr, Item, Sep, Seq, Sign};

/// Both lengths together.
fn sum_of(a: Option<u64>, b: Option<u64>) -> Option<u64>
    ensures { (x y : Option ℕ) → IsCapped x a → IsCapped y b → IsCapped (together x y) result }
{
    match (a, b) {
        (Some(m), Some(n)) => Some(m.saturating_add(n)),
        _ => None,
    }
}

/// The greater length.
fn greater_of(a: Option<u64>, b: Option<u64>) -> Option<u64>
    ensures { (x y : Option ℕ) → IsCapped x a → IsCapped y b → IsCapped (greater x y) result }
{
    match (a, b) {
        (Some(m), Some(n)) => Some(m.max(n)),
        _ => None,
    }
}

#[cycle(longest)]
fn atom_len(atom: &Atom) -> Option<u64>
    ensures { IsCapped (atom_longest (atom_of atom.now)) result }
{
    match atom {
        Atom::Label(_) | Atom::Any => Some(1),
        Atom::Group(expr) => longest(expr),
    }
}

#[cycle(longest)]
fn item_len(item: &Item) -> Option<u64>
    ensures { IsCapped (item_longest (item_of item.now)) result }
{
    match item.sign {
        Some(Sign::Star) => None,
        Some(Sign::Plus) => None,
        Some(Sign::Opt) => atom_len(&item.atom),
        None => atom_len(&item.atom),
    }
}

/// The length with one step more.
#[cycle(longest)]
fn step_len(before: Option<u64>, sep: Sep, item: &Item) -> Option<u64>
    ensures child { sep ≡ seps.Child → (x : Option ℕ) → IsCapped x before → IsCapped (together x (item_longest (item_of item.now))) result }
    ensures below { sep ≡ seps.Below → result ≡ None }
{
    match sep {
        Sep::Child => sum_of(before, item_len(item)),
        Sep::Below => None,
    }
}

#[cycle(longest)]
fn seq_len(seq: &Seq) -> Option<u64>
    ensures { IsCapped (seq_longest (seq_of seq.now)) result }
{
    let mut len = item_len(&seq.first);
    for j in 0..seq.rest.len() {
        let step = &seq.rest[j];
        len = step_len(len, step.sep, &step.item);
    }
    len
}

/// The number of labels of the longest matching word, None exactly where there is no longest. Past 2^64 - 1,
/// which no text within the limits reaches, it is that number. O(m) for m tokens, no memory.
#[cycle(longest)]
pub fn longest(expr: &Expr) -> Option<u64>
    ensures { IsCapped (longest expr.now) result }
{
    let mut len = seq_len(&expr.first);
    for j in 0..expr.more.len() {
        len = greater_of(len, seq_len(&expr.more[j]));
    }
    len
}
