// The canonical text of an expression.
ghost use Rattle.std.specs.Prelude.{◌≡◌, [], ◌∷◌, ◌++◌, string_bytes, OnOk};
ghost use Rattle.path_spec.specs.Spelling.{sign_byte, token_text};
ghost use Rattle.path_spec.specs.Tokens.{sep_token};
ghost use Rattle.path_expr.specs.ExprTrees.{atom_of, item_of, seq_of, sep_of, sign_of};
ghost use Rattle.path_query.specs.PathTexts.{expr_text, seq_text, item_text, atom_text};

use path_expr::{Atom, Expr, Item, Sep, Seq, Sign};
use px_base::Memory;

/// How the sign is written.
fn sign_str(sign: Sign) -> &'static str
    ensures { result.now ≡ sign_byte (sign_of sign) ∷ [] }
{
    match sign {
        Sign::Star => "*",
        Sign::Plus => "+",
        Sign::Opt => "?",
    }
}

/// How the separator is written.
fn sep_str(sep: Sep) -> &'static str
    ensures { result.now ≡ token_text (sep_token (sep_of sep)) }
{
    match sep {
        Sep::Child => "/",
        Sep::Below => "//",
    }
}

#[cycle(write)]
fn write_atom(out: &mut String, atom: &Atom) -> Result<(), Memory>
    ensures { OnOk result (string_bytes out.new ≡ string_bytes out.old ++ atom_text (atom_of atom.now)) }
{
    match atom {
        Atom::Label(label) => out.push_str(label.as_str())?,
        Atom::Any => out.push_str("_")?,
        Atom::Group(expr) => {
            out.push_str("(")?;
            write_expr(out, expr)?;
            out.push_str(")")?
        }
    }
    Ok(())
}

#[cycle(write)]
fn write_item(out: &mut String, item: &Item) -> Result<(), Memory>
    ensures { OnOk result (string_bytes out.new ≡ string_bytes out.old ++ item_text (item_of item.now)) }
{
    write_atom(out, &item.atom)?;
    if let Some(sign) = item.sign {
        out.push_str(sign_str(sign))?;
    }
    Ok(())
}

#[cycle(write)]
fn write_seq(out: &mut String, seq: &Seq) -> Result<(), Memory>
    ensures { OnOk result (string_bytes out.new ≡ string_bytes out.old ++ seq_text (seq_of seq.now)) }
{
    write_item(out, &seq.first)?;
    for j in 0..seq.rest.len() {
        let step = &seq.rest[j];
        out.push_str(sep_str(step.sep))?;
        write_item(out, &step.item)?;
    }
    Ok(())
}

#[cycle(write)]
pub(crate) fn write_expr(out: &mut String, expr: &Expr) -> Result<(), Memory>
    ensures { OnOk result (string_bytes out.new ≡ string_bytes out.old ++ expr_text expr.now) }
{
    write_seq(out, &expr.first)?;
    for j in 0..expr.more.len() {
        out.push_str("|")?;
        write_seq(out, &expr.more[j])?;
    }
    Ok(())
}
