// Path expressions.
ghost use Rattle.std.specs.Prelude.{◌≡◌, ◌↔◌, ◌-◌, ◌^◌, ℕ, List, Option, Err, IfOk, IsErrOf, IsTrue};
ghost use Rattle.path_spec.specs.Trees as tree;
ghost use Rattle.path_spec.specs.Matches.{Matches};
ghost use Rattle.path_spec.specs.Longest.{IsLongest};
ghost use Rattle.path_spec.specs.Spelling.{canonical};
ghost use Rattle.path_query.specs.Lengths.{IsBounded};
ghost use Rattle.path_query.specs.Parsed.{SpellsPath, is_past};

use crate::parsing::{is_past, read};
use crate::read_error::ReadError;
use crate::writing::write_expr;
use graph_spec::Limits;
use path_expr::{Expr, longest};
use px_base::{Memory, Text};
use std::alloc::Global;
use std::marker::Model;

/// Why a text makes no path expression.
#[derive(Clone, Copy, Debug, PartialEq, Eq)]
pub enum ExprError {
    /// The text passes a limit.
    Limit,
    /// The text spells none.
    Syntax,
    /// Memory ran out.
    Memory,
}

/// A path expression that some text spells, seen as its tree.
///
/// The literals at any depth below a node labelled `knows`:
///
///     let expr = PathExpr::parse(alloc, b"knows//literal", &Limits::program())?;
///     let nodes = eval(alloc, &graph.view(&mut steps), graph.labels(), &expr)?;
#[derive(Drop)]
pub struct PathExpr {
    tree: Expr,
}

impl Model for PathExpr {
    ghost use Rattle.path_spec.specs.Trees.{Expr as Tree};
    ghost use Rattle.path_spec.specs.Spelling.{canonical};
    ghost use Rattle.path_expr.specs.TreeCodes.{coded_tree};
    ghost use Rattle.path_query.specs.Parsed.{SpellsPath};
    ghost use Rattle.path_query.specs.Lengths.{IsNarrow};

    ghost Value = { Tree };

    ghost coded = { coded_tree };

    ghost view = { λ e. e.tree };

    ghost invariant = { λ e. SpellsPath (canonical e.tree) e.tree × IsNarrow e.tree };
}

impl PathExpr {
    /// The one expression that the text spells, as `a//(b|<http://e/c>)*`, where spaces and tabs may stand between
    /// tokens and at both ends. `Limit` comes exactly where the text has more bytes than `expr_bytes` or its brackets
    /// nest deeper than `expr_depth`, else `Syntax` only where it spells none, and `Memory` where memory runs out. O(n)
    /// for n bytes; it takes O(n) memory.
    pub fn parse(alloc: Global, text: &[u8], limits: &Limits) -> Result<PathExpr, ExprError>
        ensures ok { IfOk result (λ e. SpellsPath text.now e) }
        ensures only { IfOk result (λ e. (other : tree.Expr) → SpellsPath text.now other → other ≡ e) }
        ensures limit { (result ≡ Err ExprError.Limit) ↔ IsTrue (is_past limits.now text.now) }
        ensures syntax { IsErrOf result ExprError.Syntax → (e : tree.Expr) → SpellsPath text.now e → ⊥ }
        ensures once { (a b : tree.Expr) → SpellsPath text.now a → SpellsPath text.now b → a ≡ b }
    {
        if is_past(limits, text) {
            return Err(ExprError::Limit);
        }
        match read(alloc, text) {
            Ok(tree) => Ok(PathExpr { tree }),
            Err(ReadError::Syntax) => Err(ExprError::Syntax),
            Err(ReadError::Memory) => Err(ExprError::Memory),
        }
    }

    /// The canonical text: the tokens without any blank, labels in their one spelling. It spells this very expression,
    /// so `parse` of it, where it is within the limits, gives the same tree. `Memory` comes only where memory runs out. O(n) for a text of n
    /// bytes; it takes that text.
    pub fn write(&self, alloc: Global) -> Result<Text, Memory>
        ensures canonical { IfOk result (λ t. t ≡ canonical self.now) }
        ensures again { IfOk result (λ t. SpellsPath t self.now) }
    {
        let mut out = String::new(alloc);
        write_expr(&mut out, &self.tree)?;
        Ok(Text::from_string(out))
    }

    /// The number of labels of the longest matching word, and None exactly where there is no longest. It is at most 2^30, since
    /// each of these labels takes a byte of a text within the limits. O(m) for m tokens, no memory.
    pub fn longest(&self) -> Option<u32>
        ensures { IsLongest (Matches self.now) result }
    {
        narrow(longest(&self.tree))
    }

    /// The tree. Its parts are read by the calls of `Expr` and `Seq`. O(1), no memory.
    pub fn tree(&self) -> &Expr
        ensures { result.now ≡ self.now }
    {
        &self.tree
    }
}

/// The length in 32 bits.
fn narrow(len: Option<u64>) -> Option<u32>
    requires { IsBounded len (2 ^ 30) }
    ensures { result ≡ len }
{
    match len {
        Some(n) => Some(n as u32),
        None => None,
    }
}
