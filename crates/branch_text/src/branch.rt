// Branching queries.
ghost use Rattle.std.specs.Prelude.{◌≡◌, ◌↔◌, Err, IfOk, IsErrOf, IsTrue};
ghost use Rattle.branch_spec.specs.Trees as tree;
ghost use Rattle.branch_spec.specs.Relaxed.{relax};
ghost use Rattle.branch_spec.specs.Depths.{depth};
ghost use Rattle.branch_spec.specs.Spelling.{canonical};
ghost use Rattle.path_query.specs.Parsed.{is_past};
ghost use Rattle.branch_text.specs.Parsed.{SpellsBranch, has_text};

use crate::parsing::read;
use crate::writing::write_branch;
use branch_expr::{BranchTree, depth, relax};
use graph_spec::Limits;
use path_query::{ExprError, ReadError, is_past};
use px_base::{Memory, Text};
use std::alloc::Global;
use std::marker::Model;

/// A branching query, whose labels are labels: one that some text spells, or the relaxed form of one. It is seen as its
/// tree.
///
/// The persons with a name and without an age:
///
///     let query = Branch::parse(alloc, b"person[/name and not(/age)]", &Limits::program())?;
///     let nodes = eval(alloc, &graph.view(&mut steps), graph.labels(), &query)?;
#[derive(Drop)]
pub struct Branch {
    tree: BranchTree,
}

impl Model for Branch {
    ghost use Rattle.branch_spec.specs.Trees.{Branch as Tree};
    ghost use Rattle.branch_spec.specs.Tokens.{tokens};
    ghost use Rattle.branch_expr.specs.TreeCodes.{coded_branch};
    ghost use Rattle.branch_text.specs.Parsed.{AreLabels, HasFewTokens};

    ghost Value = { Tree };

    ghost coded = { coded_branch };

    ghost view = { λ q. q.tree };

    ghost invariant = { λ q. AreLabels (tokens q.tree) × HasFewTokens q.tree };
}

impl Branch {
    /// The one query that the text spells, as `a//b[/c and not(\<http://e/d>)]/_`, where spaces and tabs may stand between
    /// tokens and at both ends. `Limit` comes exactly where the text has more bytes than `expr_bytes` or its brackets nest
    /// deeper than `expr_depth`, else `Syntax` only where it spells none, and `Memory` where memory runs out. O(n) for n
    /// bytes; it takes O(n) memory.
    pub fn parse(alloc: Global, text: &[u8], limits: &Limits) -> Result<Branch, ExprError>
        ensures ok { IfOk result (λ q. SpellsBranch text.now q) }
        ensures only { IfOk result (λ q. (other : tree.Branch) → SpellsBranch text.now other → other ≡ q) }
        ensures written { IfOk result (λ q. IsTrue (has_text q)) }
        ensures limit { (result ≡ Err ExprError.Limit) ↔ IsTrue (is_past limits.now text.now) }
        ensures syntax { IsErrOf result ExprError.Syntax → (q : tree.Branch) → SpellsBranch text.now q → ⊥ }
        ensures once { (p q : tree.Branch) → SpellsBranch text.now p → SpellsBranch text.now q → p ≡ q }
    {
        if is_past(limits, text) {
            return Err(ExprError::Limit);
        }
        match read(alloc, text) {
            Ok(tree) => Ok(Branch { tree }),
            Err(ReadError::Syntax) => Err(ExprError::Syntax),
            Err(ReadError::Memory) => Err(ExprError::Memory),
        }
    }

    /// The canonical text: the tokens without any blank but one on each side of `and` and `or`, labels in their one
    /// spelling. It spells this very query, so `parse` of it, where it is within the limits, gives the same tree. What
    /// `parse` gives has a text; a relaxed form has none where something was denied. `Memory` comes only where memory runs out. O(n) for a
    /// text of n bytes; it takes that text.
    pub fn write(&self, alloc: Global) -> Result<Text, Memory>
        requires { IsTrue (has_text self.now) }
        ensures canonical { IfOk result (λ t. t ≡ canonical self.now) }
        ensures again { IfOk result (λ t. SpellsBranch t self.now) }
    {
        let mut out = String::new(alloc);
        write_branch(&mut out, &self.tree)?;
        Ok(Text::from_string(out))
    }

    /// The relaxed form: each outermost `not`, with what it denies, is replaced by what holds everywhere, also in the steps of a
    /// predicate. `Memory` comes only where memory runs out. O(m) for a query with m tokens and the bytes of its labels; it takes
    /// the memory of such a query.
    pub fn relax(&self, alloc: Global) -> Result<Branch, Memory>
        ensures { IfOk result (λ q. q ≡ relax self.now) }
    {
        let tree = relax(alloc, &self.tree)?;
        Ok(Branch { tree })
    }

    /// How many edges away from its answers the query looks, and None exactly where it holds `//` or `\\`, so that there
    /// is no bound. Nodes that are bisimilar by parents and children to this level answer it alike. It is at most 2^30,
    /// since each axis takes a byte of a text within the limits. O(m) for a query with m tokens, no memory. Source:
    /// Kaushik et al., SIGMOD 2002.
    pub fn depth(&self) -> Option<u32>
        ensures { result ≡ depth self.now }
    {
        depth(&self.tree)
    }

    /// The tree. O(1), no memory.
    pub fn tree(&self) -> &BranchTree
        ensures { result.now ≡ self.now }
    {
        &self.tree
    }
}
