// The trees of path expressions.
ghost use Rattle.std.specs.Prelude.{◌≡◌};

use px_base::Text;
use std::marker::Model;

/// How often an atom comes.
#[derive(Clone, Copy, Debug, PartialEq, Eq)]
pub enum Sign {
    /// `*`, any number of times.
    Star,
    /// `+`, once or more.
    Plus,
    /// `?`, once or not at all.
    Opt,
}

/// What stands between two items.
#[derive(Clone, Copy, Debug, PartialEq, Eq)]
pub enum Sep {
    /// `/`, a child.
    Child,
    /// `//`, a node below.
    Below,
}

/// What stands for one node, or a group in parentheses.
#[cycle(tree)]
#[derive(Drop)]
pub enum Atom {
    /// This label.
    Label(Text),
    /// `_`, any label.
    Any,
    /// An expression in parentheses.
    Group(Box<Expr>),
}

/// An atom, and how often it comes.
#[cycle(tree)]
#[derive(Drop)]
pub struct Item {
    /// What comes.
    pub atom: Atom,
    /// How often; once where there is none.
    pub sign: Option<Sign>,
}

/// An item after its separator.
#[cycle(tree)]
#[derive(Drop)]
pub struct Following {
    /// What stands before the item.
    pub sep: Sep,
    /// The item.
    pub item: Item,
}

/// An item, and more, each after its separator.
#[cycle(tree)]
#[derive(Drop)]
pub struct Seq {
    /// The first item.
    pub first: Item,
    /// The others.
    pub rest: Vec<Following>,
}

/// One or more sequences, with `|` between them, seen as its tree.
#[cycle(tree)]
#[derive(Drop)]
pub struct Expr {
    /// The first alternative.
    pub first: Seq,
    /// The others.
    pub more: Vec<Seq>,
}

impl Model for Expr {
    ghost use Rattle.path_spec.specs.Trees.{Expr as Tree};
    ghost use Rattle.path_expr.specs.TreeCodes.{coded_tree};

    ghost Value = { Tree };

    ghost coded = { coded_tree };

    ghost use Rattle.path_expr.specs.ExprTrees.{expr_from, seq_of};
    ghost use Rattle.path_expr.specs.ExprSizes.{nodes};

    ghost view = { λ e. expr_from (seq_of e.first) e.more.items };

    ghost size = { nodes };

    ghost use Rattle.path_expr.specs.ExprMeasures.{deep_expr};

    ghost size_decreases = { λ e h. deep_expr e.first e.more.items };
}
