// The trees of branching queries.
ghost use Rattle.std.specs.Prelude.{◌≡◌};

use crate::axis::Axis;
use px_base::Text;
use std::marker::Model;

/// What a node's label must be.
#[derive(Drop)]
pub enum Test {
    /// This one.
    Label(Text),
    /// `_`, any one.
    Any,
}

/// A test, and predicates that hold at the node, each in brackets.
#[cycle(tree)]
#[derive(Drop)]
pub struct Step {
    /// What the label must be.
    pub test: Test,
    /// What holds at the node.
    pub preds: Vec<Or>,
}

/// A step after its axis.
#[cycle(tree)]
#[derive(Drop)]
pub struct Hop {
    /// Where the node lies.
    pub axis: Axis,
    /// What the node meets.
    pub step: Step,
}

/// One or more steps, each after its axis: nodes lead on along them from the node at which it holds.
#[cycle(tree)]
#[derive(Drop)]
pub struct Rel {
    /// The first step.
    pub first: Hop,
    /// The others.
    pub rest: Vec<Hop>,
}

/// One condition.
#[cycle(tree)]
#[derive(Drop)]
pub enum Cond {
    /// `not`, and what is denied in parentheses.
    Not(Box<Or>),
    /// What stands in parentheses.
    Group(Box<Or>),
    /// Steps, each after its axis.
    Rel(Rel),
    /// What holds everywhere. It has no text, and comes from `relax` alone.
    True,
}

/// One or more conditions, with `and` between them.
#[cycle(tree)]
#[derive(Drop)]
pub struct And {
    /// The first condition.
    pub first: Cond,
    /// The others.
    pub more: Vec<Cond>,
}

/// One or more alternatives, with `or` between them, seen as its tree.
#[cycle(tree)]
#[derive(Drop)]
pub struct Or {
    /// The first alternative.
    pub first: And,
    /// The others.
    pub more: Vec<And>,
}

impl Model for Or {
    ghost use Rattle.branch_spec.specs.Trees.{Or as Tree};
    ghost use Rattle.branch_expr.specs.TreeCodes.{coded_or};

    ghost Value = { Tree };

    ghost coded = { coded_or };

    ghost use Rattle.branch_expr.specs.QueryTrees.{or_from, and_of};
    ghost use Rattle.branch_expr.specs.QuerySizes.{nodes};

    ghost view = { λ e. or_from (and_of e.first) e.more.items };

    ghost size = { nodes };

    ghost use Rattle.branch_expr.specs.QueryMeasures.{deep_or};

    ghost size_decreases = { λ e h. deep_or e.first e.more.items };
}

/// A branching query: a first step, and more, each after its axis. It is seen as its tree.
#[derive(Drop)]
pub struct BranchTree {
    /// The first step.
    pub first: Step,
    /// The others.
    pub rest: Vec<Hop>,
}

impl Model for BranchTree {
    ghost use Rattle.branch_spec.specs.Trees.{Branch, first_step};
    ghost use Rattle.branch_expr.specs.TreeCodes.{coded_branch};
    ghost use Rattle.branch_expr.specs.QueryTrees.{step_of, chain_of};

    ghost Value = { Branch };

    ghost coded = { coded_branch };

    ghost view = { λ q. first_step (step_of q.first) (chain_of q.rest.items) };
}
