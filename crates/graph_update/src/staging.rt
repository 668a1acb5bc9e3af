// Making a change in two calls.
ghost use Rattle.std.specs.Prelude.{◌≡◌, ◌<◌, ◌++◌, ◌∷◌, [], false, OnErr, OnOk, IfOk, IsTrue, List, ℕ};
ghost use Rattle.graph_spec.specs.Graphs.{is_live, has_edge as edge_in};
ghost use Rattle.change_spec.specs.Steps.{Step as Value_of_step, node, link, unlink, drop, relabel, after, without_node};
ghost use Rattle.change_spec.specs.Places.{CanMake, CanMakeAll};
ghost use Rattle.label_graph.specs.ReservedGraphs.{none_reserved};
ghost use Rattle.graph_steps.specs.NewChanges.{IsNew};
ghost use Rattle.graph_steps.specs.StepLists.{step_of, steps_of};
ghost use Rattle.graph_update.specs.StagedChanges.{IsStaged, ArePlanned, CanBeMade, IsMadeBy, LosesEdgesAt, applied_of};

use graph_steps::{Change, Prefix, Step, has_edge, has_label};
use label_graph::Graph;
use px_base::{Memory, NodeId, Steps, Text};
use smallvec::SmallVec;
use std::alloc::Global;
use std::marker::{Brand, Model};
use std::sync::ledger::{Blank, Ledger};

// How a staged step is made.
#[derive(Drop)]
enum Plan {
    Node,
    Link(NodeId, NodeId),
    Unlink(NodeId, NodeId),
    Drop(NodeId),
    Relabel(NodeId, Text),
}

impl Default for Plan {
    fn default() -> Plan {
        Plan::Node
    }
}

/// The numbers that a change allocated: so many from the first on, which is how many were allocated before.
#[derive(Clone, Copy, Debug, PartialEq, Eq)]
pub struct Applied {
    /// The first of them, where there are any.
    pub first: NodeId,
    /// How many there are.
    pub added: u32,
}

/// A change for which the graph has reserved capacity. Nothing has happened to the graph yet, and nothing does where
/// this is dropped.
///
/// A change that `judge` accepts as new is made in two calls, of which only the first can fail:
///
///     let staged = stage(alloc, &mut graph, &change)?;
///     let applied = commit(&mut graph, staged);
#[derive(Drop)]
pub struct Staged {
    // Links of edges that are there already are left out, and so are labels that nodes have.
    plans: SmallVec<Plan, 1>,
}

impl Model for Staged {
    ghost use Rattle.std.specs.Prelude.{List};
    ghost use Rattle.graph_update.specs.declared.staging.Plan.{Plan as Value_of_plan};

    ghost Value = { List Value_of_plan };

    ghost view = { λ s. s.plans.items };
}

/// Takes all the memory that a change needs, which `judge` accepts as new within some limits. The graph stays as it is
/// seen. What was reserved before is reserved no more, and if memory runs out nothing is reserved. Expected O(s + b),
/// amortized, for s steps with labels of b bytes together, what it takes to look up an edge of the graph for each link,
/// and the steps before a link or a relabel that name its nodes; it takes the memory that `Graph` takes for nodes, edges
/// and labels, that of a copy of each label that a node gets instead of its own, and where there are more steps than one
/// that of a list of them.
#[tactic(auto, using(crate::proofs::PlannedSteps::new_can))]
pub fn stage(alloc: Global, graph: &mut Graph, change: &Change) -> Result<Staged, Memory>
    requires new { IsNew change.now graph.old.graph }
    ensures graph { graph.new.graph ≡ graph.old.graph }
    ensures staged { IfOk result (λ staged. IsStaged change.now graph.new staged) }
    ensures err { OnErr result (graph.new ≡ record { graph = graph.old.graph; reserved = none_reserved }) }
{
    graph.clear_reserved();
    let mut plans = SmallVec::new(alloc);
    match stage_steps(alloc, graph, change, change.steps(), &mut plans) {
        Ok(()) => Ok(Staged { plans }),
        Err(error) => {
            graph.clear_reserved();
            Err(error)
        }
    }
}

// Plans all steps, in a graph where nothing is reserved.
fn stage_steps(
    alloc: Global,
    graph: &mut Graph,
    change: &Change,
    steps: &[Step],
    plans: &mut SmallVec<Plan, 1>,
) -> Result<(), Memory>
    requires same { steps_of steps.now ≡ change.now }
    requires can { CanMakeAll (steps_of steps.now) graph.old.graph }
    requires none { graph.old.reserved ≡ none_reserved }
    requires empty { plans.old.items ≡ [] }
    ensures graph { graph.new.graph ≡ graph.old.graph }
    ensures staged { OnOk result (IsStaged (steps_of steps.now) graph.new plans.new.items) }
{
    for i in 0..steps.len() {
        stage_step(alloc, graph, &change.prefix(i), &steps[i], plans)?;
    }
    Ok(())
}

// Plans one more step, and reserves what it needs behind what is reserved. A step that is idle needs no plan.
fn stage_step(
    alloc: Global,
    graph: &mut Graph,
    prefix: &Prefix<'_>,
    step: &Step,
    plans: &mut SmallVec<Plan, 1>,
) -> Result<(), Memory>
    requires prefix { CanMakeAll prefix.now graph.old.graph }
    requires can { CanMake (step_of step.now) (after prefix.now graph.old.graph) }
    requires staged { IsStaged prefix.now graph.old plans.old.items }
    ensures graph { graph.new.graph ≡ graph.old.graph }
    ensures staged { OnOk result (IsStaged (prefix.now ++ step_of step.now ∷ []) graph.new plans.new.items) }
{
    match step {
        Step::Node(label) => stage_node(alloc, graph, label, plans),
        Step::Link(from, to) => stage_link(graph, prefix, *from, *to, plans),
        Step::Unlink(from, to) => stage_unlink(graph, *from, *to, plans),
        Step::Drop(node) => stage_drop(graph, *node, plans),
        Step::Relabel(node, label) => stage_relabel(alloc, graph, prefix, *node, label, plans),
    }
}

fn stage_node(
    alloc: Global,
    graph: &mut Graph,
    label: &Text,
    plans: &mut SmallVec<Plan, 1>,
) -> Result<(), Memory>
    ensures graph { graph.new.graph ≡ graph.old.graph }
    ensures staged { OnOk result ((c : List Value_of_step) → IsStaged c graph.old plans.old.items
        → IsStaged (c ++ node label.now ∷ []) graph.new plans.new.items) }
{
    graph.reserve_node(alloc, label)?;
    plans.push(Plan::Node)?;
    Ok(())
}

fn stage_link(
    graph: &mut Graph,
    prefix: &Prefix<'_>,
    from: NodeId,
    to: NodeId,
    plans: &mut SmallVec<Plan, 1>,
) -> Result<(), Memory>
    requires prefix { CanMakeAll prefix.now graph.old.graph }
    requires can { CanMake (link from to) (after prefix.now graph.old.graph) }
    requires staged { IsStaged prefix.now graph.old plans.old.items }
    ensures graph { graph.new.graph ≡ graph.old.graph }
    ensures staged { OnOk result (IsStaged (prefix.now ++ link from to ∷ []) graph.new plans.new.items) }
{
    if has_edge(graph, prefix, from, to) {
        return Ok(());
    }
    graph.reserve_edge(from, to)?;
    plans.push(Plan::Link(from, to))?;
    Ok(())
}

fn stage_unlink(
    graph: &Graph,
    from: NodeId,
    to: NodeId,
    plans: &mut SmallVec<Plan, 1>,
) -> Result<(), Memory>
    ensures staged { OnOk result ((c : List Value_of_step) → IsStaged c graph.now plans.old.items
        → IsStaged (c ++ unlink from to ∷ []) graph.now plans.new.items) }
{
    plans.push(Plan::Unlink(from, to))?;
    Ok(())
}

fn stage_drop(graph: &Graph, node: NodeId, plans: &mut SmallVec<Plan, 1>) -> Result<(), Memory>
    ensures staged { OnOk result ((c : List Value_of_step) → IsStaged c graph.now plans.old.items
        → IsStaged (c ++ drop node ∷ []) graph.now plans.new.items) }
{
    plans.push(Plan::Drop(node))?;
    Ok(())
}

fn stage_relabel(
    alloc: Global,
    graph: &mut Graph,
    prefix: &Prefix<'_>,
    node: NodeId,
    label: &Text,
    plans: &mut SmallVec<Plan, 1>,
) -> Result<(), Memory>
    requires prefix { CanMakeAll prefix.now graph.old.graph }
    requires can { CanMake (relabel node label.now) (after prefix.now graph.old.graph) }
    requires staged { IsStaged prefix.now graph.old plans.old.items }
    ensures graph { graph.new.graph ≡ graph.old.graph }
    ensures staged { OnOk result (IsStaged (prefix.now ++ relabel node label.now ∷ []) graph.new plans.new.items) }
{
    if has_label(graph, prefix, node, label) {
        return Ok(());
    }
    let copy = label.copy(alloc)?;
    graph.reserve_label(alloc, label)?;
    plans.push(Plan::Relabel(node, copy))?;
    Ok(())
}

/// Makes a change that is staged in the graph, which is as `stage` left it, and leaves nothing reserved. It can't fail,
/// and takes no memory. O(s^2) for s steps, and what `Graph::remove_edge` takes for each edge that goes, those of dropped
/// nodes too.
pub fn commit(graph: &mut Graph, staged: Staged) -> Applied
    requires staged { (c : List Value_of_step) × IsStaged c graph.old staged × IsNew c graph.old.graph }
    ensures made { (c : List Value_of_step) → IsStaged c graph.old staged
        → graph.new ≡ record { graph = after c graph.old.graph; reserved = none_reserved } }
    ensures applied { (c : List Value_of_step) → IsStaged c graph.old staged → result ≡ applied_of c graph.old.graph }
{
    let first = graph.created();
    make_all(graph, staged.plans.as_slice());
    Applied {
        first,
        added: graph.created() - first,
    }
}

// Makes steps that are planned, one after the other.
fn make_all(graph: &mut Graph, plans: &[Plan])
    requires planned { (steps : List Value_of_step) × ArePlanned steps graph.old plans.now }
    ensures made { (steps : List Value_of_step) → ArePlanned steps graph.old plans.now
        → graph.new ≡ record { graph = after steps graph.old.graph; reserved = none_reserved } }
{
    let mut left = plans;
    'plans: while let Some((plan, rest)) = left.split_first() {
        make(graph, plan);
        left = rest;
    }
}

fn make(graph: &mut Graph, plan: &Plan)
    requires can { CanBeMade plan.now graph.old }
    ensures made { IsMadeBy plan.now graph.old graph.new }
{
    match plan {
        Plan::Node => {
            graph.add_node();
        }
        Plan::Link(from, to) => graph.add_edge(*from, *to),
        Plan::Unlink(from, to) => graph.remove_edge(*from, *to),
        Plan::Drop(node) => drop_node::<Brand>(graph, *node, Blank::new(1)),
        Plan::Relabel(node, label) => graph.set_label(*node, label),
    }
}

// Takes the node's edges away, the last ones first, and then the node.
fn drop_node<L: Ledger>(graph: &mut Graph, node: NodeId, blank: Blank)
    requires name { blank.name ≡ L.name }
    requires parts { blank.parts ≡ L.parts }
    requires some { 0 < blank.parts }
    requires live { IsTrue (is_live graph.old.graph node) }
    ensures dropped { graph.new ≡ record { graph = without_node graph.old.graph node; reserved = graph.old.reserved } }
{
    let mut steps = Steps::<L>::new(blank);
    drop_children(graph, node, &mut steps);
    drop_parents(graph, node, &mut steps);
    graph.remove_node(node);
}

// Takes away the edges that begin at a node.
fn drop_children<L: Ledger>(graph: &mut Graph, node: NodeId, steps: &mut Steps<L>)
    ensures left { LosesEdgesAt node graph.old graph.new }
    ensures none { (n : ℕ) → edge_in graph.new.graph node n ≡ false }
{
    'children: while let Some(child) = graph.any_child(node, steps) {
        graph.remove_edge(node, child);
    }
}

// Takes away the edges that end at a node.
fn drop_parents<L: Ledger>(graph: &mut Graph, node: NodeId, steps: &mut Steps<L>)
    ensures left { LosesEdgesAt node graph.old graph.new }
    ensures none { (n : ℕ) → edge_in graph.new.graph n node ≡ false }
    ensures children { (n : ℕ) → edge_in graph.old.graph node n ≡ false → edge_in graph.new.graph node n ≡ false }
{
    'parents: while let Some(parent) = graph.any_parent(node, steps) {
        graph.remove_edge(parent, node);
    }
}
