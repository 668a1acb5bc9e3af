// The labels that nodes have once the first steps of a change are made.
ghost use Rattle.std.specs.Prelude.{◌≡◌, ◌+◌, ◌<◌, ◌≤◌, IsTrue, Some, None, length, drop, option_map, if◌then◌else◌};
ghost use Rattle.std.specs.Option.{option_or};
ghost use Rattle.graph_spec.specs.Graphs.{Graph as Seen, is_live, label_of};
ghost use Rattle.change_spec.specs.Steps.{after, is_text};
ghost use Rattle.change_spec.specs.Places.{CanMakeAll};
ghost use Rattle.graph_steps.specs.StepLists.{step_of, steps_of};
ghost use Rattle.graph_steps.specs.NodePlaces.{node_places};
ghost use Rattle.graph_steps.specs.StepLabels.{label_added, relabel_by, relabelled};

use crate::changes::Step;
use crate::prefix::Prefix;
use crate::reads::is_same;
use label_graph::Graph;
use px_base::{NodeId, Text};

// The label, where it is asked for.
fn label_if(wanted: bool, label: &Text) -> Option<&Text>
    ensures { option_map (λ t. t.now) result ≡ (if wanted then Some label.now else None) }
{
    if wanted { Some(label) } else { None }
}

// The label that the step gives a node by its number.
fn relabel_by(step: &Step, n: NodeId) -> Option<&Text>
    ensures { option_map (λ t. t.now) result ≡ relabel_by (step_of step.now) n }
{
    match step {
        Step::Relabel(node, label) => label_if(n == *node, label),
        _ => None,
    }
}

// The label that the last of the steps from a place on gives a node by its number. Those that name the node are gone
// through, and as many steps from the end back, where the last label may be found sooner.
fn relabelled<'a>(prefix: &Prefix<'a>, from: usize, n: NodeId) -> Option<&'a Text>
    requires { from ≤ length prefix.now }
    ensures { option_map (λ t. t.now) result ≡ relabelled (drop from prefix.now) n }
{
    let mut given = None;
    let mut i = prefix.next_naming(from, n);
    let mut past = prefix.len();
    while i < past {
        past -= 1;
        let last = relabel_by(prefix.step(past), n);
        if last.is_some() {
            return last;
        }
        given = relabel_by(prefix.step(i), n).or(given);
        i = prefix.next_naming(i + 1, n);
    }
    given
}

// The label that the step gives the node that it adds.
fn label_added(step: &Step) -> Option<&Text>
    ensures { option_map (λ t. t.now) result ≡ label_added (step_of step.now) }
{
    match step {
        Step::Node(label) => Some(label),
        _ => None,
    }
}

// The label that the steps give a node which they add once so many others are added.
fn added_label<'a>(prefix: &Prefix<'a>, earlier: usize, n: NodeId) -> Option<&'a Text>
    requires { earlier < length (node_places prefix.now) }
    ensures { (g : Seen) → CanMakeAll prefix.now g → IsTrue (is_live (after prefix.now g) n) → n ≡ length g.allocated + earlier
        → label_of (after prefix.now g) n ≡ option_or (option_map (λ t. t.now) result) (label_of g n) }
{
    let place = prefix.node_place(earlier);
    let label = label_added(prefix.step(place));
    relabelled(prefix, place, n).or(label)
}

/// The label that the first steps give a node which is live behind them, the last one where several do. Expected O(1), and
/// the steps that name the node are gone through, or those behind the last that gives it a label, where these are fewer; no
/// memory.
pub fn label_after<'a>(graph: &Graph, prefix: &Prefix<'a>, n: NodeId) -> Option<&'a Text>
    requires can { CanMakeAll prefix.now graph.now.graph }
    requires live { IsTrue (is_live (after prefix.now graph.now.graph) n) }
    ensures { label_of (after prefix.now graph.now.graph) n ≡ option_or (option_map (λ t. t.now) result) (label_of graph.now.graph n) }
{
    let created = graph.created();
    if n < created {
        return relabelled(prefix, 0, n);
    }
    added_label(prefix, (n - created) as usize, n)
}

// Whether a node has that label in the graph as it is.
fn label_before(graph: &Graph, u: NodeId, text: &Text) -> bool
    ensures { result ≡ is_text text.now (label_of graph.now.graph u) }
{
    if !graph.is_live(u) {
        return false;
    }
    *text == *graph.labels().text(graph.label(u))
}

/// Whether a node which is live once the first steps are made has that label then. Expected O(b) for a text of b bytes, and
/// what `label_after` takes; no memory.
pub fn has_label(graph: &Graph, prefix: &Prefix<'_>, u: NodeId, text: &Text) -> bool
    requires can { CanMakeAll prefix.now graph.now.graph }
    requires live { IsTrue (is_live (after prefix.now graph.now.graph) u) }
    ensures { result ≡ is_text text.now (label_of (after prefix.now graph.now.graph) u) }
{
    match label_after(graph, prefix, u) {
        Some(label) => is_same(text, label),
        None => label_before(graph, u, text),
    }
}
