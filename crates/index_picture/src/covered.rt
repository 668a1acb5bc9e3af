// Whether each node of a block has a parent in another one.
ghost use Rattle.std.specs.Prelude.{◌≡◌, IsSome};
ghost use Rattle.std.specs.List.{list_any};
ghost use Rattle.graph_spec.specs.Graphs.{has_edge};
ghost use Rattle.graph_spec.specs.Members.{at, is_this};
ghost use Rattle.index_picture.specs.DrawnBlocks as drawn;

use label_graph::Graph;
use px_base::{NodeId, Steps};
use quotient::Summary;
use std::sync::ledger::Ledger;

fn is_in(summary: &Summary, a: u32, n: NodeId) -> bool
    ensures { result ≡ is_this a (at summary.now.blocks.block_of n) }
{
    match summary.block_of(n) {
        Some(block) => a == block,
        None => false,
    }
}

fn any_in(summary: &Summary, a: u32, nodes: &[NodeId]) -> bool
    ensures { result ≡ list_any (λ u. is_this a (at summary.now.blocks.block_of u)) nodes.now }
{
    nodes.iter().any(|u| is_in(summary, a, *u))
}

// Whether a parent of the node is in the block.
fn has_parent_in<L: Ledger>(
    graph: &Graph,
    summary: &Summary,
    a: u32,
    n: NodeId,
    steps: &mut Steps<L>,
) -> bool
    ensures { result ≡ drawn.has_parent_in (has_edge graph.now.graph) summary.now.blocks.block_of a n }
{
    any_in(summary, a, graph.parents(n, steps))
}

// Whether each node of the block b has a parent in the block a.
fn covers_block<L: Ledger>(
    graph: &Graph,
    summary: &Summary,
    a: u32,
    b: u32,
    steps: &mut Steps<L>,
) -> bool
    requires { IsSome (at summary.now.blocks.labels b) }
    ensures { result ≡ drawn.covers (has_edge graph.now.graph) summary.now.blocks.block_of a b }
{
    for n in summary.extent(b) {
        if !has_parent_in(graph, summary, a, n, steps) {
            return false;
        }
    }
    true
}

/// Whether each node of the block b has a parent in the block a; so it is where b is no block. O(m + p) for m nodes with p parents, no
/// memory.
pub(crate) fn covers<L: Ledger>(
    graph: &Graph,
    summary: &Summary,
    a: u32,
    b: u32,
    steps: &mut Steps<L>,
) -> bool
    ensures { result ≡ drawn.covers (has_edge graph.now.graph) summary.now.blocks.block_of a b }
{
    if !summary.is_block(b) {
        return true;
    }
    covers_block(graph, summary, a, b, steps)
}
