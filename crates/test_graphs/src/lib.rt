//! Small graphs for the tests of other crates, and the tests of `label_graph` on such graphs.
#![tactic(auto)]

ghost use Rattle.std.specs.Prelude.{◌<◌};

use label_graph::Graph;
use px_base::{NodeId, Steps, Text};
use std::alloc::Global;
use std::sync::ledger::Ledger;
use std::test::Fail;

#[cfg(test)]
mod tests;

/// How many nodes, how many edges and how many labels a graph has at most.
const MOST: u32 = 1 << 30;

fn put_node(alloc: Global, graph: &mut Graph, label: u8) -> Result<(), Fail> {
    if graph.created() >= MOST {
        return Err("there are too many nodes".into());
    }
    if graph.labels().len() >= MOST {
        return Err("there are too many labels".into());
    }
    graph.reserve_node(alloc, &Text::from_bytes(alloc, &[label])?)?;
    graph.add_node();
    Ok(())
}

fn put_edge<L: Ledger>(
    graph: &mut Graph,
    u: NodeId,
    v: NodeId,
    steps: &mut Steps<L>,
) -> Result<(), Fail> {
    if !graph.is_live(u) || !graph.is_live(v) {
        return Err("an edge ends at no node".into());
    }
    if graph.edge_count() >= MOST {
        return Err("there are too many edges".into());
    }
    if graph.has_edge(u, v, steps) {
        return Err("an edge comes twice".into());
    }
    graph.reserve_edge(u, v)?;
    graph.add_edge(u, v);
    Ok(())
}

fn put_edges<L: Ledger>(
    graph: &mut Graph,
    edges: &[(NodeId, NodeId)],
    steps: &mut Steps<L>,
) -> Result<(), Fail> {
    for (u, v) in edges {
        put_edge(graph, *u, *v, steps)?;
    }
    Ok(())
}

/// A graph whose nodes have these labels, a byte each, and these edges. It fails where an edge comes twice or one of
/// its ends is no node. O(n + e) for n nodes and e edges, but for the reads of `Graph::has_edge`; it takes the memory
/// of the graph.
pub fn graph_from<L: Ledger>(
    alloc: Global,
    labels: &[u8],
    edges: &[(NodeId, NodeId)],
    steps: &mut Steps<L>,
) -> Result<Graph, Fail> {
    let mut graph = Graph::new(alloc)?;
    for label in labels {
        put_node(alloc, &mut graph, *label)?;
    }
    put_edges(&mut graph, edges, steps)?;
    Ok(graph)
}

/// The edges of two chains of three nodes.
const CHAINS: &[(NodeId, NodeId)] = &[(0, 1), (1, 2), (3, 4), (4, 5)];

/// Two chains of an `a`, a `b` and a `c`, the nodes 0 to 2 and 3 to 5, and an `x`, the node 6, which has just these
/// further edges. It fails as `graph_from` does, and costs as much.
pub fn two_chains<L: Ledger>(
    alloc: Global,
    further: &[(NodeId, NodeId)],
    steps: &mut Steps<L>,
) -> Result<Graph, Fail> {
    let mut graph = graph_from(alloc, b"abcabcx", CHAINS, steps)?;
    put_edges(&mut graph, further, steps)?;
    Ok(graph)
}
