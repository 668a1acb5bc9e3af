// The index graph in which each node is a block of its own.
ghost use Rattle.std.specs.Prelude.{◌≡◌, ◌<◌, ◌+◌, ◌^◌, ◌≤◌, [], length, IfOk, OnOk};
ghost use Rattle.quotient.specs.Quotients.{AreSupports};
ghost use Rattle.index_picture.specs.LoneBlocks.{IsLone, AreLoneBelow};

use block_partition::{Blocks, fill};
use label_graph::Graph;
use px_base::{Memory, NodeId, Steps};
use quotient::Summary;
use std::alloc::Global;
use std::marker::Brand;
use std::sync::ledger::{Blank, Ledger};

// Gives the next node a block of its own, if it is live.
fn push_node(
    block: &mut Vec<Option<u32>>,
    labels: &mut Vec<u32>,
    graph: &Graph,
    n: NodeId,
) -> Result<(), Memory>
    requires lone { AreLoneBelow graph.now.graph n block.old.items labels.old.items }
    requires few { n < 2 ^ 30 }
    ensures lone { OnOk result (AreLoneBelow graph.now.graph (n + 1) block.new.items labels.new.items) }
{
    if graph.is_live(n) {
        block.push(Some(labels.len() as u32))?;
        labels.push(graph.label(n))?;
    } else {
        block.push(None)?;
    }
    Ok(())
}

// Gives each live node a block of its own.
fn push_nodes(
    block: &mut Vec<Option<u32>>,
    labels: &mut Vec<u32>,
    graph: &Graph,
) -> Result<(), Memory>
    requires block { block.old.items ≡ [] }
    requires labels { labels.old.items ≡ [] }
    ensures lone { OnOk result (AreLoneBelow graph.now.graph (length graph.now.graph.allocated) block.new.items labels.new.items) }
{
    for n in 0..graph.created() {
        push_node(block, labels, graph, n)?;
    }
    Ok(())
}

// The partition into single nodes.
fn single_nodes(alloc: Global, graph: &Graph) -> Result<Blocks, Memory>
    ensures { IfOk result (IsLone graph.now.graph) }
{
    let mut block = Vec::new(alloc);
    let mut labels = Vec::new(alloc);
    push_nodes(&mut block, &mut labels, graph)?;
    let blocks = fill(alloc, graph.created(), &block, &labels)?;
    Ok(blocks)
}

fn summary_of<L: Ledger>(
    alloc: Global,
    graph: &Graph,
    blocks: Blocks,
    blank: Blank,
) -> Result<Summary, Memory>
    requires name { blank.name ≡ L.name }
    requires parts { blank.parts ≡ L.parts }
    requires some { 0 < blank.parts }
    ensures blocks { IfOk result (λ s. s.blocks ≡ blocks) }
    ensures supports { IfOk result (λ s. AreSupports graph.now.graph.edges blocks.block_of s.supports) }
{
    let mut steps = Steps::<L>::new(blank);
    Summary::of_fixed(alloc, blocks, &graph.view(&mut steps))
}

/// The index graph in which each live node of a graph is a block of its own, so that its picture is that of the graph. It costs what
/// `Summary::of_fixed` costs, and 8 bytes a node while it runs.
pub fn lone_blocks(alloc: Global, graph: &Graph) -> Result<Summary, Memory>
    ensures lone { IfOk result (λ s. IsLone graph.now.graph s.blocks) }
    ensures supports { IfOk result (λ s. AreSupports graph.now.graph.edges s.blocks.block_of s.supports) }
{
    let blocks = single_nodes(alloc, graph)?;
    summary_of::<Brand>(alloc, graph, blocks, Blank::new(1))
}
