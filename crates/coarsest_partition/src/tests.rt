// Partitions of small graphs.
ghost use Rattle.std.specs.Prelude.{◌≡◌, ◌<◌, IsSome};
ghost use Rattle.label_graph.specs.GraphViews.{label_number};

use super::*;
use crate::labels::by_labels;
use block_partition::Blocks;
use block_splitting::split_by;
use label_graph::{Digraph, GraphView};
use px_base::{NodeId, Steps};
use std::alloc::Global;
use std::marker::Brand;
use std::process::Abort;
use std::sync::ledger::{Blank, Ledger};
use std::test::Fail;
use test_graphs::graph_from;

// Whether there are so many blocks, and the nodes of each pair are in one block. Where all nodes that are to be
// together are joined by pairs, this says what the partition is.
fn is_parted(blocks: &Blocks, count: u32, pairs: &[(NodeId, NodeId)]) -> bool {
    let together = pairs
        .iter()
        .all(|(u, v)| blocks.block_of(*u) == blocks.block_of(*v));
    together && blocks.count() == count
}

// A chain of three, a chain of two and a node alone.
const CHAINS: &[(NodeId, NodeId)] = &[(0, 1), (1, 2), (3, 4)];

fn check_chains(rt: &impl Abort, alloc: Global, view: &GraphView<'_>) -> Result<(), Fail> {
    let parents = full_bisimulation(alloc, view)?;
    assert!(rt; is_parted(&parents, 3, &[(0, 3), (3, 5), (1, 4)]));
    let both = full_bisimulation_both_ways(alloc, view)?;
    assert!(rt; is_parted(&both, 6, &[]));
    Ok(())
}

// The partition by labels has so many blocks. Split by node 1 alone it has so many, and the nodes of each pair are in
// one block.
fn check_splitter(
    rt: &impl Abort,
    alloc: Global,
    view: &GraphView<'_>,
    labels: u32,
    count: u32,
    pairs: &[(NodeId, NodeId)],
) -> Result<(), Fail> {
    let mut blocks = by_labels(alloc, view)?;
    assert!(rt; is_parted(&blocks, labels, &[]));
    assert!(rt; view.is_node(1));
    split_by(alloc, &mut blocks, view, &[1])?;
    assert!(rt; is_parted(&blocks, count, pairs));
    Ok(())
}

// Where nodes 2 and 0 have node 1 as a parent and as a child.
const SPLIT_CHAINS: &[(NodeId, NodeId)] = &[(1, 3), (3, 4), (4, 5)];

fn check_both<L: Ledger>(rt: &impl Abort, alloc: Global, blank: Blank) -> Result<(), Fail>
    requires name { blank.name ≡ L.name }
    requires parts { blank.parts ≡ L.parts }
    requires some { 0 < blank.parts }
{
    let mut steps = Steps::<L>::new(blank);
    let graph = graph_from(alloc, b"llllll", CHAINS, &mut steps)?;
    let view = graph.view(&mut steps);
    check_chains(rt, alloc, &view)?;
    check_splitter(rt, alloc, &view, 1, 3, SPLIT_CHAINS)
}

#[test]
fn chains(rt: HostRuntime) -> Result<(), Fail> {
    check_both::<Brand>(&rt, rt.alloc(), Blank::new(1))
}

// A ring of two and a ring of one: no walk tells their nodes apart.
const RINGS: &[(NodeId, NodeId)] = &[(0, 1), (1, 0), (2, 2)];

fn check_rings<L: Ledger>(rt: &impl Abort, alloc: Global, blank: Blank) -> Result<(), Fail>
    requires name { blank.name ≡ L.name }
    requires parts { blank.parts ≡ L.parts }
    requires some { 0 < blank.parts }
{
    let mut steps = Steps::<L>::new(blank);
    let graph = graph_from(alloc, b"aaa", RINGS, &mut steps)?;
    let both = full_bisimulation_both_ways(alloc, &graph.view(&mut steps))?;
    assert!(rt; is_parted(&both, 1, &[(0, 1), (1, 2)]));
    Ok(())
}

#[test]
fn rings(rt: HostRuntime) -> Result<(), Fail> {
    check_rings::<Brand>(&rt, rt.alloc(), Blank::new(1))
}

// Of two nodes with one label, node 0 alone has a child in the splitter.
fn check_one_edge<L: Ledger>(rt: &impl Abort, alloc: Global, blank: Blank) -> Result<(), Fail>
    requires name { blank.name ≡ L.name }
    requires parts { blank.parts ≡ L.parts }
    requires some { 0 < blank.parts }
{
    let mut steps = Steps::<L>::new(blank);
    let graph = graph_from(alloc, b"aba", &[(0, 1)], &mut steps)?;
    check_splitter(rt, alloc, &graph.view(&mut steps), 2, 3, &[])
}

#[test]
fn one_edge(rt: HostRuntime) -> Result<(), Fail> {
    check_one_edge::<Brand>(&rt, rt.alloc(), Blank::new(1))
}
