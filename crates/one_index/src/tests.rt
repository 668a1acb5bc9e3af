// Worked partitions of small graphs.
ghost use Rattle.std.specs.Prelude.{◌≡◌, ◌<◌, ◌≤◌, length};

use super::*;
use block_partition::Blocks;
use label_graph::{Digraph, GraphView};
use px_base::{Memory, NodeId, Steps};
use quotient::Summary;
use std::alloc::Global;
use std::marker::Brand;
use std::process::Abort;
use std::sync::ledger::{Blank, Ledger};
use std::test::Fail;
use test_graphs::graph_from;

// Makes blocks with these labels.
fn put_blocks(blocks: &mut Blocks, labels: &[u32])
    requires { length labels.now ≤ blocks.old.reserved.blocks }
    ensures { blocks.new.reserved.nodes ≡ blocks.old.reserved.nodes }
{
    for label in labels {
        let _ = blocks.new_block(*label);
    }
}

// Puts the next nodes into these blocks.
fn put_members(rt: &impl Abort, blocks: &mut Blocks, members: &[u32])
    requires { length members.now ≤ blocks.old.reserved.nodes }
{
    for b in members {
        assert!(rt; blocks.is_block(*b));
        blocks.append(Some(*b));
    }
}

// A partition: the label of each block, and the block of each node.
fn parted(rt: &impl Abort, alloc: Global, labels: &[u32], members: &[u32]) -> Result<Blocks, Fail> {
    let mut blocks = Blocks::new(alloc)?;
    assert!(rt; labels.len() < 9);
    assert!(rt; members.len() < 9);
    blocks.reserve(members.len() as u32, labels.len() as u32)?;
    put_blocks(&mut blocks, labels);
    put_members(rt, &mut blocks, members);
    Ok(blocks)
}

// A graph with a partition of its nodes, and what is to be said of that.
struct Row<'a> {
    // the label of each node, a byte each
    nodes: &'a [u8],
    edges: &'a [(NodeId, NodeId)],
    // the label of each block
    labels: &'a [u32],
    // the block of each node
    members: &'a [u32],
    is_stable: bool,
    is_minimal: bool,
    // whether there are blocks 0 and 1, and they can be merged
    can_merge_first: bool,
    // how many blocks a build makes
    built: u32,
}

// Two rings of an a and a b: the two a can be in one block where the two b are, and apart where they are apart.
const RINGS: &[(NodeId, NodeId)] = &[(0, 1), (1, 0), (2, 3), (3, 2)];

const ROWS: &[Row<'static>] = &[
    Row {
        nodes: b"abab",
        edges: RINGS,
        labels: &[0, 1],
        members: &[0, 1, 0, 1],
        is_stable: true,
        is_minimal: true,
        can_merge_first: false,
        built: 2,
    },
    Row {
        nodes: b"abab",
        edges: RINGS,
        labels: &[0, 1, 0, 1],
        members: &[0, 1, 2, 3],
        is_stable: true,
        is_minimal: true,
        can_merge_first: false,
        built: 2,
    },
    Row {
        nodes: b"abab",
        edges: RINGS,
        labels: &[0, 1, 1],
        members: &[0, 1, 0, 2],
        is_stable: false,
        is_minimal: false,
        can_merge_first: false,
        built: 2,
    },
    // Two nodes with a loop each have the same parent blocks once they count as one.
    Row {
        nodes: b"aa",
        edges: &[(0, 0), (1, 1)],
        labels: &[0, 0],
        members: &[0, 1],
        is_stable: true,
        is_minimal: false,
        can_merge_first: true,
        built: 1,
    },
    Row {
        nodes: b"ab",
        edges: &[(0, 0), (1, 1)],
        labels: &[0, 1],
        members: &[0, 1],
        is_stable: true,
        is_minimal: true,
        can_merge_first: false,
        built: 2,
    },
    // Two leaves below one node.
    Row {
        nodes: b"abb",
        edges: &[(0, 1), (0, 2)],
        labels: &[0, 1, 1],
        members: &[0, 1, 2],
        is_stable: true,
        is_minimal: false,
        can_merge_first: false,
        built: 2,
    },
    // A leaf below a node, and one without parents.
    Row {
        nodes: b"abb",
        edges: &[(0, 2)],
        labels: &[0, 1],
        members: &[0, 1, 1],
        is_stable: false,
        is_minimal: true,
        can_merge_first: false,
        built: 3,
    },
    Row {
        nodes: b"ab",
        edges: &[],
        labels: &[0],
        members: &[0, 0],
        is_stable: false,
        is_minimal: true,
        can_merge_first: false,
        built: 2,
    },
    // The last node has no block.
    Row {
        nodes: b"ab",
        edges: &[],
        labels: &[0],
        members: &[0],
        is_stable: false,
        is_minimal: true,
        can_merge_first: false,
        built: 2,
    },
];

// Whether there are blocks 0 and 1, and they can be merged.
fn can_merge_first(summary: &Summary) -> bool {
    summary.is_node(0) && summary.is_node(1) && mergeable(summary, 0, 1)
}

// Whether the partition of a row is as the row says.
fn is_right(summary: &Summary, view: &GraphView<'_>, row: &Row<'_>) -> bool {
    is_stable(summary, view) == row.is_stable
        && is_minimal(summary) == row.is_minimal
        && can_merge_first(summary) == row.can_merge_first
}

// Whether a build makes so many blocks, of a partition that is stable and no two blocks of which can be merged.
fn builds(alloc: Global, view: &GraphView<'_>, built: u32) -> Result<bool, Memory> {
    let summary = OneIndex::build(alloc, view)?;
    Ok(summary.blocks() == built && is_stable(&summary, view) && is_minimal(&summary))
}

fn check_row<L: Ledger>(
    rt: &impl Abort,
    alloc: Global,
    row: &Row<'_>,
    blank: Blank,
) -> Result<(), Fail>
    requires name { blank.name ≡ L.name }
    requires parts { blank.parts ≡ L.parts }
    requires some { 0 < blank.parts }
{
    let mut steps = Steps::<L>::new(blank);
    let graph = graph_from(alloc, row.nodes, row.edges, &mut steps)?;
    let view = graph.view(&mut steps);
    let summary = Summary::of(alloc, parted(rt, alloc, row.labels, row.members)?, &view)?;
    assert!(rt;
        is_right(&summary, &view, row),
        "{:?} {:?} {:?}",
        row.edges,
        row.labels,
        row.members
    );
    assert!(rt;
        builds(alloc, &view, row.built)?,
        "{:?} {:?} {:?}",
        row.edges,
        row.labels,
        row.members
    );
    Ok(())
}

#[test]
fn worked_partitions(rt: HostRuntime) -> Result<(), Fail> {
    for row in ROWS {
        check_row::<Brand>(&rt, rt.alloc(), row, Blank::new(1))?;
    }
    Ok(())
}
