// Each public call once, on a small graph.
ghost use Rattle.std.specs.Prelude.{◌≡◌, ◌<◌, ◌≤◌, ◌+◌, length};

use block_partition::Blocks;
use label_graph::{Digraph, GraphView};
use px_base::{NodeId, Steps};
use quotient::{EdgeList, Summary};
use std::alloc::Global;
use std::marker::Brand;
use std::process::Abort;
use std::sync::ledger::{Blank, Ledger};
use std::test::Fail;
use test_graphs::graph_from;

const MOST: u32 = 1 << 30;

// The labels of a root, of two nodes below it, and of three below these, a byte each.
const LABELS: &[u8] = b"raabbc";

const EDGES: &[(NodeId, NodeId)] = &[(0, 1), (0, 2), (1, 3), (1, 4), (2, 4), (2, 5), (5, 5)];

// Puts a node that has no block into one.
fn put(rt: &impl Abort, blocks: &mut Blocks, n: NodeId, b: u32)
    requires { 6 ≤ length blocks.old.block_of + blocks.old.reserved.nodes }
    ensures { 6 ≤ length blocks.new.block_of + blocks.new.reserved.nodes }
{
    assert!(rt; n < 6);
    assert!(rt; blocks.is_block(b));
    assert!(rt; blocks.block_of(n).is_none(), "{n}");
    blocks.place(n, b);
}

// One block for each label.
fn by_label(rt: &impl Abort, alloc: Global) -> Result<Blocks, Fail> {
    let mut blocks = Blocks::new(alloc)?;
    blocks.reserve(6, 4)?;
    let (r, a) = (blocks.new_block(0), blocks.new_block(1));
    let (b, c) = (blocks.new_block(2), blocks.new_block(3));
    put(rt, &mut blocks, 0, r);
    put(rt, &mut blocks, 1, a);
    put(rt, &mut blocks, 2, a);
    put(rt, &mut blocks, 3, b);
    put(rt, &mut blocks, 4, b);
    put(rt, &mut blocks, 5, c);
    Ok(blocks)
}

// How many edges lead from one block to another.
const SUPPORTS: &[(u32, u32, u32)] = &[
    (0, 1, 2),
    (1, 2, 3),
    (1, 3, 1),
    (3, 3, 1),
    (2, 1, 0),
    (0, 0, 0),
    (0, 9, 0),
];

fn check_supports(rt: &impl Abort, summary: &Summary) {
    for (a, b, count) in SUPPORTS {
        assert!(rt; summary.support(*a, *b) == *count, "from {a} to {b}");
    }
}

// Whether the members of a node's block are these, in some order.
fn has_members(summary: &Summary, n: NodeId, nodes: &[NodeId]) -> bool {
    let Some(b) = summary.block_of(n) else {
        return false;
    };
    let mut left = nodes.len();
    for m in summary.extent(b) {
        if left == 0 || !nodes.contains(&m) {
            return false;
        }
        left -= 1;
    }
    left == 0
}

fn check_blocks(rt: &impl Abort, summary: &Summary) {
    assert_eq!(rt; summary.numbers(), 6);
    assert_eq!(rt; summary.blocks(), 4);
    assert_eq!(rt; summary.pairs(), 4);
    assert_eq!(rt; (summary.block_of(4), summary.block_of(6)), (Some(2), None));
    assert!(rt; has_members(summary, 3, &[3, 4]));
}

// Whether a list has these two and no others.
fn is_pair(list: &[u32], first: u32, second: u32) -> bool {
    list.len() == 2 && list.contains(&first) && list.contains(&second)
}

// The index graph of the blocks.
fn check_graph(rt: &impl Abort, summary: &Summary) {
    assert_eq!(rt; summary.size(), 4);
    assert!(rt; !summary.is_node(4));
    assert!(rt; summary.is_node(1));
    assert_eq!(rt; summary.label(1), 1);
    assert!(rt; is_pair(summary.children(1), 2, 3));
    assert!(rt; summary.is_node(3));
    assert!(rt; is_pair(summary.parents(3), 1, 3));
}

// From a list of the edges the same supports come.
fn check_listed(rt: &impl Abort, alloc: Global, view: &GraphView<'_>) -> Result<(), Fail> {
    let edges = EdgeList::of(alloc, view)?;
    let blocks = by_label(rt, alloc)?;
    let summary = Summary::of_edges(alloc, blocks, &edges)?;
    check_supports(rt, &summary);
    Ok(())
}

fn check_summary(rt: &impl Abort, summary: &Summary) {
    check_supports(rt, summary);
    check_blocks(rt, summary);
    check_graph(rt, summary);
}

fn check_tree(rt: &impl Abort, alloc: Global, view: &GraphView<'_>) -> Result<(), Fail> {
    assert_eq!(rt; view.edge_count(), 7);
    let summary = Summary::of(alloc, by_label(rt, alloc)?, view)?;
    check_summary(rt, &summary);
    check_listed(rt, alloc, view)
}

fn read_tree<L: Ledger>(rt: &impl Abort, alloc: Global, blank: Blank) -> Result<(), Fail>
    requires name { blank.name ≡ L.name }
    requires parts { blank.parts ≡ L.parts }
    requires some { 0 < blank.parts }
{
    let mut steps = Steps::<L>::new(blank);
    let graph = graph_from(alloc, LABELS, EDGES, &mut steps)?;
    check_tree(rt, alloc, &graph.view(&mut steps))
}

#[test]
fn small_tree(rt: HostRuntime) -> Result<(), Fail> {
    read_tree::<Brand>(&rt, rt.alloc(), Blank::new(1))
}

// A hub with five children, which are its parents too, each with a label of its own.
const HUB: &[u8] = b"habcde";

const SPOKES: &[(NodeId, NodeId)] = &[
    (0, 1),
    (0, 2),
    (0, 3),
    (0, 4),
    (0, 5),
    (1, 0),
    (2, 0),
    (3, 0),
    (4, 0),
    (5, 0),
];

// A support that is written, and which children and parents the hub has then.
type Write = (u32, u32, u32, &'static [u32], &'static [u32]);

const WRITES: &[Write] = &[
    (0, 2, 0, &[1, 3, 4, 5], &[1, 2, 3, 4, 5]),
    (0, 5, 0, &[1, 3, 4], &[1, 2, 3, 4, 5]),
    (4, 0, 0, &[1, 3, 4], &[1, 2, 3, 5]),
    (0, 2, 7, &[1, 2, 3, 4], &[1, 2, 3, 5]),
    (0, 1, 0, &[2, 3, 4], &[1, 2, 3, 5]),
    (1, 0, 0, &[2, 3, 4], &[2, 3, 5]),
    (0, 2, 0, &[3, 4], &[2, 3, 5]),
    (5, 0, 0, &[3, 4], &[2, 3]),
    (0, 4, 0, &[3], &[2, 3]),
    (2, 0, 0, &[3], &[3]),
    (0, 3, 0, &[], &[3]),
    (3, 0, 0, &[], &[]),
];

// A block for each node.
fn alone(rt: &impl Abort, alloc: Global) -> Result<Blocks, Fail> {
    let mut blocks = Blocks::new(alloc)?;
    blocks.reserve(6, 6)?;
    let (hub, a, b) = (
        blocks.new_block(0),
        blocks.new_block(1),
        blocks.new_block(2),
    );
    let (c, d, e) = (
        blocks.new_block(3),
        blocks.new_block(4),
        blocks.new_block(5),
    );
    put(rt, &mut blocks, 0, hub);
    put(rt, &mut blocks, 1, a);
    put(rt, &mut blocks, 2, b);
    put(rt, &mut blocks, 3, c);
    put(rt, &mut blocks, 4, d);
    put(rt, &mut blocks, 5, e);
    Ok(blocks)
}

// Writes a support between two of eight blocks, with the capacity that it takes.
fn write(rt: &impl Abort, summary: &mut Summary, a: u32, b: u32, n: u32) -> Result<(), Fail> {
    assert!(rt; a < 8);
    assert!(rt; b < 8);
    assert!(rt; summary.numbers() < MOST);
    assert!(rt; summary.blocks() < MOST);
    summary.reserve(0, 0, 1)?;
    summary.reserve_span(8)?;
    summary.reserve_children(a, 1)?;
    summary.reserve_parents(b, 1)?;
    assert!(rt; summary.is_block(a));
    assert!(rt; summary.is_block(b));
    summary.set_support(a, b, n);
    Ok(())
}

// Whether the list has these and no others, if each stands in it once.
fn has_just(list: &[u32], blocks: &[u32]) -> bool {
    for b in blocks {
        if !list.contains(b) {
            return false;
        }
    }
    list.len() == blocks.len()
}

fn check_hub(rt: &impl Abort, summary: &Summary, children: &[u32], parents: &[u32]) {
    assert!(rt; summary.is_node(0));
    assert!(rt; has_just(summary.children(0), children), "{children:?}");
    assert!(rt; has_just(summary.parents(0), parents), "{parents:?}");
    assert_eq!(rt;
        summary.pairs(),
        (children.len() + parents.len()) as u64,
        "{children:?} {parents:?}"
    );
}

fn check_write(rt: &impl Abort, summary: &mut Summary, row: &Write) -> Result<(), Fail> {
    let (a, b, n) = (row.0, row.1, row.2);
    write(rt, summary, a, b, n)?;
    assert_eq!(rt; summary.support(a, b), n, "{a} {b} {n}");
    check_hub(rt, summary, row.3, row.4);
    Ok(())
}

fn check_writes(rt: &impl Abort, summary: &mut Summary) -> Result<(), Fail> {
    for row in WRITES {
        check_write(rt, summary, row)?;
    }
    Ok(())
}

fn write_all(rt: &impl Abort, alloc: Global, view: &GraphView<'_>) -> Result<(), Fail> {
    let mut summary = Summary::of(alloc, alone(rt, alloc)?, view)?;
    check_writes(rt, &mut summary)
}

// The same where no places are noted.
fn write_fixed(rt: &impl Abort, alloc: Global, view: &GraphView<'_>) -> Result<(), Fail> {
    let mut summary = Summary::of_fixed(alloc, alone(rt, alloc)?, view)?;
    check_writes(rt, &mut summary)
}

fn take_spokes<L: Ledger>(rt: &impl Abort, alloc: Global, blank: Blank) -> Result<(), Fail>
    requires name { blank.name ≡ L.name }
    requires parts { blank.parts ≡ L.parts }
    requires some { 0 < blank.parts }
{
    let mut steps = Steps::<L>::new(blank);
    let graph = graph_from(alloc, HUB, SPOKES, &mut steps)?;
    let view = graph.view(&mut steps);
    write_all(rt, alloc, &view)?;
    write_fixed(rt, alloc, &view)
}

#[test]
fn hub_loses_its_spokes(rt: HostRuntime) -> Result<(), Fail> {
    take_spokes::<Brand>(&rt, rt.alloc(), Blank::new(1))
}
