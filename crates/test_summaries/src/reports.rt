// What is printed of small graphs.
ghost use Rattle.std.specs.Prelude.{◌≡◌, ◌<◌, IsTrue};
ghost use Rattle.extent_report.specs.Summaries.{LabelsHaveTexts};

use block_partition::Blocks;
use extent_report::{extents_text, sizes_head, sizes_line};
use index_api::Via;
use label_graph::{Digraph, GraphView, Labels};
use px_base::{NodeId, Steps};
use quotient::Summary;
use std::alloc::Global;
use std::marker::Brand;
use std::process::Abort;
use std::sync::ledger::{Blank, Ledger};
use std::test::Fail;
use test_graphs::graph_from;

const MOST: u32 = 1 << 30;

fn put_block(rt: &impl Abort, blocks: &mut Blocks, label: u32) -> Result<(), Fail> {
    assert!(rt; blocks.numbers() < MOST);
    assert!(rt; blocks.count() < MOST);
    blocks.reserve(0, 1)?;
    blocks.new_block(label);
    Ok(())
}

// Instead of a block: the node was dropped.
const GONE: u32 = 9;

// Puts the next node into a block, if the number is that of one.
fn put_member(rt: &impl Abort, blocks: &mut Blocks, b: u32) -> Result<(), Fail> {
    let n = blocks.numbers();
    assert!(rt; n < MOST);
    assert!(rt; blocks.count() < MOST);
    blocks.reserve(1, 0)?;
    if blocks.is_block(b) {
        blocks.place(n, b);
        return Ok(());
    }
    blocks.append(None);
    Ok(())
}

// The blocks with these labels, by number, and the block of each node.
fn parted(rt: &impl Abort, alloc: Global, labels: &[u32], members: &[u32]) -> Result<Blocks, Fail> {
    let mut blocks = Blocks::new(alloc)?;
    for label in labels {
        put_block(rt, &mut blocks, *label)?;
    }
    for b in members {
        put_member(rt, &mut blocks, *b)?;
    }
    Ok(blocks)
}

// Whether each block's label has a text.
fn are_labelled(summary: &Summary, labels: &Labels) -> bool
    ensures { IsTrue result → LabelsHaveTexts labels.now.texts summary.now.blocks }
{
    for b in 0..summary.size() {
        if summary.is_node(b) && summary.label(b) >= labels.len() {
            return false;
        }
    }
    true
}

// A graph whose nodes have a byte each as labels, the numbers of the labels of its blocks and the block
// of each node, and what is printed.
struct Row {
    labels: &'static [u8],
    edges: &'static [(NodeId, NodeId)],
    blocks: &'static [u32],
    members: &'static [u32],
    extents: &'static str,
    size: &'static str,
}

const ROWS: &[Row] = &[
    Row {
        labels: b"aba",
        edges: &[(0, 1)],
        blocks: &[0, 1],
        members: &[0, 1, 0],
        extents: "blocks 2\na n0 n2\nb n1\n",
        size: "a2 blocks 2 edges 1\n",
    },
    Row {
        labels: b"aba",
        edges: &[(0, 1)],
        blocks: &[1, 0],
        members: &[1, 0, 1],
        extents: "blocks 2\na n0 n2\nb n1\n",
        size: "a2 blocks 2 edges 1\n",
    },
    Row {
        labels: b"abcabcx",
        edges: &[(0, 1), (1, 2), (3, 4), (4, 5), (6, 3)],
        blocks: &[0, 1, 2, 0, 1, 3],
        members: &[0, 1, 2, 3, 4, 2, 5],
        extents: "blocks 6\na n0\nb n1\nc n2 n5\na n3\nb n4\nx n6\n",
        size: "a2 blocks 6 edges 5\n",
    },
    Row {
        labels: b"aabb",
        edges: &[(0, 2), (1, 2), (0, 3)],
        blocks: &[0, 1],
        members: &[0, 0, 1, 1],
        extents: "blocks 2\na n0 n1\nb n2 n3\n",
        size: "a2 blocks 2 edges 1\n",
    },
    Row {
        labels: b"aabbbabbb",
        edges: &[],
        blocks: &[1, 0],
        members: &[GONE, 1, GONE, GONE, 0, 1, GONE, GONE, GONE],
        extents: "blocks 2\na n1 n5\nb n4\n",
        size: "a2 blocks 2 edges 0\n",
    },
    Row {
        labels: b"",
        edges: &[],
        blocks: &[],
        members: &[],
        extents: "blocks 0\n",
        size: "a2 blocks 0 edges 0\n",
    },
];

fn check_texts(
    rt: &impl Abort,
    alloc: Global,
    summary: &Summary,
    labels: &Labels,
    row: &Row,
) -> Result<(), Fail> {
    assert!(rt; are_labelled(summary, labels), "{:?}", row.members);
    let extents = extents_text(alloc, summary, labels)?;
    assert!(rt; extents.as_str() == row.extents, "{:?}", row.members);
    let size = sizes_line(alloc, Via::A(2), summary)?;
    assert!(rt; size.as_str() == row.size, "{:?}", row.members);
    Ok(())
}

fn summary_of(
    rt: &impl Abort,
    alloc: Global,
    row: &Row,
    view: &GraphView<'_>,
) -> Result<Summary, Fail> {
    let blocks = parted(rt, alloc, row.blocks, row.members)?;
    Ok(Summary::of(alloc, blocks, view)?)
}

fn check_row<L: Ledger>(
    rt: &impl Abort,
    alloc: Global,
    row: &Row,
    steps: &mut Steps<L>,
) -> Result<(), Fail> {
    let graph = graph_from(alloc, row.labels, row.edges, steps)?;
    let summary = summary_of(rt, alloc, row, &graph.view(steps))?;
    check_texts(rt, alloc, &summary, graph.labels(), row)
}

fn check_rows<L: Ledger>(rt: &impl Abort, alloc: Global, blank: Blank) -> Result<(), Fail>
    requires name { blank.name ≡ L.name }
    requires parts { blank.parts ≡ L.parts }
    requires some { 0 < blank.parts }
{
    let mut steps = Steps::<L>::new(blank);
    for row in ROWS {
        check_row(rt, alloc, row, &mut steps)?;
    }
    Ok(())
}

#[test]
fn blocks_are_listed(rt: HostRuntime) -> Result<(), Fail> {
    check_rows::<Brand>(&rt, rt.alloc(), Blank::new(1))
}

#[test]
fn heads_are_written(rt: HostRuntime) -> Result<(), Fail> {
    let head = sizes_head(rt.alloc(), 120, 7)?;
    assert!(&rt; head.as_str() == "nodes 120 edges 7\n");
    Ok(())
}
