// Levels of two chains that are kept, by parents alone and by both sides, while one gets a further edge.
ghost use Rattle.std.specs.Prelude.{◌≡◌, ◌<◌, IfOk, OnOk};
ghost use Rattle.index_api.specs.Meanings.{IsReady, IsPrepared};

use ak_maintain::ByParents;
use fbk_index::ByBoth;
use graph_update::{Change, Step, Verdict, judge};
use index_api::PathIndex;
use kept_index::{KeptIndex, KeptViews};
use kept_levels::KeptLevels;
use label_graph::Graph;
use px_base::{Limits, NodeId, Steps};
use quotient::Summary;
use std::alloc::Global;
use std::marker::Brand;
use std::process::Abort;
use std::sync::ledger::{Blank, Ledger};
use std::test::Fail;
use test_graphs::two_chains;

// An edge that comes, and the nodes' letters at levels 1 and 2 after it.
struct Row {
    edge: (NodeId, NodeId),
    first: &'static [u8; 7],
    second: &'static [u8; 7],
}

// By parents: the a's part at level 1, and the b's at level 2.
const PARENT: &Row = &Row {
    edge: (6, 3),
    first: b"abcdbcx",
    second: b"abcdecx",
};

// By both sides: the c's part at level 1, and the b's at level 2.
const CHILD: &Row = &Row {
    edge: (5, 6),
    first: b"abcabdx",
    second: b"abcaedx",
};

// Whether the level has so many blocks.
fn has_blocks(index: &impl PathIndex, level: u32, blocks: u32) -> bool {
    match index.summary(level) {
        Some(summary) => summary.blocks() == blocks,
        None => false,
    }
}

// Whether two nodes are together exactly where their letters agree.
fn agree(summary: &Summary, letters: &[u8; 7], u: NodeId, v: NodeId) -> bool {
    let together = summary.block_of(u) == summary.block_of(v);
    let alike = letters.get(u as usize) == letters.get(v as usize);
    together == alike
}

// The same of a node, which has a block, with each of the seven.
fn agrees(summary: &Summary, letters: &[u8; 7], u: NodeId) -> bool {
    for v in 0..7 {
        if !agree(summary, letters, u, v) {
            return false;
        }
    }
    summary.block_of(u).is_some()
}

fn all_agree(summary: &Summary, letters: &[u8; 7]) -> bool {
    for u in 0..7 {
        if !agrees(summary, letters, u) {
            return false;
        }
    }
    true
}

// Whether at the level the seven nodes are together exactly where their letters agree.
fn is_parted(index: &impl PathIndex, level: u32, letters: &[u8; 7]) -> bool {
    match index.summary(level) {
        Some(summary) => all_agree(summary, letters),
        None => false,
    }
}

// At each level nodes with equal letters are together.
fn check_before(rt: &impl Abort, index: &impl PathIndex) {
    assert!(rt; has_sizes(index, 4, 4, 4));
    assert!(rt; is_parted(index, 0, b"abcabcx"));
    assert!(rt; is_parted(index, 1, b"abcabcx"));
    assert!(rt; is_parted(index, 2, b"abcabcx"));
}

// After the edge comes the same holds at level 0, and by the row's letters at levels 1 and 2.
fn check_after(rt: &impl Abort, index: &impl PathIndex, row: &Row) {
    assert!(rt; has_sizes(index, 4, 5, 6));
    assert!(rt; is_parted(index, 0, b"abcabcx"));
    assert!(rt; is_parted(index, 1, row.first));
    assert!(rt; is_parted(index, 2, row.second));
}

// Whether there are three levels, with so many blocks.
fn has_sizes(index: &impl PathIndex, lowest: u32, middle: u32, highest: u32) -> bool {
    has_blocks(index, 0, lowest)
        && has_blocks(index, 1, middle)
        && has_blocks(index, 2, highest)
        && index.summary(3).is_none()
}

// An index of the graph.
fn built<K: KeptViews, L: Ledger>(
    alloc: Global,
    graph: &Graph,
    blank: Blank,
) -> Result<KeptIndex<K>, Fail>
    requires name { blank.name ≡ L.name }
    requires parts { blank.parts ≡ L.parts }
    requires some { 0 < blank.parts }
    ensures { IfOk result (λ index. IsReady (K.meaning_of index.kept) graph.now.graph) }
{
    let mut steps = Steps::<L>::new(blank);
    let mut index = KeptIndex::<K>::new(alloc)?;
    let view = graph.view(&mut steps);
    index.build(&view, 2)?;
    Ok(index)
}

// Prepares a change that alters the graph.
fn prepare<K: KeptViews, L: Ledger>(
    index: &mut KeptIndex<K>,
    graph: &Graph,
    change: &Change,
    blank: Blank,
) -> Result<(), Fail>
    requires name { blank.name ≡ L.name }
    requires parts { blank.parts ≡ L.parts }
    requires some { 0 < blank.parts }
    requires ready { IsReady (K.meaning_of index.old.kept) graph.now.graph }
    ensures { OnOk result (IsPrepared (K.meaning_of index.old.kept) (K.meaning_of index.new.kept) change.now graph.now.graph) }
{
    let Ok(Verdict::New) = judge(graph, change, &Limits::program()) else {
        return Err("not new".into());
    };
    let mut steps = Steps::<L>::new(blank);
    index.prepare_counted(graph, change, &mut steps)?;
    Ok(())
}

// Prepares a change, and cancels it.
fn prepare_in_vain<K: KeptViews>(
    index: &mut KeptIndex<K>,
    graph: &Graph,
    change: &Change,
) -> Result<(), Fail>
    requires ready { IsReady (K.meaning_of index.old.kept) graph.now.graph }
    ensures { OnOk result (IsReady (K.meaning_of index.new.kept) graph.now.graph) }
{
    prepare::<K, Brand>(index, graph, change, Blank::new(1))?;
    index.cancel();
    Ok(())
}

// Prepares a change, which isn't seen yet, and puts it in force.
fn prepare_and_commit<K: KeptViews>(
    rt: &impl Abort,
    index: &mut KeptIndex<K>,
    graph: &Graph,
    change: &Change,
) -> Result<(), Fail>
    requires ready { IsReady (K.meaning_of index.old.kept) graph.now.graph }
{
    prepare::<K, Brand>(index, graph, change, Blank::new(1))?;
    check_before(rt, index);
    index.commit();
    Ok(())
}

fn check_kept<K: KeptViews>(
    rt: &impl Abort,
    alloc: Global,
    index: &mut KeptIndex<K>,
    graph: &Graph,
    row: &Row,
) -> Result<(), Fail>
    requires ready { IsReady (K.meaning_of index.old.kept) graph.now.graph }
{
    let change = Change::one(alloc, Step::Link(row.edge.0, row.edge.1))?;
    prepare_in_vain(index, graph, &change)?;
    check_before(rt, index);
    prepare_and_commit(rt, index, graph, &change)?;
    check_after(rt, index, row);
    Ok(())
}

fn check_index<K: KeptViews>(
    rt: &impl Abort,
    alloc: Global,
    graph: &Graph,
    row: &Row,
) -> Result<(), Fail> {
    let mut index = built::<K, Brand>(alloc, graph, Blank::new(1))?;
    check_kept(rt, alloc, &mut index, graph, row)
}

// Two chains and an x, with these further edges.
fn graph_of<L: Ledger>(
    alloc: Global,
    further: &[(NodeId, NodeId)],
    blank: Blank,
) -> Result<Graph, Fail>
    requires name { blank.name ≡ L.name }
    requires parts { blank.parts ≡ L.parts }
    requires some { 0 < blank.parts }
{
    let mut steps = Steps::<L>::new(blank);
    two_chains(alloc, further, &mut steps)
}

// A build of the graph after the change comes to the same.
fn check_fresh<K: KeptViews>(
    rt: &impl Abort,
    alloc: Global,
    graph: &Graph,
    row: &Row,
) -> Result<(), Fail> {
    let index = built::<K, Brand>(alloc, graph, Blank::new(1))?;
    check_after(rt, &index, row);
    Ok(())
}

fn check_levels<K: KeptViews>(rt: &impl Abort, alloc: Global, row: &Row) -> Result<(), Fail> {
    let graph = graph_of::<Brand>(alloc, &[], Blank::new(1))?;
    check_index::<K>(rt, alloc, &graph, row)?;
    let linked = graph_of::<Brand>(alloc, &[row.edge], Blank::new(1))?;
    check_fresh::<K>(rt, alloc, &linked, row)
}

#[test]
fn a_further_parent_moves_nodes(rt: HostRuntime) -> Result<(), Fail> {
    check_levels::<KeptLevels<ByParents>>(&rt, rt.alloc(), PARENT)
}

#[test]
fn a_further_child_moves_nodes(rt: HostRuntime) -> Result<(), Fail> {
    check_levels::<KeptLevels<ByBoth>>(&rt, rt.alloc(), CHILD)
}
