// Two chains that are alike, until an edge leads to the second from a single node, with a third chain behind that node
// and without.
ghost use Rattle.std.specs.Prelude.{◌≡◌, ◌∷◌, [], ◌<◌, ◌^◌, IfOk};
ghost use Rattle.change_spec.specs.Steps.{link};
ghost use Rattle.bisim_spec.specs.Fits.{FitsOne};
ghost use Rattle.graph_steps.specs.NewChanges.{IsNew};
ghost use Rattle.quotient.specs.Quotients.{view_of};
ghost use Rattle.quotient_draft.specs.Basis.{IsOver};
ghost use Rattle.quotient_draft.specs.Drafts.{no_changes};
ghost use Rattle.one_update.specs.OneDrafts.{IsBefore};

use super::*;
use crate::linking::draft_link;
use graph_steps::{Change, Step, Verdict, judge};
use graph_update::After;
use label_graph::Graph;
use one_index::OneIndex;
use px_base::{Bits, Limits, Memory, NodeId, Steps};
use quotient::Summary;
use quotient_draft::Draft;
use std::alloc::Global;
use std::marker::Brand;
use std::process::Abort;
use std::sync::ledger::{Blank, Ledger};
use std::test::Fail;
use test_graphs::graph_from;

// The least node that is in the block of this one as shown.
fn first_beside(base: &Summary, draft: &Draft, n: NodeId) -> NodeId
    requires over { IsOver base.now.blocks.block_of base.now.blocks.labels draft.now }
{
    let own = draft.block_of(base, n);
    for m in 0..n {
        if draft.block_of(base, m) == own {
            return m;
        }
    }
    n
}

// Whether just these are together as shown: for each node the least one that is together with it.
fn is_shown(base: &Summary, draft: &Draft, firsts: &[NodeId]) -> bool
    requires over { IsOver base.now.blocks.block_of base.now.blocks.labels draft.now }
{
    for i in 0..firsts.len() {
        let Ok(n) = u32::try_from(i) else {
            return false;
        };
        if first_beside(base, draft, n) != firsts[i] {
            return false;
        }
    }
    true
}

// Whether these are the only parent and the only child of a block as shown.
fn are_beside(base: &Summary, draft: &Draft, parent: u32, b: u32, child: u32) -> bool {
    draft.next_parent(base, b, 0) == Some(parent)
        && draft
            .next_parent(base, b, parent.saturating_add(1))
            .is_none()
        && draft.next_child(base, b, 0) == Some(child)
        && draft.next_child(base, b, child.saturating_add(1)).is_none()
}

// Whether a block has just this member as shown.
fn is_alone(base: &Summary, draft: &Draft, b: u32, n: NodeId) -> bool
    requires over { IsOver base.now.blocks.block_of base.now.blocks.labels draft.now }
{
    let mut members = draft.members(base, b);
    members.next() == Some(n) && members.next().is_none()
}

// Whether the first chain is one of blocks as shown, and its second node alone in its own.
fn is_chain(base: &Summary, draft: &Draft) -> bool
    requires over { IsOver base.now.blocks.block_of base.now.blocks.labels draft.now }
{
    let (Some(a), Some(b), Some(c)) = (
        draft.block_of(base, 0),
        draft.block_of(base, 1),
        draft.block_of(base, 2),
    ) else {
        return false;
    };
    are_beside(base, draft, a, b, c) && is_alone(base, draft, b, 1)
}

// For each node the least one that is together with it: before the split, behind it, and behind the merge.
type Firsts<'a> = [&'a [NodeId]; 3];

// The set of one number.
fn just(alloc: Global, n: NodeId) -> Result<Bits, Memory>
    requires small { n < 2 ^ 30 }
    ensures { IfOk result (λ set. set.members ≡ n ∷ []) }
{
    let mut set = Bits::new(alloc, n + 1)?;
    set.insert(n);
    Ok(set)
}

// Splits and merges for an edge that comes, and tells whether the blocks shown are these.
fn are_parted<L: Ledger>(
    alloc: Global,
    base: &Summary,
    draft: &mut Draft,
    after: &After<'_>,
    edge: (NodeId, NodeId),
    firsts: &Firsts<'_>,
    steps: &mut Steps<L>,
) -> Result<bool, Memory>
    requires before { IsBefore after.now base.now }
    requires empty { draft.old ≡ no_changes }
    requires links { after.now.change ≡ link edge.0 edge.1 ∷ [] }
    requires small { edge.1 < 2 ^ 30 }
{
    let targets = just(alloc, edge.1)?;
    draft_link(base, draft, after, edge.0, edge.1)?;
    let before = is_shown(base, draft, firsts[0]);
    split(alloc, base, draft, after, &targets, steps)?;
    let parted = is_shown(base, draft, firsts[1]);
    merge(alloc, base, draft, after, &targets, steps)?;
    let merged = is_shown(base, draft, firsts[2]);
    Ok(before && parted && merged && is_chain(base, draft))
}

// Whether the edge that the change brings does that.
fn is_parting<L: Ledger>(
    alloc: Global,
    graph: &Graph,
    base: &Summary,
    change: &Change,
    firsts: &Firsts<'_>,
    steps: &mut Steps<L>,
) -> Result<bool, Memory>
    requires fits { FitsOne graph.now.graph (view_of base.now) }
    requires new { IsNew change.now graph.now.graph }
    requires links { change.now ≡ link 6 3 ∷ [] }
{
    // Called for their contracts: nodes and edges are few.
    let _known = graph.created();
    let _known = graph.edge_count();
    let after = After::new(graph, change);
    let mut draft = Draft::new(alloc)?;
    are_parted(alloc, base, &mut draft, &after, (6, 3), firsts, steps)
}

fn check_link<L: Ledger>(
    rt: &impl Abort,
    alloc: Global,
    graph: &Graph,
    base: &Summary,
    firsts: &Firsts<'_>,
    steps: &mut Steps<L>,
) -> Result<(), Fail>
    requires fits { FitsOne graph.now.graph (view_of base.now) }
{
    let change = Change::one(alloc, Step::Link(6, 3))?;
    let Ok(Verdict::New) = judge(graph, &change, &Limits::program()) else {
        return Err("not new".into());
    };
    let parted = is_parting(alloc, graph, base, &change, firsts, steps)?;
    assert!(rt; parted);
    Ok(())
}

fn check_chains<L: Ledger>(
    rt: &impl Abort,
    alloc: Global,
    labels: &[u8],
    edges: &[(NodeId, NodeId)],
    firsts: &Firsts<'_>,
    blank: Blank,
) -> Result<(), Fail>
    requires name { blank.name ≡ L.name }
    requires parts { blank.parts ≡ L.parts }
    requires some { 0 < blank.parts }
{
    let mut steps = Steps::<L>::new(blank);
    let graph = graph_from(alloc, labels, edges, &mut steps)?;
    let base = OneIndex::build(alloc, &graph.view(&mut steps))?;
    check_link(rt, alloc, &graph, &base, firsts, &mut steps)
}

// Each node is alone then.
#[test]
fn chains_come_apart(rt: HostRuntime) -> Result<(), Fail> {
    let edges = &[(0, 1), (1, 2), (3, 4), (4, 5)];
    let firsts: Firsts<'_> = [
        &[0, 1, 2, 0, 1, 2, 6],
        &[0, 1, 2, 3, 4, 5, 6],
        &[0, 1, 2, 3, 4, 5, 6],
    ];
    check_chains::<Brand>(&rt, rt.alloc(), b"abcabcx", edges, &firsts, Blank::new(1))
}

// The second chain comes to the third.
#[test]
fn chains_come_together(rt: HostRuntime) -> Result<(), Fail> {
    let edges = &[(0, 1), (1, 2), (3, 4), (4, 5), (6, 7), (7, 8), (8, 9)];
    let firsts: Firsts<'_> = [
        &[0, 1, 2, 0, 1, 2, 6, 7, 8, 9],
        &[0, 1, 2, 3, 4, 5, 6, 7, 8, 9],
        &[0, 1, 2, 3, 4, 5, 6, 3, 4, 5],
    ];
    check_chains::<Brand>(
        &rt,
        rt.alloc(),
        b"abcabcxabc",
        edges,
        &firsts,
        Blank::new(1),
    )
}
