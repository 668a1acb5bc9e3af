// Levels of small graphs.
ghost use Rattle.std.specs.Prelude.{◌≡◌, ◌<◌, ◌≤◌, ◌↔◌, IfOk, IsTrue, IsSome, length};
ghost use Rattle.graph_spec.specs.Shapes.{IsNode, shape_of};
ghost use Rattle.bisim_spec.specs.Bisimilarity.{Bis};
ghost use Rattle.ak_family.specs.LevelDrafts.{AreOver};

use ak_family::{AkDraft, AkFamily};
use bisim_spec::Sides;
use label_graph::GraphView;
use px_base::{Memory, NodeId, Steps};
use std::alloc::Global;
use std::marker::Brand;
use std::process::Abort;
use std::sync::ledger::{Blank, Ledger};
use std::test::Fail;
use test_graphs::{graph_from, two_chains};

// Whether two nodes are bisimilar to a level, by a family that is built for it.
fn is_bisimilar(
    alloc: Global,
    view: &GraphView<'_>,
    i: u32,
    u: NodeId,
    v: NodeId,
) -> Result<bool, Memory>
    requires few { i ≤ 8 }
    requires first { IsNode (shape_of view.now) u }
    requires second { IsNode (shape_of view.now) v }
    ensures { IfOk result (λ same. IsTrue same ↔ Bis (shape_of view.now) i u v) }
{
    let family = AkFamily::build(alloc, view, Sides::Parents, i)?;
    Ok(family.same(i, u, v))
}

// Whether the nodes' blocks at the greatest level are these.
fn has_blocks(family: &AkFamily, blocks: &[u32]) -> bool {
    let top = family.level(family.k());
    if top.numbers() as usize != blocks.len() {
        return false;
    }
    for n in 0..top.numbers() {
        if top.block_of(n) != Some(blocks[n as usize]) {
            return false;
        }
    }
    true
}

// Whether these are the nodes' blocks in the A(2)-index.
fn are_blocks(alloc: Global, view: &GraphView<'_>, blocks: &[u32]) -> Result<bool, Memory> {
    Ok(has_blocks(&AkFamily::build(alloc, view, Sides::Parents, 2)?, blocks))
}

// The blocks of the nodes of two chains where the x stands alone, and where an edge leads from it to the second one.
const APART: &[u32] = &[0, 1, 2, 0, 1, 2, 3];

const LINKED: &[u32] = &[0, 1, 2, 3, 4, 2, 5];

fn check_chains<L: Ledger>(rt: &impl Abort, alloc: Global, blank: Blank) -> Result<(), Fail>
    requires name { blank.name ≡ L.name }
    requires parts { blank.parts ≡ L.parts }
    requires some { 0 < blank.parts }
{
    let mut steps = Steps::<L>::new(blank);
    let chains = two_chains(alloc, &[], &mut steps)?;
    let apart = are_blocks(alloc, &chains.view(&mut steps), APART)?;
    let chains = two_chains(alloc, &[(6, 3)], &mut steps)?;
    let linked = are_blocks(alloc, &chains.view(&mut steps), LINKED)?;
    assert!(rt; apart && linked);
    Ok(())
}

#[test]
fn link_parts_chains(rt: HostRuntime) -> Result<(), Fail> {
    check_chains::<Brand>(&rt, rt.alloc(), Blank::new(1))
}

// Whether the draft shows this block, or none, for the key at level 1.
fn leads(family: &AkFamily, draft: &AkDraft, key: &[u32], b: Option<u32>) -> bool
    requires over { AreOver family.now draft.now }
    requires levels { length family.now ≡ 2 }
{
    family.find(draft, 1, key) == b
}

// A block for a key that none has is made, and is gone with the draft.
fn check_made(rt: &impl Abort, family: &AkFamily, draft: &mut AkDraft) -> Result<(), Memory>
    requires over { AreOver family.now draft.old }
    requires levels { length family.now ≡ 2 }
{
    let b = family.keyed_block(draft, 1, 1, &[1, 1])?;
    assert!(rt; leads(family, draft, &[1, 1], Some(b)));
    // Called for its contract: the family is keyed.
    let _known = family.k();
    draft.clear();
    assert!(rt; leads(family, draft, &[1, 1], None));
    Ok(())
}

// Over an empty draft the keys are those of the family.
fn check_keys(rt: &impl Abort, alloc: Global, family: &AkFamily) -> Result<(), Memory> {
    assert_eq!(rt; family.k(), 1);
    let mut draft = AkDraft::new(alloc, 1)?;
    assert_eq!(rt; family.find(&draft, 0, &[1]), Some(1));
    assert!(rt; leads(family, &draft, &[1, 0], Some(1)));
    assert!(rt; leads(family, &draft, &[1, 1], None));
    check_made(rt, family, &mut draft)
}

fn check_level(rt: &impl Abort, family: &AkFamily) {
    assert_eq!(rt; family.k(), 1);
    let level = family.level(1);
    assert!(rt; level.block_of(2).is_some());
    assert!(rt; level.block_of(3).is_some());
    assert!(rt; family.same(1, 2, 3));
    assert_eq!(rt; level.support(0, 1), 3);
}

// Two a's with links to b's: to the second b from one of them alone. What counts is the set of blocks.
fn check_family<L: Ledger>(rt: &impl Abort, alloc: Global, blank: Blank) -> Result<(), Fail>
    requires name { blank.name ≡ L.name }
    requires parts { blank.parts ≡ L.parts }
    requires some { 0 < blank.parts }
{
    let mut steps = Steps::<L>::new(blank);
    let graph = graph_from(alloc, b"aabb", &[(0, 2), (1, 2), (0, 3)], &mut steps)?;
    let family = AkFamily::build(alloc, &graph.view(&mut steps), Sides::Parents, 1)?;
    assert!(rt; has_blocks(&family, &[0, 0, 1, 1]));
    check_keys(rt, alloc, &family)?;
    check_level(rt, &family);
    Ok(())
}

#[test]
fn sets_of_parents(rt: HostRuntime) -> Result<(), Fail> {
    check_family::<Brand>(&rt, rt.alloc(), Blank::new(1))
}

// Two nodes with a loop each.
fn check_loops<L: Ledger>(rt: &impl Abort, alloc: Global, blank: Blank) -> Result<(), Fail>
    requires name { blank.name ≡ L.name }
    requires parts { blank.parts ≡ L.parts }
    requires some { 0 < blank.parts }
{
    let mut steps = Steps::<L>::new(blank);
    let loops = graph_from(alloc, b"aa", &[(0, 0), (1, 1)], &mut steps)?;
    assert!(rt; loops.is_live(0));
    assert!(rt; loops.is_live(1));
    let same = is_bisimilar(alloc, &loops.view(&mut steps), 3, 0, 1)?;
    assert!(rt; same);
    Ok(())
}

#[test]
fn loops_stay_together(rt: HostRuntime) -> Result<(), Fail> {
    check_loops::<Brand>(&rt, rt.alloc(), Blank::new(1))
}
