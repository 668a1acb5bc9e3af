// Levels of small graphs.
ghost use Rattle.std.specs.Prelude.{◌≡◌, ◌<◌};

use bisim_levels::{Level, label_level, next_level};
use bisim_spec::Sides;
use label_graph::GraphView;
use px_base::{Memory, Steps};
use std::alloc::Global;
use std::marker::Brand;
use std::process::Abort;
use std::sync::ledger::{Blank, Ledger};
use std::test::Fail;
use test_graphs::{graph_from, two_chains};

// Whether each node has the block of the same place.
fn is_parted(block: &[Option<u32>], numbers: &[u32]) -> bool {
    block.len() == numbers.len() && block.iter().zip(numbers).all(|(b, n)| *b == Some(*n))
}

// The level of labels, and the two above it.
fn three_levels(alloc: Global, view: &GraphView<'_>) -> Result<(Level, Level, Level), Memory> {
    let labels = label_level(alloc, view)?;
    let first = next_level(alloc, view, Sides::Parents, &labels.block)?;
    let second = next_level(alloc, view, Sides::Parents, &first.block)?;
    Ok((labels, first, second))
}

fn check_levels(rt: &impl Abort, labels: &Level, first: &Level, second: &Level) {
    assert!(rt; is_parted(&labels.block, &[0, 1, 2, 0, 1, 2, 3]));
    assert!(rt; is_parted(&first.block, &[0, 1, 2, 3, 1, 2, 4]));
    assert!(rt; is_parted(&second.block, &[0, 1, 2, 3, 4, 2, 5]));
}

// With an x in front of the second of two chains, each level parts one more pair.
fn check_chains<L: Ledger>(rt: &impl Abort, alloc: Global, blank: Blank) -> Result<(), Fail>
    requires name { blank.name ≡ L.name }
    requires parts { blank.parts ≡ L.parts }
    requires some { 0 < blank.parts }
{
    let mut steps = Steps::<L>::new(blank);
    let chains = two_chains(alloc, &[(6, 3)], &mut steps)?;
    let (labels, first, second) = three_levels(alloc, &chains.view(&mut steps))?;
    check_levels(rt, &labels, &first, &second);
    Ok(())
}

#[test]
fn each_level_parts_more(rt: HostRuntime) -> Result<(), Fail> {
    check_chains::<Brand>(&rt, rt.alloc(), Blank::new(1))
}

// The first level over parents, and the one over both sides.
fn first_levels(alloc: Global, view: &GraphView<'_>) -> Result<(Level, Level), Memory> {
    let labels = label_level(alloc, view)?;
    let parents = next_level(alloc, view, Sides::Parents, &labels.block)?;
    let both = next_level(alloc, view, Sides::Both, &labels.block)?;
    Ok((parents, both))
}

fn check_both(rt: &impl Abort, parents: &Level, both: &Level) {
    assert!(rt; is_parted(&parents.block, &[0, 1, 0]));
    assert_eq!(rt; parents.keys.len(), 2);
    assert_eq!(rt; parents.keys.find(&[1, 0]), Some(1));
    assert!(rt; is_parted(&both.block, &[0, 1, 2]));
    assert_eq!(rt; both.keys.find(&[0, 3]), Some(0));
    assert_eq!(rt; both.keys.find(&[1, 0]), Some(1));
}

fn check_children<L: Ledger>(rt: &impl Abort, alloc: Global, blank: Blank) -> Result<(), Fail>
    requires name { blank.name ≡ L.name }
    requires parts { blank.parts ≡ L.parts }
    requires some { 0 < blank.parts }
{
    let mut steps = Steps::<L>::new(blank);
    // an a with a child b, and an a without
    let graph = graph_from(alloc, b"aba", &[(0, 1)], &mut steps)?;
    let (parents, both) = first_levels(alloc, &graph.view(&mut steps))?;
    check_both(rt, &parents, &both);
    Ok(())
}

#[test]
fn children_tell_more_apart(rt: HostRuntime) -> Result<(), Fail> {
    check_children::<Brand>(&rt, rt.alloc(), Blank::new(1))
}
