// A node that comes into an empty graph, and is drafted into a block, moves to another block.
ghost use Rattle.std.specs.Prelude.{◌≡◌, ◌<◌, ◌∷◌, [], ℕ, List, IfOk};
ghost use Rattle.std.specs.FinSet as set;
ghost use Rattle.graph_spec.specs.Graphs.{empty_graph};
ghost use Rattle.change_spec.specs.Steps.{node};
ghost use Rattle.quotient.specs.Quotients.{AreSupports};
ghost use Rattle.graph_steps.specs.NewChanges.{IsNew};

use super::*;
use block_partition::Blocks;
use graph_steps::{Change, Step, Verdict, judge};
use graph_update::After;
use label_graph::{Graph, GraphView};
use px_base::{Limits, Steps, Text};
use quotient::Summary;
use quotient_draft::Draft;
use std::alloc::Global;
use std::marker::Brand;
use std::process::Abort;
use std::sync::ledger::{Blank, Ledger};
use std::test::Fail;

// Two blocks without members.
fn two_blocks(alloc: Global, view: &GraphView<'_>) -> Result<Summary, Fail>
    ensures blocks { IfOk result (λ s. s.blocks.block_of ≡ []) }
    ensures supports { IfOk result (λ s. AreSupports view.now.edges [] s.supports) }
{
    let mut blocks = Blocks::new(alloc)?;
    blocks.reserve(1, 2)?;
    blocks.new_block(0);
    blocks.new_block(0);
    let summary = Summary::of(alloc, blocks, view)?;
    Ok(summary)
}

// Node 0, which is new, is put into block 0, and moves to block 1.
fn check_move<L: Ledger>(
    rt: &impl Abort,
    alloc: Global,
    base: &Summary,
    graph: &Graph,
    change: &Change,
    steps: &mut Steps<L>,
) -> Result<(), Fail>
    requires new { IsNew change.now graph.now.graph }
    requires none { graph.now.graph ≡ empty_graph }
    requires comes { (t : List ℕ) × (change.now ≡ node t ∷ []) }
    requires blocks { base.now.blocks.block_of ≡ [] }
    requires supports { AreSupports set.empty [] base.now.supports }
{
    let after = After::new(graph, change);
    let mut draft = Draft::new(alloc)?;
    assert!(rt; draft.is_block(base, 0));
    draft.put(base, 0, Some(0))?;
    assert!(rt; draft.is_block(base, 1));
    assert!(rt; after.is_live(0));
    let mut neighbours = NodeNeighbours::new(alloc);
    move_node(base, &mut draft, &after, 0, 1, &mut neighbours, steps)?;
    assert!(rt; draft.block_of(base, 0) == Some(1));
    assert!(rt; neighbours.children().is_empty());
    Ok(())
}

fn check_new<L: Ledger>(rt: &impl Abort, alloc: Global, blank: Blank) -> Result<(), Fail>
    requires name { blank.name ≡ L.name }
    requires parts { blank.parts ≡ L.parts }
    requires some { 0 < blank.parts }
{
    let mut steps = Steps::<L>::new(blank);
    let graph = Graph::new(alloc)?;
    let change = Change::one(alloc, Step::Node(Text::from_bytes(alloc, b"a")?))?;
    let Ok(Verdict::New) = judge(&graph, &change, &Limits::program()) else {
        return Err("not new".into());
    };
    let base = two_blocks(alloc, &graph.view(&mut steps))?;
    check_move(rt, alloc, &base, &graph, &change, &mut steps)
}

#[test]
fn a_new_node_moves(rt: HostRuntime) -> Result<(), Fail> {
    check_new::<Brand>(&rt, rt.alloc(), Blank::new(1))
}
