// The key of a node over a level of a draft.
ghost use Rattle.std.specs.Prelude.{◌+◌, ◌<◌, ◌≤◌, OnOk, length};
ghost use Rattle.graph_spec.specs.Members.{at};
ghost use Rattle.graph_spec.specs.Shapes.{shape_of};
ghost use Rattle.bisim_spec.specs.declared.sides.Sides.TheVariants as sided;
ghost use Rattle.bisim_levels.specs.SidedKeys.{ListNeighbours, IsWrittenBy, on_side};
ghost use Rattle.graph_update.specs.PendingChanges.{graph_after};
ghost use Rattle.ak_family.specs.LevelDrafts.{blocks_shown, AreOver};
ghost use Rattle.level_update.specs.LevelCosts.{key_cost};

use ak_family::{AkDraft, AkFamily};
use bisim_levels::write_sided_key;
use bisim_spec::Sides;
use graph_update::After;
use px_base::{Memory, NodeId, Steps};
use quotient_moves::{read_children, read_parents};
use std::sync::ledger::Ledger;

// Lists the parents and the children of a node, each read once.
fn read_both<L: Ledger>(
    parents: &mut Vec<NodeId>,
    children: &mut Vec<NodeId>,
    after: &After<'_>,
    n: NodeId,
    steps: &mut Steps<L>,
) -> Result<(), Memory>
    ensures lists { OnOk result (ListNeighbours sided.Both (shape_of (graph_after after.now)) n (on_side parents.new.items children.new.items)) }
    ensures cost { steps.new ≤ steps.old + key_cost sided.Both after.now n }
{
    read_parents(parents, after, n, steps)?;
    read_children(children, after, n, steps)?;
    Ok(())
}

/// Lists the neighbours of a node on the sides that count, each read once.
pub(crate) fn read_neighbours<L: Ledger>(
    parents: &mut Vec<NodeId>,
    children: &mut Vec<NodeId>,
    sides: Sides,
    after: &After<'_>,
    n: NodeId,
    steps: &mut Steps<L>,
) -> Result<(), Memory>
    ensures lists { OnOk result (ListNeighbours sides (shape_of (graph_after after.now)) n (on_side parents.new.items children.new.items)) }
    ensures cost { steps.new ≤ steps.old + key_cost sides after.now n }
{
    match sides {
        Sides::Parents => read_parents(parents, after, n, steps),
        Sides::Both => read_both(parents, children, after, n, steps),
    }
}

/// Writes the key over a level of a node with these parents and children, whose own block has this number.
pub(crate) fn write_level_key(
    key: &mut Vec<u32>,
    family: &AkFamily,
    draft: &AkDraft,
    i: u32,
    sides: Sides,
    parents: &[NodeId],
    children: &[NodeId],
    own: u32,
) -> Result<(), Memory>
    requires over { AreOver family.now draft.now }
    requires level { i < length family.now }
    ensures { OnOk result (IsWrittenBy sides (at (blocks_shown family.now draft.now i)) (on_side parents.now children.now) own key.new.items) }
{
    write_sided_key(key, sides, parents, children, own, |n| {
        family.shown(draft, i, n)
    })?;
    Ok(())
}
