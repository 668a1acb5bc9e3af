// Nodes that go.
ghost use Rattle.std.specs.Prelude.{◌<◌, ◌^◌, OnOk};
ghost use Rattle.graph_update.specs.PendingChanges.{graph_after};
ghost use Rattle.graph_effects.specs.Effects.{AreEffects};
ghost use Rattle.quotient_draft.specs.Basis.{IsOver};
ghost use Rattle.one_update.specs.OneDrafts.{IsBefore};
ghost use Rattle.one_update.specs.EffectDrafts.{IsNodeOut, EdgesHaveGone, NodesHaveGone};

use graph_effects::Effects;
use graph_update::After;
use px_base::{Memory, NodeId};
use quotient::Summary;
use quotient_draft::Draft;

// A node goes from its block.
fn leave_node(base: &Summary, draft: &mut Draft, n: NodeId) -> Result<(), Memory>
    requires over { IsOver base.now.blocks.block_of base.now.blocks.labels draft.old }
    requires small { n < 2 ^ 31 }
    ensures left { OnOk result (IsNodeOut base.now n draft.old draft.new) }
{
    draft.put(base, n, None)?;
    Ok(())
}

/// Takes the nodes that go out of their blocks. Their edges have gone already, so supports stay.
pub(crate) fn leave_nodes(
    base: &Summary,
    draft: &mut Draft,
    after: &After<'_>,
    effects: &Effects,
) -> Result<(), Memory>
    requires before { IsBefore after.now base.now }
    requires effects { AreEffects after.now.before (graph_after after.now) effects.now }
    requires start { EdgesHaveGone after.now effects.now base.now draft.old }
    ensures left { OnOk result (NodesHaveGone after.now effects.now base.now draft.new) }
{
    let gone = effects.gone();
    'leaves: for n in gone {
        leave_node(base, draft, *n)?;
    }
    Ok(())
}
