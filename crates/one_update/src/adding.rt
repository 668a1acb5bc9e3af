// Nodes that come.
ghost use Rattle.std.specs.Prelude.{◌<◌, ◌^◌, OnOk};
ghost use Rattle.graph_update.specs.PendingChanges.{graph_after};
ghost use Rattle.graph_effects.specs.Effects.{AreEffects};
ghost use Rattle.quotient_draft.specs.Basis.{IsOver};
ghost use Rattle.one_update.specs.OneDrafts.{IsBefore};
ghost use Rattle.one_update.specs.EffectDrafts.{IsNodePut, NothingDrafted, NodesHaveCome};

use graph_effects::Effects;
use graph_update::After;
use px_base::{Memory, NodeId};
use quotient::Summary;
use quotient_draft::Draft;

// A node comes into a further block with its label.
fn add_node(base: &Summary, draft: &mut Draft, n: NodeId, label: u32) -> Result<(), Memory>
    requires over { IsOver base.now.blocks.block_of base.now.blocks.labels draft.old }
    requires small { n < 2 ^ 31 }
    ensures added { OnOk result (IsNodePut base.now n label draft.old draft.new) }
{
    if draft.blocks(base) >= 1 << 31 {
        return Err(Memory);
    }
    let b = draft.new_block(base, label)?;
    draft.put(base, n, Some(b))?;
    Ok(())
}

/// Puts each node that comes into a further block with its label. None of the edges so far is at such a node, so supports
/// stay. `Memory` also comes past 2^31 blocks.
pub(crate) fn add_nodes(
    base: &Summary,
    draft: &mut Draft,
    after: &After<'_>,
    effects: &Effects,
) -> Result<(), Memory>
    requires before { IsBefore after.now base.now }
    requires effects { AreEffects after.now.before (graph_after after.now) effects.now }
    requires start { NothingDrafted after.now base.now draft.old }
    ensures added { OnOk result (NodesHaveCome after.now effects.now base.now draft.new) }
{
    // Called for its contract: numbers are small.
    let _known = after.created();
    let came = effects.came();
    'joins: for n in came {
        let label = after.label(*n);
        add_node(base, draft, *n, label)?;
    }
    Ok(())
}
