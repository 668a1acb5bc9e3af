// What the effects of a change make of the index, before blocks are split and merged.
ghost use Rattle.std.specs.Prelude.{◌≡◌, OnOk};
ghost use Rattle.graph_update.specs.PendingChanges.{graph_after};
ghost use Rattle.graph_effects.specs.Effects.{AreEffects};
ghost use Rattle.quotient_draft.specs.Drafts.{no_changes};
ghost use Rattle.one_update.specs.OneDrafts.{IsBefore, ShowsChange};

use crate::adding::add_nodes;
use crate::counting::{lower_edges, raise_edges};
use crate::leaving::leave_nodes;
use graph_effects::Effects;
use graph_update::After;
use px_base::Memory;
use quotient::Summary;
use quotient_draft::Draft;

/// Drafts the effects of a change: nodes that come are each in a further block, and edges lead between blocks as nodes
/// stand in them. It reads no neighbours, so it takes no step. `Memory` also comes past 2^31 blocks.
pub(crate) fn draft_effects(
    base: &Summary,
    draft: &mut Draft,
    after: &After<'_>,
    effects: &Effects,
) -> Result<(), Memory>
    requires before { IsBefore after.now base.now }
    requires empty { draft.old ≡ no_changes }
    requires effects { AreEffects after.now.before (graph_after after.now) effects.now }
    ensures changed { OnOk result (ShowsChange after.now.before after.now.change base.now draft.new) }
{
    add_nodes(base, draft, after, effects)?;
    lower_edges(base, draft, after, effects)?;
    leave_nodes(base, draft, after, effects)?;
    raise_edges(base, draft, after, effects)?;
    Ok(())
}
