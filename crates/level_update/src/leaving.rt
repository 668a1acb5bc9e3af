// Nodes that go, at a level.
ghost use Rattle.std.specs.Prelude.{◌≡◌, ◌<◌, ◌^◌, OnOk, length};
ghost use Rattle.graph_update.specs.PendingChanges.{graph_after};
ghost use Rattle.graph_effects.specs.Effects.{AreEffects};
ghost use Rattle.ak_family.specs.LevelDrafts.{AreOver, AreSameBut};
ghost use Rattle.level_update.specs.LevelEffects.{AreLevelsBefore, IsNodeLeft, HasEdgesLowered, HasNodesLeft};

use ak_family::{AkDraft, AkFamily};
use graph_effects::Effects;
use graph_update::After;
use px_base::{Memory, NodeId};

// A node goes from its block of a level.
fn leave_node(family: &AkFamily, draft: &mut AkDraft, i: u32, n: NodeId) -> Result<(), Memory>
    requires over { AreOver family.now draft.old }
    requires level { i < length family.now }
    requires small { n < 2 ^ 31 }
    ensures left { OnOk result (IsNodeLeft family.now i n draft.old draft.new) }
    ensures others { AreSameBut i draft.old draft.new }
{
    family.put(draft, i, n, None)?;
    Ok(())
}

/// Takes the nodes that go out of their blocks of a level. Their edges have gone already, so supports stay.
pub(crate) fn leave_nodes(
    family: &AkFamily,
    draft: &mut AkDraft,
    i: u32,
    after: &After<'_>,
    effects: &Effects,
) -> Result<(), Memory>
    requires before { AreLevelsBefore after.now.before (graph_after after.now) family.now }
    requires effects { AreEffects after.now.before (graph_after after.now) effects.now }
    requires level { i < length family.now }
    requires start { HasEdgesLowered after.now effects.now family.now draft.old i }
    ensures left { OnOk result (HasNodesLeft after.now effects.now family.now draft.new i) }
    ensures others { AreSameBut i draft.old draft.new }
{
    // Called for its contract: numbers are small.
    let _known = after.created();
    let gone = effects.gone();
    'leaves: for n in gone {
        leave_node(family, draft, i, *n)?;
    }
    Ok(())
}
