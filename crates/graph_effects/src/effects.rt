// What a change makes of a graph in the end.
ghost use Rattle.std.specs.Prelude.{◌≡◌, IfOk};
ghost use Rattle.graph_update.specs.PendingChanges.{graph_after};
ghost use Rattle.graph_effects.specs.StepEffects.{ends_of};

use crate::lists::{FewEdges, FewNodes};
use crate::nodes::note_ends;
use bisim_spec::{Side, Sides};
use graph_update::After;
use px_base::{Memory, NodeId};
use std::alloc::Global;
use std::marker::Model;

/// What a change makes of a graph in the end, whatever its steps: the nodes and the edges that come and go, and the nodes
/// that get another label, each once; and the nodes at which it alters the graph. It is seen as its lists.
#[derive(Drop)]
pub struct Effects {
    pub(crate) came: FewNodes,
    pub(crate) gone: FewNodes,
    pub(crate) relabelled: FewNodes,
    pub(crate) lost: FewEdges,
    pub(crate) added: FewEdges,
    pub(crate) targets: FewNodes,
}

impl Model for Effects {
    ghost use Rattle.graph_effects.specs.Effects.{EffectLists, effects_code};

    ghost Value = { EffectLists };

    ghost coded = { effects_code };

    ghost view = { λ e. record {
      came = e.came.items;
      gone = e.gone.items;
      relabelled = e.relabelled.items;
      lost = e.lost.items;
      added = e.added.items;
      targets = e.targets.items;
    } };
}

impl Effects {
    /// The nodes that come. O(1), no memory.
    pub fn came(&self) -> &[NodeId]
        ensures { result.now ≡ self.now.came }
    {
        &self.came
    }

    /// The nodes that go. O(1), no memory.
    pub fn gone(&self) -> &[NodeId]
        ensures { result.now ≡ self.now.gone }
    {
        &self.gone
    }

    /// The nodes that get another label: they are nodes before and after. O(1), no memory.
    pub fn relabelled(&self) -> &[NodeId]
        ensures { result.now ≡ self.now.relabelled }
    {
        &self.relabelled
    }

    /// The edges that go, those of nodes that go among them, each from its beginning to its end. O(1), no memory.
    pub fn lost(&self) -> &[(NodeId, NodeId)]
        ensures { result.now ≡ self.now.lost }
    {
        &self.lost
    }

    /// The edges that come, those of nodes that come among them, each from its beginning to its end. O(1), no memory.
    pub fn added(&self) -> &[(NodeId, NodeId)]
        ensures { result.now ≡ self.now.added }
    {
        &self.added
    }

    /// The nodes at which the graph is altered: those that come, those that get another label, and those to which an edge
    /// comes or goes. They are nodes of the graph after the change. O(1), no memory.
    pub fn targets(&self) -> &[NodeId]
        ensures { result.now ≡ self.now.targets }
    {
        &self.targets
    }

    /// The nodes of the graph after the change at which what counts is altered: with parents alone the targets, with
    /// children too those at which an edge that comes or goes begins. A node may stand more than once among them. O(t) for
    /// t of them; it takes 4 bytes for each.
    pub fn ends(&self, alloc: Global, sides: Sides, after: &After<'_>) -> Result<FewNodes, Memory>
        ensures { IfOk result (λ ends. ends.items ≡ ends_of sides (graph_after after.now) self.now) }
    {
        let mut ends = FewNodes::from_slice(alloc, &self.targets)?;
        match sides {
            Sides::Parents => Ok(ends),
            Sides::Both => {
                note_ends(&mut ends, Side::Children, &self.lost, after)?;
                note_ends(&mut ends, Side::Children, &self.added, after)?;
                Ok(ends)
            }
        }
    }
}
