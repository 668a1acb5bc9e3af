// The lowest level, by labels.
ghost use Rattle.std.specs.Prelude.{[], IfOk, length, slice_get};
ghost use Rattle.graph_spec.specs.Shapes.{shape_of};
ghost use Rattle.label_graph.specs.GraphViews.{label_number};
ghost use Rattle.key_table.specs.NumberedKeys.{AreDistinct};
ghost use Rattle.bisim_spec.specs.Bisimilarity.{SameLabel};
ghost use Rattle.bisim_spec.specs.Partitions.{Agrees};
ghost use Rattle.bisim_levels.specs.NeighbourSides.{no_neighbours};
ghost use Rattle.bisim_spec.specs.NodeKeys.{IsKey};
ghost use Rattle.bisim_levels.specs.Numbering.{AreNumbered, AreBlocksBelow, NumbersBy};

use crate::recent_keys::RecentKeys;
use crate::refining::Level;
use label_graph::{Digraph, GraphView};
use px_base::{Memory, NodeId};
use std::alloc::Global;

// The number of the key of a node's label alone, and `None` where the number is no node.
fn number_label(
    keys: &mut RecentKeys,
    view: &GraphView<'_>,
    n: NodeId,
) -> Result<Option<u32>, Memory>
    requires distinct { AreDistinct keys.old }
    ensures ok { IfOk result (λ number. NumbersBy (label_number view.now) (IsKey (label_number view.now) [] no_neighbours) n keys.old keys.new number) }
    ensures distinct { IfOk result (λ number. AreDistinct keys.new) }
{
    if view.is_node(n) {
        let label = view.label(n);
        let k = keys.intern_one(label)?;
        Ok(Some(k))
    } else {
        Ok(None)
    }
}

/// Level 0: nodes of one label together. The key of a block is the number of its label. Expected O(n) for n
/// node numbers; it takes 8 bytes a number, the table of keys, and 16 KiB while it runs.
pub fn label_level(alloc: Global, view: &GraphView<'_>) -> Result<Level, Memory>
    ensures agrees { IfOk result (λ l. Agrees (shape_of view.now) l.block.items (SameLabel (shape_of view.now))) }
    ensures numbered { IfOk result (λ l. AreNumbered (label_number view.now) [] no_neighbours l.block.items (slice_get l.keys)) }
    ensures span { IfOk result (λ l. AreBlocksBelow l.block.items (length l.keys)) }
    ensures distinct { IfOk result (λ l. AreDistinct l.keys) }
{
    let mut keys = RecentKeys::new(alloc)?;
    let mut block = Vec::with_capacity(alloc, view.size() as usize)?;
    for n in 0..view.size() {
        let number = number_label(&mut keys, view, n)?;
        block.push(number)?;
    }
    Ok(Level {
        block,
        keys: keys.into_table(),
    })
}
