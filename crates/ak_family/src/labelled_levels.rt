// Levels of bisimilarity, with the labels of their blocks.
ghost use Rattle.std.specs.Prelude.{◌≡◌, ◌≤◌, ◌^◌, [], IfOk, length, slice_get};
ghost use Rattle.graph_spec.specs.Shapes.{shape_of};
ghost use Rattle.label_graph.specs.GraphViews.{label_number};
ghost use Rattle.bisim_spec.specs.Bisimilarity.{SameLabel};
ghost use Rattle.graph_spec.specs.Members.{at};
ghost use Rattle.bisim_spec.specs.Partitions.{Agrees, IsPartition};
ghost use Rattle.bisim_levels.specs.NeighbourSides.{no_neighbours};
ghost use Rattle.bisim_spec.specs.Refinement.{IsNextLevel};
ghost use Rattle.bisim_levels.specs.Numbering.{AreNumbered, AreBlocksBelow};
ghost use Rattle.key_table.specs.NumberedKeys.{AreDistinct};
ghost use Rattle.bisim_spec.specs.SidedLevels.{AtLevel};
ghost use Rattle.ak_family.specs.BlockLabels.{BlocksHaveListedLabels, AreNumberedAbove};

use crate::labels::{look_up, own_numbers};
use bisim_levels::{label_level, next_level};
use bisim_spec::Sides;
use key_table::KeyTable;
use label_graph::GraphView;
use px_base::Memory;
use std::alloc::Global;

/// A level of bisimilarity, and the labels of its blocks. The keys, which go to the quotient by the level, aren't with it.
#[derive(Drop)]
pub(crate) struct LabelledLevel {
    /// The block of each node, and `None` where the number is no node.
    pub(crate) block: Vec<Option<u32>>,
    /// The number of each block's label.
    pub(crate) labels: Vec<u32>,
}

/// Level 0, and the keys of its blocks.
pub(crate) fn lowest(
    alloc: Global,
    view: &GraphView<'_>,
) -> Result<(LabelledLevel, KeyTable), Memory>
    ensures agrees { IfOk result (λ l. Agrees (shape_of view.now) l.0.block.items (SameLabel (shape_of view.now))) }
    ensures labelled { IfOk result (λ l. BlocksHaveListedLabels view.now l.0.block.items l.0.labels.items) }
    ensures numbered { IfOk result (λ l. AreNumbered (label_number view.now) [] no_neighbours l.0.block.items (slice_get l.1)) }
    ensures span { IfOk result (λ l. AreBlocksBelow l.0.block.items (length l.1)) }
    ensures distinct { IfOk result (λ l. AreDistinct l.1) }
    ensures count { IfOk result (λ l. length l.0.labels.items ≡ length l.1) }
    ensures few { IfOk result (λ l. length l.0.labels.items ≤ 2 ^ 31) }
{
    let level = label_level(alloc, view)?;
    let labels = own_numbers(alloc, &level.keys)?;
    let labelled = LabelledLevel {
        block: level.block,
        labels,
    };
    Ok((labelled, level.keys))
}

/// The level above a level, and the keys of its blocks.
pub(crate) fn above(
    alloc: Global,
    view: &GraphView<'_>,
    sides: Sides,
    below: &LabelledLevel,
) -> Result<(LabelledLevel, KeyTable), Memory>
    requires partition { IsPartition (shape_of view.now) below.now.block.items }
    requires labelled { BlocksHaveListedLabels view.now below.now.block.items below.now.labels.items }
    ensures agrees { IfOk result (λ l. IsNextLevel (AtLevel sides) (shape_of view.now) below.now.block.items l.0.block.items) }
    ensures labelled { IfOk result (λ l. BlocksHaveListedLabels view.now l.0.block.items l.0.labels.items) }
    ensures numbered { IfOk result (λ l. AreNumberedAbove sides view.now below.now.block.items l.0.block.items (slice_get l.1)) }
    ensures span { IfOk result (λ l. AreBlocksBelow l.0.block.items (length l.1)) }
    ensures distinct { IfOk result (λ l. AreDistinct l.1) }
    ensures count { IfOk result (λ l. length l.0.labels.items ≡ length l.1) }
    ensures few { IfOk result (λ l. length l.0.labels.items ≤ 2 ^ 31) }
{
    let level = next_level(alloc, view, sides, &below.block)?;
    let own = own_numbers(alloc, &level.keys)?;
    let labels = look_up(alloc, &below.labels, &own)?;
    let labelled = LabelledLevel {
        block: level.block,
        labels,
    };
    Ok((labelled, level.keys))
}
