// The quotient by a level of bisimilarity, with the keys of its blocks.
ghost use Rattle.std.specs.Prelude.{◌≡◌, ◌≤◌, ◌^◌, ℕ, IfOk, length, slice_get};
ghost use Rattle.graph_spec.specs.Shapes.{shape_of};
ghost use Rattle.bisim_spec.specs.Partitions.{IsPartition};
ghost use Rattle.bisim_spec.specs.IndexGraphs.{ViewFits};
ghost use Rattle.bisim_levels.specs.Numbering.{AreBlocksBelow};
ghost use Rattle.key_table.specs.NumberedKeys.{AreDistinct};
ghost use Rattle.quotient.specs.Quotients.{view_of};
ghost use Rattle.quotient.specs.QuotientNeighbours.{AreListed};
ghost use Rattle.keyed_quotient.specs.KeyedQuotients.{AreKeyed, key_at};
ghost use Rattle.block_partition.specs.FilledTables.{SameBlocks};
ghost use Rattle.ak_family.specs.BlockLabels.{BlocksHaveListedLabels, HasTheirLabels};

use crate::labelled_levels::LabelledLevel;
use block_partition::fill;
use key_table::KeyTable;
use keyed_quotient::KeyedSummary;
use label_graph::GraphView;
use px_base::Memory;
use quotient::{EdgeList, Summary};
use std::alloc::Global;

/// The quotient by a level of bisimilarity, whose blocks have these keys.
pub(crate) fn keyed_summary(
    alloc: Global,
    view: &GraphView<'_>,
    edges: &EdgeList,
    labelled: &LabelledLevel,
    keys: KeyTable,
) -> Result<KeyedSummary, Memory>
    requires listed { AreListed view.now.edges edges.now }
    requires partition { IsPartition (shape_of view.now) labelled.now.block.items }
    requires labelled { BlocksHaveListedLabels view.now labelled.now.block.items labelled.now.labels.items }
    requires span { AreBlocksBelow labelled.now.block.items (length keys) }
    requires distinct { AreDistinct keys }
    requires count { length labelled.now.labels.items ≡ length keys }
    requires few { length labelled.now.labels.items ≤ 2 ^ 31 }
    ensures blocks { IfOk result (λ s. SameBlocks s.quotient.blocks.block_of labelled.now.block.items) }
    ensures fits { IfOk result (λ s. ViewFits view.now (view_of s.quotient)) }
    ensures labels { IfOk result (λ s. HasTheirLabels view.now s.quotient.blocks) }
    ensures keys { IfOk result (λ s. (b : ℕ) → key_at s.keys b ≡ slice_get keys b) }
    ensures keyed { IfOk result (λ s. AreKeyed s.quotient.blocks.labels (key_at s.keys)) }
{
    let blocks = fill(alloc, view.created(), &labelled.block, &labelled.labels)?;
    let summary = Summary::of_edges(alloc, blocks, edges)?;
    let level = KeyedSummary::new(alloc, summary, keys)?;
    // Called for its contract: exactly its blocks have keys.
    let _known = level.summary();
    Ok(level)
}
