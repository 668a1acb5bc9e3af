// The index graph of the coarsest partition that is stable under parents and under children.
ghost use Rattle.std.specs.Prelude.{IfOk};
ghost use Rattle.bisim_spec.specs.Fits.{FitsFb};
ghost use Rattle.quotient.specs.Quotients.{view_of};

use coarsest_partition::full_bisimulation_both_ways;
use label_graph::GraphView;
use px_base::Memory;
use quotient::Summary;
use std::alloc::Global;

/// The forward and backward index of a view.
pub(crate) fn summary_of_view(alloc: Global, view: &GraphView<'_>) -> Result<Summary, Memory>
    ensures { IfOk result (λ s. FitsFb view.now (view_of s)) }
{
    let blocks = full_bisimulation_both_ways(alloc, view)?;
    let summary = Summary::of_fixed(alloc, blocks, view)?;
    Ok(summary)
}
