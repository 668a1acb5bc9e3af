// How much a graph has once some steps are made.
ghost use Rattle.std.specs.Prelude.{◌≡◌, ◌+◌, ◌≤◌, false};
ghost use Rattle.graph_spec.specs.Graphs.{IsGraph};
ghost use Rattle.graph_steps.specs.Counted.{AreCounts};

use label_graph::Graph;
use px_base::Limits;

/// Numbers given, edges and labels. There may be fewer edges and labels, where no limit on them is near.
#[derive(Clone, Copy, Drop)]
pub(crate) struct Counts {
    pub(crate) created: u32,
    pub(crate) edges: u32,
    pub(crate) labels: u32,
}

/// Whether edges and labels are counted one by one: only where so many steps could reach the limit.
#[derive(Clone, Copy, Drop)]
pub(crate) struct Exact {
    pub(crate) edges: bool,
    pub(crate) labels: bool,
}

/// What an accepted step comes to: how much there is after it, and whether it isn't idle.
#[derive(Clone, Copy, Drop)]
pub(crate) struct Taken {
    pub(crate) counts: Counts,
    pub(crate) alters: bool,
}

/// How much the graph has as it is.
pub(crate) fn counts_of(graph: &Graph) -> Counts
    ensures counts { (x : Exact) → AreCounts x result graph.now.graph }
    ensures graph { IsGraph graph.now.graph }
{
    Counts {
        created: graph.created(),
        edges: graph.edge_count(),
        labels: graph.labels().len(),
    }
}

// Whether that many more could reach the limit.
fn may_reach(count: u32, more: usize, limit: u32) -> bool
    ensures { result ≡ false → count + more ≤ limit }
{
    more > limit as usize || count as usize > limit as usize - more
}

/// What is counted for so many steps.
pub(crate) fn exact_for(counts: Counts, limits: &Limits, steps: usize) -> Exact
    ensures edges { result.edges ≡ false → counts.edges + steps ≤ limits.now.edges }
    ensures labels { result.labels ≡ false → counts.labels + steps ≤ limits.now.labels }
{
    Exact {
        edges: may_reach(counts.edges, steps, limits.edges),
        labels: may_reach(counts.labels, steps, limits.labels),
    }
}
