// The neighbours of a node, and its label.
ghost use Rattle.std.specs.Prelude.{◌≡◌, IsSome};
ghost use Rattle.graph_spec.specs.Members.{Lists};
ghost use Rattle.round_refinement.specs.NeighbourSides.{is_neighbour};

use bisim_spec::Side;
use label_graph::Digraph;

/// The neighbours of the node on one side, each once.
pub(crate) fn neighbours<'a, G: Digraph>(g: &'a G, side: Side, n: u32) -> &'a [u32]
    requires node { IsSome (G.label_at g.now n) }
    ensures { Lists (λ p. is_neighbour side (G.edge g.now) p n) result.now }
{
    match side {
        Side::Parents => g.parents(n),
        Side::Children => g.children(n),
    }
}

/// The number of a node's label, and `None` where the number is no node.
pub(crate) fn label_of<G: Digraph>(g: &G, n: u32) -> Option<u32>
    ensures { result ≡ G.label_at g.now n }
{
    if g.is_node(n) { Some(g.label(n)) } else { None }
}
