// A graph with its edges reversed.
use label_graph::Digraph;

/// The graph with each edge reversed. Each read is O(1) where that of the graph is, no memory.
///
/// The nodes from which an edge leads to a member of a set:
///
///     let mirror = Mirror { graph: &view };
///     let parents = along(alloc, &mirror, Axis::Child, &set)?;
#[derive(Drop)]
pub struct Mirror<'g, G> {
    /// The graph whose edges are reversed.
    pub graph: &'g G,
}

impl<'g, G: Digraph> Digraph for Mirror<'g, G> {
    ghost span = { λ m. G.span m.graph.now };

    ghost label_at = { λ m. G.label_at m.graph.now };

    ghost edge = { λ m u v. G.edge m.graph.now v u };

    fn size(&self) -> u32 {
        self.graph.size()
    }

    fn is_node(&self, n: u32) -> bool {
        self.graph.is_node(n)
    }

    fn label(&self, n: u32) -> u32 {
        self.graph.label(n)
    }

    fn parents(&self, n: u32) -> &[u32] {
        self.graph.children(n)
    }

    fn children(&self, n: u32) -> &[u32] {
        self.graph.parents(n)
    }

    ghost below = { λ m n h. G.below m.graph.now n h };

    ghost ends = { λ m u v e. let b = G.ends m.graph.now v u e in (b.1, b.0) };
}
