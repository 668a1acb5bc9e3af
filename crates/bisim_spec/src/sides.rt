// The two sides of a node, and which of them count.
ghost use Rattle.std.specs.Prelude.{◌≡◌};
ghost use Rattle.bisim_spec.specs.SideEdges.{edge_with};

/// On which side of a node, or of a block, its neighbours lie.
#[derive(Clone, Copy, Debug, PartialEq, Eq)]
pub enum Side {
    /// Where edges to it begin.
    Parents,
    /// Where edges from it end.
    Children,
}

impl Side {
    /// The edge that joins a neighbour on this side with what it is a neighbour of, from its start to its end. O(1), no memory.
    pub fn edge(self, neighbour: u32, own: u32) -> (u32, u32)
        ensures { result ≡ edge_with self neighbour own }
    {
        match self {
            Side::Parents => (neighbour, own),
            Side::Children => (own, neighbour),
        }
    }
}

/// By which neighbours an index tells nodes apart.
#[derive(Clone, Copy, Debug, PartialEq, Eq)]
pub enum Sides {
    /// By their parents, as the A(k)-index does (Kaushik et al., ICDE 2002).
    Parents,
    /// By their parents and their children, as the forward and backward index does (Kaushik et al., SIGMOD 2002).
    Both,
}
