// Why a change is refused.
ghost use Rattle.std.specs.Prelude.{◌≡◌};

/// Why a change or a query is refused.
#[derive(Clone, Copy, Debug, PartialEq, Eq)]
pub enum Refusal {
    /// A named node isn't live.
    NoNode = 1,
    /// The edge isn't present.
    NoEdge = 2,
    /// A limit is reached.
    Limit = 4,
    /// The index isn't kept.
    NoIndex = 5,
}

impl Refusal {
    ghost use Rattle.graph_spec.specs.Refusals.{word_of};

    /// The word that is printed for it, as `no-node`. O(1), no memory.
    pub fn word(&self) -> &'static str
        ensures { result.now ≡ word_of self.now }
    {
        match self {
            Refusal::NoNode => "no-node",
            Refusal::NoEdge => "no-edge",
            Refusal::Limit => "limit",
            Refusal::NoIndex => "no-index",
        }
    }
}
