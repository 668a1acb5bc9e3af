// The limits of a run.
ghost use Rattle.std.specs.Prelude.{◌≡◌, ◌≤◌, ◌^◌};

/// How much a run keeps. Each field is at most 2^30.
///
/// A load of a small graph, whose queries are short:
///
///     let few = Limits {
///         nodes: 1_000,
///         edges: 2_000,
///         labels: 100,
///         expr_bytes: 64,
///         expr_depth: 4,
///     };
///     let graph = load(alloc, &mut shelf, "name", &few)?;
#[derive(Clone, Copy)]
pub struct Limits {
    /// Node numbers ever allocated.
    pub nodes: u32,
    /// Edges present at one time.
    pub edges: u32,
    /// Labels ever seen.
    pub labels: u32,
    /// Bytes of a query's text.
    pub expr_bytes: u32,
    /// Brackets open at one time in a query's text.
    pub expr_depth: u32,
    ghost nodes_bounded: { nodes ≤ 2 ^ 30 },
    ghost edges_bounded: { edges ≤ 2 ^ 30 },
    ghost labels_bounded: { labels ≤ 2 ^ 30 },
    ghost expr_bytes_bounded: { expr_bytes ≤ 2 ^ 30 },
    ghost expr_depth_bounded: { expr_depth ≤ 2 ^ 30 },
}

impl Limits {
    ghost use Rattle.graph_spec.specs.ProgramLimits.{program_limits};

    /// The limits of the program: 2^21 node numbers, 2^22 edges, 2^20 labels, and query texts of
    /// 4,096 bytes and a depth of 64. O(1), no memory.
    pub fn program() -> Limits
        ensures { result ≡ program_limits }
    {
        Limits {
            nodes: 2_097_152,
            edges: 4_194_304,
            labels: 1_048_576,
            expr_bytes: 4_096,
            expr_depth: 64,
        }
    }
}
