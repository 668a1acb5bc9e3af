// A graph as queries and indexes read it.
ghost use Rattle.std.specs.Prelude.{◌≡◌, ◌<◌, ℕ, Bool, Option, Some, is_some, IsTrue, IsSome};
ghost use Rattle.graph_spec.specs.Members.{Lists};

/// A directed graph whose nodes are numbers and whose labels are numbers of a table. Each read is O(1), no memory: a
/// list is borrowed where it lies.
///
/// Each edge of any such graph:
///
///     for n in 0..g.size() {
///         if g.is_node(n) {
///             for child in g.children(n) {
///                 take(n, *child);
///             }
///         }
///     }
pub trait Digraph {
    /// The nodes have numbers below it.
    ghost span: { Self → ℕ };

    /// The number of a node's label, and none where the number is no node.
    ghost label_at: { Self → ℕ → Option ℕ };

    /// Whether an edge leads from the first node to the second.
    ghost edge: { Self → ℕ → ℕ → Bool };

    /// The nodes have numbers below it. O(1), no memory.
    fn size(&self) -> u32
        ensures { result ≡ span self.now };

    /// Whether the number is that of a node. O(1), no memory.
    fn is_node(&self, n: u32) -> bool
        ensures { result ≡ is_some (label_at self.now n) };

    /// The number of the node's label. O(1), no memory.
    fn label(&self, n: u32) -> u32
        requires { IsSome (label_at self.now n) }
        ensures { label_at self.now n ≡ Some result };

    /// The nodes from which an edge leads to this one, each once, in no stated order. O(1), no memory.
    fn parents(&self, n: u32) -> &[u32]
        requires { IsSome (label_at self.now n) }
        ensures { Lists (λ u. edge self.now u n) result.now };

    /// The nodes to which an edge leads from this one, each once, in no stated order. O(1), no memory.
    fn children(&self, n: u32) -> &[u32]
        requires { IsSome (label_at self.now n) }
        ensures { Lists (edge self.now n) result.now };

    /// Nodes are below the size.
    ghost below: { (g : Self) (n : ℕ) → IsSome (label_at g n) → n < span g };

    /// Edges lead from nodes to nodes.
    ghost ends: { (g : Self) (u v : ℕ) → IsTrue (edge g u v) → IsSome (label_at g u) × IsSome (label_at g v) };
}
