// The index graph of a partition.
ghost use Rattle.std.specs.Prelude.{◌≡◌, ◌<◌, ◌≤◌, ◌^◌, ℕ, Some, None, true, is_some, IsSome, IfOk, IfSome, length};
ghost use Rattle.graph_spec.specs.Members.{Lists, at};
ghost use Rattle.block_partition.specs.LabelledPartitions.{is_member, member_count, block_count};
ghost use Rattle.bisim_spec.specs.Supports.{support};
ghost use Rattle.bisim_spec.specs.IndexGraphs.{support_at};
ghost use Rattle.quotient.specs.Quotients.{AreSupports, pair_count, is_adjacent, HasShapeOfView};

use crate::block_edges::BlockEdges;
use crate::counting::count_edges;
use crate::edges::EdgeList;
use crate::graph_edges::count_graph;
use block_partition::{Blocks, Members};
use label_graph::{Digraph, GraphView};
use px_base::{Memory, NodeId};
use std::alloc::Global;
use std::marker::Model;

/// The quotient of a graph by a partition of its nodes: the blocks, and the support of each pair of
/// blocks, which is the number of edges from a member of the first to a member of the second. As a
/// graph its nodes are the blocks, and edges join the pairs that have support: the index graph of the
/// partition.
///
/// The index graph of a partition, and how many edges lead from block 0 to block 1:
///
///     let summary = Summary::of(alloc, blocks, &graph.view(&mut steps))?;
///     let edges = summary.support(0, 1);
pub struct Summary {
    pub(crate) blocks: Blocks,
    pub(crate) block_edges: BlockEdges,
}

impl Drop for Summary {
    // By hand, so that no crate above proves how the tables are dropped.
    fn drop(self) {
        let Summary {
            blocks,
            block_edges,
        } = self;
        drop(blocks);
        drop(block_edges);
    }
}

impl Model for Summary {
    ghost use Rattle.quotient.specs.Quotients.{Quotient, quotient_code};

    ghost Value = { Quotient };

    ghost coded = { quotient_code };

    ghost use Rattle.quotient.specs.QuotientNeighbours.{IsSoundQuotient};
    ghost use Rattle.quotient.specs.QuotientTables.{reserved_in};

    ghost view = { λ s. record {
      blocks = s.blocks;
      supports = s.block_edges.supports.pairs;
      reserved = reserved_in s.block_edges.supports s.block_edges.children s.block_edges.parents;
    } };

    ghost invariant = { λ s. IsSoundQuotient s.blocks s.block_edges.supports.pairs s.block_edges.children.lists s.block_edges.parents.lists };
}

impl Summary {
    /// The quotient of a graph by a partition of its nodes. Where memory runs out, the blocks are dropped. Expected
    /// O(n + `span` + m) for n node numbers and m edges; it takes the memory of `of_edges`.
    pub fn of(alloc: Global, blocks: Blocks, view: &GraphView<'_>) -> Result<Summary, Memory>
        ensures blocks { IfOk result (λ s. s.blocks ≡ blocks) }
        ensures supports { IfOk result (λ s. AreSupports view.now.edges blocks.block_of s.supports) }
    {
        let block_edges = count_graph(alloc, &blocks, view, true)?;
        Ok(Summary {
            blocks,
            block_edges,
        })
    }

    /// The same, in less memory: 8 bytes less for each pair with support. It serves a quotient that is only read, since
    /// a pair that loses its support is searched for in the lists of its two blocks.
    pub fn of_fixed(alloc: Global, blocks: Blocks, view: &GraphView<'_>) -> Result<Summary, Memory>
        ensures blocks { IfOk result (λ s. s.blocks ≡ blocks) }
        ensures supports { IfOk result (λ s. AreSupports view.now.edges blocks.block_of s.supports) }
    {
        let block_edges = count_graph(alloc, &blocks, view, false)?;
        Ok(Summary {
            blocks,
            block_edges,
        })
    }

    /// The quotient by a partition, from a list of edges: the support of a pair of blocks is the number of
    /// edges of the list from a member of the first to a member of the second. Where memory runs out, the blocks
    /// are dropped. Expected O(`span` + m) for m edges; it takes memory for each pair with support, for the list of
    /// neighbours of each block number, and 32 KiB while it runs.
    pub fn of_edges(alloc: Global, blocks: Blocks, edges: &EdgeList) -> Result<Summary, Memory>
        ensures blocks { IfOk result (λ s. s.blocks ≡ blocks) }
        ensures supports { IfOk result (λ s. (a b : ℕ) → support_at s.supports a b ≡ support edges.now blocks.block_of a b) }
    {
        let block_edges = count_edges(alloc, &blocks, edges.as_slice())?;
        Ok(Summary {
            blocks,
            block_edges,
        })
    }

    /// The block of a node, and none where it has none. O(1), no memory.
    pub fn block_of(&self, n: NodeId) -> Option<u32>
        ensures block { result ≡ at self.now.blocks.block_of n }
        ensures live { IfSome result (λ b. IsSome (at self.now.blocks.labels b)) }
    {
        self.blocks.block_of(n)
    }

    /// Whether the number is that of a block. A number that is none has no members. O(1), no memory.
    pub fn is_block(&self, b: u32) -> bool
        ensures block { result ≡ is_some (at self.now.blocks.labels b) }
        ensures live { (n : ℕ) → at self.now.blocks.block_of n ≡ Some b → result ≡ true }
    {
        b < self.blocks.span() && self.blocks.is_block(b)
    }

    /// The numbers of the blocks, each once, in no stated order. O(1), no memory.
    pub fn live(&self) -> &[u32]
        ensures blocks { Lists (λ b. is_some (at self.now.blocks.labels b)) result.now }
        ensures count { length result.now ≡ block_count self.now.blocks }
    {
        self.blocks.live()
    }

    /// The least number from this one on that is no block. O(1), no memory.
    pub fn next_free(&self, from: u32) -> u32
        ensures free { at self.now.blocks.labels result ≡ None }
        ensures from { from ≤ result }
        ensures passed { (b : ℕ) → from ≤ b → b < result → IsSome (at self.now.blocks.labels b) }
    {
        self.blocks.next_free(from)
    }

    /// The members of a block, each once, in no stated order. O(1) for the call and for each member, no memory.
    pub fn extent(&self, b: u32) -> Members<'_>
        requires block { IsSome (at self.now.blocks.labels b) }
        ensures { Lists (is_member self.now.blocks b) result }
    {
        self.blocks.members(b)
    }

    /// How many members a block has. O(1), no memory.
    pub fn member_count(&self, b: u32) -> u32
        requires block { IsSome (at self.now.blocks.labels b) }
        ensures { result ≡ member_count self.now.blocks b }
    {
        self.blocks.member_count(b)
    }

    /// How many edges lead from a member of `a` to a member of `b`; none where one of them is no block.
    /// Expected O(1), no memory.
    pub fn support(&self, a: u32, b: u32) -> u32
        ensures { result ≡ support_at self.now.supports a b }
    {
        self.block_edges.supports.get(a, b)
    }

    /// How many blocks there are: at most 2^31. O(1), no memory.
    pub fn blocks(&self) -> u32
        ensures count { result ≡ block_count self.now.blocks }
        ensures few { result ≤ 2 ^ 31 }
        ensures shape { HasShapeOfView self.now }
    {
        self.blocks.count()
    }

    /// How many pairs of blocks have support. O(1), no memory.
    pub fn pairs(&self) -> u64
        ensures { result ≡ pair_count self.now.supports }
    {
        self.block_edges.supports.pairs() as u64
    }

    /// The length of the list of blocks: at most 2^31. Numbers past its end have no block. O(1), no memory.
    pub fn numbers(&self) -> u32
        ensures count { result ≡ length self.now.blocks.block_of }
        ensures few { result ≤ 2 ^ 31 }
    {
        self.blocks.numbers()
    }
}

impl Digraph for Summary {
    ghost use Rattle.std.specs.Prelude.{length};
    ghost use Rattle.graph_spec.specs.Members.{at};
    ghost use Rattle.quotient.specs.Quotients.{is_adjacent};
    ghost use Rattle.quotient.specs.DigraphLaws.{below_span, ends_live};

    ghost span = { λ q. length q.blocks.labels };

    ghost label_at = { λ q. at q.blocks.labels };

    ghost edge = { is_adjacent };

    fn size(&self) -> u32 {
        self.blocks.span()
    }

    fn is_node(&self, b: u32) -> bool {
        self.blocks.is_block(b)
    }

    fn label(&self, b: u32) -> u32 {
        self.blocks.label(b)
    }

    fn parents(&self, b: u32) -> &[u32] {
        self.block_edges.parents.get(b)
    }

    fn children(&self, b: u32) -> &[u32] {
        self.block_edges.children.get(b)
    }

    ghost below = { below_span };

    ghost ends = { ends_live };
}
