// The family.
ghost use Rattle.std.specs.Prelude.{◌≡◌, ◌+◌, ◌<◌, ◌≤◌, ◌↔◌, ℕ, Some, IfOk, IsSome, IsTrue, length, slice_get};
ghost use Rattle.graph_spec.specs.Shapes.{shape_of};
ghost use Rattle.graph_spec.specs.Members.{at};
ghost use Rattle.bisim_spec.specs.Partitions.{Agrees, Together};
ghost use Rattle.bisim_spec.specs.IndexGraphs.{ViewFits};
ghost use Rattle.quotient.specs.Quotients.{view_of};
ghost use Rattle.keyed_quotient.specs.KeyedQuotients.{AreKeyed, key_at};
ghost use Rattle.bisim_spec.specs.SidedLevels.{AtLevel};
ghost use Rattle.ak_family.specs.Families.{level_at, blocks_at, quotients_of, AreLabelKeys, AreNeighbourKeys, HaveSupportedKeys, IsKeyedFamily};

use crate::keyed::keyed_summary;
use crate::labelled_levels::{above, lowest};
use bisim_spec::Sides;
use keyed_quotient::KeyedSummary;
use label_graph::GraphView;
use px_base::{Memory, NodeId};
use quotient::{EdgeList, Summary};
use std::alloc::Global;
use std::marker::Model;

/// Levels 0 to k of bisimilarity of a graph, k at most 8, by parents as the A(0)- to A(k)-indexes have them, or by
/// parents and children. Level 0 has the nodes of one label in a block. Above it a block has the nodes that are together
/// one level below, and whose neighbours on the sides that count are in the same blocks there. Each block has a key,
/// which says this in numbers: the number of the label alone at level 0, and above it the own block one level below,
/// and then, rising, each once, the numbers for the blocks of the neighbours there (`write_sided_key` of `bisim_levels`).
///
/// The A(1)-index is a graph of its own:
///
///     let family = AkFamily::build(alloc, &graph.view(&mut steps), Sides::Parents, 2)?;
///     let blocks = eval(alloc, family.level(1), graph.labels(), &expr)?;
pub struct AkFamily {
    pub(crate) levels: Vec<KeyedSummary>,
}

impl Drop for AkFamily {
    // By hand, so that no crate above proves how the tables are dropped.
    fn drop(self) {
        let AkFamily { levels } = self;
        drop(levels);
    }
}

impl Model for AkFamily {
    ghost use Rattle.std.specs.Prelude.{List};
    ghost use Rattle.std.specs.Coded.{coded_list};
    ghost use Rattle.keyed_quotient.specs.KeyedQuotients.{KeyedQuotient, keyed_code};
    ghost use Rattle.ak_family.specs.Families.{IsFamily};

    ghost Value = { List KeyedQuotient };

    ghost coded = { coded_list keyed_code };

    ghost view = { λ f. f.levels.items };

    ghost invariant = { λ f. IsFamily f.levels.items };
}

impl AkFamily {
    /// The family of a graph, by the sides that count: with parents alone the A(0)- to A(k)-indexes, with both sides the
    /// bounded forward and backward indexes of levels 0 to k. The edges are listed once. Each level reads the list of
    /// edges once, and above level 0 each node's neighbours on these sides, whose blocks are sorted, except where parents
    /// alone count and there is exactly one. Expected O((k + 1) (n + m log m)) for n node numbers and m edges. It takes
    /// the memory of a quotient and a table of keys for each level, and while it runs 8 bytes an edge.
    pub fn build(
        alloc: Global,
        view: &GraphView<'_>,
        sides: Sides,
        k: u32,
    ) -> Result<AkFamily, Memory>
        requires few { k ≤ 8 }
        ensures count { IfOk result (λ f. length f ≡ k + 1) }
        ensures fits { IfOk result (λ f. (i : ℕ) → i ≤ k → ViewFits view.now (view_of (level_at f i).quotient)) }
        ensures agrees { IfOk result (λ f. (i : ℕ) → i ≤ k → Agrees (shape_of view.now) (blocks_at f i) (AtLevel sides (shape_of view.now) i)) }
        ensures label_keys { IfOk result (AreLabelKeys view.now) }
        ensures neighbour_keys { IfOk result (λ f. (i : ℕ) → i < k → AreNeighbourKeys sides view.now f i) }
        ensures supported { IfOk result (HaveSupportedKeys sides) }
    {
        // Called for its contract: there is a graph, so that neighbours are among its nodes.
        let _known = view.created();
        let edges = EdgeList::of(alloc, view)?;
        let (mut below, keys) = lowest(alloc, view)?;
        let mut levels = Vec::with_capacity(alloc, k as usize + 1)?;
        let level = keyed_summary(alloc, view, &edges, &below, keys)?;
        levels.push(level)?;
        for _ in 0..k {
            let (next, keys) = above(alloc, view, sides, &below)?;
            let upper = keyed_summary(alloc, view, &edges, &next, keys)?;
            levels.push(upper)?;
            below = next;
        }
        Ok(AkFamily { levels })
    }

    /// The greatest level: at most 8. O(1), no memory.
    pub fn k(&self) -> u32
        ensures count { length self.now ≡ result + 1 }
        ensures few { result ≤ 8 }
        ensures keyed { IsKeyedFamily self.now }
    {
        self.levels.len() as u32 - 1
    }

    /// The index of level i. O(1), no memory.
    pub fn level(&self, i: u32) -> &Summary
        requires level { i < length self.now }
        ensures quotient { result.now ≡ (level_at self.now i).quotient }
        ensures listed { slice_get (quotients_of self.now) i ≡ Some result.now }
        ensures keyed { AreKeyed result.now.blocks.labels (key_at (level_at self.now i).keys) }
    {
        self.levels[i as usize].summary()
    }

    /// Whether two nodes are in one block of the A(i)-index. O(1), no memory.
    pub fn same(&self, i: u32, u: NodeId, v: NodeId) -> bool
        requires level { i < length self.now }
        requires first { IsSome (at (blocks_at self.now i) u) }
        requires second { IsSome (at (blocks_at self.now i) v) }
        ensures { IsTrue result ↔ Together (blocks_at self.now i) u v }
    {
        let level = self.level(i);
        level.block_of(u) == level.block_of(v)
    }
}
