// The level above a level of bisimilarity.
ghost use Rattle.std.specs.Prelude.{ℕ, List, IsSome, IfOk, length, slice_get};
ghost use Rattle.graph_spec.specs.Graphs.{IsGraph};
ghost use Rattle.graph_spec.specs.Shapes.{shape_of};
ghost use Rattle.label_graph.specs.GraphViews.{label_number};
ghost use Rattle.key_table.specs.NumberedKeys.{AreDistinct, Interns};
ghost use Rattle.graph_spec.specs.Members.{at};
ghost use Rattle.bisim_spec.specs.Partitions.{IsPartition};
ghost use Rattle.bisim_spec.specs.SidedLevels.{AtLevel};
ghost use Rattle.bisim_spec.specs.NodeKeys.{IsWritten};
ghost use Rattle.bisim_spec.specs.Refinement.{IsNextLevel};
ghost use Rattle.bisim_levels.specs.Numbering.{AreNumberedBy, AreBlocksBelow, NumbersBy};
ghost use Rattle.bisim_levels.specs.SidedKeys.{on_side, IsWrittenBy, IsSidedKey};

use crate::keys::{block_of, single_block};
use crate::recent_keys::RecentKeys;
use bisim_spec::Sides;
use key_table::KeyTable;
use label_graph::{Digraph, GraphView};
use px_base::{Memory, NodeId};
use std::alloc::Global;

/// A partition of the nodes, whose blocks are numbered by the keys of their members.
///
/// Level 0, and the level above it:
///
///     let lowest = label_level(alloc, &view)?;
///     let next = next_level(alloc, &view, Sides::Parents, &lowest.block)?;
#[derive(Drop)]
pub struct Level {
    /// The block of each node, and `None` where the number is no node.
    pub block: Vec<Option<u32>>,
    /// The key of each block.
    pub keys: KeyTable,
}

// The number of the key of a node with these parents, which alone count, and whose own block has this number. In a
// graph of triples the node of each triple has one parent, and there are few distinct keys, so that such a key is
// mostly at hand.
#[inline(always)]
fn find_parents_key(
    keys: &mut RecentKeys,
    base: &[Option<u32>],
    parents: &[NodeId],
    number: u32,
) -> Result<u32, Memory>
    ensures ok { IfOk result (λ k. (key : List ℕ) × IsWritten (at base.now) parents.now number key × Interns keys.old keys.new key k) }
    ensures distinct { IfOk result (λ k. AreDistinct keys.new) }
{
    match single_block(base, parents) {
        Some(around) => keys.intern_pair(number, around),
        None => keys.intern_written(base, parents, number),
    }
}

// The number of the key of a node with these parents and children, whose own block has this number.
#[inline(always)]
fn find_key(
    keys: &mut RecentKeys,
    sides: Sides,
    base: &[Option<u32>],
    parents: &[NodeId],
    children: &[NodeId],
    number: u32,
) -> Result<u32, Memory>
    ensures ok { IfOk result (λ k. (key : List ℕ) × IsWrittenBy sides (at base.now) (on_side parents.now children.now) number key
        × Interns keys.old keys.new key k) }
    ensures distinct { IfOk result (λ k. AreDistinct keys.new) }
{
    match sides {
        Sides::Parents => find_parents_key(keys, base, parents, number),
        Sides::Both => keys.intern_both(base, parents, children, number),
    }
}

// The number of the key of a node, and `None` where it has no block.
#[inline(always)]
fn number_of(
    keys: &mut RecentKeys,
    view: &GraphView<'_>,
    sides: Sides,
    block: &[Option<u32>],
    n: NodeId,
) -> Result<Option<u32>, Memory>
    requires distinct { AreDistinct keys.old }
    requires graph { IsGraph view.now }
    requires nodes { IsSome (at block.now n) → IsSome (label_number view.now n) }
    ensures ok { IfOk result (λ number. NumbersBy (at block.now) (IsSidedKey sides (shape_of view.now) block.now) n keys.old keys.new number) }
    ensures distinct { IfOk result (λ number. AreDistinct keys.new) }
{
    match block_of(block, n) {
        Some(number) => {
            let k = find_key(
                keys,
                sides,
                block,
                view.parents(n),
                view.children(n),
                number,
            )?;
            Ok(Some(k))
        }
        None => Ok(None),
    }
}

/// The level above a level of bisimilarity, by the sides that count. The key of a block is its members' own block,
/// and then, rising, each once, the numbers for the blocks of their neighbours, all of the level below: with parents
/// alone the blocks themselves, with both sides twice the block of a parent and one more than twice the block of a
/// child. Blocks are numbered in the order of their first members. Expected O(n + m log m) for n node numbers and m
/// edges, since each node's list of neighbours is sorted; it takes 8 bytes a number, the table of keys, and 16 KiB
/// while it runs.
pub fn next_level(
    alloc: Global,
    view: &GraphView<'_>,
    sides: Sides,
    block: &[Option<u32>],
) -> Result<Level, Memory>
    requires partition { IsPartition (shape_of view.now) block.now }
    ensures agrees { IfOk result (λ l. IsNextLevel (AtLevel sides) (shape_of view.now) block.now l.block.items) }
    ensures partition { IfOk result (λ l. IsPartition (shape_of view.now) l.block.items) }
    ensures numbered { IfOk result (λ l. AreNumberedBy (at block.now) (IsSidedKey sides (shape_of view.now) block.now) l.block.items (slice_get l.keys)) }
    ensures span { IfOk result (λ l. AreBlocksBelow l.block.items (length l.keys)) }
    ensures distinct { IfOk result (λ l. AreDistinct l.keys) }
{
    let mut keys = RecentKeys::new(alloc)?;
    let mut next = Vec::with_capacity(alloc, view.size() as usize)?;
    for n in 0..view.size() {
        let number = number_of(&mut keys, view, sides, block, n)?;
        next.push(number)?;
    }
    Ok(Level {
        block: next,
        keys: keys.into_table(),
    })
}
