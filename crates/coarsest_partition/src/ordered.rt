// An order in which parents come first, and the partition by the numbers that nodes get in it.
ghost use Rattle.std.specs.Prelude.{◌≡◌, ◌<◌, ℕ, None, IsTrue, IfOk, IfSome, OnOk, length, vec_len};
ghost use Rattle.graph_spec.specs.Graphs.{IsGraph};
ghost use Rattle.graph_spec.specs.Members.{at};
ghost use Rattle.graph_spec.specs.Shapes.{shape_of};
ghost use Rattle.bisim_spec.specs.Bisimilarity.{Bisim};
ghost use Rattle.bisim_spec.specs.Partitions.{Agrees};
ghost use Rattle.block_splitting.specs.Splits.{AreLabelled, AreInhabited};
ghost use Rattle.coarsest_partition.specs.Ordered.{IsOrdered, AreAllNumbered, IsNumbered};

use crate::labels::first_numbers;
use crate::numbering::number_node;
use bisim_levels::block_of;
use block_partition::{Blocks, fill};
use key_table::KeyTable;
use label_graph::{Digraph, GraphView};
use px_base::{Memory, NodeId};
use std::alloc::Global;

// Numbers of nodes, each that of the node's key, and `None` where a node has none.
#[derive(Drop)]
struct Numbers {
    block: Vec<Option<u32>>,
    keys: KeyTable,
}

// How many parents of each node are still to come, the place below which nodes were taken as they came, and the nodes
// below it of which no parent is still to come. It steers the order alone: before a node gets a number, it is checked
// that its parents have theirs.
#[derive(Drop)]
struct Order {
    left: Vec<u32>,
    place: usize,
    ready: Vec<NodeId>,
}

// Counts the parents of the next node.
fn count_parents(order: &mut Order, view: &GraphView<'_>, n: NodeId) -> Result<(), Memory> {
    let count = if view.is_node(n) {
        u32::try_from(view.parents(n).len()).unwrap_or(u32::MAX)
    } else {
        u32::MAX
    };
    order.left.push(count)?;
    Ok(())
}

fn first_order(alloc: Global, view: &GraphView<'_>) -> Result<Order, Memory> {
    let mut order = Order {
        left: Vec::with_capacity(alloc, view.size() as usize)?,
        place: 0,
        ready: Vec::new(alloc),
    };
    for n in 0..view.size() {
        count_parents(&mut order, view, n)?;
    }
    Ok(order)
}

// The first place from one on of which no parent is still to come, and the length where there is none.
fn first_due(left: &[u32], from: usize) -> usize {
    let mut n = from;
    'places: while n < left.len() && left[n] > 0 {
        n += 1;
    }
    n
}

// The next node of which no parent is still to come: one that was passed, and else the first from the place on.
fn next_ready(order: &mut Order) -> Option<NodeId> {
    if let Some(n) = order.ready.pop() {
        return Some(n);
    }
    let due = first_due(&order.left, order.place);
    if due >= order.left.len() {
        return None;
    }
    order.place = due + 1;
    u32::try_from(due).ok()
}

// One parent of the node has come.
#[inline(always)]
fn come(order: &mut Order, n: NodeId) -> Result<(), Memory> {
    if (n as usize) >= order.left.len() {
        return Ok(());
    }
    let left = order.left[n as usize].wrapping_sub(1);
    order.left[n as usize] = left;
    if left == 0 && (n as usize) < order.place {
        order.ready.push(n)?;
    }
    Ok(())
}

fn come_all(order: &mut Order, nodes: &[NodeId]) -> Result<(), Memory> {
    for n in nodes {
        come(order, *n)?;
    }
    Ok(())
}

// Numbers a node, and lets its children know.
fn visit(
    numbers: &mut Numbers,
    order: &mut Order,
    key: &mut Vec<u32>,
    view: &GraphView<'_>,
    n: NodeId,
) -> Result<(), Memory>
    requires graph { IsGraph view.now }
    requires ordered { IsOrdered view.now numbers.old.keys numbers.old.block.items }
    requires long { vec_len numbers.old.block ≡ length view.now.allocated }
    ensures ordered { OnOk result (IsOrdered view.now numbers.new.keys numbers.new.block.items) }
    ensures long { vec_len numbers.new.block ≡ vec_len numbers.old.block }
{
    if !view.is_node(n) {
        return Ok(());
    }
    number_node(&mut numbers.keys, key, &mut numbers.block, view, n)?;
    come_all(order, view.children(n))
}

// A list in which no node has a number.
fn none_numbered(alloc: Global, size: usize) -> Result<Vec<Option<u32>>, Memory>
    ensures none { IfOk result (λ b. (n : ℕ) → at b.items n ≡ None) }
    ensures long { IfOk result (λ b. vec_len b ≡ size) }
{
    let mut block = Vec::with_capacity(alloc, size)?;
    'places: for _ in 0..size {
        block.push(None)?;
    }
    Ok(block)
}

fn no_numbers(alloc: Global, view: &GraphView<'_>) -> Result<Numbers, Memory>
    ensures ordered { IfOk result (λ n. IsOrdered view.now n.keys n.block.items) }
    ensures long { IfOk result (λ n. vec_len n.block ≡ length view.now.allocated) }
{
    let block = none_numbered(alloc, view.size() as usize)?;
    let keys = KeyTable::new(alloc)?;
    Ok(Numbers { block, keys })
}

// Numbers the nodes to which no cycle leads. They are taken in the graph's own order, so that its nodes are read one
// after another; a node that becomes ready only after it was passed comes next.
fn number_ordered(alloc: Global, view: &GraphView<'_>) -> Result<Numbers, Memory>
    ensures ordered { IfOk result (λ n. IsOrdered view.now n.keys n.block.items) }
{
    let mut numbers = no_numbers(alloc, view)?;
    let mut order = first_order(alloc, view)?;
    let mut key = Vec::new(alloc);
    'nodes: for _ in 0..view.size() {
        let Some(n) = next_ready(&mut order) else {
            return Ok(numbers);
        };
        visit(&mut numbers, &mut order, &mut key, view, n)?;
    }
    Ok(numbers)
}

// Whether the number has a number of its own, or is no node.
fn is_numbered(block: &[Option<u32>], view: &GraphView<'_>, n: NodeId) -> bool
    ensures { IsTrue result → IsNumbered view.now block.now n }
{
    block_of(block, n).is_some() || !view.is_node(n)
}

// Whether each node has a number.
fn all_numbered(block: &[Option<u32>], view: &GraphView<'_>) -> bool
    ensures { IsTrue result → AreAllNumbered view.now block.now }
{
    for n in 0..view.size() {
        if !is_numbered(block, view, n) {
            return false;
        }
    }
    true
}

// The partition by numbers that all nodes have.
fn by_numbers(alloc: Global, view: &GraphView<'_>, numbers: &Numbers) -> Result<Blocks, Memory>
    requires ordered { IsOrdered view.now numbers.now.keys numbers.now.block.items }
    requires all { AreAllNumbered view.now numbers.now.block.items }
    ensures agrees { IfOk result (λ p. Agrees (shape_of view.now) p.block_of (Bisim (shape_of view.now))) }
    ensures labelled { IfOk result (AreLabelled view.now) }
    ensures inhabited { IfOk result AreInhabited }
{
    let labels = first_numbers(alloc, &numbers.keys)?;
    // Called for its contract: there are fewer than 2^31 keys.
    let _known = numbers.keys.len();
    let blocks = fill(alloc, view.created(), &numbers.block, &labels)?;
    Ok(blocks)
}

/// The partition into classes of full bisimilarity, by one pass over the nodes in an order in which parents
/// come first; none where the graph has a cycle.
pub(crate) fn by_order(alloc: Global, view: &GraphView<'_>) -> Result<Option<Blocks>, Memory>
    ensures agrees { IfOk result (λ o. IfSome o (λ p. Agrees (shape_of view.now) p.block_of (Bisim (shape_of view.now)))) }
    ensures labelled { IfOk result (λ o. IfSome o (AreLabelled view.now)) }
    ensures inhabited { IfOk result (λ o. IfSome o AreInhabited) }
{
    let numbers = number_ordered(alloc, view)?;
    if !all_numbered(&numbers.block, view) {
        return Ok(None);
    }
    let blocks = by_numbers(alloc, view, &numbers)?;
    Ok(Some(blocks))
}
