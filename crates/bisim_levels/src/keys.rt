// Writing the key of a node.
ghost use Rattle.std.specs.Prelude.{◌≡◌, ◌++◌, ◌∷◌, [], ℕ, Option, filter_map, option_map, option_to_list, IfOk, OnOk, IfSome, Some};
ghost use Rattle.graph_spec.specs.Members.{at};
ghost use Rattle.bisim_spec.specs.declared.sides.Sides.TheVariants as sided;
ghost use Rattle.bisim_spec.specs.NodeKeys.{Gives, IsWritten};
ghost use Rattle.bisim_levels.specs.SidedKeys.{side_mark, marked, on_side, IsWrittenBy};

use bisim_spec::{Side, Sides};
use key_table::sort_dedup;
use px_base::{Memory, NodeId};

/// The block of a node, and `None` past the end of the list. O(1), no memory.
#[inline(always)]
pub fn block_of(block: &[Option<u32>], n: NodeId) -> Option<u32>
    ensures { result ≡ at block.now n }
{
    if (n as usize) < block.len() {
        block[n as usize]
    } else {
        None
    }
}

/// The block of the only node of a list, and `None` where there are more nodes, or none, or where that
/// node has no block. O(1), no memory.
#[inline(always)]
pub fn single_block(block: &[Option<u32>], nodes: &[NodeId]) -> Option<u32>
    ensures { IfSome result (λ b. (p : ℕ) × (nodes.now ≡ p ∷ []) × (at block.now p ≡ Some b)) }
{
    if nodes.len() == 1 {
        block_of(block, nodes[0])
    } else {
        None
    }
}

// Puts the block of a node behind the numbers, where it has one.
#[inline(always)]
fn push_block(numbers: &mut Vec<u32>, block: Option<u32>) -> Result<(), Memory>
    ensures { OnOk result (numbers.new.items ≡ numbers.old.items ++ option_to_list block) }
{
    if let Some(b) = block {
        numbers.push(b)?;
    }
    Ok(())
}

// Puts the blocks of the nodes behind the numbers.
fn push_blocks<F: Fn(NodeId) -> Option<u32>>(
    numbers: &mut Vec<u32>,
    nodes: &[NodeId],
    block_of: F,
) -> Result<(), Memory>
    requires { F.IsAlwaysCallable block_of }
    ensures { OnOk result ((f : ℕ → Option ℕ) → Gives (F.post block_of) f → numbers.new.items ≡ numbers.old.items ++ filter_map f nodes.now) }
{
    for n in nodes {
        push_block(numbers, block_of(*n))?;
    }
    Ok(())
}

/// Writes the key of a node with these neighbours, whose own block has this number: that number, and then the
/// blocks of the neighbours, rising, each once. O(m log m) for m neighbours; it takes 4 bytes for each where the
/// list has no capacity.
pub fn write_key<F: Fn(NodeId) -> Option<u32>>(
    key: &mut Vec<u32>,
    nodes: &[NodeId],
    number: u32,
    block_of: F,
) -> Result<(), Memory>
    requires { F.IsAlwaysCallable block_of }
    ensures { OnOk result ((f : ℕ → Option ℕ) → Gives (F.post block_of) f → IsWritten f nodes.now number key.new.items) }
{
    key.clear();
    push_blocks(key, nodes, block_of)?;
    sort_dedup(key);
    key.insert(0, number)?;
    Ok(())
}

// The number for a block of neighbours on this side. Past 2^31 blocks there is none, which is answered as memory that
// ran out.
#[inline(always)]
fn side_mark(side: Side, block: u32) -> Result<u32, Memory>
    ensures { IfOk result (λ c. c ≡ side_mark side block) }
{
    if block >= 1 << 31 {
        return Err(Memory);
    }
    let number = match side {
        Side::Parents => 2 * block,
        Side::Children => 2 * block + 1,
    };
    Ok(number)
}

// Puts the number for a block of neighbours on this side behind the numbers, where there is a block.
#[inline(always)]
fn push_mark(numbers: &mut Vec<u32>, side: Side, block: Option<u32>) -> Result<(), Memory>
    ensures { OnOk result (numbers.new.items ≡ numbers.old.items ++ option_to_list (option_map (side_mark side) block)) }
{
    if let Some(b) = block {
        let number = side_mark(side, b)?;
        numbers.push(number)?;
    }
    Ok(())
}

// Puts the numbers for the blocks of the nodes, which lie on this side, behind the numbers.
fn push_marks<F: Fn(NodeId) -> Option<u32>>(
    numbers: &mut Vec<u32>,
    side: Side,
    nodes: &[NodeId],
    block_of: F,
) -> Result<(), Memory>
    requires { F.IsAlwaysCallable block_of }
    ensures { OnOk result ((f : ℕ → Option ℕ) → Gives (F.post block_of) f
        → numbers.new.items ≡ numbers.old.items ++ filter_map (marked side f) nodes.now) }
{
    for n in nodes {
        push_mark(numbers, side, block_of(*n))?;
    }
    Ok(())
}

/// Writes the key of a node with these parents and children, where both count.
pub(crate) fn write_both_key<F: Fn(NodeId) -> Option<u32>>(
    key: &mut Vec<u32>,
    parents: &[NodeId],
    children: &[NodeId],
    number: u32,
    block_of: F,
) -> Result<(), Memory>
    requires { F.IsAlwaysCallable block_of }
    ensures { OnOk result ((f : ℕ → Option ℕ) → Gives (F.post block_of) f
        → IsWrittenBy sided.Both f (on_side parents.now children.now) number key.new.items) }
{
    key.clear();
    push_marks(key, Side::Parents, parents, &block_of)?;
    push_marks(key, Side::Children, children, &block_of)?;
    sort_dedup(key);
    key.insert(0, number)?;
    Ok(())
}

/// Writes the key of a node with these parents and children, whose own block has this number: that number, and then,
/// rising, each once, the numbers for the blocks of its neighbours on the sides that count. With parents alone these
/// are the blocks; with both, twice the block of a parent, and one more than twice the block of a child. O(m log m)
/// for m neighbours that count; it takes 4 bytes for each where the list has no capacity. Past 2^31 blocks, where
/// both count, it answers that memory ran out.
pub fn write_sided_key<F: Fn(NodeId) -> Option<u32>>(
    key: &mut Vec<u32>,
    sides: Sides,
    parents: &[NodeId],
    children: &[NodeId],
    number: u32,
    block_of: F,
) -> Result<(), Memory>
    requires { F.IsAlwaysCallable block_of }
    ensures { OnOk result ((f : ℕ → Option ℕ) → Gives (F.post block_of) f
        → IsWrittenBy sides f (on_side parents.now children.now) number key.new.items) }
{
    match sides {
        Sides::Parents => write_key(key, parents, number, block_of),
        Sides::Both => write_both_key(key, parents, children, number, block_of),
    }
}
