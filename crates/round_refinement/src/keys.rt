// The key of a node: a number of its own, and the blocks of its neighbours, rising, each once.
ghost use Rattle.std.specs.Prelude.{◌≡◌, ◌++◌, ◌∷◌, [], ℕ, List, Option, filter_map, option_to_list, OnOk, IfOk};
ghost use Rattle.graph_spec.specs.Members.{at};
ghost use Rattle.key_table.specs.NumberedKeys.{AreDistinct, Interns};
ghost use Rattle.bisim_spec.specs.NodeKeys.{AreImages, Gives, IsWritten};

use key_table::{KeyTable, sort_dedup};
use px_base::Memory;

/// The block of a node, and `None` past the end of the list.
pub fn block_of(block: &[Option<u32>], n: u32) -> Option<u32>
    ensures { result ≡ at block.now n }
{
    if (n as usize) < block.len() {
        block[n as usize]
    } else {
        None
    }
}

// Puts the block of a node behind the numbers, where it has one.
fn push_block(numbers: &mut Vec<u32>, block: Option<u32>) -> Result<(), Memory>
    ensures { OnOk result (numbers.new.items ≡ numbers.old.items ++ option_to_list block) }
{
    if let Some(b) = block {
        numbers.push(b)?;
    }
    Ok(())
}

// Puts the blocks of the nodes behind the numbers.
fn push_blocks<F: Fn(u32) -> Option<u32>>(
    numbers: &mut Vec<u32>,
    nodes: &[u32],
    block_of: F,
) -> Result<(), Memory>
    requires { F.IsAlwaysCallable block_of }
    ensures { OnOk result ((f : ℕ → Option ℕ) → Gives (F.post block_of) f → numbers.new.items ≡ numbers.old.items ++ filter_map f nodes.now) }
{
    for n in nodes {
        push_block(numbers, block_of(*n))?;
    }
    Ok(())
}

/// Writes the numbers that the function gives of the nodes, rising, each once.
pub(crate) fn write_images<F: Fn(u32) -> Option<u32>>(
    images: &mut Vec<u32>,
    nodes: &[u32],
    block_of: F,
) -> Result<(), Memory>
    requires { F.IsAlwaysCallable block_of }
    ensures { OnOk result ((f : ℕ → Option ℕ) → Gives (F.post block_of) f → AreImages f nodes.now images.new.items) }
{
    images.clear();
    push_blocks(images, nodes, block_of)?;
    sort_dedup(images);
    Ok(())
}

/// The same with the blocks of a list.
pub(crate) fn write_set(
    images: &mut Vec<u32>,
    nodes: &[u32],
    base: &[Option<u32>],
) -> Result<(), Memory>
    ensures { OnOk result (AreImages (at base.now) nodes.now images.new.items) }
{
    write_images(images, nodes, |n| block_of(base, n))?;
    Ok(())
}

/// Writes the key of a node with these neighbours, whose own number this is.
pub fn write_key<F: Fn(u32) -> Option<u32>>(
    key: &mut Vec<u32>,
    nodes: &[u32],
    number: u32,
    block_of: F,
) -> Result<(), Memory>
    requires { F.IsAlwaysCallable block_of }
    ensures { OnOk result ((f : ℕ → Option ℕ) → Gives (F.post block_of) f → IsWritten f nodes.now number key.new.items) }
{
    key.clear();
    push_blocks(key, nodes, block_of)?;
    sort_dedup(key);
    key.insert(0, number)?;
    Ok(())
}

/// The same with the blocks of a list.
pub(crate) fn write_blocks(
    key: &mut Vec<u32>,
    nodes: &[u32],
    number: u32,
    base: &[Option<u32>],
) -> Result<(), Memory>
    ensures { OnOk result (IsWritten (at base.now) nodes.now number key.new.items) }
{
    write_key(key, nodes, number, |n| block_of(base, n))?;
    Ok(())
}

/// The number of that key. `key` is where it is written.
pub fn find_key(
    keys: &mut KeyTable,
    key: &mut Vec<u32>,
    nodes: &[u32],
    number: u32,
    base: &[Option<u32>],
) -> Result<u32, Memory>
    ensures ok { IfOk result (λ k. (written : List ℕ) × IsWritten (at base.now) nodes.now number written × Interns keys.old keys.new written k) }
    ensures distinct { IfOk result (λ k. AreDistinct keys.new) }
{
    write_blocks(key, nodes, number, base)?;
    keys.intern(key)
}
