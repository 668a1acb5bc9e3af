// Renumbering of keys, without those that no block has.
ghost use Rattle.std.specs.Prelude.{◌≡◌, ◌<◌, ◌≤◌, ◌+◌, IsTrue, IsFalse, IfOk, OnOk, OnErr, length};
ghost use Rattle.block_partition.specs.LabelledPartitions.{block_count};
ghost use Rattle.keyed_quotient.specs.Numberings.{block_keys, IsNumbering};
ghost use Rattle.keyed_quotient.specs.CarriedKeys.{AreCarried, AreFew};

use crate::keyed::key_in;
use crate::numbering::KeyNumbers;
use key_table::KeyTable;
use label_graph::Digraph;
use px_base::Memory;
use quotient::Summary;
use std::alloc::Global;

/// Renumbers the keys of the blocks and drops the others, where keys are many or long. They are many where there are
/// more than one and a half times as many as blocks, and more than 64 and half the span of the blocks' numbers
/// together. They are long where a key has no block, and all together have grown, since the last renumbering, by more
/// than half and 64 numbers, and by more than half the span. On `Memory` they stay as they were. O(1) where nothing is
/// to be done; else expected O(s + l) for a span s and keys of the blocks of l numbers together. Where keys are many,
/// those that are dropped pay for it: they are more than a sixth of the span, and each came once. Where they are long,
/// those that came since the last renumbering pay.
pub(crate) fn compact(
    alloc: Global,
    summary: &Summary,
    numbers: &mut KeyNumbers,
) -> Result<(), Memory>
    requires { IsNumbering summary.now.blocks.labels numbers.old }
    ensures numbering { IsNumbering summary.now.blocks.labels numbers.new }
    ensures keys { block_keys summary.now.blocks.labels numbers.new ≡ block_keys summary.now.blocks.labels numbers.old }
    ensures few { OnOk result (AreFew (length numbers.new.table) (block_count summary.now.blocks) (length summary.now.blocks.labels)) }
    ensures err { OnErr result (numbers.new ≡ numbers.old) }
{
    let span = summary.size();
    if are_few(numbers.len(), summary.blocks(), span)
        && are_short(numbers, summary.blocks(), span)
    {
        return Ok(());
    }
    let new = anew(alloc, summary, numbers)?;
    *numbers = new;
    Ok(())
}

// Whether there are so few keys that they stay.
fn are_few(keys: u32, blocks: u32, span: u32) -> bool
    ensures { IsTrue result → AreFew keys blocks span }
{
    keys as u64 <= 64 + span as u64 / 2 || keys as u64 * 2 <= blocks as u64 * 3
}

// Whether each key has a block, or they are so short that they stay.
fn are_short(numbers: &KeyNumbers, blocks: u32, span: u32) -> bool {
    numbers.len() <= blocks || numbers.are_short(span)
}

// Numbers for the keys of the blocks, in the order of the blocks.
fn anew(alloc: Global, summary: &Summary, numbers: &KeyNumbers) -> Result<KeyNumbers, Memory>
    requires { IsNumbering summary.now.blocks.labels numbers.now }
    ensures { IfOk result (λ k. AreCarried summary.now.blocks.labels numbers.now k (length summary.now.blocks.labels)) }
{
    let mut new = empty(alloc, summary.size())?;
    'blocks: for b in 0..summary.size() {
        carry(summary, numbers, &mut new, b)?;
    }
    new.mark_anew();
    Ok(new)
}

// Without keys, and with capacity for blocks with numbers below this one.
fn empty(alloc: Global, span: u32) -> Result<KeyNumbers, Memory>
    ensures none { IfOk result (λ k. length k.table ≡ 0) }
    ensures span { IfOk result (λ k. span ≤ length k.number_of) }
{
    let table = KeyTable::new(alloc)?;
    let mut numbers = KeyNumbers::of(alloc, table)?;
    numbers.reach(span)?;
    Ok(numbers)
}

// Carries the key of the next number over, where that is a block.
fn carry(summary: &Summary, old: &KeyNumbers, new: &mut KeyNumbers, b: u32) -> Result<(), Memory>
    requires within { b < length summary.now.blocks.labels }
    requires numbering { IsNumbering summary.now.blocks.labels old.now }
    requires before { AreCarried summary.now.blocks.labels old.now new.old b }
    ensures { OnOk result (AreCarried summary.now.blocks.labels old.now new.new (b + 1)) }
{
    if summary.is_block(b) {
        let key = key_in(old, b);
        new.know(key)?;
        new.give(key, b);
    }
    Ok(())
}
