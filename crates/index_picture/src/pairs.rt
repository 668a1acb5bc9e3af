// The pairs of blocks that are drawn.
ghost use Rattle.std.specs.Prelude.{◌≡◌, ◌<◌, ◌++◌, ◌*◌, OnOk, IfOk, length};
ghost use Rattle.std.specs.List.{flat_map};
ghost use Rattle.index_picture.specs.DrawnBlocks as drawn;
ghost use Rattle.index_picture.specs.DrawnBlocks.{no_pair, lightest, without_lightest, pair_of, pairs_of};

use crate::blocks::Block;
use px_base::Memory;
use quotient::Summary;
use std::alloc::Global;

/// Two blocks, and how many edges lead from a node of the one to a node of the other.
#[derive(Clone, Copy)]
pub(crate) struct Pair {
    pub(crate) from: Block,
    pub(crate) onto: Block,
    pub(crate) support: u32,
}

// Puts the pair of the two blocks behind the others, if it has support.
fn push_pair(
    pairs: &mut Vec<Pair>,
    summary: &Summary,
    from: &Block,
    onto: &Block,
) -> Result<(), Memory>
    ensures { OnOk result (pairs.new.items ≡ pairs.old.items ++ pair_of summary.now from.now onto.now) }
{
    let support = summary.support(from.number, onto.number);
    if support > 0 {
        pairs.push(Pair {
            from: *from,
            onto: *onto,
            support,
        })?;
    }
    Ok(())
}

// Puts the pairs of a block with these behind the others.
fn push_from(
    pairs: &mut Vec<Pair>,
    summary: &Summary,
    from: &Block,
    blocks: &[Block],
) -> Result<(), Memory>
    ensures { OnOk result (pairs.new.items ≡ pairs.old.items ++ flat_map (pair_of summary.now from.now) blocks.now) }
{
    for onto in blocks {
        push_pair(pairs, summary, from, onto)?;
    }
    Ok(())
}

/// The pairs of these blocks that have support. Expected O(n²) for n blocks; it takes 36 bytes a pair.
pub(crate) fn pairs_between(
    alloc: Global,
    summary: &Summary,
    blocks: &[Block],
) -> Result<Vec<Pair>, Memory>
    ensures { IfOk result (λ p. p.items ≡ pairs_of summary.now blocks.now) }
{
    let mut pairs = Vec::new(alloc);
    for from in blocks {
        push_from(&mut pairs, summary, from, blocks)?;
    }
    Ok(pairs)
}

// The place of the pair with the least support; of equals the last.
fn weakest(pairs: &[Pair]) -> usize
    ensures place { result ≡ lightest (λ p. p.support) no_pair pairs.now (length pairs.now) }
    ensures within { 0 < length pairs.now → result < length pairs.now }
{
    let mut place = 0;
    for n in 0..pairs.len() {
        if pairs[n].support <= pairs[place].support {
            place = n;
        }
    }
    place
}

// Takes out the weakest pair, if there are more than that many.
fn leave_weakest(pairs: &mut Vec<Pair>, most: usize)
    ensures { pairs.new.items ≡ without_lightest most (λ p. p.support) no_pair pairs.old.items }
{
    if pairs.len() > most {
        let place = weakest(pairs);
        pairs.remove(place);
    }
}

/// The `most` pairs with the greatest support, in their order; of equals the first. O(p n) for p pairs of which n are
/// taken; it takes 36 bytes for each of them.
pub(crate) fn strongest(alloc: Global, pairs: &[Pair], most: usize) -> Result<Vec<Pair>, Memory>
    ensures { IfOk result (λ l. l.items ≡ drawn.heaviest most (λ p. p.support) no_pair pairs.now) }
{
    let mut kept = Vec::new(alloc);
    for pair in pairs {
        kept.push(*pair)?;
        leave_weakest(&mut kept, most);
    }
    Ok(kept)
}
