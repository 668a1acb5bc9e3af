// The merge candidates still to be examined.
ghost use Rattle.std.specs.Prelude.{◌≡◌, ◌≤◌, ◌<◌, [], ◌||◌, ℕ, OnOk, IfSome, IfNone, length, nat_eq, false};
ghost use Rattle.graph_spec.specs.Members.{has};

use key_table::sort_dedup;
use px_base::Memory;
use std::alloc::Global;
use std::marker::Model;

/// Blocks that may be merged with others. They are taken off in rounds: what is added meanwhile comes in the next one, in
/// which each block stands once. A block that is added after the last of a round comes first.
#[derive(Drop)]
pub(crate) struct MergeCandidates {
    round: Vec<u32>,
    next: Vec<u32>,
}

impl Model for MergeCandidates {
    ghost use Rattle.std.specs.Prelude.{ℕ, List, ◌++◌};

    ghost Value = { List ℕ };

    ghost view = { λ s. s.next.items ++ s.round.items };
}

impl MergeCandidates {
    /// These blocks, in their own memory.
    pub(crate) fn of(alloc: Global, blocks: Vec<u32>) -> MergeCandidates
        ensures { (c : ℕ) → has result c ≡ has blocks.items c }
    {
        MergeCandidates {
            round: Vec::new(alloc),
            next: blocks,
        }
    }

    /// Adds a block.
    pub(crate) fn add(&mut self, b: u32) -> Result<(), Memory>
        ensures { OnOk result ((c : ℕ) → has self.new c ≡ (has self.old c || nat_eq c b)) }
    {
        if self.round.is_empty() {
            self.round.push(b)?;
        } else {
            self.next.push(b)?;
        }
        Ok(())
    }

    /// Adds these blocks.
    pub(crate) fn add_all(&mut self, blocks: &[u32]) -> Result<(), Memory>
        ensures { OnOk result ((c : ℕ) → has self.new c ≡ (has self.old c || has blocks.now c)) }
    {
        self.next.extend_from_slice(blocks)?;
        Ok(())
    }

    /// Takes one off.
    pub(crate) fn take(&mut self) -> Option<u32>
        ensures some { IfSome result (λ b. (c : ℕ) → has self.old c ≡ (has self.new c || nat_eq c b)) }
        ensures fewer { IfSome result (λ b. length self.new < length self.old) }
        ensures none { IfNone result ((c : ℕ) → has self.old c ≡ false) }
    {
        if self.round.is_empty() {
            begin_round(&mut self.round, &mut self.next);
        }
        self.round.pop()
    }
}

// The blocks of the next round come into this one, which is over: each once, the least at the end, where they are taken off.
fn begin_round(round: &mut Vec<u32>, next: &mut Vec<u32>)
    requires { round.old.items ≡ [] }
    ensures over { next.new.items ≡ [] }
    ensures same { (c : ℕ) → has round.new.items c ≡ has next.old.items c }
    ensures fewer { length round.new.items ≤ length next.old.items }
{
    std::mem::swap(round, next);
    sort_dedup(round);
    round.reverse();
}
