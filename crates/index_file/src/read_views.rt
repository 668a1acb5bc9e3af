// The views of a file as they are read.
ghost use Rattle.std.specs.Prelude.{◌≡◌, ◌<◌, ◌≤◌, ◌++◌, ◌∷◌, ℕ, List, [], suc, length, nat_eq, if◌then◌else◌, Some, None, option_map, slice_get, IsSome, IfSome, IfNone, IfOk, OnOk, OnErr, IsErrOf};
ghost use Rattle.index_file.specs.Readings.{last_via, with_rank};
ghost use Rattle.index_file.specs.ReadViews.{last_ranks};

use crate::due::Stop;
use index_api::Via;
use px_base::Memory;
use std::alloc::Global;
use std::marker::Model;

/// A view as its lines give it: its index, and the ranks of the first nodes.
#[derive(Drop)]
pub(crate) struct RankedView {
    via: Via,
    ranks: Vec<u32>,
}

impl Model for RankedView {
    ghost use Rattle.index_file.specs.Readings as readings;
    ghost use Rattle.index_file.specs.ReadViews.{ranked_view_code};

    ghost Value = { readings.RankedView };

    ghost coded = { ranked_view_code };

    ghost view = { λ v. record { via = v.via; ranks = v.ranks.items } };
}

impl RankedView {
    // No ranks, with capacity for so many.
    fn new(alloc: Global, via: Via, count: usize) -> Result<RankedView, Memory>
        ensures { IfOk result (λ v. v ≡ record { via = via; ranks = [] }) }
    {
        let ranks = Vec::with_capacity(alloc, count)?;
        Ok(RankedView { via, ranks })
    }

    fn via(&self) -> Via
        ensures { result ≡ self.now.via }
    {
        self.via
    }

    fn ranks(&self) -> &[u32]
        ensures { result.now ≡ self.now.ranks }
    {
        &self.ranks
    }

    fn push(&mut self, rank: u32) -> Result<(), Memory>
        ensures ok { OnOk result (self.new ≡ record self.old { ranks = self.old.ranks ++ rank ∷ [] }) }
        ensures err { OnErr result (self.new ≡ self.old) }
    {
        self.ranks.push(rank)?;
        Ok(())
    }
}

/// The views that were read. The last one may lack ranks.
#[derive(Drop)]
pub(crate) struct ReadViews {
    list: Vec<RankedView>,
    // One more than the greatest rank of the last view.
    next_rank: usize,
}

impl Model for ReadViews {
    ghost use Rattle.std.specs.Prelude.{List};
    ghost use Rattle.index_file.specs.Readings as readings;
    ghost use Rattle.index_file.specs.ReadViews.{AreReadViews, read_views_code};

    ghost Value = { List readings.RankedView };

    ghost coded = { read_views_code };

    ghost view = { λ v. v.list.items };

    ghost invariant = { λ v. AreReadViews v.list.items v.next_rank };
}

fn last_via_in(list: &[RankedView]) -> Option<Via>
    ensures { result ≡ last_via list.now }
{
    match list.last() {
        Some(view) => Some(view.via()),
        None => None,
    }
}

// The rank, and none where it is past the next one.
fn low_rank(rank: u64, next: usize) -> Option<u32>
    requires { next ≤ 4294967295 }
    ensures found { IfSome result (λ r. (r ≡ rank) × (rank ≤ next)) }
    ensures none { IfNone result (next < rank) }
{
    if rank <= next as u64 {
        Some(rank as u32)
    } else {
        None
    }
}

// One more than the greatest of the ranks, once this one is among them.
fn next_after(next: usize, rank: u32) -> usize
    requires { next ≤ 4294967295 }
    ensures { result ≡ (if nat_eq rank next then suc next else next) }
{
    if rank as usize == next {
        next + 1
    } else {
        next
    }
}

impl ReadViews {
    /// No views. O(1), no memory.
    pub(crate) fn new(alloc: Global) -> ReadViews
        ensures { result ≡ [] }
    {
        ReadViews {
            list: Vec::new(alloc),
            next_rank: 0,
        }
    }

    /// How many views there are. O(1), no memory.
    pub(crate) fn len(&self) -> usize
        ensures { result ≡ length self.now }
    {
        self.list.as_slice().len()
    }

    /// The index of the last view. O(1), no memory.
    pub(crate) fn last_via(&self) -> Option<Via>
        ensures { result ≡ last_via self.now }
    {
        last_via_in(&self.list)
    }

    /// The index of a view. O(1), no memory.
    pub(crate) fn via(&self, j: u32) -> Via
        requires { j < length self.now }
        ensures { option_map (λ v. v.via) (slice_get self.now j) ≡ Some result }
    {
        self.list[j as usize].via()
    }

    /// The ranks of a view. O(1), no memory.
    pub(crate) fn ranks(&self, j: u32) -> &[u32]
        requires { j < length self.now }
        ensures { option_map (λ v. v.ranks) (slice_get self.now j) ≡ Some result.now }
    {
        self.list[j as usize].ranks()
    }

    /// Puts a view behind the others, with capacity for so many ranks.
    pub(crate) fn begin(&mut self, alloc: Global, via: Via, count: usize) -> Result<(), Memory>
        ensures ok { OnOk result (self.new ≡ self.old ++ record { via = via; ranks = [] } ∷ []) }
        ensures err { OnErr result (self.new ≡ self.old) }
    {
        let view = RankedView::new(alloc, via, count)?;
        self.list.push(view)?;
        self.next_rank = 0;
        Ok(())
    }

    /// Puts a rank behind those of the last view. `Syntax` comes exactly where it is too great, or there is no view.
    /// O(1) amortized.
    pub(crate) fn push_rank(&mut self, rank: u64) -> Result<(), Stop>
        requires few { length (last_ranks self.old) < 4294967295 }
        ensures ok { OnOk result (with_rank self.old rank ≡ Some self.new) }
        ensures over { IsErrOf result Stop.Limit → ⊥ }
        ensures wrong { IsErrOf result Stop.Syntax → with_rank self.old rank ≡ None }
        ensures err { OnErr result (self.new ≡ self.old) }
    {
        if self.len() == 0 {
            return Err(Stop::Syntax);
        }
        match low_rank(rank, self.next_rank) {
            Some(low) => self.push_low(low),
            None => Err(Stop::Syntax),
        }
    }

    // The same of a rank that isn't too great, where there is a view.
    fn push_low(&mut self, rank: u32) -> Result<(), Stop>
        requires few { length (last_ranks self.old) < 4294967295 }
        requires lawful { IsSome (with_rank self.old rank) }
        ensures ok { OnOk result (with_rank self.old rank ≡ Some self.new) }
        ensures over { IsErrOf result Stop.Limit → ⊥ }
        ensures wrong { IsErrOf result Stop.Syntax → ⊥ }
        ensures err { OnErr result (self.new ≡ self.old) }
    {
        let last = self.len() - 1;
        self.list[last].push(rank)?;
        self.next_rank = next_after(self.next_rank, rank);
        Ok(())
    }
}
