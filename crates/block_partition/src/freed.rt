// Numbers of blocks that are free.
ghost use Rattle.std.specs.Prelude.{◌≡◌, ◌≢◌, ◌<◌, ◌≤◌, ◌+◌, ◌-◌, ◌*◌, ◌/◌, ◌^◌, ℕ, List, Option, None, true, IsSome, OnOk, [], length, slice_set, slice_index_or, vec_len};
ghost use Rattle.graph_spec.specs.Members.{at};
ghost use Rattle.block_partition.specs.Tables.{Gaps, full_at, gap_capacity, group};
ghost use Rattle.block_partition.specs.Soundness.{AreGaps, AreFullRuns};

use px_base::Memory;
use std::alloc::Global;
use std::marker::Model;

// One entry is kept for so many numbers.
const RUN: usize = 64;

// Runs stand in groups of 1, of 16, of 16 * 16 and so on. There are so many sizes; of the widest groups, of 2^24 runs, 2^31
// numbers take two.
const LEVELS: usize = 7;

/// Where numbers are free: for each run of 64 how many runs from it on are full, that is have no free number,
/// and a number below which none is. It takes 4 bytes a run.
///
/// An entry goes no further than the widest group that begins with its run. So a write mends one entry for each
/// size of groups. Within that group it goes up to the first run that isn't full. So a search passes at most 15
/// groups of each size, and then comes to the run it looks for.
#[derive(Drop)]
pub(crate) struct Freed {
    full: Vec<u32>,
    low: u32,
}

impl Model for Freed {
    ghost use Rattle.std.specs.Prelude.{◌≤◌, ◌^◌, vec_len};
    ghost use Rattle.block_partition.specs.Tables.{Gaps};

    ghost Value = { Gaps };

    ghost view = { λ f. record { full = f.full.items; low = f.low } };

    ghost invariant = { λ f. vec_len f.full ≤ 2 ^ 31 };
}

impl Freed {
    pub(crate) fn new(alloc: Global) -> Freed
        ensures full { result.full ≡ [] }
        ensures low { result.low ≡ 0 }
    {
        Freed {
            full: Vec::new(alloc),
            low: 0,
        }
    }

    /// Reserves capacity for that many numbers in all. Time and memory grow with the runs that come.
    pub(crate) fn reserve(&mut self, numbers: usize) -> Result<(), Memory>
        requires few { numbers ≤ 2 ^ 32 }
        ensures full { (k : ℕ) → full_at self.new.full k ≡ full_at self.old.full k }
        ensures low { self.new.low ≡ self.old.low }
        ensures reserved { gap_capacity self.old ≤ gap_capacity self.new }
        ensures ok { OnOk result (numbers ≤ gap_capacity self.new) }
    {
        grow(&mut self.full, numbers / RUN + 1)
    }

    /// Notes that a number, for which capacity is reserved, is free. O(1), no memory.
    pub(crate) fn put(&mut self, n: u32)
        requires { n < gap_capacity self.old }
        ensures gaps { (labels : List (Option ℕ)) → AreGaps labels self.old → AreGaps (slice_set labels n None) self.new }
        ensures reserved { gap_capacity self.new ≡ gap_capacity self.old }
    {
        stop_at(&mut self.full, n as usize / RUN);
        self.low = self.low.min(n);
    }

    /// Notes that no number up to this one is free. O(1), no memory: it looks at the others of its run, and if that run
    /// is now full, at some hundred entries at most.
    pub(crate) fn pass(&mut self, labels: &[Option<u32>], n: u32)
        requires gaps { AreGaps labels.now self.old }
        requires passed { (c : ℕ) → c ≤ n → IsSome (at labels.now c) }
        requires few { n < 2 ^ 31 }
        ensures gaps { AreGaps labels.now self.new }
        ensures reserved { gap_capacity self.new ≡ gap_capacity self.old }
    {
        self.low = n + 1;
        let run = n as usize / RUN;
        if run < self.full.len()
            && self.full[run] == 0
            && is_full(labels, n as usize + 1, (run + 1) * RUN)
        {
            let end = first_open(&self.full, run + 1);
            widen_to(&mut self.full, run, end);
        }
    }

    /// The least number from this one on that is free or past the list. O(1), no memory: it looks at the numbers of two
    /// runs, and at some hundred entries at most.
    pub(crate) fn next_from(&self, labels: &[Option<u32>], from: u32) -> u32
        requires gaps { AreGaps labels.now self.now }
        requires few { length labels.now ≤ 2 ^ 31 }
        ensures free { at labels.now result ≡ None }
        ensures from { from ≤ result }
        ensures passed { (c : ℕ) → from ≤ c → c < result → IsSome (at labels.now c) }
    {
        let mut n = self.skip(from.max(self.low) as usize);
        'numbers: while n < labels.len() {
            if labels[n].is_none() {
                return n as u32;
            }
            n = self.skip(n + 1);
        }
        from.max(labels.len() as u32)
    }

    // A number from this one on: past the full runs that begin with its own.
    fn skip(&self, n: usize) -> usize
        requires { n ≤ 2 ^ 32 }
        ensures from { n ≤ result }
        ensures passed { (c : ℕ) → n ≤ c → c < result → c < 64 * (n / 64 + full_at self.now.full (n / 64)) }
    {
        let run = n / RUN;
        n.max((run + full_runs(&self.full, run)) * RUN)
    }
}

// How many full runs follow from this one on, as the entry says, and none past the end.
fn full_runs(full: &Vec<u32>, run: usize) -> usize
    ensures count { result ≡ full_at full.now.items run }
    ensures small { result < 2 ^ 32 }
{
    if run < full.len() {
        full[run] as usize
    } else {
        0
    }
}

// Appends entries of runs that aren't known to be full, up to that many.
fn grow(full: &mut Vec<u32>, runs: usize) -> Result<(), Memory>
    ensures full { (k : ℕ) → full_at full.new.items k ≡ full_at full.old.items k }
    ensures longer { vec_len full.old ≤ vec_len full.new }
    ensures few { (k : ℕ) → runs ≤ k → vec_len full.old ≤ k → vec_len full.new ≤ k }
    ensures ok { OnOk result (runs ≤ vec_len full.new) }
{
    'runs: while full.len() < runs {
        full.push(0)?;
    }
    Ok(())
}

// The first run from this one on whose entry doesn't say that it is full, or past the last.
fn first_open(full: &Vec<u32>, run: usize) -> usize
    requires { vec_len full.now ≤ 2 ^ 31 }
    ensures from { run ≤ result }
    ensures passed { (labels : List (Option ℕ)) → AreFullRuns labels full.now.items
        → (c : ℕ) → 64 * run ≤ c → c < 64 * result → c < length labels → IsSome (at labels c) }
{
    let mut end = run;
    'runs: while end < full.len() && full[end] > 0 {
        end += full[end] as usize;
    }
    end
}

// Lets no entry go past this run, which may now have a free number.
fn stop_at(full: &mut Vec<u32>, run: usize)
    requires { run < vec_len full.old }
    ensures before { (level : ℕ) → level < 7 → full_at full.new.items (group level run) ≤ run - group level run }
    ensures less { (k : ℕ) → full_at full.new.items k ≤ full_at full.old.items k }
    ensures len { vec_len full.new ≡ vec_len full.old }
{
    let mut size = 1;
    let mut level = 0;
    'levels: while level < LEVELS {
        shorten(full, run, size);
        size *= 16;
        level += 1;
    }
}

// Lets the entry of the group of a run, of that size, go no further than the run.
fn shorten(full: &mut Vec<u32>, run: usize, size: usize)
    requires run { run < vec_len full.old }
    requires size { 0 < size }
    ensures before { full_at full.new.items (size * (run / size)) ≤ run - size * (run / size) }
    ensures less { (k : ℕ) → full_at full.new.items k ≤ full_at full.old.items k }
    ensures len { vec_len full.new ≡ vec_len full.old }
{
    let first = size * (run / size);
    if full[first] as usize > run - first {
        full[first] = (run - first) as u32;
    }
}

// Lets the entries of the groups of a run go up to an end before which each run is full.
fn widen_to(full: &mut Vec<u32>, run: usize, end: usize)
    requires run { run < vec_len full.old }
    requires end { run < end }
    ensures full { (labels : List (Option ℕ)) → AreFullRuns labels full.old.items
        → ((c : ℕ) → c < 64 * end → c < length labels → IsSome (at labels c)) → AreFullRuns labels full.new.items }
    ensures len { vec_len full.new ≡ vec_len full.old }
{
    let mut size = 1;
    let mut level = 0;
    'levels: while level < LEVELS {
        widen(full, run, size, end);
        size *= 16;
        level += 1;
    }
}

// Lets the entry of the group of a run, of that size, go up to an end or to the end of the group.
fn widen(full: &mut Vec<u32>, run: usize, size: usize, end: usize)
    requires run { run < vec_len full.old }
    requires end { run < end }
    requires size { 0 < size }
    requires few { size ≤ 2 ^ 24 }
    ensures end { size * (run / size) + full_at full.new.items (size * (run / size)) ≤ end }
    ensures within { full_at full.new.items (size * (run / size)) ≤ size }
    ensures others { (k : ℕ) → k ≢ size * (run / size) → full_at full.new.items k ≡ full_at full.old.items k }
    ensures len { vec_len full.new ≡ vec_len full.old }
{
    let first = size * (run / size);
    full[first] = (end - first).min(size) as u32;
}

// Whether each number of the list from one on and below another one is a block.
fn is_full(labels: &[Option<u32>], from: usize, end: usize) -> bool
    ensures { result ≡ true → (c : ℕ) → from ≤ c → c < end → c < length labels.now → IsSome (at labels.now c) }
{
    let mut n = from;
    'numbers: while n < end && n < labels.len() {
        if labels[n].is_none() {
            return false;
        }
        n += 1;
    }
    true
}
