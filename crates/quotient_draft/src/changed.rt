// Supports that are drafted.
ghost use Rattle.std.specs.Prelude.{◌≡◌, ◌<◌, ◌≤◌, [], ℕ, None, Some, IsSome, is_some, false, OnOk, OnErr, length, slice_index};
ghost use Rattle.std.specs.Map.{lookup, keys_of};
ghost use Rattle.graph_spec.specs.Members.{at, has};
ghost use Rattle.bisim_spec.specs.IndexGraphs.{SupportTable, support_at};
ghost use Rattle.quotient.specs.Quotients.{view_of};
ghost use Rattle.quotient_draft.specs.Drafts.{with_supports, is_pair, DraftsPair, SetsPair, SupportsStayBut};
ghost use Rattle.quotient_draft.specs.ReservedCapacity.{from_count, onto_count};
ghost use Rattle.quotient_draft.specs.Basis.{ArePairsOfBlocks};
ghost use Rattle.quotient_draft.specs.PairEnds.{NotesEnd, HaveSameEnds};

use crate::emptying::empty_table;
use crate::ends::{Ends, ends_of, forget, note};
use indexmap::IndexMap;
use px_base::Memory;
use quotient::Summary;
use std::alloc::Global;
use std::marker::Model;

/// Supports that are drafted over a base: for each pair the last one, which may be 0. Beside them it has, for each
/// block, the other ends of the pairs that begin there, and of those that end there.
#[derive(Drop)]
pub(crate) struct Changed {
    pairs: IndexMap<(u32, u32), u32>,
    from: Ends,
    onto: Ends,
}

impl Model for Changed {
    ghost use Rattle.std.specs.Prelude.{ℕ, List};
    ghost use Rattle.std.specs.Map.{keys_of};
    ghost use Rattle.quotient_draft.specs.PairEnds.{AreNoted};

    ghost Value = { List ((ℕ × ℕ) × ℕ) };

    ghost view = { λ c. c.pairs.entries };

    ghost invariant = { λ c. AreNoted (keys_of c.pairs.entries) c.from.entries c.onto.entries };
}

impl Changed {
    pub(crate) fn new(alloc: Global) -> Changed
        ensures { result ≡ [] }
    {
        Changed {
            pairs: IndexMap::new(alloc),
            from: IndexMap::new(alloc),
            onto: IndexMap::new(alloc),
        }
    }

    /// How many pairs there are.
    pub(crate) fn len(&self) -> usize
        ensures { result ≡ length self.now }
    {
        self.pairs.len()
    }

    /// The support of a pair as shown.
    pub(crate) fn get(&self, base: &Summary, a: u32, b: u32) -> u32
        ensures { result ≡ support_at (with_supports base.now.supports self.now) a b }
    {
        self.find(base, a, b).0
    }

    /// The support of a pair as shown, and whether it is drafted.
    pub(crate) fn find(&self, base: &Summary, a: u32, b: u32) -> (u32, bool)
        ensures support { result.0 ≡ support_at (with_supports base.now.supports self.now) a b }
        ensures drafted { result.1 ≡ is_some (lookup (is_pair (a, b)) self.now) }
    {
        match self.pairs.get(&(a, b)) {
            Some(n) => (*n, true),
            None => (base.support(a, b), false),
        }
    }

    /// The ends of the drafted pairs that begin at this block. To all others it has the support of the base.
    pub(crate) fn children(&self, a: u32) -> &[u32]
        ensures { (t : SupportTable) (b : ℕ) → has result.now b ≡ false → support_at (with_supports t self.now) a b ≡ support_at t a b }
    {
        ends_of(&self.from, a)
    }

    /// The beginnings of the drafted pairs that end at this block. From all others it has the support of the base.
    pub(crate) fn parents(&self, b: u32) -> &[u32]
        ensures { (t : SupportTable) (a : ℕ) → has result.now a ≡ false → support_at (with_supports t self.now) a b ≡ support_at t a b }
    {
        ends_of(&self.onto, b)
    }

    /// The blocks at which drafted pairs end. To others each block has the support of the base.
    pub(crate) fn targets(&self) -> &[u32]
        ensures { SupportsStayBut result.now self.now }
    {
        self.onto.keys().as_slice()
    }

    /// Whether the support of a pair is drafted.
    pub(crate) fn is_drafted(&self, a: u32, b: u32) -> bool
        ensures { result ≡ is_some (lookup (is_pair (a, b)) self.now) }
    {
        self.pairs.contains_key(&(a, b))
    }

    /// Drafts the support of a pair.
    pub(crate) fn set(&mut self, a: u32, b: u32, n: u32, is_drafted: bool) -> Result<(), Memory>
        requires { is_drafted ≡ is_some (lookup (is_pair (a, b)) self.old) }
        ensures looked { OnOk result (DraftsPair a b n self.old self.new) }
        ensures shown { OnOk result ((t : SupportTable) → SetsPair a b n (support_at (with_supports t self.old)) (support_at (with_supports t self.new))) }
        ensures err { OnErr result (self.new ≡ self.old) }
    {
        if is_drafted {
            self.set_again(a, b, n)
        } else {
            self.set_first(a, b, n)
        }
    }

    // Drafts the support of a pair that has been drafted.
    fn set_again(&mut self, a: u32, b: u32, n: u32) -> Result<(), Memory>
        requires { IsSome (lookup (is_pair (a, b)) self.old) }
        ensures looked { OnOk result (DraftsPair a b n self.old self.new) }
        ensures shown { OnOk result ((t : SupportTable) → SetsPair a b n (support_at (with_supports t self.old)) (support_at (with_supports t self.new))) }
        ensures err { OnErr result (self.new ≡ self.old) }
    {
        self.pairs.insert((a, b), n)?;
        Ok(())
    }

    // Drafts the support of a pair that hasn't been drafted, and notes its ends.
    fn set_first(&mut self, a: u32, b: u32, n: u32) -> Result<(), Memory>
        requires { lookup (is_pair (a, b)) self.old ≡ None }
        ensures looked { OnOk result (DraftsPair a b n self.old self.new) }
        ensures shown { OnOk result ((t : SupportTable) → SetsPair a b n (support_at (with_supports t self.old)) (support_at (with_supports t self.new))) }
        ensures err { OnErr result (self.new ≡ self.old) }
    {
        self.pairs.reserve(1)?;
        note_both(&mut self.from, &mut self.onto, a, b)?;
        match self.pairs.insert((a, b), n) {
            Ok(_) => Ok(()),
            Err(_) => unreachable!(),
        }
    }

    /// Reserves capacity in the base for the children and the parents that blocks may get.
    pub(crate) fn reserve_in(&self, base: &mut Summary) -> Result<(), Memory>
        requires ends { (p : ℕ × ℕ) (n : ℕ) → lookup (is_pair p) self.now ≡ Some n
            → (p.0 < base.old.reserved.span) × (p.1 < base.old.reserved.span) }
        ensures same { view_of base.new ≡ view_of base.old }
        ensures blocks { base.new.blocks.reserved ≡ base.old.blocks.reserved }
        ensures pairs { base.new.reserved.pairs ≡ base.old.reserved.pairs }
        ensures span { base.new.reserved.span ≡ base.old.reserved.span }
        ensures children { OnOk result ((a : ℕ) → from_count (keys_of self.now) a ≤ slice_index base.new.reserved.children a) }
        ensures parents { OnOk result ((b : ℕ) → onto_count (keys_of self.now) b ≤ slice_index base.new.reserved.parents b) }
    {
        for i in 0..self.pairs.len() {
            let Some((p, _)) = self.pairs.get_index(i) else {
                unreachable!()
            };
            base.reserve_children(p.0, ends_of(&self.from, p.0).len())?;
            base.reserve_parents(p.1, ends_of(&self.onto, p.1).len())?;
        }
        Ok(())
    }

    /// Writes the supports in the base, which has capacity for them.
    pub(crate) fn make_in(&self, base: &mut Summary)
        requires ends { ArePairsOfBlocks base.old.blocks.labels self.now }
        requires pairs { length self.now ≤ base.old.reserved.pairs }
        requires children { (a : ℕ) → from_count (keys_of self.now) a ≤ slice_index base.old.reserved.children a }
        requires parents { (b : ℕ) → onto_count (keys_of self.now) b ≤ slice_index base.old.reserved.parents b }
        ensures blocks { base.new.blocks ≡ base.old.blocks }
        ensures supports { base.new.supports ≡ with_supports base.old.supports self.now }
    {
        for i in 0..self.pairs.len() {
            let Some((p, n)) = self.pairs.get_index(i) else {
                unreachable!()
            };
            base.set_support(p.0, p.1, *n);
        }
    }

    /// Drops all.
    pub(crate) fn clear(&mut self)
        ensures { self.new ≡ [] }
    {
        empty_table(&mut self.pairs);
        empty_table(&mut self.from);
        empty_table(&mut self.onto);
    }
}

// Notes both ends of a pair. On `Memory` all ends stay.
fn note_both(from: &mut Ends, onto: &mut Ends, a: u32, b: u32) -> Result<(), Memory>
    ensures from { OnOk result (NotesEnd a b from.old.entries from.new.entries) }
    ensures onto { OnOk result (NotesEnd b a onto.old.entries onto.new.entries) }
    ensures from_err { OnErr result (HaveSameEnds from.old.entries from.new.entries) }
    ensures onto_err { OnErr result (HaveSameEnds onto.old.entries onto.new.entries) }
{
    note(from, a, b)?;
    match note(onto, b, a) {
        Ok(()) => Ok(()),
        Err(error) => {
            forget(from, a);
            Err(error)
        }
    }
}
