// Sets of nodes from other sets, and from labels.
ghost use Rattle.std.specs.Prelude.{◌≡◌, ◌<◌, ℕ, Some, IsTrue, IfOk, OnOk};
ghost use Rattle.graph_spec.specs.Members.{has};
ghost use Rattle.path_automaton.specs.NewMarks.{Gains, Passes};
ghost use Rattle.branch_expr.specs.Images.{IsMember, HasJust, Keeps, Loses};

use crate::runs::{RUN, end_of_run, is_passing, note_members, note_passing};
use label_graph::Digraph;
use px_base::{Bits, Memory, NodeId};
use std::alloc::Global;

/// Takes the number out of the set if it isn't to stay.
#[inline(always)]
fn remove_unless(set: &mut Bits, n: NodeId, stays: bool)
    requires { n < set.old.size }
    ensures size { set.new.size ≡ set.old.size }
    ensures members { Keeps set.old.members set.new.members (λ m. m ≡ n → IsTrue stays) }
{
    if !stays {
        set.remove(n);
    }
}

/// Takes out of a set the numbers that aren't in another one. O(n) for the first set's size n, no memory.
pub(crate) fn intersect(set: &mut Bits, other: &Bits)
    ensures size { set.new.size ≡ set.old.size }
    ensures members { Keeps set.old.members set.new.members (IsMember other.now.members) }
{
    // Called for its contract: the members are below the size.
    let _known = set.size();
    let mut from = 0;
    while let Some(n) = set.next_from(from) {
        remove_unless(set, n, other.contains(n));
        from = n + 1;
    }
}

/// Puts the numbers of another set into a set, which has the same size. O(n) for their size n, no memory.
pub(crate) fn unite(set: &mut Bits, other: &Bits)
    requires { other.now.size ≡ set.old.size }
    ensures size { set.new.size ≡ set.old.size }
    ensures members { Gains set.old.members set.new.members (IsMember other.now.members) }
{
    // Called for its contract: the members are below the size.
    let _known = other.size();
    let mut from = 0;
    while let Some(n) = other.next_from(from) {
        set.insert(n);
        from = n + 1;
    }
}

/// Takes the numbers of another set out of a set. O(n) for the first set's size n, no memory.
pub(crate) fn subtract(set: &mut Bits, gone: &Bits)
    ensures size { set.new.size ≡ set.old.size }
    ensures members { Loses set.old.members set.new.members (IsMember gone.now.members) }
{
    // Called for its contract: the members are below the size.
    let _known = set.size();
    let mut from = 0;
    while let Some(n) = set.next_from(from) {
        remove_unless(set, n, !gone.contains(n));
        from = n + 1;
    }
}

/// Puts the listed numbers into a set.
fn insert_all(set: &mut Bits, list: &[u32])
    requires { (n : ℕ) → IsTrue (has list.now n) → n < set.old.size }
    ensures size { set.new.size ≡ set.old.size }
    ensures members { Gains set.old.members set.new.members (IsMember list.now) }
{
    for i in 0..list.len() {
        set.insert(list[i]);
    }
}

/// The nodes whose label has the number, or all nodes where none is given. They are a set of numbers below the graph's size.
/// `Memory` comes only where memory runs out. O(n) for n node numbers; it takes a byte for each.
pub(crate) fn passing<G: Digraph>(alloc: Global, g: &G, test: Option<u32>) -> Result<Bits, Memory>
    ensures size { IfOk result (λ s. s.size ≡ G.span g.now) }
    ensures members { IfOk result (λ s. HasJust s.members (Passes (G.label_at g.now) test)) }
{
    let mut set = Bits::new(alloc, g.size())?;
    let mut noted = [0; RUN];
    let mut from = 0;
    while from < g.size() {
        let to = end_of_run(from, g.size());
        let count = note_passing(g, test, from, to, &mut noted);
        insert_all(&mut set, &noted[..count]);
        from = to;
    }
    Ok(set)
}

/// Takes out of a set the listed numbers that aren't nodes whose label has the number.
fn keep_listed<G: Digraph>(g: &G, label: u32, list: &[u32], set: &mut Bits)
    requires { (n : ℕ) → IsTrue (has list.now n) → n < set.old.size }
    ensures size { set.new.size ≡ set.old.size }
    ensures members { Keeps set.old.members set.new.members (λ n. IsMember list.now n → G.label_at g.now n ≡ Some label) }
{
    for i in 0..list.len() {
        remove_unless(set, list[i], is_passing(g, Some(label), list[i]));
    }
}

/// Keeps the members of a set that are nodes whose label has the number. O(n) for a set of numbers below n, and each member's
/// label is read once; no memory.
pub(crate) fn keep_labelled<G: Digraph>(g: &G, label: u32, set: &mut Bits)
    ensures size { set.new.size ≡ set.old.size }
    ensures members { Keeps set.old.members set.new.members (λ n. G.label_at g.now n ≡ Some label) }
{
    let mut noted = [0; RUN];
    let mut from = 0;
    while from < set.size() {
        let to = end_of_run(from, set.size());
        let count = note_members(set, from, to, &mut noted);
        keep_listed(g, label, &noted[..count], set);
        from = to;
    }
}
