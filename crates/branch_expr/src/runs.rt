// Nodes whose label passes, taken by runs of numbers.
ghost use Rattle.std.specs.Prelude.{◌≡◌, ◌+◌, ◌<◌, ◌≤◌, ◌↔◌, length, take, IsTrue, IsSome};
ghost use Rattle.path_automaton.specs.NewMarks.{Gains, Passes};
ghost use Rattle.branch_expr.specs.Images.{IsMember, HasJust};

use label_graph::Digraph;
use path_automaton::has_label;
use px_base::{Bits, NodeId};

/// Whether the number is that of a node whose label passes.
#[inline(always)]
pub(crate) fn is_passing<G: Digraph>(g: &G, test: Option<u32>, n: NodeId) -> bool
    ensures passes { IsTrue result ↔ Passes (G.label_at g.now) test n }
    ensures node { IsTrue result → IsSome (G.label_at g.now n) }
{
    g.is_node(n) && has_label(g, test, n)
}

/// How many nodes are tested before those that pass are used: few enough for their numbers to stay in the nearest
/// memory. They are noted in an array, which no other memory overlaps, so that what a test reads of the graph stays in
/// registers.
pub(crate) const RUN: usize = 1024;

/// Puts a number behind the first `count` of a list, and answers how many there are then: one more if it is wanted.
#[inline(always)]
fn note_if(noted: &mut [u32; RUN], count: usize, n: NodeId, wanted: bool) -> usize
    requires { count < length noted.old }
    ensures length { length noted.new ≡ length noted.old }
    ensures within { result ≤ count + 1 }
    ensures noted { Gains (take count noted.old) (take result noted.new) (λ m. (m ≡ n) × IsTrue wanted) }
{
    noted[count] = n;
    if wanted { count + 1 } else { count }
}

/// Notes the nodes whose label passes, from `from` on and below `to`, and tells how many they are. It has no branch that
/// depends on a label.
#[inline(always)]
pub(crate) fn note_passing<G: Digraph>(
    g: &G,
    test: Option<u32>,
    from: NodeId,
    to: NodeId,
    noted: &mut [u32; RUN],
) -> usize
    requires order { from ≤ to }
    requires fits { to ≤ from + length noted.old }
    ensures length { length noted.new ≡ length noted.old }
    ensures within { result ≤ length noted.new }
    ensures noted { HasJust (take result noted.new) (λ m. (from ≤ m) × (m < to) × Passes (G.label_at g.now) test m) }
{
    let mut count = 0;
    for n in from..to {
        count = note_if(noted, count, n, is_passing(g, test, n));
    }
    count
}

/// Notes the members of a set from `from` on and below `to`, and tells how many they are. It has no branch that depends on
/// whether a number is one.
#[inline(always)]
pub(crate) fn note_members(set: &Bits, from: u32, to: u32, noted: &mut [u32; RUN]) -> usize
    requires order { from ≤ to }
    requires fits { to ≤ from + length noted.old }
    ensures length { length noted.new ≡ length noted.old }
    ensures within { result ≤ length noted.new }
    ensures noted { HasJust (take result noted.new) (λ m. (from ≤ m) × (m < to) × IsMember set.now.members m) }
{
    let mut count = 0;
    for n in from..to {
        count = note_if(noted, count, n, set.contains(n));
    }
    count
}

/// Where the run ends that begins at `from`.
pub(crate) fn end_of_run(from: u32, size: u32) -> u32
    requires { from < size }
    ensures more { from < result }
    ensures within { result ≤ size }
    ensures few { result ≤ from + 1024 }
{
    if size - from < RUN as u32 {
        size
    } else {
        from + RUN as u32
    }
}
