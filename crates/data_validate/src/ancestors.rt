// What leads to the members of a set by few edges.
ghost use Rattle.std.specs.Prelude.{◌≡◌, ◌<◌, ◌≤◌, ◌+◌, ◌&&◌, ◌⊎◌, [], ℕ, nat_eq, length, IsTrue, IsFalse, IsSome, IfOk, IfSome, OnOk};
ghost use Rattle.graph_spec.specs.Members.{has};
ghost use Rattle.data_validate.specs.Ancestors.{IsFew, AreAncestors, is_node_of, IsNoted, IsSpread};

use label_graph::Digraph;
use px_base::{Bits, Memory, NodeId};
use std::alloc::Global;

/// Meets the number, and lists it where it wasn't met before.
fn note(met: &mut Bits, found: &mut Vec<u32>, n: u32) -> Result<(), Memory>
    requires { n < met.old.size }
    ensures size { met.new.size ≡ met.old.size }
    ensures noted { OnOk result (IsNoted (λ c. nat_eq c n) met.old.members found.old.items met.new.members found.new.items) }
{
    if !met.contains(n) {
        met.insert(n);
        found.push(n)?;
    }
    Ok(())
}

/// The same where the test holds.
fn note_if(met: &mut Bits, found: &mut Vec<u32>, n: u32, holds: bool) -> Result<(), Memory>
    requires { IsTrue holds → n < met.old.size }
    ensures size { met.new.size ≡ met.old.size }
    ensures noted { OnOk result (IsNoted (λ c. nat_eq c n && holds) met.old.members found.old.items met.new.members found.new.items) }
{
    if holds { note(met, found, n) } else { Ok(()) }
}

/// The same for each of the numbers.
fn note_each(met: &mut Bits, found: &mut Vec<u32>, nodes: &[NodeId]) -> Result<(), Memory>
    requires { (c : ℕ) → IsTrue (has nodes.now c) → c < met.old.size }
    ensures size { met.new.size ≡ met.old.size }
    ensures noted { OnOk result (IsNoted (has nodes.now) met.old.members found.old.items met.new.members found.new.items) }
{
    for i in 0..nodes.len() {
        note(met, found, nodes[i])?;
    }
    Ok(())
}

/// The same for the members of the set that are nodes.
fn note_nodes<G: Digraph>(
    g: &G,
    set: &Bits,
    met: &mut Bits,
    found: &mut Vec<u32>,
) -> Result<(), Memory>
    requires { met.old.size ≡ G.span g.now }
    ensures size { met.new.size ≡ met.old.size }
    ensures noted { OnOk result (IsNoted (is_node_of (G.label_at g.now) set.now.members) met.old.members found.old.items met.new.members found.new.items) }
{
    // Called for its contract: members are below the set's size.
    let _known = set.size();
    let mut from = 0;
    'members: while let Some(n) = set.next_from(from) {
        note_if(met, found, n, g.is_node(n))?;
        from = n + 1;
    }
    Ok(())
}

/// Meets the parents of the nodes, and lists those that weren't met before. It takes a look for each node and one for
/// each parent, and answers how many of the looks it was given are left: `None` where they are too few, or seem to be,
/// since most nodes have a parent.
fn meet_parents<G: Digraph>(
    g: &G,
    nodes: &[NodeId],
    met: &mut Bits,
    found: &mut Vec<u32>,
    looks: u32,
) -> Result<Option<u32>, Memory>
    requires nodes { (v : ℕ) → IsTrue (has nodes.now v) → IsSome (G.label_at g.now v) }
    requires size { met.old.size ≡ G.span g.now }
    ensures size { met.new.size ≡ met.old.size }
    ensures left { IfOk result (λ o. IfSome o (λ left. left + length nodes.now ≤ looks)) }
    ensures spread { IfOk result (λ o. IfSome o (λ left. IsSpread (G.edge g.now) nodes.now met.old.members found.old.items met.new.members found.new.items)) }
{
    if nodes.len() >= looks as usize / 2 {
        return Ok(None);
    }
    let mut left = looks;
    for i in 0..nodes.len() {
        let parents = g.parents(nodes[i]);
        if parents.len() >= left as usize {
            return Ok(None);
        }
        left -= parents.len() as u32 + 1;
        note_each(met, found, parents)?;
    }
    Ok(Some(left))
}

/// Whether the bound, if there is one, allows more edges than this.
fn is_further(most: Option<u32>, edges: u32) -> bool
    ensures { IsFalse result → (k : ℕ) → IsFew most k → k ≤ edges }
{
    match most {
        None => true,
        Some(n) => edges < n,
    }
}

/// Whether nodes are left, and the bound allows more edges than this.
fn goes_on(most: Option<u32>, edges: u32, nodes: &[NodeId]) -> bool
    ensures some { IsTrue result → 0 < length nodes.now }
    ensures end { IsFalse result → (nodes.now ≡ []) ⊎ ((k : ℕ) → IsFew most k → k ≤ edges) }
{
    if nodes.is_empty() {
        return false;
    }
    is_further(most, edges)
}

/// An estimate of how many rounds a search takes: one for each edge, and at most four.
fn reckoned_rounds(most: Option<u32>) -> u32
    ensures { 0 < result }
{
    match most {
        Some(edges) => edges.max(1).min(4),
        None => 4,
    }
}

/// The members of the set that are nodes, and the nodes from which at most so many edges lead to one of these, or any
/// number of edges where no bound is given: a set of numbers below the graph's size. `None` where that seems to take
/// more looks at nodes and edges than a 64th of the graph's size, so that giving up loses little. `Memory` comes only
/// where memory runs out. O(n + e + s), where n nodes are found, e edges lead to them, and s is the greater of both
/// sizes.
pub(crate) fn ancestors<G: Digraph>(
    alloc: Global,
    g: &G,
    set: &Bits,
    most: Option<u32>,
) -> Result<Option<Bits>, Memory>
    ensures size { IfOk result (λ o. IfSome o (λ b. b.size ≡ G.span g.now)) }
    ensures leading { IfOk result (λ o. IfSome o (λ b. AreAncestors (G.label_at g.now) (G.edge g.now) most set.now.members b.members)) }
{
    let mut left = g.size() / 64;
    if set.count() > left / 2 / reckoned_rounds(most) {
        return Ok(None);
    }
    let mut met = Bits::new(alloc, g.size())?;
    let mut current = Vec::new(alloc);
    note_nodes(g, set, &mut met, &mut current)?;
    let mut found = Vec::new(alloc);
    let mut edges = 0;
    'rounds: while goes_on(most, edges, &current) {
        found.clear();
        let Some(rest) = meet_parents(g, &current, &mut met, &mut found, left)? else {
            return Ok(None);
        };
        left = rest;
        std::mem::swap(&mut current, &mut found);
        edges += 1;
    }
    Ok(Some(met))
}
