// Rows of neighbours.
ghost use Rattle.std.specs.Prelude.{◌≡◌, ◌<◌, ◌≤◌, ◌∷◌, length, get_or, IfOk};
ghost use Rattle.std.specs.List.{slice_range};
ghost use Rattle.adjacency.specs.Rows.{rows_in, rows_of, row, AreEnds};
ghost use Rattle.adjacency.specs.Targets.{targets_of, from_own, BeginBelow};

use crate::filling::{fill, starts};
use bisim_spec::Side;
use px_base::{Memory, NodeId};
use std::alloc::Global;
use std::marker::Model;

/// For each node of a graph its neighbours on one side. It takes 4 bytes for each node and for each edge.
#[derive(Drop)]
pub struct Adjacency {
    // Where each row ends; the next one begins there.
    ends: Vec<u32>,
    items: Vec<NodeId>,
}

impl Model for Adjacency {
    ghost use Rattle.std.specs.Prelude.{List, ℕ, length};
    ghost use Rattle.adjacency.specs.Rows.{rows_in, AreEnds};

    ghost Value = { List (List ℕ) };

    ghost view = { λ a. rows_in 0 a.ends.items a.items.items };

    ghost invariant = { λ a. AreEnds a.ends.items (length a.items.items) };
}

// Where the row of a node begins.
fn start_of(ends: &[u32], n: NodeId) -> u32
    requires { n < length ends.now }
    ensures { result ≡ get_or (0 ∷ ends.now) n 0 }
{
    if n == 0 { 0 } else { ends[n as usize - 1] }
}

fn part(items: &[NodeId], from: u32, end: u32) -> &[NodeId]
    requires order { from ≤ end }
    requires within { end ≤ length items.now }
    ensures { result.now ≡ slice_range items.now from end }
{
    &items[from as usize..end as usize]
}

fn row_at<'a>(ends: &[u32], items: &'a [NodeId], n: NodeId) -> &'a [NodeId]
    requires node { n < length ends.now }
    requires ends { AreEnds ends.now (length items.now) }
    ensures { result.now ≡ row (rows_in 0 ends.now items.now) n }
{
    let from = start_of(ends, n);
    let end = ends[n as usize];
    part(items, from, end)
}

impl Adjacency {
    /// The neighbours of the nodes below `size`, in the order of the edges. O(n + m) for n nodes and m edges.
    pub fn of(
        alloc: Global,
        size: u32,
        edges: &[(NodeId, NodeId)],
        side: Side,
    ) -> Result<Adjacency, Memory>
        requires few { length edges.now ≤ 4294967295 }
        requires below { BeginBelow size (from_own side edges.now) }
        ensures { IfOk result (λ a. a ≡ rows_of (targets_of (from_own side edges.now)) 0 size) }
    {
        let mut ends = starts(alloc, size, edges, side)?;
        let mut items = vec![in alloc; 0u32; edges.len()]?;
        fill(&mut ends, &mut items, edges, side);
        Ok(Adjacency { ends, items })
    }

    /// The neighbours of a node. O(1), no memory.
    pub fn neighbours(&self, n: NodeId) -> &[NodeId]
        requires { n < length self.now }
        ensures { result.now ≡ row self.now n }
    {
        row_at(&self.ends, &self.items, n)
    }
}
