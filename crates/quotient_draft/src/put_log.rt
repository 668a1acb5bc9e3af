// Puts of nodes into blocks.
ghost use Rattle.std.specs.Prelude.{◌≡◌, ◌<◌, ◌++◌, ◌∷◌, [], ℕ, Some, true, OnOk, OnErr, length, slice_get};
ghost use Rattle.quotient_draft.specs.PutLogs.{goes_to, last_put};

use crate::counts::count_of;
use crate::emptying::{empty_list, empty_table};
use indexmap::IndexMap;
use px_base::{Memory, NodeId};
use std::alloc::Global;
use std::marker::Model;

/// Nodes with the blocks into which they were put, in the order in which that was done. The puts into one block
/// are linked, from the last one back, by their places plus 1.
#[derive(Drop)]
pub(crate) struct PutLog {
    puts: Vec<(NodeId, u32)>,
    before: Vec<usize>,
    last: IndexMap<u32, usize>,
}

impl Model for PutLog {
    ghost use Rattle.std.specs.Prelude.{ℕ, List};
    ghost use Rattle.quotient_draft.specs.PutLogs.{AreLinked};

    ghost Value = { List (ℕ × ℕ) };

    ghost view = { λ p. p.puts.items };

    ghost invariant = { λ p. AreLinked p.puts.items p.before.items p.last.entries };
}

impl PutLog {
    pub(crate) fn new(alloc: Global) -> PutLog
        ensures { result ≡ [] }
    {
        PutLog {
            puts: Vec::new(alloc),
            before: Vec::new(alloc),
            last: IndexMap::new(alloc),
        }
    }

    /// Adds the put of a node into a block. Where memory runs out, the puts are as before.
    pub(crate) fn add(&mut self, n: NodeId, b: u32) -> Result<(), Memory>
        ensures ok { OnOk result (self.new ≡ self.old ++ (n, b) ∷ []) }
        ensures err { OnErr result (self.new ≡ self.old) }
    {
        let place = self.puts.len();
        self.puts.reserve(1)?;
        self.before.reserve(1)?;
        let before = self.last.insert(b, place + 1)?;
        self.puts.push_reserved((n, b));
        self.before.push_reserved(before.unwrap_or(0));
        Ok(())
    }

    /// The place, plus 1, of the last put into a block, and 0 where there is none.
    pub(crate) fn last(&self, b: u32) -> usize
        ensures { result ≡ last_put self.now b (length self.now) }
    {
        count_of(&self.last, b)
    }

    /// The node that was put at this place.
    pub(crate) fn node(&self, place: usize) -> NodeId
        requires { place < length self.now }
        ensures { (b : ℕ) → goes_to b (slice_get self.now place) ≡ true → slice_get self.now place ≡ Some (result, b) }
    {
        self.puts[place].0
    }

    /// The place, plus 1, of the put before this one into the same block, and 0 where there is none.
    pub(crate) fn before(&self, place: usize) -> usize
        requires { place < length self.now }
        ensures { (b : ℕ) → goes_to b (slice_get self.now place) ≡ true → result ≡ last_put self.now b place }
    {
        self.before[place]
    }

    /// Drops all.
    pub(crate) fn clear(&mut self)
        ensures { self.new ≡ [] }
    {
        empty_list(&mut self.puts);
        empty_list(&mut self.before);
        empty_table(&mut self.last);
    }
}
