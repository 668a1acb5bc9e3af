// Sets of states.
ghost use Rattle.std.specs.Prelude.{◌≡◌, ◌<◌, ℕ, [], false, IsTrue, IfOk, OnOk};
ghost use Rattle.graph_spec.specs.Members.{has};
ghost use Rattle.state_sets.specs.StateSets.{Enlarges};

use px_base::{Bits, Memory};
use std::alloc::Global;
use std::marker::Model;

/// A set of states of an automaton, seen as how many states the automaton has and the list of the members.
#[derive(Drop)]
pub struct States {
    set: Bits,
    list: Vec<u32>,
}

impl Model for States {
    ghost use Rattle.std.specs.Prelude.{List, ℕ};
    ghost use Rattle.state_sets.specs.StateSets.{AreStates};

    ghost Value = { ℕ × List ℕ };

    ghost view = { λ s. (s.set.size, s.list.items) };

    ghost invariant = { λ s. AreStates s.set.size s.set.members s.list.items };
}

impl States {
    /// The empty set of states of an automaton that has `count`. `Memory` comes where memory runs out, or where `count`
    /// passes 2^32 - 1. O(count); it takes a byte for each state.
    pub fn new(alloc: Global, count: usize) -> Result<States, Memory>
        ensures size { IfOk result (λ s. s.0 ≡ count) }
        ensures none { IfOk result (λ s. s.1 ≡ []) }
    {
        let Ok(size) = u32::try_from(count) else {
            return Err(Memory);
        };
        let set = Bits::new(alloc, size)?;
        Ok(States {
            set,
            list: Vec::new(alloc),
        })
    }

    /// The members. O(1), no memory.
    pub fn list(&self) -> &[u32]
        ensures list { result.now ≡ self.now.1 }
        ensures below { (s : ℕ) → IsTrue (has self.now.1 s) → s < self.now.0 }
    {
        &self.list
    }

    /// Takes all members out, and keeps the memory. O(s) for s members.
    pub(crate) fn clear(&mut self)
        ensures size { self.new.0 ≡ self.old.0 }
        ensures none { self.new.1 ≡ [] }
    {
        remove_all(&mut self.set, &self.list);
        self.list.clear();
    }

    /// Makes the state a member. O(1), amortized; it takes memory for one member.
    pub(crate) fn enter(&mut self, state: u32) -> Result<(), Memory>
        requires { state < self.old.0 }
        ensures size { self.new.0 ≡ self.old.0 }
        ensures enlarges { OnOk result (Enlarges (λ s. s ≡ state) self.old.1 self.new.1) }
        ensures entered { OnOk result (IsTrue (has self.new.1 state)) }
    {
        if self.set.contains(state) {
            return Ok(());
        }
        self.list.push(state)?;
        self.set.insert(state);
        Ok(())
    }
}

/// Removes the listed numbers from a set that has no others.
fn remove_all(set: &mut Bits, list: &[u32])
    requires below { (s : ℕ) → IsTrue (has list.now s) → s < set.old.size }
    requires others { (s : ℕ) → IsTrue (has set.old.members s) → IsTrue (has list.now s) }
    ensures size { set.new.size ≡ set.old.size }
    ensures none { (s : ℕ) → has set.new.members s ≡ false }
{
    for i in 0..list.len() {
        set.remove(list[i]);
    }
}
