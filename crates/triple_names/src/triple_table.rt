// The triples, by the places of their parts.
ghost use Rattle.std.specs.Prelude.{◌≡◌, ◌++◌, ◌∷◌, [], false, OnOk};
ghost use Rattle.std.specs.List.{list_any};
ghost use Rattle.std.specs.Map.{keys_of, lookup};
ghost use Rattle.triple_names.specs.TableIndexes.{same_key};

use indexmap::IndexMap;
use px_base::{Memory, NodeId};
use std::alloc::Global;
use std::marker::Model;

/// A triple by the places of its subject, its predicate and its object in their tables.
#[derive(Clone, Copy, Debug, PartialEq, Eq, Hash)]
pub struct Key {
    /// The place of the subject among the terms.
    pub subject: u32,
    /// The place of the predicate among the predicates.
    pub predicate: u32,
    /// The place of the object among the terms.
    pub object: u32,
}

/// The keys of triples, each once, with the numbers of their nodes. They are found by hash.
#[derive(Drop)]
pub struct TripleTable {
    numbers: IndexMap<Key, NodeId>,
}

impl Model for TripleTable {
    ghost use Rattle.std.specs.Prelude.{List, ℕ};
    ghost use Rattle.triple_names.specs.declared.triple_table.Key.{Key as Value_of_key};

    ghost Value = { List (Value_of_key × ℕ) };

    ghost view = { λ t. t.numbers.entries };
}

impl TripleTable {
    /// No keys. O(1), no memory.
    pub fn new(alloc: Global) -> TripleTable
        ensures { result ≡ [] }
    {
        TripleTable {
            numbers: IndexMap::new(alloc),
        }
    }

    /// Whether the key is there. Expected O(1), no memory.
    pub fn contains(&self, key: Key) -> bool
        ensures { result ≡ list_any (same_key key) (keys_of self.now) }
    {
        self.get(key).is_some()
    }

    /// The number beside the key, and `None` exactly if it isn't there. Expected O(1), no memory.
    pub fn get(&self, key: Key) -> Option<NodeId>
        ensures { result ≡ lookup (same_key key) self.now }
    {
        self.numbers.get(&key).copied()
    }

    /// Puts in a key that isn't there. Expected O(1), amortized.
    pub fn add(&mut self, key: Key, number: NodeId) -> Result<(), Memory>
        requires absent { list_any (same_key key) (keys_of self.old) ≡ false }
        ensures { OnOk result (self.new ≡ self.old ++ (key, number) ∷ []) }
    {
        self.numbers.insert(key, number)?;
        Ok(())
    }
}
