// Where another block to merge with is found at once.
use indexmap::IndexMap;
use px_base::Memory;
use std::alloc::Global;
use std::marker::Model;

// Up to how many blocks are looked through without a hint.
const FEW: usize = 32;

/// For a parent and a label the child with that label into which another was merged last, and for a label alone the block
/// without other parents. Nothing is promised of a block that is found: the caller tests it. The first takes no memory.
#[derive(Drop)]
pub(crate) struct KeptBlocks {
    last: Option<((Option<u32>, u32), u32)>,
    others: IndexMap<(Option<u32>, u32), u32>,
    asked: Option<(Option<u32>, u32)>,
}

impl Model for KeptBlocks {
    ghost use Rattle.std.specs.Prelude.{⊤};

    ghost Value = { ⊤ };

    ghost view = { λ _. tt };
}

impl KeptBlocks {
    /// None.
    pub(crate) fn new(alloc: Global) -> KeptBlocks {
        KeptBlocks {
            last: None,
            others: IndexMap::new(alloc),
            asked: None,
        }
    }

    /// The block that was noted last for this parent, or none, and this label.
    pub(crate) fn ask(&mut self, parent: Option<u32>, label: u32) -> Option<u32> {
        let key = (parent, label);
        self.asked = Some(key);
        if let Some((noted, b)) = self.last {
            if noted == key {
                return Some(b);
            }
        }
        self.find_other(key)
    }

    // The same, for what was noted before the last.
    fn find_other(&self, key: (Option<u32>, u32)) -> Option<u32> {
        if self.others.is_empty() {
            return None;
        }
        match self.others.get(&key) {
            Some(b) => Some(*b),
            None => None,
        }
    }

    /// So many blocks are looked through for what was asked. Where they are few, nothing is noted for it.
    pub(crate) fn look_through(&mut self, many: usize) {
        if many <= FEW {
            self.asked = None;
        }
    }

    /// Notes the block that is kept, for what was asked last.
    pub(crate) fn note(&mut self, b: u32) -> Result<(), Memory> {
        if let Some(key) = self.asked {
            self.keep_last(key)?;
            self.last = Some((key, b));
        }
        Ok(())
    }

    // Keeps what was noted last, where it was for another parent or label than the next.
    fn keep_last(&mut self, next: (Option<u32>, u32)) -> Result<(), Memory> {
        if let Some((noted, b)) = self.last {
            if noted != next {
                self.others.insert(noted, b)?;
            }
        }
        Ok(())
    }
}
