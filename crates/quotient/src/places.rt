// Where pairs of blocks stand in the lists of neighbours. Each place is checked before it is used, so no contract
// mentions it: if it were wrong, the list would be searched.
use px_base::Memory;
use std::alloc::Global;

/// The place of a pair's second block among the children of the first, and of the first among the parents of the
/// second.
#[derive(Clone, Copy)]
pub(crate) struct Place {
    pub(crate) child: u32,
    pub(crate) parent: u32,
}

impl Place {
    pub(crate) fn new(child: usize, parent: usize) -> Place {
        Place {
            child: noted(child),
            parent: noted(parent),
        }
    }
}

/// A place as it is noted. Lists are never so long that it doesn't fit.
pub(crate) fn noted(place: usize) -> u32 {
    u32::try_from(place).unwrap_or(u32::MAX)
}

/// The place of each pair, by its index in the table of supports: 8 bytes a pair. For a quotient that is only read, none is noted,
/// and the list stays empty.
#[derive(Drop)]
pub(crate) struct Places {
    list: Vec<Place>,
    is_noting: bool,
}

impl Places {
    pub(crate) fn new(alloc: Global, is_noting: bool) -> Places {
        Places {
            list: Vec::new(alloc),
            is_noting,
        }
    }

    /// Reserves capacity for that many further pairs.
    pub(crate) fn reserve(&mut self, more: usize) -> Result<(), Memory> {
        if self.is_noting {
            self.list.reserve(more)?;
        }
        Ok(())
    }

    /// Notes the place of a further pair.
    pub(crate) fn push(&mut self, place: Place) -> Result<(), Memory> {
        if self.is_noting {
            self.list.push(place)?;
        }
        Ok(())
    }

    /// Notes the place of a further pair, if capacity is reserved for it. It takes no memory.
    pub(crate) fn add(&mut self, place: Place) {
        if self.list.len() < self.list.capacity() {
            self.list.push_reserved(place);
        }
    }

    /// Takes the pair with this index out, and gives its place. The last pair gets its index, as in the table.
    pub(crate) fn take(&mut self, i: usize) -> Place {
        if i < self.list.len() {
            return self.list.swap_remove(i);
        }
        Place::new(0, 0)
    }

    /// Notes another place among the children for the pair with this index.
    pub(crate) fn write_child(&mut self, i: usize, place: usize) {
        if i < self.list.len() {
            self.list[i].child = noted(place);
        }
    }

    /// Notes another place among the parents for the pair with this index.
    pub(crate) fn write_parent(&mut self, i: usize, place: usize) {
        if i < self.list.len() {
            self.list[i].parent = noted(place);
        }
    }
}
