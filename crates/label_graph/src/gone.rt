// Gone nodes whose lists still have cells.
ghost use Rattle.std.specs.Prelude.{◌≡◌, length};
ghost use Rattle.cell_lists.specs.Segments.{items_in, LiesWithin, Writes};

use bisim_spec::Side;
use cell_lists::{Segment, is_short, more_reserved, spare};
use px_base::NodeId;
use std::marker::Model;

/// How many capacities there are: the powers of two that fit 32 bits.
const SIZES: usize = 32;

/// How many there are of children and of parents together.
const PLACES: usize = 2 * SIZES;

/// What stands for no node.
const NOBODY: NodeId = u32::MAX;

/// For each capacity, of children and of parents, the gone node whose list got it last. The first cell of that list
/// has the number of the node that got such a capacity before, and so on, so that these lists take no memory. Nothing is
/// promised of a number that is found: the caller checks what it leads to.
#[derive(Drop)]
pub(crate) struct GoneLists {
    firsts: [NodeId; PLACES],
}

impl Model for GoneLists {
    ghost use Rattle.std.specs.Prelude.{⊤};

    ghost Value = { ⊤ };

    ghost view = { λ _. tt };
}

impl GoneLists {
    /// No node.
    pub(crate) fn new() -> GoneLists {
        GoneLists {
            firsts: [NOBODY; PLACES],
        }
    }

    /// The first gone node with the capacity that a list wants where no more than that many numbers fit.
    pub(crate) fn first_for(&self, list: &Segment, side: Side, taken: usize) -> NodeId {
        if spare(list) > taken {
            return NOBODY;
        }
        self.first(side, more_reserved(list.reserved))
    }

    /// Puts a gone node in front, by a list of its that has no numbers, where that takes cells.
    pub(crate) fn offer(&mut self, cells: &mut Vec<u32>, list: &Segment, side: Side, n: NodeId)
        requires { LiesWithin (length cells.old.items) list.now }
        ensures writes { Writes cells.old.items cells.new.items list.now list.now }
        ensures items { items_in cells.new.items list.now ≡ items_in cells.old.items list.now }
    {
        if list.len > 0 || is_short(list) {
            return;
        }
        let reserved = list.reserved as usize;
        cells[list.first as usize] = self.first(side, reserved);
        self.set_first(side, reserved, n);
    }

    /// Takes the first node out, whose list this is.
    pub(crate) fn withdraw(&mut self, cells: &[u32], list: &Segment, side: Side) {
        let next = match cells.get(list.first as usize) {
            Some(next) => *next,
            None => NOBODY,
        };
        self.set_first(side, list.reserved as usize, next);
    }

    fn first(&self, side: Side, reserved: usize) -> NodeId {
        match self.firsts.get(place_of(side, reserved)) {
            Some(first) => *first,
            None => NOBODY,
        }
    }

    fn set_first(&mut self, side: Side, reserved: usize, n: NodeId) {
        if let Some(first) = self.firsts.get_mut(place_of(side, reserved)) {
            *first = n;
        }
    }
}

fn place_of(side: Side, reserved: usize) -> usize {
    let begin = if side == Side::Parents { SIZES } else { 0 };
    begin + reserved.trailing_zeros() as usize
}
