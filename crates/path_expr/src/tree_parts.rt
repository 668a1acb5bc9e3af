// The parts of a tree.
ghost use Rattle.std.specs.Prelude.{◌≡◌, ◌<◌, ◌+◌, length, slice_get, Some};
ghost use Rattle.path_expr.specs.ExprTrees.{sep_of, item_of, seq_of};
ghost use Rattle.path_expr.specs.TreeParts.{alternatives, items, separators};

use crate::tree::{Expr, Item, Sep, Seq};

impl Expr {
    /// How many alternatives there are, at least one. O(1), no memory.
    pub fn len(&self) -> usize
        ensures { result ≡ length (alternatives self.now) }
    {
        self.more.len() + 1
    }

    /// The alternative with the number, which is below `len`. O(1), no memory.
    pub fn seq(&self, j: usize) -> &Seq
        requires { j < length (alternatives self.now) }
        ensures { slice_get (alternatives self.now) j ≡ Some (seq_of result.now) }
    {
        if j == 0 {
            &self.first
        } else {
            &self.more[j - 1]
        }
    }
}

impl Seq {
    /// The first item. O(1), no memory.
    pub fn first(&self) -> &Item
        ensures { slice_get (items (seq_of self.now)) 0 ≡ Some (item_of result.now) }
    {
        &self.first
    }

    /// How many separators there are, each with an item behind it. O(1), no memory.
    pub fn len(&self) -> usize
        ensures { result ≡ length (separators (seq_of self.now)) }
    {
        self.rest.len()
    }

    /// The separator with the number, which is below `len`. O(1), no memory.
    pub fn sep(&self, j: usize) -> Sep
        requires { j < length (separators (seq_of self.now)) }
        ensures { slice_get (separators (seq_of self.now)) j ≡ Some (sep_of result) }
    {
        self.rest[j].sep
    }

    /// The item behind the separator with the number, which is below `len`. O(1), no memory.
    pub fn item(&self, j: usize) -> &Item
        requires { j < length (separators (seq_of self.now)) }
        ensures { slice_get (items (seq_of self.now)) (j + 1) ≡ Some (item_of result.now) }
    {
        &self.rest[j].item
    }
}
