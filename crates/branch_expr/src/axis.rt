// Axes.
ghost use Rattle.std.specs.Prelude.{◌≡◌};

/// Where the next node lies.
#[derive(Clone, Copy, Debug, PartialEq, Eq)]
pub enum Axis {
    /// `/`, a child.
    Child,
    /// `//`, a node below: one or more edges lead to it.
    Below,
    /// `\`, a parent.
    Parent,
    /// `\\`, a node above: one or more edges lead from it.
    Above,
}

impl Axis {
    ghost use Rattle.branch_expr.specs.Axes.{axis_of, turned};

    /// The axis that leads back. O(1), no memory.
    pub fn turned(self) -> Axis
        ensures { axis_of result ≡ turned (axis_of self) }
    {
        match self {
            Axis::Child => Axis::Parent,
            Axis::Below => Axis::Above,
            Axis::Parent => Axis::Child,
            Axis::Above => Axis::Below,
        }
    }
}
