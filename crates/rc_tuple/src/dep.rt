ghost use Rattle.std.specs.Prelude.{◌≡◌, ◌↔◌, IsTrue};

use crate::ColSet;

/// A functional dependency: tuples that agree on the left side agree on the right side.
#[derive(Clone, Copy, Debug)]
pub struct Dep {
    /// The determining columns, maybe none.
    pub left: ColSet,
    /// The determined columns.
    pub right: ColSet,
}

impl Dep {
    /// Whether both have the same sides.
    pub fn equals(&self, other: &Dep) -> bool
        ensures { IsTrue result ↔ (self.now ≡ other.now) }
    {
        self.left.equals(other.left) && self.right.equals(other.right)
    }
}
