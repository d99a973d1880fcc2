//! Laws of implied dependencies, each of all relations that satisfy the dependencies.

ghost use Rattle.rc_fd.specs.ClosedLaws.{FollowsClosed};
ghost use Rattle.rc_fd.specs.FollowsLaws.{FollowsSubset, FollowsDependency, FollowsTransitive, FollowsUnion, FollowsColumns, FollowsWeaker, FollowsAugmented, FollowsHeld, FollowsSatisfied};

/// Columns determine each set of some of them (reflexivity).
pub fn follows_subset()
    ensures { FollowsSubset }
{}

/// Each dependency of the list is implied by the list.
pub fn follows_dependency()
    ensures { FollowsDependency }
{}

/// Where `xs` determines `ys` and `ys` determines `zs`, `xs` determines `zs` (transitivity).
pub fn follows_transitive()
    ensures { FollowsTransitive }
{}

/// Columns that determine two sets determine their union.
pub fn follows_union()
    ensures { FollowsUnion }
{}

/// A set is determined exactly where each of its columns is (decomposition and union).
pub fn follows_columns()
    ensures { FollowsColumns }
{}

/// What dependencies imply, more dependencies imply too, with more columns on the left and fewer on the right.
pub fn follows_weaker()
    ensures { FollowsWeaker }
{}

/// The same columns may be added on both sides (augmentation).
pub fn follows_augmented()
    ensures { FollowsAugmented }
{}

/// A closed set has what its columns determine.
pub fn follows_closed()
    ensures { FollowsClosed }
{}

/// Columns that hold the dependencies and a left side hold what it determines.
pub fn follows_held()
    ensures { FollowsHeld }
{}

/// A relation that satisfies the dependencies satisfies what they imply.
pub fn follows_satisfied()
    ensures { FollowsSatisfied }
{}
