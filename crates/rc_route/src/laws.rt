ghost use Rattle.rc_route.specs.LeastPathLaws.{ChosenRoutesAreGood, HasChosenRoute, LeastPathsCostLeast, LeastPathsExist, OneChosenRoute, OneLeastPath};
ghost use Rattle.rc_route.specs.PathsLaws.{PathsAreGood};
ghost use Rattle.rc_route.specs.PrunedWalkLaws.{HasWalk, OneWalk, WalksAreGood, WalksArePruned, WalksStay};

/// The pruned walk is a good route for each need among the columns, where the decomposition is adequate.
pub fn walks_are_good()
    ensures { WalksAreGood }
{}

/// No edge of a pruned walk can be left out.
pub fn walks_are_pruned()
    ensures { WalksArePruned }
{}

/// One more pass leaves a pruned walk as it is.
pub fn walks_stay()
    ensures { WalksStay }
{}

/// For each need there is one pruned walk and no other.
pub fn one_pruned_walk()
    ensures one { OneWalk }
    ensures some { HasWalk }
{}

/// A path from the root whose last node binds the need is a good route for it.
pub fn paths_are_good()
    ensures { PathsAreGood }
{}

/// A least path costs no more than any other path that binds the need.
pub fn least_paths_cost_least()
    ensures { LeastPathsCostLeast }
{}

/// At most one path is the least.
pub fn one_least_path()
    ensures { OneLeastPath }
{}

/// There is a least path exactly where some node binds the need.
pub fn least_paths_exist()
    ensures { LeastPathsExist }
{}

/// The chosen route is a good route for each need among the columns.
pub fn chosen_routes_are_good()
    ensures { ChosenRoutesAreGood }
{}

/// For each pattern and need there is one chosen route and no other.
pub fn one_chosen_route()
    ensures one { OneChosenRoute }
    ensures some { HasChosenRoute }
{}
