//! The route for a need.

ghost use Rattle.std.specs.Prelude.{◌≡◌, [], IfOk};
ghost use Rattle.rc_tuple.specs.ColSet.{Within};
ghost use Rattle.rc_spec.specs.Calls.{all_columns};
ghost use Rattle.rc_route.specs.GoodRoutes.{IsGoodRoute};
ghost use Rattle.rc_route.specs.Paths.{IsChosenRoute};

use crate::{Route, least_path, pruned_walk};
use rc_spec::Accepted;
use rc_tuple::{ColSet, Memory};
use std::alloc::Global;

/// The route for a need where the columns of a pattern are bound: the least path where some node binds the need, else
/// the pruned walk. It is a good route for the need. The need isn't empty, and lies among the columns.
pub fn route_for(
    alloc: Global,
    accepted: &Accepted,
    pattern: ColSet,
    need: ColSet,
) -> Result<Route, Memory>
    requires some { need ≡ [] → ⊥ }
    requires known { Within need (all_columns accepted.now) }
    ensures chosen { IfOk result (IsChosenRoute accepted.now pattern need) }
    ensures good { IfOk result (IsGoodRoute accepted.now need) }
{
    match least_path(alloc, accepted, pattern, need)? {
        Some(path) => Ok(path),
        None => pruned_walk(alloc, accepted, need),
    }
}
