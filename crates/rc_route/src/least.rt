//! The least path.

ghost use Rattle.std.specs.Prelude.{◌≡◌, [], IfOk, IfSome, MatchOption};
ghost use Rattle.rc_tuple.specs.ColSet.{Within};
ghost use Rattle.rc_spec.specs.Calls.{all_columns};
ghost use Rattle.rc_route.specs.GoodRoutes.{IsGoodRoute};
ghost use Rattle.rc_route.specs.Paths.{IsLeastPath, SomeNodeBinds};

use crate::Route;
use crate::search::{last_node, least_paths};
use rc_spec::Accepted;
use rc_tuple::{ColSet, Memory};
use std::alloc::Global;

/// The least path for a need where the columns of a pattern are bound, or `None`, exactly where no node binds the need.
/// Among all paths from the root whose last node binds the need it is the one of least `cost`; of those the one whose
/// last node is written first; and of those the one whose edge numbers, compared from the last edge back, are least. It
/// is a good route for the need. The need isn't empty, and lies among the columns. (PLDI 2011, query planning by cost.)
pub fn least_path(
    alloc: Global,
    accepted: &Accepted,
    pattern: ColSet,
    need: ColSet,
) -> Result<Option<Route>, Memory>
    requires some { need ≡ [] → ⊥ }
    requires known { Within need (all_columns accepted.now) }
    ensures least { IfOk result (λ found. MatchOption found (SomeNodeBinds accepted.now need → ⊥) (IsLeastPath accepted.now pattern need)) }
    ensures good { IfOk result (λ found. IfSome found (IsGoodRoute accepted.now need)) }
{
    let spec = accepted.spec();
    let paths = least_paths(alloc, spec, pattern, accepted.order())?;
    match last_node(spec, pattern, need, &paths) {
        None => Ok(None),
        Some(node) => Ok(Some(paths[node as usize].copy()?)),
    }
}
