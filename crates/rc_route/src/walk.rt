//! The pruned walk.

ghost use Rattle.std.specs.Prelude.{◌≡◌, ◌<◌, [], IfOk, length, false, true};
ghost use Rattle.rc_tuple.specs.ColSet.{Within};
ghost use Rattle.rc_spec.specs.Calls.{all_columns};
ghost use Rattle.rc_spec.specs.InRange.{IsInRange};
ghost use Rattle.rc_route.specs.GoodRoutes.{IsGoodRoute, all_edges};
ghost use Rattle.rc_route.specs.PrunedWalk.{IsPass, IsPrunedWalk};

use crate::Route;
use crate::good::is_good;
use rc_spec::{Accepted, Spec};
use rc_tuple::{ColSet, Memory};
use std::alloc::Global;

/// The edges in written order.
fn all_edges(alloc: Global, spec: &Spec) -> Result<Vec<u8>, Memory>
    requires { IsInRange spec.now }
    ensures { IfOk result (λ edges. edges.items ≡ all_edges spec.now) }
{
    let mut edges = Vec::new(alloc);
    for edge in 0..spec.edges.list().len() as u8 {
        edges.push(edge)?;
    }
    Ok(edges)
}

/// One pass, which tries each edge from the last to the first, and leaves it out where the list without it is a good
/// route for the need. Answers whether it left one out.
fn leave_out(spec: &Spec, need: ColSet, edges: &mut Vec<u8>) -> bool
    requires { IsInRange spec.now }
    ensures pass { IsPass (IsGoodRoute spec.now need) edges.old.items edges.new.items }
    ensures same { result ≡ false → edges.new.items ≡ edges.old.items }
    ensures fewer { result ≡ true → length edges.new.items < length edges.old.items }
{
    let mut fewer = false;
    let mut place = edges.len();
    while place > 0 {
        place -= 1;
        if is_good(spec, need, &edges[..place], &edges[place + 1..]) {
            edges.remove(place);
            fewer = true;
        }
    }
    fewer
}

/// The pruned walk for a need: all edges in written order, from which passes leave out edges until one leaves nothing
/// out. It is a good route for the need, and no edge of it can be left out. The need isn't empty, and lies among the
/// columns. (PLDI 2011, query plans that join the edges of a decomposition.)
pub fn pruned_walk(alloc: Global, accepted: &Accepted, need: ColSet) -> Result<Route, Memory>
    requires some { need ≡ [] → ⊥ }
    requires known { Within need (all_columns accepted.now) }
    ensures pruned { IfOk result (IsPrunedWalk accepted.now need) }
    ensures good { IfOk result (IsGoodRoute accepted.now need) }
{
    let spec = accepted.spec();
    let mut walk = all_edges(alloc, spec)?;
    let mut fewer = true;
    while fewer {
        fewer = leave_out(spec, need, &mut walk);
    }
    Ok(Route::from_vec(walk))
}
