//! The probes of an insert: the searches behind which it checks that the new tuple may be added.

ghost use Rattle.std.specs.Prelude.{◌≡◌, ℕ, ◌<◌, [], length, IfOk};
ghost use Rattle.rc_tuple.specs.RisingSet.{In};
ghost use Rattle.rc_tuple.specs.ColSet.{Within};
ghost use Rattle.rc_spec.specs.Acceptance.{IsSealed};
ghost use Rattle.rc_spec.specs.Calls.{all_columns};
ghost use Rattle.rc_query.specs.Planned.{ChoosesRoutes, Routing, insert_probes, update_probes};

use rc_plan::Statement;
use rc_query::PlannedProbe;
use rc_route::route_for;
use rc_spec::Accepted;
use rc_tuple::{ColSet, Memory};
use std::alloc::Global;

/// A probe of some columns over the chosen route for a need.
fn probe_for(
    alloc: Global,
    accepted: &Accepted,
    columns: ColSet,
    need: ColSet,
    check: Statement,
) -> Result<PlannedProbe, Memory>
    requires some { need ≡ [] → ⊥ }
    requires known { Within need (all_columns accepted.now) }
    requires sealed { IsSealed accepted.now }
    ensures { IfOk result (λ probe. (route : Routing) → ChoosesRoutes accepted.now route
        → probe ≡ record { columns = columns; route = route columns need; check = check }) }
{
    let route = route_for(alloc, accepted, columns, need)?;
    Ok(PlannedProbe {
        columns,
        route,
        check,
    })
}

/// The probes of an insert: one for the pattern, and then, rising, one for each dependency whose left side doesn't hold
/// the whole pattern.
pub(crate) fn insert_probes(
    alloc: Global,
    accepted: &Accepted,
    pattern: ColSet,
) -> Result<Vec<PlannedProbe>, Memory>
    requires some { pattern ≡ [] → ⊥ }
    requires known { Within pattern (all_columns accepted.now) }
    ensures { IfOk result (λ probes. (route : Routing) → ChoosesRoutes accepted.now route
        → probes.items ≡ insert_probes accepted.now route pattern) }
{
    let deps = accepted.spec().deps.list();
    let mut probes = Vec::new(alloc);
    probes.push(probe_for(alloc, accepted, pattern, pattern, Statement::CheckAbsent)?)?;
    for (place, dep) in deps.iter().enumerate() {
        if !pattern.within(dep.left) {
            let check = Statement::CheckDep {
                dep: place as u32 + 1,
            };
            let need = dep.left.union(dep.right);
            probes.push(probe_for(alloc, accepted, dep.left, need, check)?)?;
        }
    }
    Ok(probes)
}

/// The probes of an update: one for the pattern, that finds the whole tuple, and then, rising, one for each dependency whose left
/// side doesn't hold the whole pattern, that visits the pattern too.
pub(crate) fn update_probes(
    alloc: Global,
    accepted: &Accepted,
    pattern: ColSet,
) -> Result<Vec<PlannedProbe>, Memory>
    requires known { Within pattern (all_columns accepted.now) }
    ensures { IfOk result (λ probes. (route : Routing) → ChoosesRoutes accepted.now route
        → probes.items ≡ update_probes accepted.now route pattern) }
{
    let spec = accepted.spec();
    let deps = spec.deps.list();
    let mut probes = Vec::new(alloc);
    probes.push(probe_for(
        alloc,
        accepted,
        pattern,
        spec.all_columns(),
        Statement::CheckFound,
    )?)?;
    for (place, dependency) in deps.iter().enumerate() {
        if !pattern.within(dependency.left) {
            let check = Statement::CheckDep {
                dep: place as u32 + 1,
            };
            let sides = dependency.left.union(dependency.right);
            let need = sides.union(pattern);
            probes.push(probe_for(alloc, accepted, dependency.left, need, check)?)?;
        }
    }
    Ok(probes)
}
