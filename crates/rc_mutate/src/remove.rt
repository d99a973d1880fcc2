//! The plans of removes.

ghost use Rattle.std.specs.Prelude.{◌≡◌, ◌++◌, ◌<◌, length, IfOk, OnOk};
ghost use Rattle.rc_tuple.specs.ColSet.{Within};
ghost use Rattle.rc_spec.specs.Calls.{all_columns};
ghost use Rattle.rc_spec.specs.declared.items.OpKind.TheVariants.{Remove};
ghost use Rattle.rc_spec.specs.declared.lock.Mode.TheVariants.{Exclusive};
ghost use Rattle.rc_plan.specs.declared.statement.Which.TheVariants as which;
ghost use Rattle.rc_query.specs.Laws.{IsAcceptedFor};
ghost use Rattle.rc_query.specs.Ops.{MayBePlanned};
ghost use Rattle.rc_query.specs.Planned.{ChoosesRoutes, IsPlanned, Routing, locks, remove_plan};

use crate::classes::written_classes;
use rc_plan::{Plan, Statement, Which};
use rc_query::{ClassSet, pattern_of, push_ending, push_locks_and_reads};
use rc_route::route_for;
use rc_spec::{Accepted, Mode, Op};
use rc_tuple::{ColSet, Memory};
use std::alloc::Global;

/// Appends a keyed Exclusive lock of each class, rising.
fn push_keyed_locks(plan: &mut Plan, classes: ClassSet) -> Result<(), Memory>
    ensures { OnOk result (plan.new ≡ plan.old ++ locks Exclusive (λ c. which.Keyed) classes) }
{
    for place in 0..classes.len() {
        let class = classes.nth(place).unwrap();
        let which = Which::Keyed;
        let mode = Mode::Exclusive;
        plan.push(Statement::Lock { class, which, mode })?;
    }
    Ok(())
}

/// The plan of a remove over the chosen route for all columns.
fn plan_removal(alloc: Global, accepted: &Accepted, pattern: ColSet) -> Result<Plan, Memory>
    ensures { IfOk result (λ plan. (route : Routing) → ChoosesRoutes accepted.now route
        → plan ≡ remove_plan accepted.now pattern (route pattern (all_columns accepted.now))) }
{
    let spec = accepted.spec();
    let route = route_for(alloc, accepted, pattern, spec.all_columns())?;
    let classes = written_classes(spec);
    let mut plan = Plan::new(alloc);
    let left = push_locks_and_reads(
        &mut plan,
        spec,
        Mode::Exclusive,
        pattern,
        classes,
        route.list(),
    )?;
    push_keyed_locks(&mut plan, left)?;
    push_ending(&mut plan, Statement::Apply, classes)?;
    Ok(plan)
}

/// The plan of a remove. It reads the chosen route for all columns as a query does, and
/// locks all classes that have an edge Exclusive: those that are left after its reads keyed, since all columns are bound then.
/// (PLDI 2011, removal; PLDI 2012, locks of mutations.)
pub fn plan_remove(alloc: Global, accepted: &Accepted, op: &Op) -> Result<Plan, Memory>
    requires op { MayBePlanned accepted.now op.now }
    requires remove { op.now.kind ≡ Remove }
    ensures planned { IfOk result (IsPlanned accepted.now op.now) }
    ensures accepted { IfOk result (IsAcceptedFor accepted.now op.now) }
{
    plan_removal(alloc, accepted, pattern_of(accepted, op))
}
