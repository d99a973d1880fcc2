//! The plans of queries.

ghost use Rattle.std.specs.Prelude.{◌≡◌, [], IfOk};
ghost use Rattle.rc_tuple.specs.ColSet.{Within, union};
ghost use Rattle.rc_spec.specs.Calls.{all_columns};
ghost use Rattle.rc_plan.specs.PlanRules.{IsQuery};
ghost use Rattle.rc_query.specs.Laws.{IsAcceptedFor};
ghost use Rattle.rc_query.specs.Ops.{MayBePlanned};
ghost use Rattle.rc_query.specs.Planned.{ChoosesRoutes, IsPlanned, Routing, query_plan};

use crate::operation::pattern_of;
use crate::statements::{classes_of_edges, push_ending, push_locks_and_reads};
use rc_plan::{Plan, Statement};
use rc_route::route_for;
use rc_spec::{Accepted, Mode, Op, OpKind};
use rc_tuple::{ColSet, Memory};
use std::alloc::Global;

/// The plan of a query over the chosen route for its pattern and its outputs.
fn plan_search(
    alloc: Global,
    accepted: &Accepted,
    pattern: ColSet,
    outs: ColSet,
) -> Result<Plan, Memory>
    requires some { union pattern outs ≡ [] → ⊥ }
    requires known { Within (union pattern outs) (all_columns accepted.now) }
    ensures { IfOk result (λ plan. (route : Routing) → ChoosesRoutes accepted.now route
        → plan ≡ query_plan accepted.now pattern (route pattern (union pattern outs))) }
{
    let spec = accepted.spec();
    let route = route_for(alloc, accepted, pattern, pattern.union(outs))?;
    let classes = classes_of_edges(spec, route.list());
    let mut plan = Plan::new(alloc);
    push_locks_and_reads(
        &mut plan,
        spec,
        Mode::Shared,
        pattern,
        classes,
        route.list(),
    )?;
    push_ending(&mut plan, Statement::Emit, classes)?;
    Ok(plan)
}

/// The plan of a query. It reads the chosen route for the pattern and the outputs, each
/// edge by look-up where its key is bound, and locks the classes of those edges Shared: before a read each that isn't
/// after its edge's class, keyed where its columns are bound. (PLDI 2011, query planning; PLDI 2012, locks in query plans.)
pub fn plan_query(alloc: Global, accepted: &Accepted, op: &Op) -> Result<Plan, Memory>
    requires op { MayBePlanned accepted.now op.now }
    requires query { IsQuery op.now.kind }
    ensures planned { IfOk result (IsPlanned accepted.now op.now) }
    ensures accepted { IfOk result (IsAcceptedFor accepted.now op.now) }
{
    let pattern = pattern_of(accepted, op);
    match &op.kind {
        OpKind::Query { outs, ranges } => {
            let bounded = ColSet::from_list(ranges.list());
            let answered = ColSet::from_list(outs.list());
            plan_search(alloc, accepted, pattern, bounded.union(answered))
        }
        OpKind::Insert | OpKind::Remove | OpKind::Update => unreachable!(),
    }
}
