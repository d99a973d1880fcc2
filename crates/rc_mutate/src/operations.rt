//! The plans of all operations.

ghost use Rattle.std.specs.Prelude.{◌≡◌, ℕ, ◌<◌, length, IfOk};
ghost use Rattle.rc_spec.specs.Placement.{op_at};
ghost use Rattle.rc_plan.specs.Compiled.{ArePlansOf, IsPlanOf, plan_at};
ghost use Rattle.rc_query.specs.Laws.{IsAcceptedFor};
ghost use Rattle.rc_query.specs.Ops.{MayBePlanned};
ghost use Rattle.rc_query.specs.Planned.{IsPlanned};

use crate::{plan_insert, plan_remove, plan_update};
use rc_plan::{Compiled, Plan};
use rc_query::plan_query;
use rc_spec::{Accepted, Op, OpKind};
use rc_tuple::Memory;
use std::alloc::Global;

/// The plan that the planning rules give an operation over the specification's columns that keeps O1 to O3, also one that the
/// specification doesn't declare. It keeps K1 to K7.
pub fn plan_of(alloc: Global, accepted: &Accepted, op: &Op) -> Result<Plan, Memory>
    requires { MayBePlanned accepted.now op.now }
    ensures planned { IfOk result (IsPlanned accepted.now op.now) }
    ensures accepted { IfOk result (IsAcceptedFor accepted.now op.now) }
{
    match &op.kind {
        OpKind::Query { .. } => plan_query(alloc, accepted, op),
        OpKind::Insert => plan_insert(alloc, accepted, op),
        OpKind::Remove => plan_remove(alloc, accepted, op),
        OpKind::Update => plan_update(alloc, accepted, op),
    }
}

/// The plan that the planning rules give an operation of the specification, by its number. It keeps K1 to K7.
pub fn plan_op(alloc: Global, accepted: &Accepted, op: u8) -> Result<Plan, Memory>
    requires { op < length accepted.now.ops }
    ensures planned { IfOk result (IsPlanned accepted.now (op_at accepted.now op)) }
    ensures accepted { IfOk result (IsPlanOf accepted.now op) }
{
    plan_of(alloc, accepted, accepted.spec().op(op))
}

/// The plans of all operations, by their numbers.
pub fn plan_all(alloc: Global, accepted: &Accepted) -> Result<Vec<Plan>, Memory>
    ensures planned { IfOk result (λ plans. (op : ℕ) → op < length accepted.now.ops → IsPlanned accepted.now (op_at accepted.now op) (plan_at plans.items op)) }
    ensures accepted { IfOk result (λ plans. ArePlansOf accepted.now plans.items) }
{
    let ops = accepted.spec().ops.list();
    let mut plans = Vec::new(alloc);
    for op in 0..ops.len() as u8 {
        plans.push(plan_op(alloc, accepted, op)?)?;
    }
    Ok(plans)
}

/// Plans every operation of an accepted specification: each gets the plan that the planning rules give it, which keeps
/// K1 to K7. Where memory is wanted, the specification is gone.
pub fn compile(alloc: Global, accepted: Accepted) -> Result<Compiled, Memory>
    ensures same { IfOk result (λ compiled. compiled.spec ≡ accepted) }
    ensures planned { IfOk result (λ compiled. (op : ℕ) → op < length accepted.ops → IsPlanned accepted (op_at accepted op) (plan_at compiled.plans op)) }
{
    let plans = plan_all(alloc, &accepted)?;
    Ok(Compiled::seal(accepted, plans))
}
