//! The plans of further operations, planned by threads beside each other.

ghost use Rattle.std.specs.Prelude.{◌≡◌, ℕ, ◌+◌, ◌<◌, ◌≤◌, ◌^◌, All, IfOk, Some, length};
ghost use Rattle.std.specs.List.{AllByRecursion};
ghost use Rattle.std.specs.Thread.{IsSync};
ghost use Rattle.rc_spec.specs.Placement.{op_at};
ghost use Rattle.rc_plan.specs.Compiled.{plan_at};
ghost use Rattle.rc_query.specs.Ops.{MayBePlanned};
ghost use Rattle.rc_query.specs.Planned.{IsPlanned};
ghost use Rattle.rc_work.specs.Shapes.{IsShapeOf, with_operations};
ghost use Rattle.rc_cache.specs.Extended.{HaveAllPlans};

use crate::cache::{PlanCache, Plans};
use rc_mutate::plan_all;
use rc_open::with_operations;
use rc_plan::{Compiled, Plan};
use rc_spec::{Accepted, Call, Op, Ops};
use rc_tuple::{ColSet, Memory};
use rc_work::Work;
use std::alloc::Global;
use std::marker::Brand;
use std::sync::Wait;
use std::thread::{Threads, for_each_mut};

/// The most threads of a workload.
const MAX_THREADS: usize = 8;

/// The plans of a specification's own operations, and behind them those of further ones, each as the cache has it.
fn plans_by<B: Plans, R: Wait>(
    rt: &R,
    alloc: Global,
    base: &Accepted,
    cache: &PlanCache<'_, B>,
    ops: &[Op],
) -> Result<Vec<Plan>, Memory>
    requires base { cache.now ≡ base.now }
    requires ops { All (MayBePlanned base.now) ops.now }
    ensures { IfOk result (λ plans. HaveAllPlans base.now ops.now plans.items) }
{
    let mut plans = plan_all(alloc, base)?;
    for op in ops {
        plans.push(cache.plan_for(rt, op)?.copy()?)?;
    }
    Ok(plans)
}

/// Asks for the plan of the call's operation, where it is one of the further ones and wasn't asked for yet. Where memory is
/// wanted it is left to whoever asks next.
fn plan_call<B: Plans, R: Wait>(
    rt: &R,
    cache: &PlanCache<'_, B>,
    ops: &[Op],
    own: u8,
    call: &Call,
    asked: &mut ColSet,
)
    requires ops { All (MayBePlanned cache.now) ops.now }
    requires few { length ops.now ≤ 32 }
{
    let Some(number) = call.op.checked_sub(own) else {
        return;
    };
    let Some(op) = ops.get(number as usize) else {
        return;
    };
    if !asked.has(number) {
        *asked = asked.with(number);
        let _ = cache.plan_for(rt, op);
    }
}

/// Asks for the plans of the further operations that a thread's calls have, each once, in the order of the calls.
fn plan_calls<B: Plans, R: Wait>(
    rt: &R,
    cache: &PlanCache<'_, B>,
    ops: &[Op],
    own: u8,
    work: &Work,
    thread: u32,
    asked: &mut ColSet,
)
    requires ops { All (MayBePlanned cache.now) ops.now }
    requires few { length ops.now ≤ 32 }
{
    for round in work.rounds.list() {
        for turn in round.list() {
            if turn.thread == thread {
                for call in turn.calls.list() {
                    plan_call(rt, cache, ops, own, call, asked);
                }
            }
        }
    }
}

/// Asks for the plans of the calls of a workload, each thread for those of its own beside the others.
fn plan_beside<B: Plans + Sync, R: Threads + Wait + Sync>(
    rt: &R,
    cache: &PlanCache<'_, B>,
    ops: &[Op],
    own: u8,
    work: &Work,
)
    requires ops { All (MayBePlanned cache.now) ops.now }
    requires few { length ops.now ≤ 32 }
{
    let mut asked = [ColSet::empty(); MAX_THREADS];
    let threads = MAX_THREADS.min(work.threads as usize);
    let plan = move |thread: usize, asked: &mut ColSet|
        requires { IsSync R.row × IsSync B.row × All (MayBePlanned cache.now) ops.now
            × (length ops.now ≤ 32) × (thread < 2 ^ 32) }
    { plan_calls(rt, cache, ops, own, work, thread as u32, asked) };
    for_each_mut(rt, &mut asked[..threads], MAX_THREADS, &plan);
}

/// The plans of a specification's own operations and of further ones, which the threads of a workload that have calls of them
/// plan beside each other.
fn plans_beside<B: Plans + Sync, R: Threads + Wait + Sync>(
    rt: &R,
    alloc: Global,
    base: &Accepted,
    ops: &[Op],
    work: &Work,
) -> Result<Vec<Plan>, Memory>
    requires picked { B.base ≡ Some base.now }
    requires ops { All (MayBePlanned base.now) ops.now }
    requires few { length ops.now ≤ 32 }
    ensures { IfOk result (λ plans. HaveAllPlans base.now ops.now plans.items) }
{
    let cache = PlanCache::<B>::new(alloc, base)?;
    let own = base.spec().ops.list().len() as u8;
    plan_beside(rt, &cache, ops, own, work);
    plans_by(rt, alloc, base, &cache, ops)
}

/// An accepted specification with further operations behind its own, and a plan for each: the one that the planning rules give
/// it. Each thread of the workload plans those of its own calls, beside the others, and a plan serves all. Where memory is
/// wanted the specification is gone. Costs the plans, a walk over the workload for each of its threads, and a copy of each
/// further operation and of its plan.
pub fn compile_open<R: Threads + Wait + Sync>(
    rt: &R,
    alloc: Global,
    base: Accepted,
    ops: Ops,
    work: &Work,
) -> Result<Compiled, Memory>
    requires shapes { AllByRecursion (IsShapeOf base) ops }
    requires few { length ops ≤ 32 }
    requires room { length base.ops + length ops ≤ 64 }
    ensures same { IfOk result (λ compiled. compiled.spec ≡ with_operations base ops) }
    ensures planned { IfOk result (λ compiled. (op : ℕ) → op < length (with_operations base ops).ops
        → IsPlanned (with_operations base ops) (op_at (with_operations base ops) op)
        (plan_at compiled.plans op)) }
{
    let plans = plans_beside::<Brand, R>(rt, alloc, &base, ops.list(), work)?;
    let accepted = with_operations(base, ops)?;
    Ok(Compiled::seal(accepted, plans))
}
