//! Plans for which threads ask at once.

ghost use Rattle.std.specs.Prelude.{◌≡◌, Some};
ghost use Rattle.std.specs.Thread.{IsSync};
ghost use Rattle.rc_query.specs.Ops.{MayBePlanned};

use crate::graph::compiled;
use rc_cache::{PlanCache, Plans};
use rc_spec::{Accepted, Op};
use rc_tuple::Memory;
use std::alloc::Global;
use std::marker::Brand;
use std::sync::Wait;
use std::test::Fail;
use std::thread::{Threads, for_each_mut};

/// How many threads ask.
const THREADS: usize = 8;

/// How many statements the plans have that so many threads are lent, which ask for one operation at once, and how many plans
/// are kept then.
fn ask_at_once<B: Plans + Sync, R: Threads + Wait + Sync>(
    rt: &R,
    cache: &PlanCache<'_, B>,
    op: &Op,
) -> ([usize; THREADS], u64)
    requires { MayBePlanned cache.now op.now }
{
    let mut lengths = [0; THREADS];
    let ask = move |_: usize, length: &mut usize|
        requires { IsSync R.row × IsSync B.row × MayBePlanned cache.now op.now }
    {
        if let Ok(plan) = cache.plan_for(rt, op) {
            *length = plan.list().len();
        }
    };
    for_each_mut(rt, &mut lengths, THREADS, &ask);
    (lengths, cache.len())
}

/// Whether an operation is planned once on one thread, and alike for all threads that ask at once.
#[tactic(auto, using(rc_query::specs::OpLaws::own_ops))]
fn is_planned_once<B: Plans + Sync, R: Threads + Wait + Sync>(
    rt: &R,
    alloc: Global,
    base: &Accepted,
) -> Result<bool, Memory>
    requires { B.base ≡ Some base.now }
{
    if base.spec().ops.list().is_empty() {
        return Ok(false);
    }
    let op = base.spec().op(0);
    let alone = PlanCache::<B>::new(alloc, base)?;
    let first = alone.plan_for(rt, op)?.list().len();
    let again = alone.plan_for(rt, op)?.list().len();
    let shared = PlanCache::<B>::new(alloc, base)?;
    let (lengths, kept) = ask_at_once(rt, &shared, op);
    let alike = lengths.iter().all(|length| *length == first);
    Ok(first == again && alone.len() == 1 && alike && 1 <= kept && kept <= THREADS as u64)
}

/// Does so for an operation of the graph.
fn graph_is_planned_once<R: Threads + Wait + Sync>(rt: &R, alloc: Global) -> Result<bool, Fail> {
    let compiled = compiled(alloc)?;
    Ok(is_planned_once::<Brand, R>(rt, alloc, compiled.accepted())?)
}

#[test]
fn threads_share_plans(rt: HostRuntime) -> Result<(), Fail> {
    assert!(&rt; graph_is_planned_once(&rt, rt.alloc())?);
    Ok(())
}
