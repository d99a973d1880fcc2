//! The cache of plans.

ghost use Rattle.std.specs.Prelude.{◌≡◌, IfOk, IfSome, Some};
ghost use Rattle.rc_query.specs.Ops.{MayBePlanned};
ghost use Rattle.rc_cache.specs.Apart.{IsPlannedFor};

use crate::shape::{copy_op, have_one_shape};
use boxcar::Keeps;
use boxcar::tag::Tag;
use rc_mutate::plan_of;
use rc_plan::Plan;
use rc_spec::{Accepted, Op};
use rc_tuple::Memory;
use std::alloc::Global;
use std::marker::{Brand, Model, PhantomData};
use std::sync::Wait;

/// The specification over which operations are planned. Each cache picks it.
pub trait Plans {
    ghost use Rattle.std.specs.Prelude.{Option};
    ghost use Rattle.rc_spec.specs.declared.spec.Spec.{Spec};

    ghost base: { Option Spec };
}

impl Plans for Brand {
    ghost use Rattle.std.specs.Prelude.{None};

    ghost base = { None };
}

/// An operation with its plan.
#[derive(Drop)]
pub struct Cached {
    op: Op,
    plan: Plan,
}

/// The rule of what a cache keeps: each plan is the planned one of its operation over the base, and accepted.
pub struct Planned<B> {
    base: PhantomData<B>,
}

impl<B: Plans> Keeps<Cached> for Planned<B> {
    ghost use Rattle.std.specs.Prelude.{IfSome};
    ghost use Rattle.rc_cache.specs.Apart.{IsPlannedFor};

    ghost holds = { λ _ _ cached. IfSome B.base (λ spec. IsPlannedFor spec cached.op cached.plan) };
}

/// Plans that threads share, of operations over one specification. A plan stays where it was put, so that it is lent as
/// long as the cache, while other threads put further ones. (PLDI 2011, query planning.)
#[derive(Drop)]
pub struct PlanCache<'a, B: Plans> {
    base: &'a Accepted,
    plans: boxcar::Vec<Cached, Global, Planned<B>>,
    alloc: Global,
}

impl<'a, B: Plans> Model for PlanCache<'a, B> {
    ghost use Rattle.std.specs.Prelude.{◌≡◌, Some};
    ghost use Rattle.rc_spec.specs.declared.spec.Spec.{Spec};

    ghost Value = { Spec };

    ghost view = { λ cache. cache.base.now };

    ghost invariant = { λ cache. B.base ≡ Some cache.base.now };
}

impl<'a, B: Plans> PlanCache<'a, B> {
    /// A cache without plans, of operations over an accepted specification.
    pub fn new(alloc: Global, base: &'a Accepted) -> Result<Self, Memory>
        requires { B.base ≡ Some base.now }
        ensures { IfOk result (λ cache. cache ≡ base.now) }
    {
        let plans = boxcar::Vec::with_rule(alloc, Tag::empty())?;
        Ok(PlanCache { base, plans, alloc })
    }

    /// The plan of an operation that asks alike, if one is found. Costs a comparison with each operation that is kept. One that
    /// another thread is putting there meanwhile may be passed over.
    fn find(&self, op: &Op) -> Option<&Plan>
        ensures { IfSome result (λ plan. IsPlannedFor self.now op.now plan.now) }
    {
        for (_, cached) in &self.plans {
            if have_one_shape(&cached.op, op) {
                return Some(&cached.plan);
            }
        }
        None
    }

    /// The plan of an operation: that of the cache, where it has one of an operation that asks alike, else a new one, which
    /// is put there. Threads that ask alike at once may each put one, and all of these are the same.
    ///
    /// Costs a comparison with each operation that is kept, and the planning of a new one. It waits for another thread
    /// alone while that stores a block of the list.
    pub fn plan_for<R: Wait>(&self, rt: &R, op: &Op) -> Result<&Plan, Memory>
        requires { MayBePlanned self.now op.now }
        ensures { IfOk result (λ plan. IsPlannedFor self.now op.now plan.now) }
    {
        if let Some(plan) = self.find(op) {
            return Ok(plan);
        }
        let plan = plan_of(self.alloc, self.base, op)?;
        let cached = Cached {
            op: copy_op(op)?,
            plan,
        };
        match self.plans.push_shown(rt, cached) {
            Ok(pushed) => Ok(&self.plans.value(&pushed).plan),
            Err(_) => Err(Memory),
        }
    }

    /// How many plans are kept. It has no promise: it is for tests.
    pub fn len(&self) -> u64 {
        self.plans.count() as u64
    }
}
