//! Whether some locks suffice for a call.

ghost use Rattle.std.specs.Prelude.{◌≡◌, ◌<◌, ◌↔◌, IsTrue, Some, length};
ghost use Rattle.rc_spec.specs.Calls.{Fits};
ghost use Rattle.rc_spec.specs.Locks.{Suffices};
ghost use Rattle.rc_fragment.specs.Holder.{MayTake};
ghost use Rattle.rc_plan.specs.PlanRules.{IsKnown};
ghost use Rattle.rc_multi.specs.declared.class_lock.ClassLock.{ClassLock as AClassLock};
ghost use Rattle.rc_multi.specs.Covering.{IsBandCovered, IsCovered};
ghost use Rattle.rc_multi.specs.Group.{Covers};
ghost use Rattle.rc_multi.specs.GroupLocks.{class_lock};

use crate::class_lock::{ClassLock, class_lock, may_be_any};
use crate::locks::own_stripe;
use rc_plan::{Compiled, Statement};
use rc_spec::{Call, Mode};

/// Whether the locks suffice for the call: whatever its plan may name at the arguments, on any rows, is among them, in a
/// mode that suffices. (PLDI 2012, well-locked query plans.)
///
/// Costs a walk over the plan, and, for each stripe that it may name, one over the locks.
pub fn covers(compiled: &Compiled, call: &Call, locks: &[(u32, Mode)]) -> bool
    requires { Fits compiled.now.spec call.now }
    ensures { IsTrue result ↔ Covers compiled.now call.now locks.now }
{
    compiled
        .plan(call.op)
        .list()
        .iter()
        .all(|statement| is_covered(compiled, call, statement, locks))
}

/// Whether each stripe that the statement may take at the call's arguments is among the locks, in a mode that suffices.
fn is_covered(
    compiled: &Compiled,
    call: &Call,
    statement: &Statement,
    locks: &[(u32, Mode)],
) -> bool
    requires { IsKnown compiled.now.spec statement.now }
    ensures { IsTrue result ↔ ((lock : AClassLock) → class_lock statement.now ≡ Some lock
        → IsCovered compiled.now.spec call.now.args lock locks.now) }
{
    match class_lock(statement) {
        Some(lock) => is_lock_covered(compiled, call, lock, locks),
        None => true,
    }
}

/// Whether each that the Lock may take is.
fn is_lock_covered(compiled: &Compiled, call: &Call, lock: ClassLock, locks: &[(u32, Mode)]) -> bool
    requires { lock.class < length compiled.now.spec.classes }
    ensures { IsTrue result ↔ IsCovered compiled.now.spec call.now.args lock locks.now }
{
    let class = compiled.accepted().spec().class(lock.class);
    let chosen = class.cols.within(call.args.cols());
    if may_be_any(lock.choice, chosen) {
        is_band_covered(compiled, lock.class, lock.mode, locks)
    } else {
        is_held(own_stripe(compiled, call, lock.class), lock.mode, locks)
    }
}

/// Whether each stripe of the class is.
fn is_band_covered(compiled: &Compiled, class: u8, mode: Mode, locks: &[(u32, Mode)]) -> bool
    requires { class < length compiled.now.spec.classes }
    ensures { IsTrue result ↔ IsBandCovered compiled.now.spec class mode locks.now }
{
    let start = compiled.band_start(class);
    let stripes = compiled.accepted().spec().class(class).stripes;
    (start..start + stripes).all(|stripe| is_held(stripe, mode, locks))
}

/// Whether the stripe is.
fn is_held(stripe: u32, mode: Mode, locks: &[(u32, Mode)]) -> bool
    ensures { IsTrue result ↔ MayTake (Some locks.now) stripe mode }
{
    locks.iter().any(|lock| holds(*lock, stripe, mode))
}

/// Whether the lock is the stripe's, in a mode that suffices.
fn holds(lock: (u32, Mode), stripe: u32, mode: Mode) -> bool
    ensures { IsTrue result ↔ ((lock.0 ≡ stripe) × Suffices lock.1 mode) }
{
    lock.0 == stripe && lock.1.suffices(mode)
}
