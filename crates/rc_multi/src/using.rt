//! Whether a call's plan may use a stripe.

ghost use Rattle.std.specs.Prelude.{◌<◌, ◌↔◌, IsTrue, length};
ghost use Rattle.rc_core.specs.Passes.{IsOfClassLocked};
ghost use Rattle.rc_plan.specs.Compiled.{plan_at};
ghost use Rattle.rc_plan.specs.PlanRules.{IsKnown};
ghost use Rattle.rc_plan.specs.StripeLocks.{IsOfClass};
ghost use Rattle.rc_multi.specs.GroupLocks.{HasOperation, LocksClassOf};

use crate::class_lock::class_lock;
use rc_plan::{Compiled, Statement};
use rc_spec::Call;

/// Whether the plan of the call's operation locks the class of the stripe: an open group gives back before its commit what
/// no call uses. Costs a walk over the plan, and takes no memory. (PLDI 2012, well-locked query plans.)
pub fn uses(compiled: &Compiled, call: &Call, stripe: u32) -> bool
    requires { HasOperation compiled.now.spec call.now }
    ensures { IsTrue result ↔ IsOfClassLocked compiled.now.spec
        (plan_at compiled.now.plans call.now.op) stripe }
{
    compiled
        .plan(call.op)
        .list()
        .iter()
        .any(|statement| locks_class_of(compiled, statement, stripe))
}

/// Whether the statement locks the class of the stripe.
fn locks_class_of(compiled: &Compiled, statement: &Statement, stripe: u32) -> bool
    requires { IsKnown compiled.now.spec statement.now }
    ensures { IsTrue result ↔ LocksClassOf compiled.now.spec stripe statement.now }
{
    match class_lock(statement) {
        Some(lock) => is_of_class(compiled, lock.class, stripe),
        None => false,
    }
}

/// Whether the stripe is one of the class's.
fn is_of_class(compiled: &Compiled, class: u8, stripe: u32) -> bool
    requires { class < length compiled.now.spec.classes }
    ensures { IsTrue result ↔ IsOfClass compiled.now.spec stripe class }
{
    let start = compiled.band_start(class);
    start <= stripe && stripe - start < compiled.class(class).stripes
}
