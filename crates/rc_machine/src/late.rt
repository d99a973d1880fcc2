//! The Locks of a remove's plan that come once the edge of its path is read.

ghost use Rattle.std.specs.Prelude.{◌≡◌, ℕ, OnOk, Err};
ghost use Rattle.rc_spec.specs.Locks.{StripeLock};
ghost use Rattle.rc_spec.specs.Placement.{op_at};
ghost use Rattle.rc_spec.specs.declared.items.OpKind.TheVariants as kind;
ghost use Rattle.rc_spec.specs.declared.spec.Spec.{Spec};
ghost use Rattle.rc_fragment.specs.Holder.{GoesOn, MayTake, held_of};
ghost use Rattle.rc_fragment.specs.declared.held.Held.{Held};
ghost use Rattle.rc_plan.specs.Compiled.{plan_at};
ghost use Rattle.rc_plan.specs.NamedStripes.{IsNamedBy};
ghost use Rattle.rc_machine.specs.Access.{HasLockedPath, IsBehindLate, IsOnlyMatch};
ghost use Rattle.rc_machine.specs.Machine.{AreAsTaken, AreTakenAsOffered, HasRefusedCall};
ghost use Rattle.rc_machine.specs.Stopped.{CountsOnlyHeld};
ghost use Rattle.rc_machine.specs.Stripes.{AreStripesOf};
ghost use Rattle.rc_machine.specs.declared.stop.Stop.TheVariants as stop;

use crate::Stop;
use crate::arguments::lock_stripe;
use crate::stripe::ClassStripe;
use rc_fragment::Holder;
use rc_plan::{AccessPath, Compiled, Statement};
use rc_spec::Call;
use rc_tuple::Tuple;

/// Takes the stripes of the plan's late Locks, in their order: of each class the one on which the tuple falls, which is the
/// one that matches the arguments; and keeps them among those of the tuple. After a stop those that were taken stay held.
pub(crate) fn lock_found<H: Holder>(
    holder: &mut H,
    compiled: &Compiled,
    call: &Call,
    path: AccessPath,
    tuple: &Tuple,
    stripes: &mut Vec<ClassStripe>,
) -> Result<(), Stop>
    requires remove { (op_at compiled.now.spec call.now.op).kind ≡ kind.Remove }
    requires locked { (stripe : ℕ) × HasLockedPath compiled.now call.now path stripe (H.seen holder.old) }
    requires found { IsOnlyMatch compiled.now.spec (held_of (H.seen holder.old)) call.now.args tuple.now }
    requires stripes { AreStripesOf compiled.now.spec tuple.now stripes.old.items }
    requires sound { H.is_sound holder.old compiled.now.spec }
    requires lent { (lock : StripeLock) → IsNamedBy compiled.now.spec call.now.args (plan_at compiled.now.plans call.now.op) lock
        → MayTake (H.seen holder.old).lends lock.0 lock.1 }
    ensures behind { OnOk result (IsBehindLate compiled.now call.now path (H.seen holder.new)) }
    ensures found { OnOk result (IsOnlyMatch compiled.now.spec (held_of (H.seen holder.new)) call.now.args tuple.now) }
    ensures stripes { OnOk result (AreStripesOf compiled.now.spec tuple.now stripes.new.items) }
    ensures taken { AreTakenAsOffered (H.seen holder.new) }
    ensures stopped { (h : Held) → result ≡ Err (stop.Held h) → AreAsTaken (held_of (H.seen holder.new)) }
    ensures refused { (h : Held) → result ≡ Err (stop.Held h)
        → HasRefusedCall compiled.now call.now (H.seen holder.old) (H.seen holder.new) h }
    ensures counted { CountsOnlyHeld result (H.seen holder.old) (H.seen holder.new) }
    ensures goes_on { GoesOn (H.seen holder.old) (H.seen holder.new) }
    ensures sound { (spec : Spec) → H.is_sound holder.old spec → H.is_sound holder.new spec }
{
    let (_, rest) = compiled.plan(call.op).list().split_at(path.locks);
    for at in 0..path.late {
        if let Statement::Lock { class, mode, .. } = rest[at] {
            lock_stripe(holder, compiled, class, mode, tuple, stripes)?;
        }
    }
    Ok(())
}
