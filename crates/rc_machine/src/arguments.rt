//! The Locks of a plan that the arguments of a call alone tell.

ghost use Rattle.std.specs.Prelude.{◌≡◌, ℕ, ◌<◌, ◌≤◌, [], ◌∷◌, None, true, drop, length, take, IfOk, OnOk, Err};
ghost use Rattle.std.specs.List.{list_all};
ghost use Rattle.std.specs.Ordering.{nat_cmp};
ghost use Rattle.rc_tuple.specs.ColSet.{Within};
ghost use Rattle.rc_tuple.specs.RisingSet.{In, gather};
ghost use Rattle.rc_tuple.specs.Tuple.{cols_of};
ghost use Rattle.rc_spec.specs.Acceptance.{IsSealed};
ghost use Rattle.rc_spec.specs.Calls.{Fits};
ghost use Rattle.rc_spec.specs.Locks.{StripeLock};
ghost use Rattle.rc_spec.specs.Placement.{class_at};
ghost use Rattle.rc_spec.specs.Stripes.{physical_stripe, stripe_total};
ghost use Rattle.rc_spec.specs.declared.spec.Spec.{Spec};
ghost use Rattle.rc_fragment.specs.Holder.{GoesOn, IsAbove, MayTake, held_of};
ghost use Rattle.rc_fragment.specs.declared.held.Held.{Held};
ghost use Rattle.rc_plan.specs.Access.{is_given_lock};
ghost use Rattle.rc_plan.specs.Compiled.{IsPlanOf};
ghost use Rattle.rc_plan.specs.Evaluation.{stripes_locked};
ghost use Rattle.rc_plan.specs.NamedStripes.{IsNamedBy};
ghost use Rattle.rc_plan.specs.PlanRules.{IsKeyBound};
ghost use Rattle.rc_machine.specs.Access.{AreLockedFor};
ghost use Rattle.rc_machine.specs.Locks.{HasLocked, HasRefusedOne};
ghost use Rattle.rc_machine.specs.Machine.{AreAsTaken, AreTakenAsOffered, IsRefused, stripes_held};
ghost use Rattle.rc_machine.specs.Run.{IsAt};
ghost use Rattle.rc_machine.specs.Stopped.{CountsOnlyHeld};
ghost use Rattle.rc_machine.specs.Stripes.{AreStripesOf};
ghost use Rattle.rc_machine.specs.declared.stop.Stop.TheVariants as stop;

use crate::Stop;
use crate::lock::{lock_band, take_all};
use crate::stripe::{ClassStripe, find_stripe};
use crate::workspace::Workspace;
use rc_fragment::Holder;
use rc_plan::{Compiled, Statement, Which};
use rc_spec::{Call, Mode};
use rc_tuple::Tuple;

/// Takes the stripes of the plan's first Locks, each of which takes the one on which the arguments fall, or all of its class,
/// and makes the list of the tuple's stripes that of the former. After a stop those that were taken stay held.
pub(crate) fn lock_arguments<H: Holder>(
    holder: &mut H,
    compiled: &Compiled,
    call: &Call,
    plan: &[Statement],
    locks: usize,
    space: &mut Workspace,
) -> Result<(), Stop>
    requires sealed { IsSealed compiled.now.spec }
    requires fits { Fits compiled.now.spec call.now }
    requires planned { IsPlanOf compiled.now.spec call.now.op plan.now }
    requires sound { H.is_sound holder.old compiled.now.spec }
    requires free { held_of (H.seen holder.old) ≡ [] }
    requires lent { (lock : StripeLock) → IsNamedBy compiled.now.spec call.now.args plan.now lock
        → MayTake (H.seen holder.old).lends lock.0 lock.1 }
    requires within { locks ≤ length plan.now }
    requires first { list_all (is_given_lock compiled.now.spec (cols_of call.now.args)) (take locks plan.now) ≡ true }
    ensures run { OnOk result (IsAt compiled.now.spec plan.now call.now (drop locks plan.now) (call.now.args ∷ []) None (held_of (H.seen holder.new))) }
    ensures held { OnOk result (AreLockedFor compiled.now.spec call.now.args (take locks plan.now) (stripes_held (held_of (H.seen holder.new)))) }
    ensures stripes { OnOk result (AreStripesOf compiled.now.spec call.now.args space.new.class_stripes.items) }
    ensures taken { AreTakenAsOffered (H.seen holder.new) }
    ensures stopped { (h : Held) → result ≡ Err (stop.Held h) → AreAsTaken (held_of (H.seen holder.new)) }
    ensures refused { (h : Held) → result ≡ Err (stop.Held h)
        → IsRefused compiled.now.spec plan.now call.now (H.seen holder.old) (H.seen holder.new) h }
    ensures counted { CountsOnlyHeld result (H.seen holder.old) (H.seen holder.new) }
    ensures goes_on { GoesOn (H.seen holder.old) (H.seen holder.new) }
    ensures sound { (spec : Spec) → H.is_sound holder.old spec → H.is_sound holder.new spec }
{
    space.class_stripes.clear();
    for at in 0..locks {
        let Statement::Lock { class, which, mode } = plan[at] else {
            unreachable!()
        };
        lock_given(holder, compiled, class, which, mode, &call.args, space)?;
    }
    Ok(())
}

/// Takes the stripe of the class on which the tuple falls, and keeps it among those of the tuple, or takes all stripes of the
/// class. After a stop those that were taken stay held.
fn lock_given<H: Holder>(
    holder: &mut H,
    compiled: &Compiled,
    class: u8,
    which: Which,
    mode: Mode,
    tuple: &Tuple,
    space: &mut Workspace,
) -> Result<(), Stop>
    requires sealed { IsSealed compiled.now.spec }
    requires known { class < length compiled.now.spec.classes }
    requires within { IsKeyBound compiled.now.spec class which (cols_of tuple.now) }
    requires stripes { AreStripesOf compiled.now.spec tuple.now space.old.class_stripes.items }
    requires total { length (H.seen holder.old).offered ≡ stripe_total compiled.now.spec }
    requires lent { (s : ℕ) → In s (stripes_locked compiled.now.spec class which (tuple.now ∷ [])) → MayTake (H.seen holder.old).lends s mode }
    requires above { (s : ℕ) → In s (stripes_locked compiled.now.spec class which (tuple.now ∷ [])) → IsAbove (held_of (H.seen holder.old)) s }
    ensures ok { OnOk result (HasLocked (H.seen holder.old) (H.seen holder.new) (gather nat_cmp (stripes_locked compiled.now.spec class which (tuple.now ∷ []))) mode) }
    ensures stripes { AreStripesOf compiled.now.spec tuple.now space.new.class_stripes.items }
    ensures some { (n : ℕ) × HasLocked (H.seen holder.old) (H.seen holder.new) (take n (gather nat_cmp (stripes_locked compiled.now.spec class which (tuple.now ∷ [])))) mode }
    ensures refused { (h : Held) → result ≡ Err (stop.Held h) → HasRefusedOne (H.seen holder.old) (H.seen holder.new) (gather nat_cmp (stripes_locked compiled.now.spec class which (tuple.now ∷ []))) mode h }
    ensures counted { (spec : Spec) → H.is_sound holder.old spec → CountsOnlyHeld result (H.seen holder.old) (H.seen holder.new) }
    ensures goes_on { GoesOn (H.seen holder.old) (H.seen holder.new) }
    ensures sound { (spec : Spec) → H.is_sound holder.old spec → H.is_sound holder.new spec }
{
    match which {
        Which::Keyed => {
            let stripes = &mut space.class_stripes;
            lock_stripe(holder, compiled, class, mode, tuple, stripes)
        }
        Which::All => lock_band(holder, compiled, class, mode, &mut space.stripes),
    }
}

/// Takes the stripe of the class on which the tuple falls, and keeps it among those of the tuple. After a stop nothing is
/// taken.
pub(crate) fn lock_stripe<H: Holder>(
    holder: &mut H,
    compiled: &Compiled,
    class: u8,
    mode: Mode,
    tuple: &Tuple,
    stripes: &mut Vec<ClassStripe>,
) -> Result<(), Stop>
    requires sealed { IsSealed compiled.now.spec }
    requires known { class < length compiled.now.spec.classes }
    requires within { Within (class_at compiled.now.spec class).cols (cols_of tuple.now) }
    requires stripes { AreStripesOf compiled.now.spec tuple.now stripes.old.items }
    requires total { length (H.seen holder.old).offered ≡ stripe_total compiled.now.spec }
    requires lent { MayTake (H.seen holder.old).lends (physical_stripe compiled.now.spec class tuple.now) mode }
    requires above { IsAbove (held_of (H.seen holder.old)) (physical_stripe compiled.now.spec class tuple.now) }
    ensures ok { OnOk result (HasLocked (H.seen holder.old) (H.seen holder.new) (physical_stripe compiled.now.spec class tuple.now ∷ []) mode) }
    ensures stripes { AreStripesOf compiled.now.spec tuple.now stripes.new.items }
    ensures some { (n : ℕ) × HasLocked (H.seen holder.old) (H.seen holder.new) (take n (physical_stripe compiled.now.spec class tuple.now ∷ [])) mode }
    ensures refused { (h : Held) → result ≡ Err (stop.Held h) → HasRefusedOne (H.seen holder.old) (H.seen holder.new) (physical_stripe compiled.now.spec class tuple.now ∷ []) mode h }
    ensures counted { (spec : Spec) → H.is_sound holder.old spec → CountsOnlyHeld result (H.seen holder.old) (H.seen holder.new) }
    ensures goes_on { GoesOn (H.seen holder.old) (H.seen holder.new) }
    ensures sound { (spec : Spec) → H.is_sound holder.old spec → H.is_sound holder.new spec }
{
    let stripe = find_stripe(compiled, class, tuple, stripes)?;
    take_all(holder, &[stripe], mode)?;
    Ok(())
}
