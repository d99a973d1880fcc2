//! A Lock: the stripes of a class that it names, taken one after another.

ghost use Rattle.std.specs.Prelude.{◌≡◌, ◌++◌, ℕ, ◌<◌, ◌≤◌, List, length, map, take, IfOk, OnOk, Err};
ghost use Rattle.std.specs.Ordering.{nat_cmp};
ghost use Rattle.rc_tuple.specs.RisingSet.{In, IsRising, gather};
ghost use Rattle.rc_tuple.specs.ColSet.{Within};
ghost use Rattle.rc_tuple.specs.Tuple.{Pairs, cols_of};
ghost use Rattle.rc_spec.specs.Acceptance.{IsSealed};
ghost use Rattle.rc_spec.specs.Placement.{class_at};
ghost use Rattle.rc_spec.specs.Stripes.{physical_stripe, stripe_total};
ghost use Rattle.rc_spec.specs.declared.spec.Spec.{Spec};
ghost use Rattle.rc_fragment.specs.Holder.{CountsOnlyHeld, GoesOn, IsAbove, MayTake, held_of};
ghost use Rattle.rc_fragment.specs.declared.held.Held.{Held};
ghost use Rattle.rc_fragment.specs.declared.held.TakeStop.TheVariants as take_stop;
ghost use Rattle.rc_plan.specs.Evaluation.{stripes_locked};
ghost use Rattle.rc_plan.specs.declared.statement.Which.TheVariants as which_stripes;
ghost use Rattle.rc_machine.specs.Locks.{HasLocked, HasRefusedOne};
ghost use Rattle.rc_machine.specs.Stopped.{CountsOnlyHeld as CountsOnlyHeldStop};
ghost use Rattle.rc_machine.specs.declared.stop.Stop.TheVariants as stop;
ghost use Rattle.rc_plan.specs.StripeLocks.{band};

use crate::Stop;
use rc_bindings::Bindings;
use rc_fragment::{Holder, TakeStop};
use rc_plan::{Compiled, Which};
use rc_spec::Mode;
use rc_tuple::Memory;

/// Takes the stripes of a class on which the bindings fall, or all of them, in rising order. After a stop those that
/// were taken stay held.
pub(crate) fn lock<H: Holder>(
    holder: &mut H,
    compiled: &Compiled,
    class: u8,
    which: Which,
    mode: Mode,
    bindings: &Bindings,
    stripes: &mut Vec<u32>,
) -> Result<(), Stop>
    requires sealed { IsSealed compiled.now.spec }
    requires known { class < length compiled.now.spec.classes }
    requires wide { bindings.now.width ≡ length compiled.now.spec.columns }
    requires total { length (H.seen holder.old).offered ≡ stripe_total compiled.now.spec }
    requires lent { (s : ℕ) → In s (stripes_locked compiled.now.spec class which bindings.now.tuples) → MayTake (H.seen holder.old).lends s mode }
    requires above { (s : ℕ) → In s (stripes_locked compiled.now.spec class which bindings.now.tuples) → IsAbove (held_of (H.seen holder.old)) s }
    ensures ok { OnOk result (HasLocked (H.seen holder.old) (H.seen holder.new) (gather nat_cmp (stripes_locked compiled.now.spec class which bindings.now.tuples)) mode) }
    ensures some { (n : ℕ) × HasLocked (H.seen holder.old) (H.seen holder.new) (take n (gather nat_cmp (stripes_locked compiled.now.spec class which bindings.now.tuples))) mode }
    ensures refused { (h : Held) → result ≡ Err (stop.Held h) → HasRefusedOne (H.seen holder.old) (H.seen holder.new) (gather nat_cmp (stripes_locked compiled.now.spec class which bindings.now.tuples)) mode h }
    ensures counted { (spec : Spec) → H.is_sound holder.old spec → CountsOnlyHeldStop result (H.seen holder.old) (H.seen holder.new) }
    ensures goes_on { GoesOn (H.seen holder.old) (H.seen holder.new) }
    ensures sound { (spec : Spec) → H.is_sound holder.old spec → H.is_sound holder.new spec }
{
    name_stripes(stripes, compiled, class, which, bindings)?;
    sort(stripes);
    take_all(holder, stripes, mode)?;
    Ok(())
}

/// Makes the list that of the stripes which a Lock takes: those on which the bindings fall, in their order, or all of the
/// class.
fn name_stripes(
    stripes: &mut Vec<u32>,
    compiled: &Compiled,
    class: u8,
    which: Which,
    bindings: &Bindings,
) -> Result<(), Memory>
    requires sealed { IsSealed compiled.now.spec }
    requires known { class < length compiled.now.spec.classes }
    requires wide { bindings.now.width ≡ length compiled.now.spec.columns }
    ensures { OnOk result (stripes.new.items ≡ stripes_locked compiled.now.spec class which bindings.now.tuples) }
{
    stripes.clear();
    match which {
        Which::Keyed => push_fallen_on(stripes, compiled, class, bindings),
        Which::All => push_band(stripes, compiled, class),
    }
}

/// Adds the stripe on which each binding falls.
fn push_fallen_on(
    stripes: &mut Vec<u32>,
    compiled: &Compiled,
    class: u8,
    bindings: &Bindings,
) -> Result<(), Memory>
    requires sealed { IsSealed compiled.now.spec }
    requires known { class < length compiled.now.spec.classes }
    requires wide { bindings.now.width ≡ length compiled.now.spec.columns }
    ensures { OnOk result (stripes.new.items ≡ stripes.old.items ++ map (physical_stripe compiled.now.spec class) bindings.now.tuples) }
{
    // The class and its first stripe are found once for all bindings.
    let named = compiled.class(class);
    let start = compiled.band_start(class);
    for at in 0..bindings.len() {
        stripes.push(start + bindings.get(at).stripe_of(named))?;
    }
    Ok(())
}

/// Adds all stripes of the class.
fn push_band(stripes: &mut Vec<u32>, compiled: &Compiled, class: u8) -> Result<(), Memory>
    requires sealed { IsSealed compiled.now.spec }
    requires known { class < length compiled.now.spec.classes }
    ensures { OnOk result (stripes.new.items ≡ stripes.old.items ++ band compiled.now.spec class) }
{
    let start = compiled.band_start(class);
    for place in 0..compiled.class(class).stripes {
        stripes.push(start + place)?;
    }
    Ok(())
}

/// Takes all stripes of a class, in rising order. After a stop those that were taken stay held.
pub(crate) fn lock_band<H: Holder>(
    holder: &mut H,
    compiled: &Compiled,
    class: u8,
    mode: Mode,
    stripes: &mut Vec<u32>,
) -> Result<(), Stop>
    requires sealed { IsSealed compiled.now.spec }
    requires known { class < length compiled.now.spec.classes }
    requires total { length (H.seen holder.old).offered ≡ stripe_total compiled.now.spec }
    requires lent { (s : ℕ) → In s (band compiled.now.spec class) → MayTake (H.seen holder.old).lends s mode }
    requires above { (s : ℕ) → In s (band compiled.now.spec class) → IsAbove (held_of (H.seen holder.old)) s }
    ensures ok { OnOk result (HasLocked (H.seen holder.old) (H.seen holder.new) (band compiled.now.spec class) mode) }
    ensures some { (n : ℕ) × HasLocked (H.seen holder.old) (H.seen holder.new) (take n (band compiled.now.spec class)) mode }
    ensures refused { (h : Held) → result ≡ Err (stop.Held h) → HasRefusedOne (H.seen holder.old) (H.seen holder.new) (band compiled.now.spec class) mode h }
    ensures counted { (spec : Spec) → H.is_sound holder.old spec → CountsOnlyHeldStop result (H.seen holder.old) (H.seen holder.new) }
    ensures goes_on { GoesOn (H.seen holder.old) (H.seen holder.new) }
    ensures sound { (spec : Spec) → H.is_sound holder.old spec → H.is_sound holder.new spec }
{
    stripes.clear();
    push_band(stripes, compiled, class)?;
    take_all(holder, stripes, mode)?;
    Ok(())
}

/// Takes the stripes one after another.
pub(crate) fn take_all<H: Holder>(
    holder: &mut H,
    stripes: &[u32],
    mode: Mode,
) -> Result<(), TakeStop>
    requires known { (s : ℕ) → In s stripes.now → s < length (H.seen holder.old).offered }
    requires lent { (s : ℕ) → In s stripes.now → MayTake (H.seen holder.old).lends s mode }
    requires rising { IsRising nat_cmp stripes.now }
    requires above { (s : ℕ) → In s stripes.now → IsAbove (held_of (H.seen holder.old)) s }
    ensures ok { OnOk result (HasLocked (H.seen holder.old) (H.seen holder.new) stripes.now mode) }
    ensures some { (n : ℕ) × HasLocked (H.seen holder.old) (H.seen holder.new) (take n stripes.now) mode }
    ensures refused { (h : Held) → result ≡ Err (take_stop.Held h) → HasRefusedOne (H.seen holder.old) (H.seen holder.new) stripes.now mode h }
    ensures counted { (spec : Spec) → H.is_sound holder.old spec → CountsOnlyHeld result (H.seen holder.old) (H.seen holder.new) }
    ensures goes_on { GoesOn (H.seen holder.old) (H.seen holder.new) }
    ensures sound { (spec : Spec) → H.is_sound holder.old spec → H.is_sound holder.new spec }
{
    for stripe in stripes {
        holder.take(*stripe, mode)?;
    }
    Ok(())
}

/// Puts the numbers in rising order, each once. Takes no memory.
fn sort(numbers: &mut Vec<u32>)
    ensures { numbers.new.items ≡ gather nat_cmp numbers.old.items }
{
    // Mostly one binding names one stripe.
    if numbers.len() > 1 {
        numbers.sort_unstable();
        numbers.dedup();
    }
}
