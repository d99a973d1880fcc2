//! The locks of a group.

ghost use Rattle.std.specs.Prelude.{◌≡◌, ℕ, ◌<◌, ◌≤◌, ◌++◌, All, List, IfOk, OnOk, length, map};
ghost use Rattle.std.specs.Ordering.{nat_cmp};
ghost use Rattle.rc_tuple.specs.RisingSet.{IsPlace, put};
ghost use Rattle.rc_spec.specs.declared.lock.Mode.TheVariants.{Shared};
ghost use Rattle.rc_spec.specs.Locks.{StripeLock};
ghost use Rattle.rc_spec.specs.Stripes.{physical_stripe};
ghost use Rattle.rc_plan.specs.StripeLocks.{band, stripes_of};
ghost use Rattle.rc_plan.specs.Turns.{with_plan, with_plans};
ghost use Rattle.rc_multi.specs.ClassUse.{class_locks, class_use, group_use, in_mode, with_chosen};
ghost use Rattle.rc_multi.specs.GroupLocks.{HasOperation, chosen_stripes, group_locks};

use crate::class_lock::{ClassUse, class_use};
use rc_plan::Compiled;
use rc_spec::{Call, Mode, stripe_of};
use rc_tuple::Memory;
use std::cmp::Ordering;

/// Makes the list that of the locks of a group, which suffice for its calls: of each class that a plan of one of them
/// locks, all stripes where some call may take any, and else those that the calls' arguments choose, Exclusive where
/// some plan locks the class so. They rise, and each stripe stands once. (PLDI 2012, lock striping.)
///
/// A call may be a declaration that has only some of its arguments: its operation decides which classes it locks, and the
/// arguments that it has choose stripes. Takes memory only where the list has no room. Costs, for each class, a walk over the
/// plans of the calls.
pub fn group_locks(
    compiled: &Compiled,
    calls: &[Call],
    locks: &mut Vec<(u32, Mode)>,
) -> Result<(), Memory>
    requires fit { All (HasOperation compiled.now.spec) calls.now }
    ensures { OnOk result
        (locks.new.items ≡ group_locks compiled.now.spec (with_plans compiled.now.plans calls.now)) }
{
    locks.clear();
    for class in 0..compiled.accepted().spec().classes.list().len() as u8 {
        push_class(compiled, calls, class, locks)?;
    }
    Ok(())
}

/// Appends the locks of a class.
fn push_class(
    compiled: &Compiled,
    calls: &[Call],
    class: u8,
    locks: &mut Vec<(u32, Mode)>,
) -> Result<(), Memory>
    requires fit { All (HasOperation compiled.now.spec) calls.now }
    requires known { class < length compiled.now.spec.classes }
    ensures { OnOk result (locks.new.items ≡ locks.old.items
        ++ class_locks compiled.now.spec (with_plans compiled.now.plans calls.now) class) }
{
    let start = locks.len();
    let asked = push_chosen(compiled, calls, class, locks)?;
    if asked.any {
        locks.truncate(start);
        push_band(compiled, class, asked.mode(), locks)
    } else {
        set_mode(&mut locks[start..], asked.mode());
        Ok(())
    }
}

/// Appends, Shared and rising, the stripes of the class that the arguments choose of the calls that lock it, and tells
/// what the calls ask of it.
fn push_chosen(
    compiled: &Compiled,
    calls: &[Call],
    class: u8,
    locks: &mut Vec<(u32, Mode)>,
) -> Result<ClassUse, Memory>
    requires fit { All (HasOperation compiled.now.spec) calls.now }
    requires known { class < length compiled.now.spec.classes }
    ensures asked { IfOk result
        (λ asked. asked ≡ group_use compiled.now.spec class (with_plans compiled.now.plans calls.now)) }
    ensures chosen { OnOk result (locks.new.items ≡ locks.old.items ++ in_mode Shared
        (chosen_stripes compiled.now.spec (with_plans compiled.now.plans calls.now) class)) }
{
    let start = locks.len();
    let mut asked = ClassUse::none();
    for call in calls {
        asked = asked.or(put_chosen(compiled, call, class, start, locks)?);
    }
    Ok(asked)
}

/// Puts the stripe that the call's arguments choose among the locks from `start` on, where its plan locks the class, and
/// tells what the plan asks of it.
fn put_chosen(
    compiled: &Compiled,
    call: &Call,
    class: u8,
    start: usize,
    locks: &mut Vec<(u32, Mode)>,
) -> Result<ClassUse, Memory>
    requires operation { HasOperation compiled.now.spec call.now }
    requires known { class < length compiled.now.spec.classes }
    requires inside { start ≤ length locks.old.items }
    ensures asked { IfOk result
        (λ asked. asked ≡ class_use compiled.now.spec class (with_plan compiled.now.plans call.now)) }
    ensures chosen { (first : List StripeLock) (stripes : List ℕ) → length first ≡ start
        → locks.old.items ≡ first ++ in_mode Shared stripes
        → OnOk result (locks.new.items ≡ first ++ in_mode Shared
        (with_chosen compiled.now.spec class (with_plan compiled.now.plans call.now) stripes)) }
{
    let asked = class_use(compiled, call, class);
    if asked.locks {
        put_stripe(own_stripe(compiled, call, class), start, locks)?;
    }
    Ok(asked)
}

/// The stripe of the class on which the call's arguments fall.
pub(crate) fn own_stripe(compiled: &Compiled, call: &Call, class: u8) -> u32
    requires known { class < length compiled.now.spec.classes }
    ensures { result ≡ physical_stripe compiled.now.spec class call.now.args }
{
    let spec = compiled.accepted().spec();
    compiled.band_start(class) + stripe_of(spec.class(class), &call.args)
}

/// Puts the stripe, Shared, at its place among the locks from `start` on, which rise.
fn put_stripe(stripe: u32, start: usize, locks: &mut Vec<(u32, Mode)>) -> Result<(), Memory>
    requires { start ≤ length locks.old.items }
    ensures { (first : List StripeLock) (stripes : List ℕ) → length first ≡ start
        → locks.old.items ≡ first ++ in_mode Shared stripes
        → OnOk result (locks.new.items ≡ first ++ in_mode Shared (put nat_cmp stripe stripes)) }
{
    if let Some(at) = place_of(&locks[start..], stripe) {
        locks.insert(start + at, (stripe, Mode::Shared))?;
    }
    Ok(())
}

/// Where the stripe goes among those of rising locks; `None` where it is there.
fn place_of(locks: &[(u32, Mode)], stripe: u32) -> Option<usize>
    ensures { IsPlace nat_cmp stripe (stripes_of locks.now) result }
{
    for (at, lock) in locks.iter().enumerate() {
        match stripe.cmp(&lock.0) {
            Ordering::Less => return Some(at),
            Ordering::Equal => return None,
            Ordering::Greater => {}
        }
    }
    Some(locks.len())
}

/// Appends all stripes of the class, each in the mode.
fn push_band(
    compiled: &Compiled,
    class: u8,
    mode: Mode,
    locks: &mut Vec<(u32, Mode)>,
) -> Result<(), Memory>
    requires known { class < length compiled.now.spec.classes }
    ensures { OnOk result
        (locks.new.items ≡ locks.old.items ++ in_mode mode (band compiled.now.spec class)) }
{
    let start = compiled.band_start(class);
    for place in 0..compiled.accepted().spec().class(class).stripes {
        locks.push((start + place, mode))?;
    }
    Ok(())
}

/// Makes the mode of each lock this one.
fn set_mode(locks: &mut [(u32, Mode)], mode: Mode)
    ensures { locks.new ≡ map (λ lock. (lock.0, mode)) locks.old }
{
    for lock in locks.iter_mut() {
        lock.1 = mode;
    }
}
