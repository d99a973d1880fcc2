//! The run of a group.

ghost use Rattle.std.specs.Prelude.{◌≡◌, List, [], IfOk, OnOk, Some, length};
ghost use Rattle.std.specs.List.{AllByRecursion};
ghost use Rattle.std.specs.Ordering.{nat_cmp};
ghost use Rattle.rc_tuple.specs.RisingSet.{IsRising};
ghost use Rattle.rc_tuple.specs.Tuple.{Pairs};
ghost use Rattle.rc_spec.specs.Calls.{Fits};
ghost use Rattle.rc_fragment.specs.Holder.{held_of};
ghost use Rattle.rc_plan.specs.Compiled.{plan_at};
ghost use Rattle.rc_machine.specs.Apply.{IsSameButLent};
ghost use Rattle.rc_machine.specs.Machine.{AreAsTaken, locks_of, stripes_held};
ghost use Rattle.rc_multi.specs.Group.{AreNowOf, AreOfRelationFor, Covers, HasRunTaking, Suffice};
ghost use Rattle.rc_multi.specs.GroupRun.{HasRunGroup};
ghost use Rattle.rc_multi.specs.HeldStripes.{all_taken};

use crate::offered::{Offered, Starts};
use rc_fragment::Holder;
use rc_machine::{Stop, Workspace, run_statements};
use rc_plan::Compiled;
use rc_spec::{Call, Mode, Reply};
use rc_tuple::Memory;
use std::marker::{Brand, PhantomData};
use std::mem;
use std::snapshot::Snapshot;

/// Runs the plan of one of a group's calls over a holder that holds stripes which suffice for it, as they are now. The
/// holder takes none, and only want of memory stops the run: then some rows may be changed, and those as taken stay. Makes
/// `took` a list by which it is known which of the held stripes the plan took. What `taken` and the workspace have is of no
/// matter.
///
/// Costs what the run of the plan costs, where each take is a push to `taken`, whose memory `took` has then, and `taken`
/// has that of `took`.
pub fn run_in_group<H: Holder>(
    compiled: &Compiled,
    call: &Call,
    space: &mut Workspace,
    taken: &mut Vec<(u32, Mode)>,
    took: &mut Vec<(u32, Mode)>,
    holder: &mut H,
) -> Result<Reply, Memory>
    requires fits { Fits compiled.now.spec call.now }
    requires sound { H.is_sound holder.old compiled.now.spec }
    requires covered { Covers compiled.now call.now (locks_of (held_of (H.seen holder.old))) }
    requires rising { IsRising nat_cmp (stripes_held (held_of (H.seen holder.old))) }
    requires now { (r : List Pairs) × AreNowOf compiled.now.spec (held_of (H.seen holder.old)) r }
    ensures ran { IfOk result (HasRunTaking compiled.now.spec
        (plan_at compiled.now.plans call.now.op) call.now (held_of (H.seen holder.old))
        (held_of (H.seen holder.new)) took.new.items) }
    ensures sound { H.is_sound holder.new compiled.now.spec }
    ensures taken { all_taken (held_of (H.seen holder.new)) ≡ all_taken (held_of (H.seen holder.old)) }
    ensures lent { IsSameButLent (H.seen holder.old) (H.seen holder.new) }
{
    taken.clear();
    let begun = Snapshot::of(holder);
    run_lent::<Brand, H>(compiled, call, &begun, space, taken, took, holder)
}

/// Runs the plans of a group's calls one after another over a holder that holds stripes which suffice for all of them, as
/// it took them, and makes the list that of the replies: each is the plain relation's after the calls before it, and what
/// is held in the end has the rows after them all. (PLDI 2012, serializable transactions by two-phase locks.) Only want of
/// memory stops it: then the rows now are of no use until they are taken back, and those as taken stay.
///
/// Costs the runs of the plans. What the lists and the workspace have is of no matter; `taken` and `took` are for what each
/// plan takes, and one of them gets memory.
pub fn run_group<H: Holder>(
    compiled: &Compiled,
    calls: &[Call],
    space: &mut Workspace,
    taken: &mut Vec<(u32, Mode)>,
    took: &mut Vec<(u32, Mode)>,
    replies: &mut Vec<Reply>,
    holder: &mut H,
) -> Result<(), Memory>
    requires fit { AllByRecursion (Fits compiled.now.spec) calls.now }
    requires sound { H.is_sound holder.old compiled.now.spec }
    requires unchanged { AreAsTaken (held_of (H.seen holder.old)) }
    requires covered { Suffice compiled.now calls.now (locks_of (held_of (H.seen holder.old))) }
    requires rising { IsRising nat_cmp (stripes_held (held_of (H.seen holder.old))) }
    requires relation { (r : List Pairs)
        × AreOfRelationFor compiled.now.spec (held_of (H.seen holder.old)) r (length calls.now) }
    ensures ran { OnOk result (HasRunGroup compiled.now.spec calls.now
        (held_of (H.seen holder.old)) (held_of (H.seen holder.new)) replies.new.items) }
    ensures sound { H.is_sound holder.new compiled.now.spec }
    ensures taken { all_taken (held_of (H.seen holder.new)) ≡ all_taken (held_of (H.seen holder.old)) }
    ensures lent { IsSameButLent (H.seen holder.old) (H.seen holder.new) }
{
    replies.clear();
    for call in calls {
        // The memory of the list of the plan before is that of the next one's.
        mem::swap(taken, took);
        let reply = run_in_group(compiled, call, space, taken, took, holder)?;
        replies.push(reply)?;
    }
    Ok(())
}

/// Does what `run_in_group` does over what it offers.
fn run_lent<'a, O: Starts, H: Holder>(
    compiled: &Compiled,
    call: &Call,
    begun: &'a Snapshot<H>,
    space: &mut Workspace,
    taken: &'a mut Vec<(u32, Mode)>,
    took: &mut Vec<(u32, Mode)>,
    holder: &'a mut H,
) -> Result<Reply, Memory>
    requires start { O.start ≡ Some (record { spec = compiled.now.spec; told = H.seen holder.old }) }
    requires begun { begun.now.value ≡ holder.old }
    requires none { taken.old.items ≡ [] }
    requires fits { Fits compiled.now.spec call.now }
    requires sound { H.is_sound holder.old compiled.now.spec }
    requires covered { Covers compiled.now call.now (locks_of (held_of (H.seen holder.old))) }
    requires rising { IsRising nat_cmp (stripes_held (held_of (H.seen holder.old))) }
    requires now { (r : List Pairs) × AreNowOf compiled.now.spec (held_of (H.seen holder.old)) r }
    ensures ran { IfOk result (HasRunTaking compiled.now.spec
        (plan_at compiled.now.plans call.now.op) call.now (held_of (H.seen holder.old))
        (held_of (H.seen holder.new)) took.new.items) }
    ensures sound { H.is_sound holder.new compiled.now.spec }
    ensures taken { all_taken (held_of (H.seen holder.new)) ≡ all_taken (held_of (H.seen holder.old)) }
    ensures lent { IsSameButLent (H.seen holder.old) (H.seen holder.new) }
{
    let mut offered = Offered::<O, H> {
        holder,
        taken,
        begun,
        start: PhantomData,
    };
    let answer = run_offered(compiled, call, space, &mut offered);
    let Offered {
        holder: held,
        taken: listed,
        begun: _,
        start: _,
    } = offered;
    mem::swap(listed, took);
    let _ = held;
    answer
}

/// Does so over the holder that has them. No take is refused, so what stops it is want of memory.
fn run_offered<O: Starts, H: Holder>(
    compiled: &Compiled,
    call: &Call,
    space: &mut Workspace,
    offered: &mut Offered<'_, O, H>,
) -> Result<Reply, Memory>
    requires start { O.start ≡ Some (record { spec = compiled.now.spec; told = H.seen offered.old.holder.now }) }
    requires begun { offered.old.begun.now.value ≡ offered.old.holder.now }
    requires none { offered.old.taken.now.items ≡ [] }
    requires fits { Fits compiled.now.spec call.now }
    requires sound { H.is_sound offered.old.holder.now compiled.now.spec }
    requires covered { Covers compiled.now call.now
        (locks_of (held_of (H.seen offered.old.holder.now))) }
    requires now { (r : List Pairs)
        × AreNowOf compiled.now.spec (held_of (H.seen offered.old.holder.now)) r }
    ensures same_reference { offered.new.holder.ghost_name ≡ offered.old.holder.ghost_name }
    ensures ran { IfOk result (HasRunTaking compiled.now.spec
        (plan_at compiled.now.plans call.now.op) call.now (held_of (H.seen offered.old.holder.now))
        (held_of (H.seen offered.new.holder.now)) offered.new.taken.now.items) }
    ensures sound { H.is_sound offered.new.holder.now compiled.now.spec }
    ensures taken { all_taken (held_of (H.seen offered.new.holder.now))
        ≡ all_taken (held_of (H.seen offered.old.holder.now)) }
    ensures lent { IsSameButLent (H.seen offered.old.holder.now) (H.seen offered.new.holder.now) }
{
    let mut reply = Reply::Absent;
    match run_statements(compiled, call, space, offered, &mut reply) {
        Ok(()) => Ok(reply),
        Err(Stop::Memory) => Err(Memory),
        Err(Stop::Held(_)) => unreachable!(),
    }
}
