//! One statement of a plan.

ghost use Rattle.std.specs.Prelude.{◌≡◌, ◌+◌, ◌<◌, drop, length, IfOk, Err};
ghost use Rattle.rc_tuple.specs.RisingSet.{In};
ghost use Rattle.rc_spec.specs.Acceptance.{IsSealed};
ghost use Rattle.rc_spec.specs.Calls.{Fits};
ghost use Rattle.rc_spec.specs.declared.spec.Spec.{Spec};
ghost use Rattle.rc_fragment.specs.Holder.{GoesOn, MayTake, held_of};
ghost use Rattle.rc_fragment.specs.declared.held.Held.{Held};
ghost use Rattle.rc_plan.specs.Compiled.{IsPlanOf};
ghost use Rattle.rc_plan.specs.NamedStripes.{IsNamedBy};
ghost use Rattle.rc_spec.specs.Locks.{StripeLock};
ghost use Rattle.rc_machine.specs.Machine.{AreAsTaken, AreTakenAsOffered, IsRefused};
ghost use Rattle.rc_machine.specs.Run.{HasGoneOn, IsAt};
ghost use Rattle.rc_machine.specs.Stopped.{CountsOnlyHeld};
ghost use Rattle.rc_machine.specs.Workspace.{AreWide, StaysWide};
ghost use Rattle.rc_machine.specs.declared.stop.Stop.TheVariants as stop;

use crate::Stop;
use crate::apply::apply;
use crate::check::{conflict, found, present};
use crate::emit::emit;
use crate::lock::lock;
use crate::read::read;
use crate::workspace::Workspace;
use rc_fragment::Holder;
use rc_plan::{Compiled, Statement};
use rc_spec::{Call, Reply};
use std::alloc::Global;

/// Runs the statement with this number. The run goes on, or has answered; where a take was refused no held stripe is
/// changed.
#[tactic(auto, using(rc_fragment::specs::HoldingLaws::goes_on_same, crate::proofs::LentLemmas::lent_goes_on, crate::proofs::LentLemmas::counted_same, crate::proofs::LentLemmas::counted_lent))]
pub(crate) fn step<H: Holder>(
    alloc: Global,
    holder: &mut H,
    compiled: &Compiled,
    call: &Call,
    plan: &[Statement],
    at: usize,
    space: &mut Workspace,
) -> Result<Option<Reply>, Stop>
    requires sealed { IsSealed compiled.now.spec }
    requires fits { Fits compiled.now.spec call.now }
    requires planned { IsPlanOf compiled.now.spec call.now.op plan.now }
    requires there { at < length plan.now }
    requires sound { H.is_sound holder.old compiled.now.spec }
    requires lent { (lock : StripeLock) → IsNamedBy compiled.now.spec call.now.args plan.now lock → MayTake (H.seen holder.old).lends lock.0 lock.1 }
    requires run { IsAt compiled.now.spec plan.now call.now (drop at plan.now) space.old.bindings.tuples space.old.old_tuple (held_of (H.seen holder.old)) }
    requires wide { AreWide compiled.now.spec space.old }
    requires taken { AreTakenAsOffered (H.seen holder.old) }
    ensures run { IfOk result (HasGoneOn compiled.now.spec plan.now call.now (drop (at + 1) plan.now) space.new.bindings.tuples space.new.old_tuple (held_of (H.seen holder.new))) }
    ensures wide { IfOk result (StaysWide compiled.now.spec space.new) }
    ensures taken { AreTakenAsOffered (H.seen holder.new) }
    ensures stopped { (h : Held) → result ≡ Err (stop.Held h) → AreAsTaken (held_of (H.seen holder.new)) }
    ensures refused { (h : Held) → result ≡ Err (stop.Held h) → IsRefused compiled.now.spec plan.now call.now (H.seen holder.old) (H.seen holder.new) h }
    ensures counted { CountsOnlyHeld result (H.seen holder.old) (H.seen holder.new) }
    ensures goes_on { GoesOn (H.seen holder.old) (H.seen holder.new) }
    ensures sound { (spec : Spec) → H.is_sound holder.old spec → H.is_sound holder.new spec }
{
    let spec = compiled.accepted().spec();
    match plan[at] {
        Statement::Lock { class, which, mode } => {
            lock(
                holder,
                compiled,
                class,
                which,
                mode,
                &space.bindings,
                &mut space.stripes,
            )?;
            Ok(None)
        }
        Statement::Probe { cols } => {
            space.bindings.begin(cols);
            space.bindings.push_projection(&call.args)?;
            Ok(None)
        }
        Statement::Read { edge, mode } => {
            read(alloc, holder, compiled, edge, mode, space)?;
            Ok(None)
        }
        Statement::CheckAbsent => Ok(present(&space.bindings)),
        Statement::CheckFound => Ok(found(alloc, &space.bindings, &mut space.old_tuple)?),
        Statement::CheckDep { dep } => {
            let op = spec.op(call.op);
            Ok(conflict(spec, op, dep, &call.args, &space.bindings))
        }
        Statement::Apply => {
            let kind = &spec.op(call.op).kind;
            Ok(Some(apply(alloc, holder, compiled, kind, &call.args, space)?))
        }
        Statement::Emit => {
            let kind = &spec.op(call.op).kind;
            let ranges = call.ranges.list();
            let reply = emit(alloc, spec.most_rows, kind, ranges, &mut space.bindings)?;
            Ok(Some(reply))
        }
        Statement::Commit | Statement::Release { .. } => unreachable!(),
    }
}
