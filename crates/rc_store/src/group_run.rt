//! The run of a group's plans over a row and a pass.

ghost use Rattle.std.specs.Prelude.{◌≡◌, ◌<◌, ◌≤◌, ◌^◌, [], IfErr, IfOk, None, OnOk, Some, length};
ghost use Rattle.std.specs.List.{AllByRecursion};
ghost use Rattle.std.specs.Ordering.{nat_cmp};
ghost use Rattle.rc_tuple.specs.RisingSet.{IsRising};
ghost use Rattle.rc_spec.specs.Calls.{Fits};
ghost use Rattle.rc_plan.specs.Turns.{with_plans};
ghost use Rattle.rc_machine.specs.Machine.{locks_of, stripes_held};
ghost use Rattle.rc_multi.specs.Group.{Suffice};
ghost use Rattle.rc_multi.specs.GroupLocks.{group_locks};
ghost use Rattle.rc_multi.specs.GroupRun.{HasRunGroup};
ghost use Rattle.rc_row.specs.Passes.{AreAtRest, HasSpare, IsPassOf, compiled_of, core_of, spec_of};
ghost use Rattle.rc_row.specs.Standings.{HaveOneRelation};
ghost use Rattle.rc_store.specs.Lending.{IsOnTheWay, IsUnrefused, held_stripes};
ghost use Rattle.rc_store.specs.Prepared.{AreReady};
ghost use Rattle.rc_store.specs.Runs.{IsStoppedFor};

use crate::lender::{Lender, Lends, Refused};
use crate::locking::take_locks;
use crate::taking::Takes;
use rc_machine::{Stop, Workspace};
use rc_multi::run_group;
use rc_plan::Compiled;
use rc_row::{Pass, Row};
use rc_spec::{Call, Mode, Reply};
use rc_tuple::Memory;
use std::alloc::Global;
use std::marker::{Brand, PhantomData};

/// Takes a group's locks for a pass that holds nothing, and runs the plans of its two calls or more up to their commit.
/// After a stop the pass may hold some of the locks, with changes of no use.
pub(crate) fn lock_and_run<T: Takes>(
    alloc: Global,
    row: &Row,
    compiled: &Compiled,
    calls: &[Call],
    locks: &[(u32, Mode)],
    pass: &mut Pass,
    taking: &T,
) -> Result<Vec<Reply>, Stop>
    requires compiled { compiled_of row.now ≡ compiled.now }
    requires pass { IsPassOf row.now pass.old }
    requires idle { pass.old.held ≡ [] }
    requires left { length (core_of pass.old).own < 2 ^ 48 }
    requires room { HasSpare pass.old.kept }
    requires fit { AllByRecursion (Fits (spec_of row.now)) calls.now }
    requires several { 2 ≤ length calls.now }
    requires few { length calls.now ≤ 16 }
    requires locks { locks.now ≡ group_locks (spec_of row.now) (with_plans (compiled_of row.now).plans calls.now) }
    ensures pass { IsPassOf row.now pass.new }
    ensures way { IsOnTheWay row.now pass.old pass.new }
    ensures ready { IfOk result (λ replies. AreReady row.now calls.now pass.new replies.items) }
    ensures unrefused { IfOk result (λ _. IsUnrefused T.waits pass.old pass.new) }
    ensures stopped { IfErr result (IsStoppedFor T.waits row.now calls.now pass.old pass.new) }
{
    let _ = compiled.accepted();
    take_locks(row, locks, pass, taking)?;
    Ok(run_calls(alloc, row, compiled, calls, pass, taking)?)
}

/// Runs the plans of calls one after another up to their commit, for a pass that holds what suffices for them, as it took
/// it, and answers their replies. Only want of memory stops it; then the pass has changes of no use.
pub(crate) fn run_calls<T: Takes>(
    alloc: Global,
    row: &Row,
    compiled: &Compiled,
    calls: &[Call],
    pass: &mut Pass,
    taking: &T,
) -> Result<Vec<Reply>, Memory>
    requires compiled { compiled_of row.now ≡ compiled.now }
    requires pass { IsPassOf row.now pass.old }
    requires rest { AreAtRest pass.old.held }
    requires one { HaveOneRelation (spec_of row.now) (core_of pass.old).held }
    requires fit { AllByRecursion (Fits compiled.now.spec) calls.now }
    requires few { length calls.now ≤ 16 }
    requires suffice { Suffice compiled.now calls.now (locks_of (held_stripes pass.old.held)) }
    requires rising { IsRising nat_cmp (stripes_held (held_stripes pass.old.held)) }
    ensures of_row { IsPassOf row.now pass.new }
    ensures way { IsOnTheWay row.now pass.old pass.new }
    ensures unrefused { IsUnrefused T.waits pass.old pass.new }
    ensures ran { IfOk result (λ replies. HasRunGroup (spec_of row.now) calls.now (held_stripes pass.old.held) (held_stripes pass.new.held) replies.items) }
{
    pass.held_agrees();
    let mut refused = None;
    let mut replies = Vec::with_capacity(alloc, calls.len())?;
    let mut space = pass.take_space()?;
    let ran = run_lent::<Brand, T>(
        alloc,
        row,
        compiled,
        calls,
        &mut space,
        &mut replies,
        pass,
        taking,
        &mut refused,
    );
    pass.put_space(space);
    ran?;
    Ok(replies)
}

/// Does so over what it lends to a holder.
fn run_lent<L: Lends, T: Takes>(
    alloc: Global,
    row: &Row,
    compiled: &Compiled,
    calls: &[Call],
    space: &mut Workspace,
    replies: &mut Vec<Reply>,
    pass: &mut Pass,
    taking: &T,
    refused: &mut Option<Refused>,
) -> Result<(), Memory>
    requires lent { L.lent ≡ Some (record { row = row.now; begun = pass.old }) }
    requires compiled { compiled_of row.now ≡ compiled.now }
    requires pass { IsPassOf row.now pass.old }
    requires rest { AreAtRest pass.old.held }
    requires one { HaveOneRelation (spec_of row.now) (core_of pass.old).held }
    requires none { refused.old ≡ None }
    requires fit { AllByRecursion (Fits compiled.now.spec) calls.now }
    requires few { length calls.now ≤ 16 }
    requires suffice { Suffice compiled.now calls.now (locks_of (held_stripes pass.old.held)) }
    requires rising { IsRising nat_cmp (stripes_held (held_stripes pass.old.held)) }
    ensures of_row { IsPassOf row.now pass.new }
    ensures way { IsOnTheWay row.now pass.old pass.new }
    ensures unrefused { IsUnrefused T.waits pass.old pass.new }
    ensures ran { OnOk result (HasRunGroup (spec_of row.now) calls.now (held_stripes pass.old.held) (held_stripes pass.new.held) replies.new.items) }
{
    let mut taken = Vec::new(alloc);
    let mut took = Vec::new(alloc);
    let mut lender = Lender::<L, T> {
        row,
        pass,
        taking,
        refused,
        lends: PhantomData,
    };
    let ran = run_holder(
        compiled,
        calls,
        space,
        &mut taken,
        &mut took,
        replies,
        &mut lender,
    );
    let Lender {
        row: _,
        pass: _,
        taking: _,
        refused: _,
        lends: _,
    } = lender;
    ran
}

/// Does so over the holder that was lent them.
fn run_holder<L: Lends, T: Takes>(
    compiled: &Compiled,
    calls: &[Call],
    space: &mut Workspace,
    taken: &mut Vec<(u32, Mode)>,
    took: &mut Vec<(u32, Mode)>,
    replies: &mut Vec<Reply>,
    lender: &mut Lender<'_, L, T>,
) -> Result<(), Memory>
    requires lent { L.lent ≡ Some (record { row = lender.old.row.now; begun = lender.old.pass.now }) }
    requires compiled { compiled_of lender.old.row.now ≡ compiled.now }
    requires rest { AreAtRest lender.old.pass.now.held }
    requires one { HaveOneRelation (spec_of lender.old.row.now) (core_of lender.old.pass.now).held }
    requires none { lender.old.refused.now ≡ None }
    requires fit { AllByRecursion (Fits compiled.now.spec) calls.now }
    requires few { length calls.now ≤ 16 }
    requires suffice { Suffice compiled.now calls.now (locks_of (held_stripes lender.old.pass.now.held)) }
    requires rising { IsRising nat_cmp (stripes_held (held_stripes lender.old.pass.now.held)) }
    ensures same_reference { lender.new.pass.ghost_name ≡ lender.old.pass.ghost_name }
    ensures of_row { IsPassOf lender.old.row.now lender.new.pass.now }
    ensures way { IsOnTheWay lender.old.row.now lender.old.pass.now lender.new.pass.now }
    ensures unrefused { IsUnrefused T.waits lender.old.pass.now lender.new.pass.now }
    ensures ran { OnOk result (HasRunGroup (spec_of lender.old.row.now) calls.now (held_stripes lender.old.pass.now.held) (held_stripes lender.new.pass.now.held) replies.new.items) }
{
    lender.pass.held_agrees();
    run_group(compiled, calls, space, taken, took, replies, lender)
}
