//! The run of one call's plan over what a pass holds.

ghost use Rattle.std.specs.Prelude.{◌≡◌, IfOk, List, None, Some};
ghost use Rattle.std.specs.Ordering.{nat_cmp};
ghost use Rattle.rc_tuple.specs.RisingSet.{IsRising};
ghost use Rattle.rc_tuple.specs.Tuple.{Pairs};
ghost use Rattle.rc_spec.specs.Calls.{Fits};
ghost use Rattle.rc_plan.specs.Compiled.{plan_at};
ghost use Rattle.rc_machine.specs.Machine.{locks_of, stripes_held};
ghost use Rattle.rc_multi.specs.Group.{AreNowOf, Covers, HasRunTaking};
ghost use Rattle.rc_row.specs.Passes.{IsPassOf, compiled_of, core_of, spec_of};
ghost use Rattle.rc_row.specs.Standings.{HaveOneRelation};
ghost use Rattle.rc_store.specs.Lending.{IsOnTheWay, IsUnrefused, held_stripes};

use crate::lender::{Lender, Lends, Refused};
use crate::taking::Takes;
use rc_machine::Workspace;
use rc_multi::run_in_group;
use rc_plan::Compiled;
use rc_row::{Pass, Row};
use rc_spec::{Call, Mode, Reply};
use rc_tuple::Memory;
use std::alloc::Global;
use std::marker::{Brand, PhantomData};
use std::mem;

/// Runs the plan of a call up to its commit for a pass that holds what suffices for it, as it is now, and makes `took` a list by
/// which it is known which of these stripes the plan took. Only want of memory stops it; then the pass has changes of no use.
pub(crate) fn run_on<T: Takes>(
    alloc: Global,
    row: &Row,
    compiled: &Compiled,
    call: &Call,
    took: &mut Vec<(u32, Mode)>,
    pass: &mut Pass,
    taking: &T,
) -> Result<Reply, Memory>
    requires compiled { compiled_of row.now ≡ compiled.now }
    requires pass { IsPassOf row.now pass.old }
    requires one { HaveOneRelation (spec_of row.now) (core_of pass.old).held }
    requires fits { Fits compiled.now.spec call.now }
    requires covered { Covers compiled.now call.now (locks_of (held_stripes pass.old.held)) }
    requires rising { IsRising nat_cmp (stripes_held (held_stripes pass.old.held)) }
    requires now { (r : List Pairs) × AreNowOf compiled.now.spec (held_stripes pass.old.held) r }
    ensures of_row { IsPassOf row.now pass.new }
    ensures way { IsOnTheWay row.now pass.old pass.new }
    ensures unrefused { IsUnrefused T.waits pass.old pass.new }
    ensures ran { IfOk result (HasRunTaking (spec_of row.now)
        (plan_at (compiled_of row.now).plans call.now.op) call.now
        (held_stripes pass.old.held) (held_stripes pass.new.held) took.new.items) }
{
    pass.held_agrees();
    let mut refused = None;
    let mut space = pass.take_space()?;
    let ran = run_lent::<Brand, T>(
        alloc,
        row,
        compiled,
        call,
        &mut space,
        took,
        pass,
        taking,
        &mut refused,
    );
    pass.put_space(space);
    ran
}

/// Does so over what it lends to a holder.
fn run_lent<L: Lends, T: Takes>(
    alloc: Global,
    row: &Row,
    compiled: &Compiled,
    call: &Call,
    space: &mut Workspace,
    took: &mut Vec<(u32, Mode)>,
    pass: &mut Pass,
    taking: &T,
    refused: &mut Option<Refused>,
) -> Result<Reply, Memory>
    requires lent { L.lent ≡ Some (record { row = row.now; begun = pass.old }) }
    requires compiled { compiled_of row.now ≡ compiled.now }
    requires pass { IsPassOf row.now pass.old }
    requires one { HaveOneRelation (spec_of row.now) (core_of pass.old).held }
    requires none { refused.old ≡ None }
    requires fits { Fits compiled.now.spec call.now }
    requires covered { Covers compiled.now call.now (locks_of (held_stripes pass.old.held)) }
    requires rising { IsRising nat_cmp (stripes_held (held_stripes pass.old.held)) }
    requires now { (r : List Pairs) × AreNowOf compiled.now.spec (held_stripes pass.old.held) r }
    ensures of_row { IsPassOf row.now pass.new }
    ensures way { IsOnTheWay row.now pass.old pass.new }
    ensures unrefused { IsUnrefused T.waits pass.old pass.new }
    ensures ran { IfOk result (HasRunTaking (spec_of row.now)
        (plan_at (compiled_of row.now).plans call.now.op) call.now
        (held_stripes pass.old.held) (held_stripes pass.new.held) took.new.items) }
{
    // What the plan before took is of no matter now, and its list has memory.
    let mut taken = Vec::new(alloc);
    mem::swap(&mut taken, took);
    let mut lender = Lender::<L, T> {
        row,
        pass,
        taking,
        refused,
        lends: PhantomData,
    };
    let ran = run_holder(compiled, call, space, &mut taken, took, &mut lender);
    let Lender {
        row: _,
        pass: _,
        taking: _,
        refused: _,
        lends: _,
    } = lender;
    ran
}

/// Does so over the holder that was lent them.
fn run_holder<L: Lends, T: Takes>(
    compiled: &Compiled,
    call: &Call,
    space: &mut Workspace,
    taken: &mut Vec<(u32, Mode)>,
    took: &mut Vec<(u32, Mode)>,
    lender: &mut Lender<'_, L, T>,
) -> Result<Reply, Memory>
    requires lent { L.lent
        ≡ Some (record { row = lender.old.row.now; begun = lender.old.pass.now }) }
    requires compiled { compiled_of lender.old.row.now ≡ compiled.now }
    requires one { HaveOneRelation (spec_of lender.old.row.now) (core_of lender.old.pass.now).held }
    requires none { lender.old.refused.now ≡ None }
    requires fits { Fits compiled.now.spec call.now }
    requires covered { Covers compiled.now call.now
        (locks_of (held_stripes lender.old.pass.now.held)) }
    requires rising { IsRising nat_cmp (stripes_held (held_stripes lender.old.pass.now.held)) }
    requires now { (r : List Pairs)
        × AreNowOf compiled.now.spec (held_stripes lender.old.pass.now.held) r }
    ensures same_reference { lender.new.pass.ghost_name ≡ lender.old.pass.ghost_name }
    ensures of_row { IsPassOf lender.old.row.now lender.new.pass.now }
    ensures way { IsOnTheWay lender.old.row.now lender.old.pass.now lender.new.pass.now }
    ensures unrefused { IsUnrefused T.waits lender.old.pass.now lender.new.pass.now }
    ensures ran { IfOk result (HasRunTaking (spec_of lender.old.row.now)
        (plan_at (compiled_of lender.old.row.now).plans call.now.op) call.now
        (held_stripes lender.old.pass.now.held) (held_stripes lender.new.pass.now.held)
        took.new.items) }
{
    lender.pass.held_agrees();
    run_in_group(compiled, call, space, taken, took, lender)
}
