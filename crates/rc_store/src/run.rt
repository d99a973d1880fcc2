//! The run of a call's plan over a row and a pass.

ghost use Rattle.std.specs.Prelude.{◌≡◌, [], None, OnErr, Some};
ghost use Rattle.rc_spec.specs.Calls.{Fits};
ghost use Rattle.rc_machine.specs.Machine.{told_answer};
ghost use Rattle.rc_row.specs.Passes.{IsPassOf, compiled_of};
ghost use Rattle.rc_store.specs.Runs.{HasRunPlan};

use crate::lender::{Lender, Lends, Refused};
use crate::taking::Takes;
use rc_machine::{Stop, Workspace, run_statements};
use rc_plan::Compiled;
use rc_row::{Pass, Row};
use rc_spec::{Call, Reply};
use std::marker::{Brand, PhantomData};

/// Runs the call's plan up to its commit, for a pass that holds nothing. Where it answers, it tells the reply, and the pass
/// holds exactly what the plan names, changed as the plan changes it. After a stop it may hold some stripes, with changes,
/// and the reply is as it was; a stripe is refused only where nothing waits.
pub(crate) fn run_call<T: Takes>(
    row: &Row,
    compiled: &Compiled,
    call: &Call,
    pass: &mut Pass,
    taking: &T,
    reply: &mut Reply,
) -> Result<(), Stop>
    requires compiled { compiled_of row.now ≡ compiled.now }
    requires pass { IsPassOf row.now pass.old }
    requires idle { pass.old.held ≡ [] }
    requires fits { Fits compiled.now.spec call.now }
    ensures run { HasRunPlan T.waits row.now call.now pass.old pass.new (told_answer result reply.new) }
    ensures kept { OnErr result (reply.new ≡ reply.old) }
{
    pass.held_agrees();
    let mut refused = None;
    let mut space = pass.take_space()?;
    let answer = run_lent::<Brand, T>(
        row,
        compiled,
        call,
        &mut space,
        pass,
        taking,
        &mut refused,
        reply,
    );
    pass.put_space(space);
    answer
}

/// Does so over what it lends to a holder.
fn run_lent<L: Lends, T: Takes>(
    row: &Row,
    compiled: &Compiled,
    call: &Call,
    space: &mut Workspace,
    pass: &mut Pass,
    taking: &T,
    refused: &mut Option<Refused>,
    reply: &mut Reply,
) -> Result<(), Stop>
    requires lent { L.lent ≡ Some (record { row = row.now; begun = pass.old }) }
    requires compiled { compiled_of row.now ≡ compiled.now }
    requires pass { IsPassOf row.now pass.old }
    requires idle { pass.old.held ≡ [] }
    requires none { refused.old ≡ None }
    requires fits { Fits compiled.now.spec call.now }
    ensures run { HasRunPlan T.waits row.now call.now pass.old pass.new (told_answer result reply.new) }
    ensures kept { OnErr result (reply.new ≡ reply.old) }
{
    let mut lender = Lender::<L, T> {
        row,
        pass,
        taking,
        refused,
        lends: PhantomData,
    };
    let answer = run_holder(compiled, call, space, &mut lender, reply);
    let Lender {
        row: _,
        pass: _,
        taking: _,
        refused: _,
        lends: _,
    } = lender;
    answer
}

/// Does so over the holder that was lent them.
fn run_holder<L: Lends, T: Takes>(
    compiled: &Compiled,
    call: &Call,
    space: &mut Workspace,
    lender: &mut Lender<'_, L, T>,
    reply: &mut Reply,
) -> Result<(), Stop>
    requires lent { L.lent ≡ Some (record { row = lender.old.row.now; begun = lender.old.pass.now }) }
    requires compiled { compiled_of lender.old.row.now ≡ compiled.now }
    requires idle { lender.old.pass.now.held ≡ [] }
    requires none { lender.old.refused.now ≡ None }
    requires fits { Fits compiled.now.spec call.now }
    ensures same_reference { lender.new.pass.ghost_name ≡ lender.old.pass.ghost_name }
    ensures run { HasRunPlan T.waits lender.old.row.now call.now lender.old.pass.now lender.new.pass.now (told_answer result reply.new) }
    ensures kept { OnErr result (reply.new ≡ reply.old) }
{
    lender.pass.held_agrees();
    let _ = compiled.accepted();
    run_statements(compiled, call, space, lender, reply)
}
