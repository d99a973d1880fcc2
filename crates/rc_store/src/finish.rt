//! The end of a call.

ghost use Rattle.std.specs.Prelude.{◌≡◌, IfOk, None, OnErr};
ghost use Rattle.rc_rel.specs.History.{with_replies};
ghost use Rattle.rc_core.specs.Passes.{next_of};
ghost use Rattle.rc_row.specs.Passes.{IsPassOf, core_of, idle};
ghost use Rattle.rc_store.specs.Prepared.{IsReady};
ghost use Rattle.rc_store.specs.Store.{IsCallFinished, IsFinished, one_step};

use crate::gate::Gate;
use crate::receipt::{Position, Receipt};
use crate::store::Store;
use crate::wakes::Wakes;
use rc_rel::{Entry, Step, Steps};
use rc_row::{Keeping, Pass};
use rc_spec::{Call, Reply};
use rc_tuple::Memory;
use std::slice;

impl<W: Wakes> Store<W> {
    /// Commits a call that is ready, and gives all back that the pass holds. Where memory is wanted for the entry, what the
    /// pass changed is taken back, and nothing is committed.
    pub(crate) fn finish<G: Gate>(
        &self,
        pass: &mut Pass,
        call: &Call,
        reply: Reply,
        gate: &G,
    ) -> Result<Receipt, Memory>
        requires pass { IsPassOf self.now.row pass.old }
        requires ready { IsReady self.now.row (one_step call.now reply) pass.old }
        ensures pass { IsPassOf self.now.row pass.new }
        ensures ok { IfOk result (IsCallFinished self.now.row call.now pass.old pass.new reply) }
        ensures err { OnErr result (pass.new ≡ idle pass.old) }
    {
        match self.row.keeping() {
            Keeping::Counts => Ok(self.finish_counted(pass, call, reply, gate)),
            Keeping::Entries => {
                let Ok(call) = call.copy() else {
                    self.give_back(pass);
                    return Err(Memory);
                };
                let entry = entry_of_step(pass, Step { call, reply });
                let at = self.commit_entry(pass, entry, gate);
                Ok(Receipt {
                    place: at.place,
                    nth: at.nth,
                    reply: None,
                })
            }
        }
    }

    /// Does so where the pass keeps no entries, and hands the reply out. It takes no memory.
    pub(crate) fn finish_counted<G: Gate>(
        &self,
        pass: &mut Pass,
        call: &Call,
        reply: Reply,
        gate: &G,
    ) -> Receipt
        requires pass { IsPassOf self.now.row pass.old }
        requires ready { IsReady self.now.row (one_step call.now reply) pass.old }
        requires counts { pass.old.kept ≡ None }
        ensures pass { IsPassOf self.now.row pass.new }
        ensures finished { IsCallFinished self.now.row call.now pass.old pass.new reply result }
    {
        let at = self.commit_call(pass, call, &reply, gate);
        Receipt {
            place: at.place,
            nth: at.nth,
            reply: Some(reply),
        }
    }

    /// Does so where the pass keeps no entries and the reply stands elsewhere, and answers where the entry stands. It takes no
    /// memory.
    pub(crate) fn commit_call<G: Gate>(
        &self,
        pass: &mut Pass,
        call: &Call,
        reply: &Reply,
        gate: &G,
    ) -> Position
        requires pass { IsPassOf self.now.row pass.old }
        requires ready { IsReady self.now.row (one_step call.now reply.now) pass.old }
        requires counts { pass.old.kept ≡ None }
        ensures pass { IsPassOf self.now.row pass.new }
        ensures finished { IsFinished self.now.row (one_step call.now reply.now) pass.old pass.new result.place result.nth }
    {
        self.commit_counted(pass, slice::from_ref(call), slice::from_ref(reply), gate)
    }
}

/// The next entry of the pass, of one step. Takes no memory.
pub(crate) fn entry_of_step(pass: &Pass, step: Step) -> Entry
    ensures { result ≡ next_of (core_of pass.now) (one_step step.call step.reply) }
{
    Entry {
        pass: pass.number(),
        nth: pass.made(),
        steps: Steps::of_one(step),
    }
}
