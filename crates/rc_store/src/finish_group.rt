//! The end of a group.

ghost use Rattle.std.specs.Prelude.{◌≡◌, List, IfOk, IsSome, None, OnErr, length};
ghost use Rattle.rc_spec.specs.declared.call.Call.{Call as ACall};
ghost use Rattle.rc_spec.specs.declared.call.Reply.{Reply as AReply};
ghost use Rattle.rc_rel.specs.History.{with_replies};
ghost use Rattle.rc_core.specs.Passes.{next_of};
ghost use Rattle.rc_row.specs.Passes.{IsPassOf, core_of, idle};
ghost use Rattle.rc_store.specs.Prepared.{IsReady};
ghost use Rattle.rc_store.specs.Store.{IsGroupFinished};

use crate::gate::Gate;
use crate::receipt::GroupReceipt;
use crate::store::Store;
use crate::wakes::Wakes;
use rc_rel::{Entry, Step, Steps};
use rc_row::{Keeping, Pass};
use rc_spec::{Call, Reply};
use rc_tuple::{Memory, SmallList};
use std::alloc::Global;

impl<W: Wakes> Store<W> {
    /// Commits calls that are ready as one entry, and gives all back that the pass holds. Where memory is wanted for the
    /// entry, what the pass changed is taken back, and nothing is committed.
    pub(crate) fn finish_all<G: Gate>(
        &self,
        pass: &mut Pass,
        calls: &[Call],
        replies: Vec<Reply>,
        gate: &G,
    ) -> Result<GroupReceipt, Memory>
        requires pass { IsPassOf self.now.row pass.old }
        requires count { length replies.items ≡ length calls.now }
        requires ready { IsReady self.now.row (with_replies calls.now replies.items) pass.old }
        ensures pass { IsPassOf self.now.row pass.new }
        ensures ok { IfOk result (IsGroupFinished self.now.row calls.now replies.items pass.old pass.new) }
        ensures err { OnErr result (pass.new ≡ idle pass.old) }
    {
        match self.row.keeping() {
            Keeping::Counts => Ok(self.finish_all_counted(pass, calls, replies, gate)),
            Keeping::Entries => match entry_of_calls(self.alloc, pass, calls, replies) {
                Ok(entry) => Ok(self.finish_all_kept(pass, entry, gate)),
                Err(Memory) => {
                    self.give_back(pass);
                    Err(Memory)
                }
            },
        }
    }

    /// Does so where the pass keeps no entries, and hands the replies out. It takes no memory.
    pub(crate) fn finish_all_counted<G: Gate>(
        &self,
        pass: &mut Pass,
        calls: &[Call],
        replies: Vec<Reply>,
        gate: &G,
    ) -> GroupReceipt
        requires pass { IsPassOf self.now.row pass.old }
        requires ready { IsReady self.now.row (with_replies calls.now replies.items) pass.old }
        requires counts { pass.old.kept ≡ None }
        ensures pass { IsPassOf self.now.row pass.new }
        ensures finished { IsGroupFinished self.now.row calls.now replies.items pass.old pass.new result }
    {
        let at = self.commit_counted(pass, calls, &replies, gate);
        GroupReceipt {
            place: at.place,
            nth: at.nth,
            replies: Some(SmallList::from_vec(replies)),
        }
    }

    /// Does so with the entry of the calls, where the pass keeps its entries. It takes no memory.
    pub(crate) fn finish_all_kept<G: Gate>(
        &self,
        pass: &mut Pass,
        entry: Entry,
        gate: &G,
    ) -> GroupReceipt
        requires pass { IsPassOf self.now.row pass.old }
        requires next { entry ≡ next_of (core_of pass.old) entry.steps }
        requires ready { IsReady self.now.row entry.steps pass.old }
        requires keeps { IsSome pass.old.kept }
        ensures pass { IsPassOf self.now.row pass.new }
        ensures finished { (calls : List ACall) (replies : List AReply) → entry.steps ≡ with_replies calls replies
            → IsGroupFinished self.now.row calls replies pass.old pass.new result }
    {
        let at = self.commit_entry(pass, entry, gate);
        GroupReceipt {
            place: at.place,
            nth: at.nth,
            replies: None,
        }
    }
}

/// The next entry of the pass, of the calls with their replies.
pub(crate) fn entry_of_calls(
    alloc: Global,
    pass: &Pass,
    calls: &[Call],
    replies: Vec<Reply>,
) -> Result<Entry, Memory>
    requires count { length replies.items ≡ length calls.now }
    ensures { IfOk result (λ entry. entry ≡ next_of (core_of pass.now) (with_replies calls.now replies.items)) }
{
    let mut steps = Vec::with_capacity(alloc, calls.len())?;
    let mut replies = replies;
    for call in calls {
        let reply = replies.remove(0);
        let call = call.copy()?;
        steps.push(Step { call, reply })?;
    }
    Ok(Entry {
        pass: pass.number(),
        nth: pass.made(),
        steps: Steps::from_vec(steps),
    })
}
