//! Prepared groups: a caller may stop between the replies and the commit.

ghost use Rattle.std.specs.Prelude.{◌≡◌, ◌<◌, ◌↔◌, IfErr, IfOk, Some, false, length};
ghost use Rattle.std.specs.List.{slice_get};
ghost use Rattle.rc_rel.specs.History.{with_replies};
ghost use Rattle.rc_row.specs.Passes.{IsPassOf, KeepsAs, compiled_of, core_of};
ghost use Rattle.rc_store.specs.Prepared.{IsPrepared, IsReady};
ghost use Rattle.rc_store.specs.Running.{HasBegunGroup, IsFaultOf, IsGroupRunningOn, IsHandedBack, calls_of, replies_of};
ghost use Rattle.rc_store.specs.RunningInside.{IsOfPass, steps_in};
ghost use Rattle.rc_store.specs.Runs.{IsStoppedFor};
ghost use Rattle.rc_store.specs.Store.{HasMadeGroup, HoldsExactly, IsAsBefore, IsFree, IsGroupFinished, MayCallAll};
ghost use Rattle.rc_store.specs.declared.receipt.TryFault.TheVariants as fault;

use crate::finish_group::entry_of_calls;
use crate::gate::OpenGate;
use crate::receipt::{BeginBack, GroupReceipt, TryFault};
use crate::store::Store;
use crate::taking::AtOnce;
use crate::wakes::Wakes;
use rc_fragment::Held;
use rc_machine::Stop;
use rc_rel::Entry;
use rc_row::{Keeping, Pass};
use rc_spec::{Call, Reply};
use rc_tuple::Memory;
use std::alloc::Global;
use std::marker::Model;
use std::snapshot::Snapshot;

/// What is to be committed of a group. It is made before, so that the commit takes no memory.
#[derive(Drop)]
pub(crate) enum PreparedGroup {
    /// Its entry, where the pass keeps its entries.
    Entry(Entry),
    /// The calls with their replies, where it keeps none.
    Counted(Vec<Call>, Vec<Reply>),
}

/// A group of calls that holds its stripes and has its replies, and waits for its commit. It has the pass with which it was
/// begun, and borrows nothing. One that is dropped keeps its stripes, as a pass does.
#[derive(Drop)]
pub struct RunningGroup {
    pub(crate) pass: Pass,
    pub(crate) prepared: PreparedGroup,
    /// The pass as it was before. Contracts alone see it.
    pub(crate) begun: Snapshot<Pass>,
}

impl Model for RunningGroup {
    ghost use Rattle.rc_store.specs.Running.{RunningGroupSeen};

    ghost Value = { RunningGroupSeen };

    ghost use Rattle.rc_store.specs.RunningInside.{IsWholeGroup, running_group_seen};

    ghost view = { running_group_seen };

    ghost invariant = { IsWholeGroup };
}

impl RunningGroup {
    /// How many calls it has.
    pub fn count(&self) -> usize
        ensures { result ≡ length self.now.steps }
    {
        self.prepared.count()
    }

    /// The reply that the call with this number, counted from 0, has if the group is committed.
    pub fn reply(&self, at: usize) -> &Reply
        requires { at < length self.now.steps }
        ensures { slice_get (replies_of self.now.steps) at ≡ Some result.now }
    {
        self.prepared.reply(at)
    }

    /// Commits the group, gives all back, and hands out the pass with the receipt. It takes no memory and isn't refused.
    pub fn commit<W: Wakes>(self, store: &Store<W>) -> (Pass, GroupReceipt)
        requires { IsGroupRunningOn store.now self }
        ensures free { IsFree store.now result.0 }
        ensures made { HasMadeGroup store.now (calls_of self.steps) (replies_of self.steps) self.begun result.0 result.1 }
    {
        let RunningGroup {
            mut pass,
            prepared,
            begun: _,
        } = self;
        let receipt = store.commit_group(&mut pass, prepared);
        (pass, receipt)
    }

    /// Takes back what the group changed, gives all back, and hands out the pass. It holds nothing, and its entries and what
    /// it has seen are as before. Takes no memory.
    pub fn cancel<W: Wakes>(self, store: &Store<W>) -> Pass
        requires { IsGroupRunningOn store.now self }
        ensures free { IsFree store.now result }
        ensures before { IsAsBefore self.begun result }
        ensures unrefused { result.standing.refusals ≡ self.pass.standing.refusals }
    {
        let RunningGroup {
            mut pass,
            prepared: _,
            begun: _,
        } = self;
        store.give_back(&mut pass);
        pass
    }
}

impl<W: Wakes> Store<W> {
    /// Begins a group of calls, and waits for nobody: it takes its stripes, changes them and has its replies, and can be
    /// committed or cancelled then. It is refused as `try_group` is, and hands the pass back then. Costs what `try_group`
    /// does up to the commit, and a copy of each call.
    pub fn begin_group(&self, pass: Pass, calls: &[Call]) -> Result<RunningGroup, BeginBack>
        requires { MayCallAll self.now pass calls.now }
        ensures begun { IfOk result (HasBegunGroup self.now calls.now pass) }
        ensures back { IfErr result (IsHandedBack self.now calls.now pass) }
        ensures spent { IsFaultOf fault.Spent result ↔ length (core_of pass).own ≡ self.now.limit }
    {
        let mut pass = pass;
        pass.held_agrees();
        let begun = Snapshot::of(&pass);
        if self.is_spent(&pass) {
            return Err(BeginBack {
                pass,
                fault: TryFault::Spent,
            });
        }
        match self.hold_all(&mut pass, calls) {
            Ok(prepared) => Ok(RunningGroup {
                pass,
                prepared,
                begun,
            }),
            Err(Stop::Memory) => Err(BeginBack {
                pass,
                fault: TryFault::Memory,
            }),
            Err(Stop::Held(Held { stripe, found })) => Err(BeginBack {
                pass,
                fault: TryFault::Busy { stripe, found },
            }),
        }
    }

    /// Prepares calls of a pass that isn't spent, and makes what is to be committed.
    fn hold_all(&self, pass: &mut Pass, calls: &[Call]) -> Result<PreparedGroup, Stop>
        requires may { MayCallAll self.now pass.old calls.now }
        requires left { length (core_of pass.old).own < self.now.limit }
        ensures pass { IsPassOf self.now.row pass.new }
        ensures whole { IfOk result (IsOfPass pass.new) }
        ensures calls { IfOk result (λ prepared. calls_of (steps_in prepared) ≡ calls.now) }
        ensures prepared { IfOk result (λ prepared. IsPrepared self.now.row (steps_in prepared) pass.old pass.new) }
        ensures exact { IfOk result (λ prepared. HoldsExactly (compiled_of self.now.row) (core_of pass.new) (steps_in prepared)) }
        ensures before { IfErr result (λ _. IsAsBefore pass.old pass.new) }
        ensures cause { IfErr result (IsStoppedFor false self.now.row calls.now pass.old pass.new) }
    {
        pass.held_agrees();
        let taking = AtOnce { wakes: &self.wakes };
        let replies = self.prepare_all(pass, calls, &taking)?;
        match prepared_of_calls(self.alloc, self.row.keeping(), pass, calls, replies) {
            Ok(prepared) => Ok(prepared),
            Err(Memory) => {
                self.give_back(pass);
                Err(Stop::Memory)
            }
        }
    }

    /// Commits what was prepared, and gives all back that the pass holds.
    pub(crate) fn commit_group(&self, pass: &mut Pass, prepared: PreparedGroup) -> GroupReceipt
        requires pass { IsPassOf self.now.row pass.old }
        requires whole { IsOfPass pass.old prepared }
        requires ready { IsReady self.now.row (steps_in prepared) pass.old }
        ensures pass { IsPassOf self.now.row pass.new }
        ensures finished { IsGroupFinished self.now.row (calls_of (steps_in prepared)) (replies_of (steps_in prepared)) pass.old pass.new result }
    {
        match prepared {
            PreparedGroup::Entry(entry) => self.finish_all_kept(pass, entry, &OpenGate),
            PreparedGroup::Counted(calls, replies) => {
                self.finish_all_counted(pass, &calls, replies, &OpenGate)
            }
        }
    }
}

/// What is to be committed of the calls with their replies.
fn prepared_of_calls(
    alloc: Global,
    keeping: Keeping,
    pass: &Pass,
    calls: &[Call],
    replies: Vec<Reply>,
) -> Result<PreparedGroup, Memory>
    requires keeps { KeepsAs keeping pass.now.kept }
    requires count { length replies.items ≡ length calls.now }
    ensures steps { IfOk result (λ prepared. steps_in prepared ≡ with_replies calls.now replies.items) }
    ensures whole { IfOk result (IsOfPass pass.now) }
{
    match keeping {
        Keeping::Entries => Ok(PreparedGroup::Entry(entry_of_calls(alloc, pass, calls, replies)?)),
        Keeping::Counts => Ok(PreparedGroup::Counted(copy_calls(alloc, calls)?, replies)),
    }
}

/// A copy of each call.
fn copy_calls(alloc: Global, calls: &[Call]) -> Result<Vec<Call>, Memory>
    ensures { IfOk result (λ copies. copies.items ≡ calls.now) }
{
    let mut copies = Vec::with_capacity(alloc, calls.len())?;
    for call in calls {
        copies.push(call.copy()?)?;
    }
    Ok(copies)
}
