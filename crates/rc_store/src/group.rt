//! Groups: several calls as one.

ghost use Rattle.std.specs.Prelude.{◌≡◌, ◌<◌, ◌≤◌, ◌↔◌, [], ◌∷◌, Err, IfErr, IfOk, length};
ghost use Rattle.std.specs.List.{AllByRecursion};
ghost use Rattle.rc_spec.specs.Calls.{Fits};
ghost use Rattle.rc_row.specs.Passes.{IsPassOf, core_of, spec_of};
ghost use Rattle.rc_store.specs.Busy.{HasCause, IsForMemory};
ghost use Rattle.rc_store.specs.Lending.{IsUnrefused};
ghost use Rattle.rc_store.specs.Prepared.{ArePrepared};
ghost use Rattle.rc_store.specs.Runs.{IsStoppedFor};
ghost use Rattle.rc_store.specs.Store.{HasGroupReceipt, IsAsBefore, IsFree, MayCallAll};
ghost use Rattle.rc_store.specs.declared.receipt.TryFault.TheVariants as fault;
ghost use Rattle.rc_store.specs.declared.receipt.CallFault.TheVariants as waited;

use crate::gate::{Gate, OpenGate, Point};
use crate::group_run::lock_and_run;
use crate::receipt::{CallFault, GroupReceipt, TryFault};
use crate::store::Store;
use crate::taking::{AtOnce, Patiently, Takes};
use crate::wakes::{Wakes, Waking};
use rc_machine::Stop;
use rc_multi::{calls_that_fit_have_operations, group_locks};
use rc_row::Pass;
use rc_spec::{Call, Reply};
use rc_tuple::Memory;
use std::alloc::Global;
use std::sync::Wait;

impl<W: Wakes> Store<W> {
    /// Makes 1 to 16 calls as one, and waits for nobody: they stand in the history as one entry, and nobody sees a state
    /// between them. (PLDI 2012, serializable transactions by two-phase locks.)
    ///
    /// Of two or more the stripes of all are taken first, in rising order: of each class that one of their plans locks those
    /// that the calls' arguments choose, or all of it where some plan finds its stripe by reading; each Exclusive where some
    /// plan locks it so. Then the plans run one after another, each on what those before it left. A group of one is
    /// `try_call`. The receipt means what a call's does. A reply such as `Conflict` or `Absent` is a reply, and the group
    /// goes on.
    ///
    /// `Spent` comes exactly where the pass has made as many entries as the store lets it, and first. `Busy` comes only
    /// where the last refused step of the pass is of this group and found what is said, on a stripe that the group wants:
    /// so before anything is changed. `Memory` comes only where no step of this group was refused. After any fault the pass
    /// holds nothing, and its entries and what it has seen are as before. Costs the plans, a few atomic steps a stripe, one
    /// commit, the lists of locks and of replies, and where entries are kept a copy of each call.
    pub fn try_group(&self, pass: &mut Pass, calls: &[Call]) -> Result<GroupReceipt, TryFault>
        requires { MayCallAll self.now pass.old calls.now }
        ensures free { IsFree self.now pass.new }
        ensures made { IfOk result (HasGroupReceipt self.now calls.now pass.old pass.new) }
        ensures before { IfErr result (λ _. IsAsBefore pass.old pass.new) }
        ensures spent { result ≡ Err fault.Spent ↔ length (core_of pass.old).own ≡ self.now.limit }
        ensures cause { IfErr result (HasCause self.now.row calls.now pass.old pass.new) }
    {
        if self.is_spent(pass) {
            return Err(TryFault::Spent);
        }
        let taking = AtOnce { wakes: &self.wakes };
        Ok(self.make_all(pass, calls, &taking, &OpenGate)?)
    }

    /// Makes calls as one for a pass that isn't spent. It takes stripes as said, and tells the gate of its points.
    fn make_all<T: Takes, G: Gate>(
        &self,
        pass: &mut Pass,
        calls: &[Call],
        taking: &T,
        gate: &G,
    ) -> Result<GroupReceipt, Stop>
        requires may { MayCallAll self.now pass.old calls.now }
        requires left { length (core_of pass.old).own < self.now.limit }
        ensures free { IsFree self.now pass.new }
        ensures made { IfOk result (HasGroupReceipt self.now calls.now pass.old pass.new) }
        ensures before { IfErr result (λ _. IsAsBefore pass.old pass.new) }
        ensures cause { IfErr result (IsStoppedFor T.waits self.now.row calls.now pass.old pass.new) }
    {
        pass.held_agrees();
        gate.at(pass.number(), Point::BeforeLocks);
        let replies = self.prepare_all(pass, calls, taking)?;
        Ok(self.finish_all(pass, calls, replies, gate)?)
    }

    /// Makes room for the entry of the calls, and runs their plans up to the commit. After a stop the pass holds nothing, and
    /// all is as before.
    pub(crate) fn prepare_all<T: Takes>(
        &self,
        pass: &mut Pass,
        calls: &[Call],
        taking: &T,
    ) -> Result<Vec<Reply>, Stop>
        requires may { MayCallAll self.now pass.old calls.now }
        requires left { length (core_of pass.old).own < self.now.limit }
        ensures pass { IsPassOf self.now.row pass.new }
        ensures ok { IfOk result (λ replies. ArePrepared self.now.row calls.now pass.old pass.new replies.items) }
        ensures unrefused { IfOk result (λ _. IsUnrefused T.waits pass.old pass.new) }
        ensures err { IfErr result (λ _. IsAsBefore pass.old pass.new) }
        ensures cause { IfErr result (IsStoppedFor T.waits self.now.row calls.now pass.old pass.new) }
    {
        match calls {
            [call] => self.prepare_alone(pass, call, taking),
            _ => self.prepare_group(pass, calls, taking),
        }
    }

    /// Does so for one call, which takes its stripes itself.
    fn prepare_alone<T: Takes>(
        &self,
        pass: &mut Pass,
        call: &Call,
        taking: &T,
    ) -> Result<Vec<Reply>, Stop>
        requires free { IsFree self.now pass.old }
        requires fits { Fits (spec_of self.now.row) call.now }
        requires left { length (core_of pass.old).own < self.now.limit }
        ensures pass { IsPassOf self.now.row pass.new }
        ensures ok { IfOk result (λ replies. ArePrepared self.now.row (call.now ∷ []) pass.old pass.new replies.items) }
        ensures unrefused { IfOk result (λ _. IsUnrefused T.waits pass.old pass.new) }
        ensures err { IfErr result (λ _. IsAsBefore pass.old pass.new) }
        ensures cause { IfErr result (IsStoppedFor T.waits self.now.row (call.now ∷ []) pass.old pass.new) }
    {
        pass.held_agrees();
        let mut reply = Reply::Absent;
        self.prepare(pass, call, taking, &mut reply)?;
        match list_of(self.alloc, reply) {
            Ok(replies) => Ok(replies),
            Err(Memory) => {
                self.give_back(pass);
                Err(Stop::Memory)
            }
        }
    }

    /// Does so for two calls or more, whose stripes are all taken first.
    fn prepare_group<T: Takes>(
        &self,
        pass: &mut Pass,
        calls: &[Call],
        taking: &T,
    ) -> Result<Vec<Reply>, Stop>
        requires free { IsFree self.now pass.old }
        requires left { length (core_of pass.old).own < self.now.limit }
        requires fit { AllByRecursion (Fits (spec_of self.now.row)) calls.now }
        requires several { 2 ≤ length calls.now }
        requires few { length calls.now ≤ 16 }
        ensures pass { IsPassOf self.now.row pass.new }
        ensures ok { IfOk result (λ replies. ArePrepared self.now.row calls.now pass.old pass.new replies.items) }
        ensures unrefused { IfOk result (λ _. IsUnrefused T.waits pass.old pass.new) }
        ensures err { IfErr result (λ _. IsAsBefore pass.old pass.new) }
        ensures cause { IfErr result (IsStoppedFor T.waits self.now.row calls.now pass.old pass.new) }
    {
        pass.held_agrees();
        let mut locks = Vec::new(self.alloc);
        calls_that_fit_have_operations();
        group_locks(&self.compiled, calls, &mut locks)?;
        pass.reserve()?;
        let answer = lock_and_run(
            self.alloc,
            &self.row,
            &self.compiled,
            calls,
            &locks,
            pass,
            taking,
        );
        match answer {
            Ok(replies) => Ok(replies),
            Err(stop) => {
                self.give_back(pass);
                Err(stop)
            }
        }
    }
}

impl Store<Waking> {
    /// Makes calls as one as `try_group` does, and waits where something is in the way. If it returns, it answers as said;
    /// nothing is promised of when, and `Memory` has the causes that it has of `call`. While it holds all that it wants it
    /// waits for nobody. The gate is told of each point
    /// that it reaches: BeforeCommit when all replies are known.
    pub fn call_group<R: Wait, G: Gate>(
        &self,
        rt: &R,
        pass: &mut Pass,
        calls: &[Call],
        gate: &G,
    ) -> Result<GroupReceipt, CallFault>
        requires { MayCallAll self.now pass.old calls.now }
        ensures free { IsFree self.now pass.new }
        ensures made { IfOk result (HasGroupReceipt self.now calls.now pass.old pass.new) }
        ensures before { IfErr result (λ _. IsAsBefore pass.old pass.new) }
        ensures spent { result ≡ Err waited.Spent ↔ length (core_of pass.old).own ≡ self.now.limit }
        ensures first { result ≡ Err waited.Spent → pass.new ≡ pass.old }
        ensures memory { result ≡ Err waited.Memory → IsForMemory pass.old pass.new }
    {
        if self.is_spent(pass) {
            return Err(CallFault::Spent);
        }
        match self.make_all(pass, calls, &Patiently { rt }, gate) {
            Ok(receipt) => Ok(receipt),
            Err(Stop::Memory) => Err(CallFault::Memory),
            Err(Stop::Held(_)) => unreachable!(),
        }
    }
}

/// The list of one reply.
fn list_of(alloc: Global, reply: Reply) -> Result<Vec<Reply>, Memory>
    ensures { IfOk result (λ replies. replies.items ≡ reply ∷ []) }
{
    let mut replies = Vec::with_capacity(alloc, 1)?;
    replies.push(reply)?;
    Ok(replies)
}
