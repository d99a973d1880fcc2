//! Calls.

ghost use Rattle.std.specs.Prelude.{◌≡◌, ◌<◌, ◌↔◌, [], ◌∷◌, Err, IfErr, IfOk, IsTrue, OnErr, length};
ghost use Rattle.rc_row.specs.Passes.{core_of};
ghost use Rattle.rc_row.specs.declared.keeping.Keeping.TheVariants.{Counts};
ghost use Rattle.rc_store.specs.Busy.{HasCause, IsForMemory};
ghost use Rattle.rc_store.specs.Runs.{IsStoppedFor};
ghost use Rattle.rc_store.specs.Store.{HasMade, HasReceipt, IsAsBefore, IsFree, MayCall, receipt_at};
ghost use Rattle.rc_store.specs.declared.receipt.TryFault.TheVariants as fault;
ghost use Rattle.rc_store.specs.declared.receipt.CallFault.TheVariants as waited;

use crate::gate::{Gate, OpenGate, Point};
use crate::receipt::{CallFault, Position, Receipt, TryFault};
use crate::store::Store;
use crate::taking::{AtOnce, Patiently, Takes};
use crate::wakes::{Wakes, Waking};
use rc_machine::Stop;
use rc_row::Pass;
use rc_spec::{Call, Reply};
use std::sync::Wait;

impl<W: Wakes> Store<W> {
    /// Makes a call, and waits for nobody. Its plan takes exactly the stripes that it names, each in its mode; the call is
    /// committed as one entry of the history while they are held; then they are given back. (PLDI 2012, serializable
    /// transactions by two-phase locks.)
    ///
    /// A receipt means one history: there was a good one of exactly as many calls as its place says, that has all that the pass
    /// made and goes on from all that it was told of, and this call is its next. `Spent` comes exactly where the pass has made
    /// as many entries as the store lets it, and first. `Busy` comes only where the last refused step of the pass is of this
    /// call and found what is said, on a stripe that the plan names; `Memory` only where no step of this call was refused.
    /// After any fault the pass holds nothing, and its entries and what it has seen are as before. Costs what the plan
    /// costs, a few atomic steps a stripe, and where entries are kept a copy of the call.
    pub fn try_call(&self, pass: &mut Pass, call: &Call) -> Result<Receipt, TryFault>
        requires { MayCall self.now pass.old call.now }
        ensures free { IsFree self.now pass.new }
        ensures made { IfOk result (HasReceipt self.now call.now pass.old pass.new) }
        ensures before { IfErr result (λ _. IsAsBefore pass.old pass.new) }
        ensures spent { result ≡ Err fault.Spent ↔ length (core_of pass.old).own ≡ self.now.limit }
        ensures cause { IfErr result (HasCause self.now.row (call.now ∷ []) pass.old pass.new) }
    {
        if self.is_spent(pass) {
            return Err(TryFault::Spent);
        }
        let taking = AtOnce { wakes: &self.wakes };
        Ok(self.make(pass, call, &taking, &OpenGate)?)
    }

    /// Makes a call as `try_call` does, in a store whose passes keep no entries, and tells the reply into a place that the
    /// caller lends: so one place serves many calls. The receipt is that of this position with this reply, and means what
    /// it means there. After any fault the reply that stood in the place stands there still, and all else is as said of
    /// `try_call`, with the same causes. Costs what the plan costs and a few atomic steps a stripe; no call is copied.
    /// Where a reply is told, what stood in its place is let go, but for its tuple, if it had one, whose memory the pass
    /// keeps for the next that it answers.
    pub fn try_call_into(
        &self,
        pass: &mut Pass,
        call: &Call,
        reply: &mut Reply,
    ) -> Result<Position, TryFault>
        requires may { MayCall self.now pass.old call.now }
        requires counts { self.now.row.keeping ≡ Counts }
        ensures free { IsFree self.now pass.new }
        ensures made { IfOk result (λ at. HasMade self.now call.now reply.new pass.old pass.new (receipt_at at reply.new)) }
        ensures kept { OnErr result (reply.new ≡ reply.old) }
        ensures before { IfErr result (λ _. IsAsBefore pass.old pass.new) }
        ensures spent { result ≡ Err fault.Spent ↔ length (core_of pass.old).own ≡ self.now.limit }
        ensures cause { IfErr result (HasCause self.now.row (call.now ∷ []) pass.old pass.new) }
    {
        if self.is_spent(pass) {
            return Err(TryFault::Spent);
        }
        let taking = AtOnce { wakes: &self.wakes };
        self.prepare(pass, call, &taking, reply)?;
        Ok(self.commit_call(pass, call, reply, &OpenGate))
    }

    /// Whether the pass has made as many entries as the store lets it.
    pub(crate) fn is_spent(&self, pass: &Pass) -> bool
        ensures { IsTrue result ↔ length (core_of pass.now).own ≡ self.now.limit }
    {
        pass.made() == self.limit
    }

    /// Makes a call for a pass that isn't spent. It takes stripes as said, and tells the gate of its points.
    fn make<T: Takes, G: Gate>(
        &self,
        pass: &mut Pass,
        call: &Call,
        taking: &T,
        gate: &G,
    ) -> Result<Receipt, Stop>
        requires may { MayCall self.now pass.old call.now }
        requires left { length (core_of pass.old).own < self.now.limit }
        ensures free { IsFree self.now pass.new }
        ensures made { IfOk result (HasReceipt self.now call.now pass.old pass.new) }
        ensures before { IfErr result (λ _. IsAsBefore pass.old pass.new) }
        ensures cause { IfErr result (IsStoppedFor T.waits self.now.row (call.now ∷ []) pass.old pass.new) }
    {
        pass.held_agrees();
        gate.at(pass.number(), Point::BeforeLocks);
        let mut reply = Reply::Absent;
        self.prepare(pass, call, taking, &mut reply)?;
        Ok(self.finish(pass, call, reply, gate)?)
    }
}

impl Store<Waking> {
    /// Makes a call as `try_call` does, and waits where something is in the way. If it returns, it answers as said; nothing
    /// is promised of when. `Memory` comes only where no step of this call was refused, or where the pass has taken since what
    /// it was refused, or gave it up since memory was wanted. The gate is told of each point that it reaches.
    pub fn call<R: Wait, G: Gate>(
        &self,
        rt: &R,
        pass: &mut Pass,
        call: &Call,
        gate: &G,
    ) -> Result<Receipt, CallFault>
        requires { MayCall self.now pass.old call.now }
        ensures free { IsFree self.now pass.new }
        ensures made { IfOk result (HasReceipt self.now call.now pass.old pass.new) }
        ensures before { IfErr result (λ _. IsAsBefore pass.old pass.new) }
        ensures spent { result ≡ Err waited.Spent ↔ length (core_of pass.old).own ≡ self.now.limit }
        ensures first { result ≡ Err waited.Spent → pass.new ≡ pass.old }
        ensures memory { result ≡ Err waited.Memory → IsForMemory pass.old pass.new }
    {
        if self.is_spent(pass) {
            return Err(CallFault::Spent);
        }
        match self.make(pass, call, &Patiently { rt }, gate) {
            Ok(receipt) => Ok(receipt),
            Err(Stop::Memory) => Err(CallFault::Memory),
            Err(Stop::Held(_)) => unreachable!(),
        }
    }
}
