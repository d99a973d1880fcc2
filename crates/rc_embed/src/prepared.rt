//! Prepared calls and groups, and how they end.

ghost use Rattle.std.specs.Prelude.{◌≡◌, ◌↔◌, Err, IfNone, IfOk, IfSome, IsTrue, None, OnErr, OnOk};
ghost use Rattle.rc_embed.specs.Asked.{one_call};
ghost use Rattle.rc_embed.specs.Refused.{Answers, fault_of};
ghost use Rattle.rc_embed.specs.Session.{HasCancelled, HasCommitted, HasNoCall, HasPrepared, IsIdle};
ghost use Rattle.rc_embed.specs.Session.{IsOpen};

use crate::fault::{CallFault, NotPrepared, call_fault};
use crate::session::{Last, Session, State, put};
use rc_store::{BeginBack, GroupReceipt, Position, Receipt};
use std::mem;

impl Session {
    /// Prepares the call of the operation with these values, and waits for nobody: it takes its
    /// stripes and has its reply, and is committed or cancelled then. It is refused as `try_call`
    /// is. (PLDI 2012, two-phase transactions.)
    pub fn begin(&mut self, op: u32, values: &[u64]) -> Result<(), CallFault>
        ensures answers { let calls = one_call op values.now in
            Answers (λ _. HasPrepared self.old calls self.new) self.old calls self.new result }
        ensures refused { IfSome (fault_of self.old (one_call op values.now))
            (λ fault. (result ≡ Err fault) × (self.new ≡ self.old)) }
    {
        // A read of a field tells the check what holds of every session.
        let _ = &self.state;
        if let Some(fault) = self.fault_for(op, values.len()) {
            return Err(fault);
        }
        self.begin_idle(op, values)
    }

    /// Prepares a call that has no fault of its own.
    pub(crate) fn begin_idle(&mut self, op: u32, values: &[u64]) -> Result<(), CallFault>
        requires { fault_of self.old (one_call op values.now) ≡ None }
        ensures { let calls = one_call op values.now in
            Answers (λ _. HasPrepared self.old calls self.new) self.old calls self.new result }
    {
        self.shared.refill_call(&mut self.call, op, values)?;
        let pass = match mem::replace(&mut self.state, State::Moving) {
            State::Idle(pass) => pass,
            _ => unreachable!(),
        };
        match self.shared.store.begin(pass, &self.call) {
            Ok(running) => {
                put(&mut self.state, State::Prepared(running));
                self.picked = 0;
                Ok(())
            }
            Err(BeginBack { pass, fault }) => {
                put(&mut self.state, State::Idle(pass));
                Err(call_fault(fault))
            }
        }
    }

    /// Commits the prepared call or group, or the calls of the open group, as one: they stand in the
    /// history with the replies that were told. `None` exactly where a group is open that has made no
    /// call: it is cancelled then. It takes no memory, and is refused exactly where nothing is prepared
    /// and no group open.
    pub fn commit(&mut self) -> Result<Option<Position>, NotPrepared>
        ensures store { self.new.store ≡ self.old.store }
        ensures made { IfOk result (λ at. IfSome at (HasCommitted self.old self.new)) }
        ensures none { IfOk result
            (λ at. IfNone at (HasNoCall self.old.state × HasCancelled self.old self.new)) }
        ensures refused { OnErr result (IsIdle self.old.state × (self.new ≡ self.old)) }
    {
        if self.has_open_group() {
            return Ok(self.commit_open());
        }
        match self.commit_prepared() {
            Ok(at) => Ok(Some(at)),
            Err(fault) => Err(fault),
        }
    }

    /// Whether a group is open.
    fn has_open_group(&self) -> bool
        ensures { IsTrue result ↔ IsOpen self.now.state }
    {
        match &self.state {
            State::Open(_) => true,
            State::Idle(_) | State::Prepared(_) | State::PreparedGroup(_) | State::Moving => false,
        }
    }

    /// Commits the prepared call or group, where no group is open.
    fn commit_prepared(&mut self) -> Result<Position, NotPrepared>
        requires { IsOpen self.old.state → ⊥ }
        ensures store { self.new.store ≡ self.old.store }
        ensures made { IfOk result (HasCommitted self.old self.new) }
        ensures refused { OnErr result (IsIdle self.old.state × (self.new ≡ self.old)) }
    {
        match mem::replace(&mut self.state, State::Moving) {
            State::Prepared(running) => {
                let (pass, receipt) = running.commit(&self.shared.store);
                let Receipt { place, nth, reply } = receipt;
                put(&mut self.state, State::Idle(pass));
                put(&mut self.last, Last::Call(reply));
                self.picked = 0;
                Ok(Position { place, nth })
            }
            State::PreparedGroup(running) => {
                let (pass, receipt) = running.commit(&self.shared.store);
                let GroupReceipt {
                    place,
                    nth,
                    replies,
                } = receipt;
                put(&mut self.state, State::Idle(pass));
                put(&mut self.last, Last::Group(replies));
                self.picked = 0;
                Ok(Position { place, nth })
            }
            idle => {
                put(&mut self.state, idle);
                Err(NotPrepared)
            }
        }
    }

    /// Cancels the prepared call or group, or the open group: nothing of it stands in the
    /// history, and the session is as before it was begun, but that the first reply is picked.
    /// It takes no memory, and is refused exactly where nothing is prepared and no group open.
    pub fn cancel(&mut self) -> Result<(), NotPrepared>
        ensures store { self.new.store ≡ self.old.store }
        ensures cancelled { OnOk result (HasCancelled self.old self.new) }
        ensures refused { OnErr result (IsIdle self.old.state × (self.new ≡ self.old)) }
    {
        match mem::replace(&mut self.state, State::Moving) {
            State::Prepared(running) => {
                put(
                    &mut self.state,
                    State::Idle(running.cancel(&self.shared.store)),
                );
                self.picked = 0;
                Ok(())
            }
            State::PreparedGroup(running) => {
                put(
                    &mut self.state,
                    State::Idle(running.cancel(&self.shared.store)),
                );
                self.picked = 0;
                Ok(())
            }
            State::Open(group) => {
                put(
                    &mut self.state,
                    State::Idle(group.cancel(&self.shared.store)),
                );
                self.picked = 0;
                Ok(())
            }
            idle => {
                put(&mut self.state, idle);
                Err(NotPrepared)
            }
        }
    }
}
