//! Calls.

ghost use Rattle.std.specs.Prelude.{◌≡◌, Err, IfSome, None};
ghost use Rattle.rc_embed.specs.Asked.{one_call};
ghost use Rattle.rc_embed.specs.Refused.{Answers, fault_of};
ghost use Rattle.rc_embed.specs.Session.{HasCalled};

use crate::fault::{CallFault, call_fault};
use crate::session::{Last, Session, State, put};
use rc_spec::Reply;
use rc_store::Position;

impl Session {
    /// Calls the operation with this number with these values, in the order of its columns, with a
    /// lower and an upper bound for each range column, and waits for nobody. The call stands once
    /// in the history of all calls, with the reply that the session then has. (PLDI 2012,
    /// serializable transactions.)
    ///
    /// `Prepared`, `UnknownOperation`, `Values` and `Spent` come exactly where the call has that
    /// fault, and before all else; in that order. `Busy` comes only where something was in the way at
    /// a stripe that the call's plan names. After any fault history and session are as before. Costs
    /// what the call's plan costs.
    pub fn try_call(&mut self, op: u32, values: &[u64]) -> Result<Position, CallFault>
        ensures answers { let calls = one_call op values.now in
            Answers (HasCalled self.old calls self.new) self.old calls self.new result }
        ensures refused { IfSome (fault_of self.old (one_call op values.now))
            (λ fault. (result ≡ Err fault) × (self.new ≡ self.old)) }
    {
        // A read of a field tells the check what holds of every session.
        let _ = &self.state;
        if let Some(fault) = self.fault_for(op, values.len()) {
            return Err(fault);
        }
        self.call_idle(op, values)
    }

    /// Makes a call that has no fault of its own. Where the last receipt was a call's, the reply is told in its place, so
    /// that it isn't moved; a fault leaves that reply.
    pub(crate) fn call_idle(&mut self, op: u32, values: &[u64]) -> Result<Position, CallFault>
        requires { fault_of self.old (one_call op values.now) ≡ None }
        ensures { let calls = one_call op values.now in
            Answers (HasCalled self.old calls self.new) self.old calls self.new result }
    {
        let State::Idle(pass) = &mut self.state else {
            unreachable!()
        };
        self.shared.refill_call(&mut self.call, op, values)?;
        let store = &self.shared.store;
        if let Last::Call(Some(reply)) = &mut self.last {
            let at = store.try_call_into(pass, &self.call, reply)?;
            self.picked = 0;
            return Ok(at);
        }
        let mut reply = Reply::Absent;
        match store.try_call_into(pass, &self.call, &mut reply) {
            Ok(at) => {
                put(&mut self.last, Last::Call(Some(reply)));
                self.picked = 0;
                Ok(at)
            }
            Err(fault) => Err(call_fault(fault)),
        }
    }
}
