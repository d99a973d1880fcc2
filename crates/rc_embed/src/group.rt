//! Groups: several calls as one.

ghost use Rattle.std.specs.Prelude.{◌≡◌, ◌≤◌, Err, IfSome, None, length, map};
ghost use Rattle.rc_embed.specs.Asking.{asked_calls};
ghost use Rattle.rc_embed.specs.Refused.{Answers, fault_of};
ghost use Rattle.rc_embed.specs.Session.{HasCalled, HasPrepared};

use crate::fault::{CallFault, call_fault};
use crate::session::{Last, Session, State, put};
use rc_store::{BeginBack, GroupReceipt, Position};
use std::mem;

/// The most calls of a group.
pub const MAX_GROUP: usize = 16;

/// A call that a group is to make.
#[derive(Clone, Copy, Debug)]
pub struct Asked<'a> {
    /// The number of the operation.
    pub op: u32,
    /// The values, in the order of its columns, with a lower and an upper bound for each range
    /// column.
    pub values: &'a [u64],
}

/// What asks for a call, or declares calls of an operation.
pub(crate) trait Asks {
    ghost use Rattle.rc_embed.specs.Asked.{AskedCall};

    /// The call that it asks for, or what it declares.
    ghost asked: { Self → AskedCall };

    /// The number of the operation.
    fn op(&self) -> u32
        ensures { result ≡ (asked self.now).op };

    /// How many values there are.
    fn count(&self) -> usize
        ensures { result ≡ (asked self.now).count };

    /// The values.
    fn values(&self) -> &[u64]
        requires { (asked self.now).count ≤ 64 }
        ensures values { result.now ≡ (asked self.now).values }
        ensures count { length result.now ≡ (asked self.now).count };
}

impl<'a> Asks for Asked<'a> {
    ghost use Rattle.rc_embed.specs.Asking.{asked_call};

    ghost asked = { asked_call };

    fn op(&self) -> u32 {
        self.op
    }

    fn count(&self) -> usize {
        self.values.len()
    }

    fn values(&self) -> &[u64] {
        self.values
    }
}

impl Session {
    /// Makes 1 to 16 calls as one, and waits for nobody. They stand once in the history of all calls,
    /// as one entry, so that nobody sees a state between them; each goes on from what those before it
    /// left, and the session has their replies then. (PLDI 2012, serializable transactions.)
    ///
    /// `Prepared`, `Count`, `UnknownOperation`, `Values` and `Spent` come exactly where the calls have
    /// that fault, and before all else; in that order, but that of `UnknownOperation` and `Values` it is
    /// that of the first call that has one. `Busy` comes only where something was in the way at a stripe
    /// that the group wants: of each class that a plan of its calls locks, those that their values choose, or
    /// all of it where a plan finds its stripe by reading. After any fault history and session are as
    /// before. A reply such as `Conflict` or `Absent` is no fault: who wants all or nothing prepares the
    /// group, and looks at its replies. Costs what the calls' plans cost, and memory for the lists of
    /// locks and replies; the first group takes memory for its calls, which later ones use again.
    pub fn try_group(&mut self, calls: &[Asked<'_>]) -> Result<Position, CallFault>
        ensures answers { let calls = asked_calls calls.now in
            Answers (HasCalled self.old calls self.new) self.old calls self.new result }
        ensures refused { IfSome (fault_of self.old (asked_calls calls.now))
            (λ fault. (result ≡ Err fault) × (self.new ≡ self.old)) }
    {
        // A read of a field tells the check what holds of every session.
        let _ = &self.state;
        if let Some(fault) = self.fault_of(calls) {
            return Err(fault);
        }
        self.group_idle(calls)
    }

    /// Makes calls that have no fault of their own as one.
    pub(crate) fn group_idle<A: Asks>(&mut self, calls: &[A]) -> Result<Position, CallFault>
        requires { fault_of self.old (map A.asked calls.now) ≡ None }
        ensures { let calls = map A.asked calls.now in
            Answers (HasCalled self.old calls self.new) self.old calls self.new result }
    {
        let State::Idle(pass) = &mut self.state else {
            unreachable!()
        };
        self.shared.refill_all(&mut self.calls, calls)?;
        match self
            .shared
            .store
            .try_group(pass, &self.calls[..calls.len()])
        {
            Ok(
                GroupReceipt {
                    place,
                    nth,
                    replies,
                },
            ) => {
                put(&mut self.last, Last::Group(replies));
                self.picked = 0;
                Ok(Position { place, nth })
            }
            Err(fault) => Err(call_fault(fault)),
        }
    }

    /// Prepares 1 to 16 calls as one, and waits for nobody: it takes their stripes and has their
    /// replies, and is committed or cancelled then. It is refused as `try_group` is. (PLDI 2012,
    /// two-phase transactions.)
    pub fn begin_group(&mut self, calls: &[Asked<'_>]) -> Result<(), CallFault>
        ensures answers { let calls = asked_calls calls.now in
            Answers (λ _. HasPrepared self.old calls self.new) self.old calls self.new result }
        ensures refused { IfSome (fault_of self.old (asked_calls calls.now))
            (λ fault. (result ≡ Err fault) × (self.new ≡ self.old)) }
    {
        // A read of a field tells the check what holds of every session.
        let _ = &self.state;
        if let Some(fault) = self.fault_of(calls) {
            return Err(fault);
        }
        self.begin_group_idle(calls)
    }

    /// Prepares calls that have no fault of their own as one.
    pub(crate) fn begin_group_idle<A: Asks>(&mut self, calls: &[A]) -> Result<(), CallFault>
        requires { fault_of self.old (map A.asked calls.now) ≡ None }
        ensures { let calls = map A.asked calls.now in
            Answers (λ _. HasPrepared self.old calls self.new) self.old calls self.new result }
    {
        self.shared.refill_all(&mut self.calls, calls)?;
        let pass = match mem::replace(&mut self.state, State::Moving) {
            State::Idle(pass) => pass,
            _ => unreachable!(),
        };
        match self
            .shared
            .store
            .begin_group(pass, &self.calls[..calls.len()])
        {
            Ok(running) => {
                put(&mut self.state, State::PreparedGroup(running));
                self.picked = 0;
                Ok(())
            }
            Err(BeginBack { pass, fault }) => {
                put(&mut self.state, State::Idle(pass));
                Err(call_fault(fault))
            }
        }
    }
}
