//! Open groups: calls that are made one after another, each with the replies before it known, and
//! committed as one.

ghost use Rattle.std.specs.Prelude.{◌≡◌, ℕ, ◌≤◌, Err, IfNone, IfSome, List, None, map};
ghost use Rattle.rc_embed.specs.Asked.{asked_with};
ghost use Rattle.rc_embed.specs.Asking.{all_declared};
ghost use Rattle.rc_embed.specs.Declaring.{declared_fault_of};
ghost use Rattle.rc_embed.specs.OpenGroups.{AnswersOpen, AnswersOpening, open_fault_of};
ghost use Rattle.rc_embed.specs.Session.{HasCancelled, HasCommitted, HasNoCall, IsOpen};

use crate::declaring::Declared;
use crate::fault::{CallFault, OpenCallFault, call_fault};
use crate::group::{Asks, MAX_GROUP};
use crate::session::{Last, Session, State, put};
use rc_store::{BeginBack, GroupReceipt, OpenBack, Position};
use std::mem;

impl Session {
    /// Opens a group over what is declared, 1 to 16 operations, and waits for nobody: it takes the
    /// stripes that calls of these operations may want, in rising order, and holds them until it is
    /// committed or cancelled. (PLDI 2012, serializable transactions by two-phase locks.) Of a class that
    /// the declared values don't choose a stripe of, and that the operation's plan locks, it takes all.
    ///
    /// `Prepared`, `Count`, `UnknownOperation`, `Values` and `Spent` come exactly where what is declared
    /// has that fault, and before all else; in that order, but that of `UnknownOperation` and `Values` it
    /// is that of the first that has one. `Busy` comes only where something was in the way at a stripe that
    /// is declared. After any fault history and session are as before. Costs a few atomic steps a stripe,
    /// and memory for the list of locks and for what is declared.
    pub fn open_group(&mut self, declared: &[Declared<'_>]) -> Result<(), CallFault>
        ensures answers { AnswersOpening self.old (all_declared declared.now) self.new result }
        ensures refused { IfSome (declared_fault_of self.old (all_declared declared.now))
            (λ fault. (result ≡ Err fault) × (self.new ≡ self.old)) }
    {
        // A read of a field tells the check what holds of every session.
        let _ = &self.state;
        if let Some(fault) = self.declared_fault(declared) {
            return Err(fault);
        }
        self.open_group_idle(declared)
    }

    /// Why no group is opened over what is declared, whatever the store has: for what is prepared first,
    /// then for how much is declared, then for what is wrong with the first that has a fault, and then
    /// because the session is spent.
    pub(crate) fn declared_fault<A: Asks>(&self, declared: &[A]) -> Option<CallFault>
        ensures { result ≡ declared_fault_of self.now (map A.asked declared.now) }
    {
        let State::Idle(pass) = &self.state else {
            return Some(CallFault::Prepared);
        };
        if declared.is_empty() || declared.len() > MAX_GROUP {
            return Some(CallFault::Count);
        }
        if let Some(fault) = self.shared.first_declared_fault(declared) {
            return Some(fault);
        }
        self.shared.spent_by(pass)
    }

    /// Opens a group over what has no fault of its own.
    pub(crate) fn open_group_idle<A: Asks>(&mut self, declared: &[A]) -> Result<(), CallFault>
        requires { declared_fault_of self.old (map A.asked declared.now) ≡ None }
        ensures { AnswersOpening self.old (map A.asked declared.now) self.new result }
    {
        self.shared.declare_all(&mut self.calls, declared)?;
        let pass = match mem::replace(&mut self.state, State::Moving) {
            State::Idle(pass) => pass,
            _ => unreachable!(),
        };
        match self
            .shared
            .store
            .open_group(pass, &self.calls[..declared.len()])
        {
            Ok(group) => {
                put(&mut self.state, State::Open(group));
                self.picked = 0;
                Ok(())
            }
            Err(BeginBack { pass, fault }) => {
                put(&mut self.state, State::Idle(pass));
                Err(call_fault(fault))
            }
        }
    }

    /// Makes one call more of the open group, over what those before it left, and waits for nobody: the
    /// group holds its stripes already. Its reply is picked then. (PLDI 2012, serializable transactions.)
    ///
    /// `NotOpen`, `UnknownOperation`, `Values` and `Full` come exactly where the call has that fault, and
    /// before all else; in that order. `Uncovered` comes only where the call's plan may want a stripe, at
    /// these values, that the group doesn't hold, or doesn't hold so that it may be changed; so never of a
    /// call that was declared (`declared_calls_are_covered`). After these the group is open and as before.
    /// `Memory` ends it, as `cancel` does: nothing of it stands in the history, and the replies are those
    /// of what was made before it. Nothing is ever in its way. A reply such as `Conflict` or `Absent` is
    /// no fault. Costs what the call's plan costs, a walk over it with one over the held
    /// stripes for each that it may take, and a copy of the call.
    pub fn call_open(&mut self, op: u32, values: &[u64]) -> Result<(), OpenCallFault>
        ensures answers { AnswersOpen self.old (asked_with op values.now) self.new result }
        ensures refused { IfSome (open_fault_of self.old (asked_with op values.now))
            (λ fault. (result ≡ Err fault) × (self.new ≡ self.old)) }
    {
        // A read of a field tells the check what holds of every session.
        let _ = &self.state;
        if let Some(fault) = self.open_fault(op, values.len()) {
            return Err(fault);
        }
        self.go_on(op, values)
    }

    /// Why the open group doesn't make a call of the operation with so many values, whatever it declared:
    /// because none is open, then for the operation, then for the number of values, and then because it
    /// is full.
    pub(crate) fn open_fault(&self, op: u32, count: usize) -> Option<OpenCallFault>
        ensures fault { (values : List ℕ) → result
            ≡ open_fault_of self.now (record { op = op; count = count; values = values }) }
        ensures few { result ≡ None → count ≤ 64 }
    {
        let State::Open(group) = &self.state else {
            return Some(OpenCallFault::NotOpen);
        };
        if op as usize >= self.shared.spec().ops.list().len() {
            return Some(OpenCallFault::UnknownOperation);
        }
        if count != self.shared.columns(op).len() {
            return Some(OpenCallFault::Values);
        }
        if group.count() == MAX_GROUP {
            return Some(OpenCallFault::Full);
        }
        None
    }

    /// Makes a call of the open group that has no fault of its own.
    pub(crate) fn go_on(&mut self, op: u32, values: &[u64]) -> Result<(), OpenCallFault>
        requires { open_fault_of self.old (asked_with op values.now) ≡ None }
        ensures { AnswersOpen self.old (asked_with op values.now) self.new result }
    {
        let Ok(()) = self.shared.refill_call(&mut self.call, op, values) else {
            let Ok(()) = self.cancel() else {
                unreachable!()
            };
            return Err(OpenCallFault::Memory);
        };
        self.shared.is_compiled();
        let group = match mem::replace(&mut self.state, State::Moving) {
            State::Open(group) => group,
            _ => unreachable!(),
        };
        let at = group.count();
        match group.call(&self.shared.store, &self.call) {
            Ok(group) => {
                put(&mut self.state, State::Open(group));
                self.picked = at;
                Ok(())
            }
            Err(OpenBack::Full(_)) => unreachable!(),
            Err(OpenBack::Uncovered(group)) => {
                put(&mut self.state, State::Open(group));
                Err(OpenCallFault::Uncovered)
            }
            Err(OpenBack::Memory(pass)) => {
                put(&mut self.state, State::Idle(pass));
                self.picked = 0;
                Err(OpenCallFault::Memory)
            }
        }
    }

    /// Commits the calls of the open group, and cancels it where it has made none.
    pub(crate) fn commit_open(&mut self) -> Option<Position>
        requires { IsOpen self.old.state }
        ensures store { self.new.store ≡ self.old.store }
        ensures made { IfSome result (HasCommitted self.old self.new) }
        ensures none { IfNone result (HasNoCall self.old.state × HasCancelled self.old self.new) }
    {
        let group = match mem::replace(&mut self.state, State::Moving) {
            State::Open(group) => group,
            _ => unreachable!(),
        };
        let (pass, receipt) = group.commit(&self.shared.store);
        put(&mut self.state, State::Idle(pass));
        self.picked = 0;
        match receipt {
            Some(receipt) => {
                let GroupReceipt {
                    place,
                    nth,
                    replies,
                } = receipt;
                put(&mut self.last, Last::Group(replies));
                Some(Position { place, nth })
            }
            None => None,
        }
    }
}
