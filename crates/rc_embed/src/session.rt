//! Sessions.

ghost use Rattle.std.specs.Prelude.{◌≡◌, ℕ, ◌<◌, ◌≤◌, IsFalse, IsTrue, List, [], ◌∷◌, None, length, map, option_copied};
ghost use Rattle.std.specs.List.{slice_get};
ghost use Rattle.rc_spec.specs.InRange.{IsInRange};
ghost use Rattle.rc_work.specs.CallColumns.{HasKnownColumns};
ghost use Rattle.rc_row.specs.Passes.{spec_of};
ghost use Rattle.rc_embed.specs.Refused.{fault_of};
ghost use Rattle.rc_embed.specs.Session.{IsIdle, IsStateOf, replies_given, replies_of, reply_of, seen_of};
ghost use Rattle.rc_embed.specs.Session.{with_picked};
ghost use Rattle.rc_embed.specs.declared.session.State.TheVariants as states;

use crate::fault::CallFault;
use crate::group::{Asks, MAX_GROUP};
use crate::shared::Shared;
use rc_row::Pass;
use rc_spec::{Call, Reply, Spec};
use rc_store::{OpenGroup, Running, RunningGroup};
use rc_tuple::SmallList;
use std::alloc::Global;
use std::marker::Model;
use std::sync::Arc;

/// What a session does.
#[derive(Drop)]
pub(crate) enum State {
    /// It may make a call.
    Idle(Pass),
    /// It has prepared a call, which is neither committed nor cancelled.
    Prepared(Running),
    /// It has prepared a group of calls.
    PreparedGroup(RunningGroup),
    /// It has opened a group, whose calls come one after another.
    Open(OpenGroup),
    /// The pass is on its way from one to the other. No session is so between calls.
    Moving,
}

/// Puts a value into a place, and lets go what stood there. (Of a known type each part would be let go, and proved to be, at
/// each such place; here nothing is known of it.)
pub(crate) fn put<T: Drop>(place: &mut T, value: T)
    ensures { place.new ≡ value }
{
    *place = value;
}

/// What the last receipt of a session gave, of a call or of a group; nothing where none was made.
#[derive(Drop)]
pub(crate) enum Last {
    /// The reply.
    Call(Option<Reply>),
    /// The replies.
    Group(Option<SmallList<Reply>>),
}

impl Last {
    /// How many replies.
    fn count(&self) -> usize
        ensures { result ≡ length (replies_given self.now) }
    {
        match self {
            Last::Call(None) | Last::Group(None) => 0,
            Last::Call(Some(_)) => 1,
            Last::Group(Some(replies)) => replies.list().len(),
        }
    }

    /// The reply to the call with this number.
    fn reply(&self, call: usize) -> Option<&Reply>
        ensures { option_copied result ≡ slice_get (replies_given self.now) call }
    {
        match self {
            Last::Call(Some(reply)) if call == 0 => Some(reply),
            Last::Group(Some(replies)) => replies.list().get(call),
            Last::Call(_) | Last::Group(None) => None,
        }
    }
}

/// A thread's end of a store: a pass, and the replies of its last call or group. One thread uses it at a
/// time, and it may move to another. One that is dropped in the midst of a prepared call, or of an open
/// group, keeps the stripes of that: cancel it before. It keeps the memory of its largest call, in which it
/// makes the next ones, so that a call whose values fit there takes none for them; so it does for the calls
/// of groups, once it has made one; and it keeps that of one tuple that was removed or updated, in which
/// the next one is answered.
#[derive(Drop)]
pub struct Session {
    pub(crate) shared: Arc<Shared, Global>,
    pub(crate) state: State,
    /// A call whose memory is used again: each call is made in it, and what stands in it between
    /// calls means nothing.
    pub(crate) call: Call,
    /// Such calls for groups, as many as the largest had.
    pub(crate) calls: Vec<Call>,
    pub(crate) last: Last,
    /// Whose reply is picked, counted from 0.
    pub(crate) picked: usize,
}

impl Model for Session {
    ghost use Rattle.rc_embed.specs.Session.{SessionSeen};

    ghost Value = { SessionSeen };

    ghost use Rattle.rc_embed.specs.SessionInside.{IsWholeSession, session_seen};

    ghost view = { session_seen };

    ghost invariant = { IsWholeSession };
}

impl Session {
    /// The specification of the store.
    pub fn spec(&self) -> &Spec
        ensures value { result.now ≡ spec_of self.now.store.row }
        ensures range { IsInRange (spec_of self.now.store.row) }
        ensures columns { HasKnownColumns (spec_of self.now.store.row) }
    {
        self.shared.spec()
    }

    /// How many replies there are: those of the calls that are prepared, or that the open group has made
    /// so far, where there is such a thing, and else of the call or the group that was made last; none
    /// before the first. What is refused leaves them, but for an open group that wants memory for a call:
    /// it is over then, and they are those of what was made before it.
    pub fn reply_count(&self) -> usize
        ensures { result ≡ length (replies_of self.now) }
    {
        match &self.state {
            State::Prepared(_) => 1,
            State::PreparedGroup(running) => running.count(),
            State::Open(group) => group.count(),
            State::Idle(_) | State::Moving => self.last.count(),
        }
    }

    /// The reply to the call with this number among them, counted from 0.
    pub fn reply_at(&self, call: usize) -> Option<&Reply>
        ensures reply { option_copied result ≡ slice_get (replies_of self.now) call }
        ensures state { IsStateOf self.now.store self.now.state }
    {
        match &self.state {
            State::Prepared(running) if call == 0 => Some(running.reply()),
            State::PreparedGroup(running) if call < running.count() => Some(running.reply(call)),
            State::Open(group) if call < group.count() => Some(group.reply(call)),
            State::Prepared(_) | State::PreparedGroup(_) | State::Open(_) => None,
            State::Idle(_) | State::Moving => self.last.reply(call),
        }
    }

    /// The reply that is picked: that of the call, of a group the first one, of an open group that of
    /// the call that it has made last; or the one that `pick` picked since.
    pub fn reply(&self) -> Option<&Reply>
        ensures reply { option_copied result ≡ reply_of self.now }
        ensures state { IsStateOf self.now.store self.now.state }
    {
        self.reply_at(self.picked)
    }

    /// Picks the reply to the call with this number, counted from 0, for `reply`, `row_count`,
    /// `copy_row` and `copy_rows`; whether there is one. What is made, prepared, opened, committed or
    /// cancelled next picks the first again, and a call of an open group its own.
    pub fn pick(&mut self, call: usize) -> bool
        ensures picked { call < length (replies_of self.old)
            → IsTrue result × (self.new ≡ with_picked call self.old) }
        ensures none { length (replies_of self.old) ≤ call → IsFalse result × (self.new ≡ self.old) }
    {
        if call >= self.reply_count() {
            return false;
        }
        self.picked = call;
        true
    }

    /// The length of the history that the session has seen: it is above the place of each of its
    /// calls. `None` while a call or a group is prepared, or a group is open.
    pub fn seen(&self) -> Option<u64>
        ensures { result ≡ seen_of self.now.state }
    {
        match &self.state {
            State::Idle(pass) => Some(pass.seen()),
            State::Prepared(_) | State::PreparedGroup(_) | State::Open(_) | State::Moving => None,
        }
    }

    /// The pass of a session that has prepared no call, and opened no group.
    pub(crate) fn into_pass(self) -> Pass
        requires { IsIdle self.state }
        ensures { self.state ≡ states.Idle result }
    {
        let Session {
            shared: _,
            state,
            call: _,
            calls: _,
            last: _,
            picked: _,
        } = self;
        match state {
            State::Idle(pass) => pass,
            State::Prepared(_) | State::PreparedGroup(_) | State::Open(_) | State::Moving => {
                unreachable!()
            }
        }
    }

    /// Why the call of an operation with so many values is refused, whatever the store has: for what
    /// is prepared first, then for the operation, then for the number of values, and then because the
    /// session is spent.
    pub(crate) fn fault_for(&self, op: u32, count: usize) -> Option<CallFault>
        ensures fault { (values : List ℕ) → result
            ≡ fault_of self.now (record { op = op; count = count; values = values } ∷ []) }
        ensures few { result ≡ None → count ≤ 64 }
    {
        let State::Idle(pass) = &self.state else {
            return Some(CallFault::Prepared);
        };
        if let Some(fault) = self.shared.fault_at(op, count) {
            return Some(fault);
        }
        self.shared.spent_by(pass)
    }

    /// Why calls that are asked for as one are refused, whatever the store has: for what is prepared
    /// first, then for how many they are, then for what is wrong with the first call that has a fault,
    /// and then because the session is spent.
    pub(crate) fn fault_of<A: Asks>(&self, calls: &[A]) -> Option<CallFault>
        ensures { result ≡ fault_of self.now (map A.asked calls.now) }
    {
        let State::Idle(pass) = &self.state else {
            return Some(CallFault::Prepared);
        };
        if calls.is_empty() || calls.len() > MAX_GROUP {
            return Some(CallFault::Count);
        }
        if let Some(fault) = self.shared.first_fault(calls) {
            return Some(fault);
        }
        self.shared.spent_by(pass)
    }
}
