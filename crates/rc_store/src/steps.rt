//! The steps of a call.

ghost use Rattle.std.specs.Prelude.{◌≡◌, ◌<◌, [], ◌∷◌, IfErr, None, OnErr, OnOk, length};
ghost use Rattle.rc_rel.specs.History.{with_replies};
ghost use Rattle.rc_core.specs.Passes.{next_of};
ghost use Rattle.rc_row.specs.Passes.{AreAtRest, IsPassOf, compiled_of, core_of, idle};
ghost use Rattle.rc_store.specs.Lending.{IsUnrefused};
ghost use Rattle.rc_store.specs.Prepared.{IsPrepared, IsReady};
ghost use Rattle.rc_store.specs.Runs.{IsStoppedFor};
ghost use Rattle.rc_store.specs.Store.{HoldsExactly, IsAsBefore, IsFinished, MayCall, one_step};

use crate::gate::{Gate, Point};
use crate::receipt::Position;
use crate::run::run_call;
use crate::store::Store;
use crate::taking::Takes;
use crate::wakes::Wakes;
use rc_machine::Stop;
use rc_rel::Entry;
use rc_row::Pass;
use rc_spec::{Call, Reply};

impl<W: Wakes> Store<W> {
    /// Makes room for the call's entry and runs its plan up to the commit, and tells the reply. After a stop the pass holds
    /// nothing, and all is as before, the reply too.
    pub(crate) fn prepare<T: Takes>(
        &self,
        pass: &mut Pass,
        call: &Call,
        taking: &T,
        reply: &mut Reply,
    ) -> Result<(), Stop>
        requires may { MayCall self.now pass.old call.now }
        requires left { length (core_of pass.old).own < self.now.limit }
        ensures pass { IsPassOf self.now.row pass.new }
        ensures ok { OnOk result (IsPrepared self.now.row (one_step call.now reply.new) pass.old pass.new) }
        ensures exact { OnOk result (HoldsExactly (compiled_of self.now.row) (core_of pass.new) (one_step call.now reply.new)) }
        ensures unrefused { OnOk result (IsUnrefused T.waits pass.old pass.new) }
        ensures kept { OnErr result (reply.new ≡ reply.old) }
        ensures err { OnErr result (IsAsBefore pass.old pass.new) }
        ensures cause { IfErr result (IsStoppedFor T.waits self.now.row (call.now ∷ []) pass.old pass.new) }
    {
        pass.held_agrees();
        pass.reserve()?;
        match run_call(&self.row, &self.compiled, call, pass, taking, reply) {
            Ok(()) => Ok(()),
            Err(stop) => {
                self.give_back(pass);
                Err(stop)
            }
        }
    }

    /// Takes back what the pass changed and didn't commit, and gives back all that it holds.
    pub(crate) fn give_back(&self, pass: &mut Pass)
        requires { IsPassOf self.now.row pass.old }
        ensures pass { IsPassOf self.now.row pass.new }
        ensures value { pass.new ≡ idle pass.old }
    {
        pass.revert();
        self.release_all(pass);
    }

    /// Commits calls that are ready as one entry, where the pass keeps no entries, and gives all back that the pass holds.
    pub(crate) fn commit_counted<G: Gate>(
        &self,
        pass: &mut Pass,
        calls: &[Call],
        replies: &[Reply],
        gate: &G,
    ) -> Position
        requires pass { IsPassOf self.now.row pass.old }
        requires ready { IsReady self.now.row (with_replies calls.now replies.now) pass.old }
        requires counts { pass.old.kept ≡ None }
        ensures pass { IsPassOf self.now.row pass.new }
        ensures finished { IsFinished self.now.row (with_replies calls.now replies.now) pass.old pass.new result.place result.nth }
    {
        let number = pass.number();
        let nth = pass.made();
        gate.at(number, Point::BeforeCommit);
        let place = self.row.commit_calls(pass, calls, replies);
        gate.at(number, Point::AfterCommit);
        self.release_all(pass);
        gate.at(number, Point::Answered);
        Position { place, nth }
    }

    /// Commits the entry of calls that are ready, where the pass keeps its entries, and gives all back that the pass holds.
    pub(crate) fn commit_entry<G: Gate>(&self, pass: &mut Pass, entry: Entry, gate: &G) -> Position
        requires pass { IsPassOf self.now.row pass.old }
        requires next { entry ≡ next_of (core_of pass.old) entry.steps }
        requires ready { IsReady self.now.row entry.steps pass.old }
        ensures pass { IsPassOf self.now.row pass.new }
        ensures finished { IsFinished self.now.row entry.steps pass.old pass.new result.place result.nth }
    {
        let number = pass.number();
        let nth = pass.made();
        gate.at(number, Point::BeforeCommit);
        let place = self.row.commit(pass, entry);
        gate.at(number, Point::AfterCommit);
        self.release_all(pass);
        gate.at(number, Point::Answered);
        Position { place, nth }
    }

    /// Gives all back that the pass holds, the last first, and wakes those who wait for it.
    fn release_all(&self, pass: &mut Pass)
        requires pass { IsPassOf self.now.row pass.old }
        requires rest { AreAtRest pass.old.held }
        ensures pass { IsPassOf self.now.row pass.new }
        ensures value { pass.new ≡ idle pass.old }
    {
        while let Some(stripe) = self.row.release_last(pass) {
            self.wakes.wake(&self.row, stripe);
        }
        pass.held_agrees();
    }
}
