//! Open groups: calls that are made one after another, each with the replies before it known, and committed as one.

ghost use Rattle.std.specs.Prelude.{◌≡◌, ◌<◌, [], IfErr, IfNone, IfOk, IfSome, Some, length};
ghost use Rattle.std.specs.List.{slice_get};
ghost use Rattle.rc_spec.specs.Calls.{Fits};
ghost use Rattle.rc_row.specs.Passes.{spec_of};
ghost use Rattle.rc_store.specs.OpenBacks.{IsCallBack};
ghost use Rattle.rc_store.specs.OpenGroups.{HasCalledOn, HasMadeOpenGroup, IsOpenOn};
ghost use Rattle.rc_store.specs.Running.{replies_of};
ghost use Rattle.rc_store.specs.Store.{IsAsBefore, IsFree};

use crate::receipt::GroupReceipt;
use crate::running_group::PreparedGroup;
use crate::store::Store;
use crate::wakes::Wakes;
use rc_row::Pass;
use rc_spec::{Call, Mode, Reply};
use rc_tuple::Memory;
use std::marker::Model;
use std::snapshot::Snapshot;

/// How many calls a group has at most.
const MOST_CALLS: usize = 16;

/// A group that is open: it holds the stripes that were declared, and makes calls over them, one after another. (PLDI 2012,
/// serializable transactions by two-phase locks.) It has the pass with which it was opened, and borrows nothing. One that is
/// dropped keeps its stripes, as a pass does.
#[derive(Drop)]
pub struct OpenGroup {
    pub(crate) pass: Pass,
    /// What it holds.
    pub(crate) locks: Vec<(u32, Mode)>,
    /// What the plan of its last call took of these.
    pub(crate) took: Vec<(u32, Mode)>,
    pub(crate) prepared: PreparedGroup,
    /// The pass as it was before. Contracts alone see it.
    pub(crate) begun: Snapshot<Pass>,
}

impl Model for OpenGroup {
    ghost use Rattle.rc_store.specs.OpenGroups.{OpenGroupSeen};

    ghost Value = { OpenGroupSeen };

    ghost use Rattle.rc_store.specs.OpenInside.{IsWholeOpenGroup, open_group_seen};

    ghost view = { open_group_seen };

    ghost invariant = { IsWholeOpenGroup };
}

/// Why a call of an open group was not made.
#[derive(Drop)]
pub enum OpenBack {
    /// The group has 16 calls. It is as before.
    Full(OpenGroup),
    /// What it declared doesn't suffice for the call. It is as before.
    Uncovered(OpenGroup),
    /// Memory was wanted, and the group is over: what it changed is taken back, the pass holds nothing, and its entries and
    /// what it has seen are as before the group.
    Memory(Pass),
}

impl OpenGroup {
    /// How many calls it has made.
    pub fn count(&self) -> usize
        ensures { result ≡ length self.now.steps }
    {
        self.prepared.count()
    }

    /// The reply of the call with this number, counted from 0. It is that of the plain relation after the calls before it, if
    /// the group is committed.
    pub fn reply(&self, at: usize) -> &Reply
        requires { at < length self.now.steps }
        ensures { slice_get (replies_of self.now.steps) at ≡ Some result.now }
    {
        self.prepared.reply(at)
    }

    /// Makes one call more, over what those before it left. The group holds its stripes already, so nothing can be in the way.
    ///
    /// `Full` comes exactly where it has made 16 calls, and `Uncovered` exactly where it hasn't and some stripe that the call's
    /// plan may take at its arguments isn't held in a mode that suffices. `Memory` comes only where neither is so, and no step
    /// of the call was refused. Costs the plan, a walk over it with one over the held stripes for each that it may take, and a
    /// copy of the call; memory for the list of what it took only where the calls before it took less.
    pub fn call<W: Wakes>(self, store: &Store<W>, call: &Call) -> Result<OpenGroup, OpenBack>
        requires open { IsOpenOn store.now self }
        requires fits { Fits (spec_of store.now.row) call.now }
        ensures made { IfOk result (HasCalledOn store.now call.now self) }
        ensures back { IfErr result (IsCallBack store.now call.now self) }
    {
        if self.prepared.count() == MOST_CALLS {
            return Err(OpenBack::Full(self));
        }
        if !store.covers(call, &self.locks) {
            return Err(OpenBack::Uncovered(self));
        }
        let OpenGroup {
            mut pass,
            locks,
            took,
            prepared,
            begun,
        } = self;
        match store.call_on(&mut pass, call, took, prepared) {
            Ok((took, prepared)) => Ok(OpenGroup {
                pass,
                locks,
                took,
                prepared,
                begun,
            }),
            Err(Memory) => {
                store.give_back(&mut pass);
                Err(OpenBack::Memory(pass))
            }
        }
    }

    /// Commits its calls as one entry, gives all back, and hands out the pass with the receipt; `None` where it made no call.
    /// Stripes that no call needed are given back before the commit. It takes no memory and isn't refused. Costs what the
    /// commit of a group does, and for each held stripe a walk over the plans of the calls.
    pub fn commit<W: Wakes>(self, store: &Store<W>) -> (Pass, Option<GroupReceipt>)
        requires { IsOpenOn store.now self }
        ensures free { IsFree store.now result.0 }
        ensures made { IfSome result.1 (HasMadeOpenGroup store.now self.steps self.locks
            self.begun result.0) }
        ensures none { IfNone result.1 ((self.steps ≡ []) × IsAsBefore self.begun result.0) }
        ensures unrefused { IfNone result.1
            (result.0.standing.refusals ≡ self.pass.standing.refusals) }
    {
        let OpenGroup {
            mut pass,
            locks,
            took,
            prepared,
            begun: _,
        } = self;
        if prepared.count() == 0 {
            store.give_back(&mut pass);
            return (pass, None);
        }
        let receipt = store.commit_open(&mut pass, &locks, &took, prepared);
        (pass, Some(receipt))
    }

    /// Takes back what its calls changed, gives all back, and hands out the pass. It holds nothing, and its entries and what it
    /// has seen are as before the group. Takes no memory.
    pub fn cancel<W: Wakes>(self, store: &Store<W>) -> Pass
        requires { IsOpenOn store.now self }
        ensures free { IsFree store.now result }
        ensures before { IsAsBefore self.begun result }
        ensures unrefused { result.standing.refusals ≡ self.pass.standing.refusals }
    {
        let OpenGroup {
            mut pass,
            locks: _,
            took: _,
            prepared: _,
            begun: _,
        } = self;
        store.give_back(&mut pass);
        pass
    }
}
