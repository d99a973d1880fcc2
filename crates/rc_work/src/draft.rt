//! A workload of which some lines are read.

ghost use Rattle.std.specs.Prelude.{◌≡◌, ◌<◌, ◌+◌, None, length, nat_le, OnOk};
ghost use Rattle.rc_work.specs.UnfilledGroups.{count_in, count_in_group, is_others, with_next, with_group, with_call};
ghost use Rattle.rc_work.specs.RawTurns.{count_raw};
ghost use Rattle.rc_work.specs.WorkGrammar.{draft_of};

use crate::raw::{RawCall, RawRounds, RawTurn};
use rc_tuple::Memory;
use std::alloc::Global;

/// The most calls of a workload.
const MAX_CALLS: usize = 20_000;

/// A group of which some calls are to come.
#[derive(Debug, Drop)]
pub(crate) struct UnfilledGroup {
    /// How many calls it is to have.
    pub(crate) size: u32,
    /// The turn, with its calls so far.
    pub(crate) turn: RawTurn,
}

/// A workload of which some lines are read.
#[derive(Debug, Drop)]
pub(crate) struct Draft {
    /// How many threads there are.
    pub(crate) threads: u32,
    /// The line `end` was read.
    pub(crate) ended: bool,
    pub(crate) rounds: RawRounds,
    /// The group whose calls come next.
    pub(crate) group: Option<UnfilledGroup>,
}

impl Draft {
    /// The draft of a header alone.
    pub(crate) fn new(alloc: Global, threads: u32) -> Draft
        ensures { result ≡ draft_of threads }
    {
        Draft {
            threads,
            ended: false,
            rounds: RawRounds::new(alloc),
            group: None,
        }
    }

    /// How many calls of the unfilled group are read.
    fn count_in_group(&self) -> usize
        ensures { result ≡ count_in_group self.now.group }
    {
        match &self.group {
            Some(group) => group.turn.calls.list().len(),
            None => 0,
        }
    }

    /// Whether there are as many calls as a workload may have.
    pub(crate) fn is_full(&self) -> bool
        ensures { result ≡ nat_le 20000 (count_in self.now) }
    {
        let calls = self.rounds.calls();
        calls >= MAX_CALLS || self.count_in_group() >= MAX_CALLS - calls
    }

    /// Whether a group is unfilled that is another thread's.
    pub(crate) fn is_others(&self, thread: u32) -> bool
        ensures { result ≡ is_others self.now.group thread }
    {
        match &self.group {
            Some(group) => group.turn.thread != thread,
            None => false,
        }
    }

    /// Adds a call: as the next of the unfilled group, or else as a turn by itself.
    pub(crate) fn push_call(
        &mut self,
        alloc: Global,
        thread: u32,
        call: RawCall,
    ) -> Result<(), Memory>
        requires begun { 0 < length self.old.rounds }
        requires few { count_in self.old < 20000 }
        ensures { OnOk result (self.new ≡ with_call self.old thread call) }
    {
        match self.group.take() {
            Some(group) => self.push_next(group, call),
            None => self.rounds.push_turn(RawTurn::of_one(alloc, thread, call)?),
        }
    }

    /// Adds a call to a group that was unfilled. With its last call the group is a turn.
    fn push_next(&mut self, mut group: UnfilledGroup, call: RawCall) -> Result<(), Memory>
        requires begun { 0 < length self.old.rounds }
        requires few { count_raw self.old.rounds + length group.turn.calls < 20000 }
        requires none { self.old.group ≡ None }
        ensures { OnOk result (self.new ≡ with_group self.old (with_next group call)) }
    {
        group.turn.calls.push(call)?;
        if group.turn.calls.list().len() == group.size as usize {
            return self.rounds.push_turn(group.turn);
        }
        self.group = Some(group);
        Ok(())
    }
}
