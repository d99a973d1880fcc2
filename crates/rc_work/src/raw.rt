//! Turns as they stand in the text, before its texts have ranks.

ghost use Rattle.std.specs.Prelude.{◌≡◌, ◌<◌, ◌≤◌, ◌+◌, [], ◌∷◌, ◌++◌, length, IfOk, OnOk};
ghost use Rattle.rc_work.specs.RawTurns.{count_raw, onto_last};

use rc_tuple::{Cols, Memory, SmallList};
use rc_values::Name64;
use std::alloc::Global;
use std::marker::Model;

/// A value as it stands in the text.
#[derive(Debug, Drop)]
pub(crate) enum RawValue {
    Number(u64),
    Text(Name64),
}

/// The values of a call, in written order.
pub(crate) type RawValues = SmallList<RawValue>;

/// A call, with the number of its operation.
#[derive(Debug, Drop)]
pub(crate) struct RawCall {
    pub(crate) op: u8,
    /// The columns of its values.
    pub(crate) cols: Cols,
    pub(crate) values: RawValues,
}

/// The calls of a turn, in written order.
pub(crate) type RawCalls = SmallList<RawCall>;

/// The calls that a thread is to make at once.
#[derive(Debug, Drop)]
pub(crate) struct RawTurn {
    pub(crate) thread: u32,
    pub(crate) calls: RawCalls,
}

impl RawTurn {
    /// The turn of one call, with memory for no more.
    pub(crate) fn of_one(alloc: Global, thread: u32, call: RawCall) -> Result<RawTurn, Memory>
        ensures { IfOk result (λ turn. turn ≡ record { thread = thread; calls = call ∷ [] }) }
    {
        let mut calls = Vec::with_capacity(alloc, 1)?;
        calls.push(call)?;
        Ok(RawTurn {
            thread,
            calls: RawCalls::from_vec(calls),
        })
    }
}

/// The turns of a round, in written order.
pub(crate) type RawRound = SmallList<RawTurn>;

/// The rounds of a workload, of which the last one may grow. Contracts see the list of them.
#[derive(Debug, Drop)]
pub(crate) struct RawRounds {
    rounds: Vec<RawRound>,
    calls: usize,
}

impl Model for RawRounds {
    ghost use Rattle.std.specs.Prelude.{◌≡◌, List};
    ghost use Rattle.rc_work.specs.declared.raw.RawTurn.{RawTurn};
    ghost use Rattle.rc_work.specs.RawTurns.{count_raw};

    ghost Value = { List (List RawTurn) };

    ghost view = { λ r. r.rounds.items };

    ghost invariant = { λ r. r.calls ≡ count_raw r.rounds.items };
}

impl RawRounds {
    /// No round, which takes no memory.
    pub(crate) fn new(alloc: Global) -> Self
        ensures { result ≡ [] }
    {
        RawRounds {
            rounds: Vec::new(alloc),
            calls: 0,
        }
    }

    /// The rounds, one after another.
    pub(crate) fn list(&self) -> &[RawRound]
        ensures { result.now ≡ self.now }
    {
        &self.rounds
    }

    /// How many calls stand in the rounds.
    pub(crate) fn calls(&self) -> usize
        ensures { result ≡ count_raw self.now }
    {
        self.calls
    }

    /// Begins a round.
    pub(crate) fn push_round(&mut self) -> Result<(), Memory>
        ensures { OnOk result (self.new ≡ self.old ++ [] ∷ []) }
    {
        let round = RawRound::new(*self.rounds.allocator());
        self.rounds.push(round)?;
        Ok(())
    }

    /// Adds a turn to the last round.
    pub(crate) fn push_turn(&mut self, turn: RawTurn) -> Result<(), Memory>
        requires begun { 0 < length self.old }
        requires few { count_raw self.old + length turn.calls ≤ 20000 }
        ensures { OnOk result (self.new ≡ onto_last self.old turn) }
    {
        let calls = turn.calls.list().len();
        let last = self.rounds.len() - 1;
        self.rounds[last].push(turn)?;
        self.calls += calls;
        Ok(())
    }
}
