ghost use Rattle.std.specs.Prelude.{◌≡◌, [], ◌∷◌, IfOk};

use rc_spec::Call;
use rc_tuple::{Memory, SmallList};
use rc_values::Ranks;
use std::alloc::Global;

/// Calls, in written order.
pub type Calls = SmallList<Call>;

/// The calls that a thread is to make at once, as one entry: one, or the 2 to 16 of a group. Threads are counted from 0.
#[derive(Debug, Drop)]
pub struct Turn {
    pub thread: u32,
    pub calls: Calls,
}

impl Turn {
    /// The turn of one call, with memory for no more.
    pub fn of_one(alloc: Global, thread: u32, call: Call) -> Result<Turn, Memory>
        ensures { IfOk result (λ turn. turn ≡ record { thread = thread; calls = call ∷ [] }) }
    {
        let mut calls = Vec::with_capacity(alloc, 1)?;
        calls.push(call)?;
        Ok(Turn {
            thread,
            calls: Calls::from_vec(calls),
        })
    }
}

/// The turns of a round, in written order.
pub type Round = SmallList<Turn>;

/// The rounds, one after another.
pub type Rounds = SmallList<Round>;

/// A workload: the turns that some threads are to make in rounds. The value of a text column is the
/// rank of the text among the workload's texts.
#[derive(Debug, Drop)]
pub struct Work {
    /// How many threads there are, from 1 to 8.
    pub threads: u32,
    pub rounds: Rounds,
    pub ranks: Ranks,
}
