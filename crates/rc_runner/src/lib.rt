//! Makes the turns of a workload on a shared store: each thread's by a pass of its own, round by round, and those of a round
//! by threads that run beside each other. With the laws of such threads: when the history of what they made is a run of the
//! workload. (PLDI 2012, serializable transactions of concurrent threads.)
#![tactic(auto)]

mod calling;
mod laws;
mod running;
mod sharing;
mod telling;

pub use laws::{a_round_goes_on, rounds_run, rounds_start};
pub use running::run_work;
