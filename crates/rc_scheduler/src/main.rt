//! A scheduler that keeps its processes in a store: two processors spawn processes, run those that
//! are runnable at them, let them sleep, and kill some. It prints what each does, and the processes
//! that are left when the store is closed. (PLDI 2011, the scheduler.)
//!
//! A program that calls `rc_embed`, to be read as an example. Calls have no condition, but that a
//! session which is given back is of its store: hence the clauses that a session's store stays. One
//! thread has both sessions, so that no call finds another in its way; with threads, `Busy` is to be
//! tried again.
//!
//! What is promised is of a process (`laws`): a call that spawned it, or changed it, stands among its
//! session's entries, where it stays through later calls, and where no later call of the history took
//! the process out or changed it, it is left when the store is closed. Which calls the processors make,
//! and what they print, no clause says: `stdout` shows it.
#![tactic(auto)]

mod fault;
mod laws;
mod processes;
mod work;

use crate::work::schedule;
use std::process::ExitCode;

/// Runs the scheduler; the status is 1 where something failed.
fn main(rt: HostRuntime) -> ExitCode {
    match schedule(&rt, rt.alloc()) {
        Ok(()) => ExitCode::from(0),
        Err(_) => ExitCode::from(1),
    }
}
