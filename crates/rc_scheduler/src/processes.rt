//! Processes in a store.

ghost use Rattle.std.specs.Prelude.{◌≡◌, IfOk, [], ◌∷◌};
ghost use Rattle.rc_embed.specs.Asked.{one_call};
ghost use Rattle.rc_embed.specs.Refused.{Answers};
ghost use Rattle.rc_scheduler.specs.Processes.{HasChanged, HasKilled, HasSpawned, IsLeft, process_values};

use crate::fault::Fault;
use rc_embed::{CallFault, OpenStore, Session};
use rc_maps::Seed;
use rc_spec::Reply;
use rc_tuple::Tuples;
use std::alloc::Global;

/// A process: its name, which is a namespace and a number, its state, and the processor at which it
/// is.
#[derive(Clone, Copy, Debug, PartialEq, Eq)]
pub struct Process {
    /// The namespace of its name.
    pub ns: u64,
    /// Its number in that namespace.
    pub pid: u64,
    /// Whether it can run.
    pub state: u64,
    /// The processor in whose queue it is.
    pub cpu: u64,
}

impl Process {
    /// Its values, in the order of the columns.
    pub fn values(self) -> [u64; 4]
        ensures { result ≡ process_values self }
    {
        [self.ns, self.pid, self.state, self.cpu]
    }
}

/// Puts the process in by the operation with this number; whether no process had its name. Faults are
/// those of `Session::try_call`, and leave all as it was. Costs a call.
pub fn spawn(session: &mut Session, op: u32, process: Process) -> Result<bool, CallFault>
    ensures { Answers (λ is_new. HasSpawned session.old op process is_new session.new)
        session.old (one_call op (process_values process)) session.new result }
{
    session.try_call(op, &process.values())?;
    match session.reply() {
        Some(Reply::Inserted) => Ok(true),
        _ => Ok(false),
    }
}

/// Changes the process with its name to this one by the operation with this number, in one step; whether
/// there was one. Faults are those of `Session::try_call`, and leave all as it was. Costs a call.
pub fn change(session: &mut Session, op: u32, process: Process) -> Result<bool, CallFault>
    ensures { Answers (λ is_there. HasChanged session.old op process is_there session.new)
        session.old (one_call op (process_values process)) session.new result }
{
    session.try_call(op, &process.values())?;
    match session.reply() {
        Some(Reply::Updated(_)) => Ok(true),
        _ => Ok(false),
    }
}

/// Takes the process with this name out by the operation with this number; whether there was one.
/// Faults are those of `Session::try_call`, and leave all as it was. Costs a call.
pub fn kill(session: &mut Session, op: u32, ns: u64, pid: u64) -> Result<bool, CallFault>
    ensures { Answers (λ is_there. HasKilled session.old op (ns ∷ pid ∷ []) is_there session.new)
        session.old (one_call op (ns ∷ pid ∷ [])) session.new result }
{
    session.try_call(op, &[ns, pid])?;
    match session.reply() {
        Some(Reply::Removed(_)) => Ok(true),
        _ => Ok(false),
    }
}

/// Closes the store, and answers the processes that are left, rising. `Refused` where a session stands
/// outside, and `Memory` where it is wanted; the store is gone then too. Costs all processes and calls.
pub fn close(store: OpenStore, alloc: Global) -> Result<Tuples, Fault>
    ensures { IfOk result (IsLeft store.store store.passes) }
{
    let closed = store.close()?;
    Ok(closed.rows(alloc, Seed::fixed())?)
}
