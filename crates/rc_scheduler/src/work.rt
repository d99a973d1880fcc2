//! What the processors do.

ghost use Rattle.std.specs.Prelude.{◌≡◌, IfSome};
ghost use Rattle.rc_row.specs.Passes.{spec_of};
ghost use Rattle.rc_scheduler.specs.Processes.{HasNumbers};

use crate::fault::Fault;
use crate::processes::{Process, change, close, kill, spawn};
use rc_embed::{CallFault, OpenStore, Options, Session, open};
use rc_maps::Seed;
use rc_tuple::Tuples;
use std::alloc::Global;
use std::io::Print;

/// Two ways to a process, by its name and through the queue of a state at a processor. Each call takes
/// one stripe of a class, chosen by what it knows or has found by then; but a change doesn't know which
/// queue its process leaves, and takes all stripes of the queues, which are few for that. (docs/CHOOSING.md
/// works such a specification through, and says what the update costs.)
const SCHEDULER: &[u8] = b"relc 2
col ns num
col pid num
col state num
col cpu num
fd ns pid -> state cpu
node root
node p ns pid state cpu
node q state cpu
edge e1 root p hash ns pid
edge e2 root q hash state cpu
edge e3 q p ordered ns pid
lock names 16 ns pid
lock queues 4 state cpu
place e1 names
place e2 queues
place e3 queues
op spawn insert ns pid
op change update ns pid
op kill remove ns pid
op queue query state cpu -> ns pid
end
";

/// The state of a process that can run.
const RUNNABLE: u64 = 0;

/// The state of one that can't yet.
const SLEEPING: u64 = 1;

/// How many processors there are.
const PROCESSORS: u32 = 2;

/// How many processes each spawns.
const SPAWNED: u64 = 3;

/// The numbers of the operations.
#[derive(Clone, Copy, Debug)]
struct Operations {
    spawn: u32,
    change: u32,
    kill: u32,
    queue: u32,
}

impl Operations {
    /// Their numbers in the store, by their names.
    fn of(store: &OpenStore) -> Option<Operations>
        ensures { IfSome result (HasNumbers (spec_of store.now.store.row)) }
    {
        Some(Operations {
            spawn: store.operation(b"spawn")?,
            change: store.operation(b"change")?,
            kill: store.operation(b"kill")?,
            queue: store.operation(b"queue")?,
        })
    }
}

/// Opens a store, lets the processors take turns, closes it, and prints what is left. `Err` where memory is
/// wanted, the output fails, or the store refuses something.
pub fn schedule<R: Print>(rt: &R, alloc: Global) -> Result<(), Fault> {
    let options = Options {
        passes: PROCESSORS,
        limit: 1 << 48,
        // A queue is to be told whole.
        rows: None,
        // Nobody else chooses the values.
        seed: Seed::fixed(),
    };
    let mut store = open(alloc, SCHEDULER, options)?;
    use_store(rt, &mut store)?;
    print_left(rt, &close(store, alloc)?)
}

/// Lets the processors take turns, each with a session of its own.
fn use_store<R: Print>(rt: &R, store: &mut OpenStore) -> Result<(), Fault>
    ensures { store.new.store ≡ store.old.store }
{
    let Some(operations) = Operations::of(store) else {
        return Err(Fault::Refused);
    };
    let mut first = Box::into_inner(store.session()?);
    use_second(rt, store, operations, &mut first)?;
    give_back(store, first)
}

/// Lets them do so where the first has its session. (A function that owns both has more to drop at each `?` than the borrow
/// checker covers.)
fn use_second<R: Print>(
    rt: &R,
    store: &mut OpenStore,
    operations: Operations,
    first: &mut Session,
) -> Result<(), Fault>
    ensures store { store.new.store ≡ store.old.store }
    ensures first { first.new.store ≡ first.old.store }
{
    let mut second = Box::into_inner(store.session()?);
    take_turns(rt, operations, first, &mut second)?;
    give_back(store, second)
}

/// Lets each processor spawn processes, then each run those at it, and then the first kill one.
fn take_turns<R: Print>(
    rt: &R,
    operations: Operations,
    first: &mut Session,
    second: &mut Session,
) -> Result<(), Fault>
    ensures first { first.new.store ≡ first.old.store }
    ensures second { second.new.store ≡ second.old.store }
{
    spawn_all(rt, operations, first, 0)?;
    spawn_all(rt, operations, second, 1)?;
    run_all(rt, operations, first, 0)?;
    run_all(rt, operations, second, 1)?;
    kill_one(rt, operations, first, 0)
}

/// Prints the processes, one a line, each by its values in the order of the columns.
fn print_left<R: Print>(rt: &R, left: &Tuples) -> Result<(), Fault> {
    for process in left.list() {
        print!(rt; "left:")?;
        for (_, value) in process.pairs() {
            print!(rt; " {value}")?;
        }
        println!(rt; "")?;
    }
    Ok(())
}

/// Gives a session of this store back.
fn give_back(store: &mut OpenStore, session: Session) -> Result<(), Fault>
    requires { session.store ≡ store.old.store }
    ensures { store.new.store ≡ store.old.store }
{
    match store.take_back(session) {
        Ok(()) => Ok(()),
        Err(_) => Err(Fault::Refused),
    }
}

/// Spawns runnable processes at a processor, in a namespace with its number.
fn spawn_all<R: Print>(
    rt: &R,
    operations: Operations,
    session: &mut Session,
    cpu: u64,
) -> Result<(), Fault>
    ensures { session.new.store ≡ session.old.store }
{
    for pid in 0..SPAWNED {
        let process = Process {
            ns: cpu,
            pid,
            state: RUNNABLE,
            cpu,
        };
        let is_new = spawn(session, operations.spawn, process)?;
        println!(rt; "processor {cpu}: spawned {pid}, new {is_new}")?;
    }
    Ok(())
}

/// Runs the processes that are runnable at a processor, a few at most: each sleeps at the other
/// processor then. It changes in one step, so that nobody sees it twice, or not at all.
fn run_all<R: Print>(
    rt: &R,
    operations: Operations,
    session: &mut Session,
    cpu: u64,
) -> Result<(), Fault>
    ensures { session.new.store ≡ session.old.store }
{
    for _ in 0..SPAWNED {
        let Some((ns, pid)) = first_in(session, operations, RUNNABLE, cpu)? else {
            return Ok(());
        };
        let process = Process {
            ns,
            pid,
            state: SLEEPING,
            cpu: if cpu == 0 { 1 } else { 0 },
        };
        // One that somebody else has killed meanwhile isn't there, and isn't put in again.
        let is_there = change(session, operations.change, process)?;
        println!(rt; "processor {cpu}: ran {ns} {pid}, there {is_there}")?;
    }
    Ok(())
}

/// Kills the first process that sleeps at a processor.
fn kill_one<R: Print>(
    rt: &R,
    operations: Operations,
    session: &mut Session,
    cpu: u64,
) -> Result<(), Fault>
    ensures { session.new.store ≡ session.old.store }
{
    let Some((ns, pid)) = first_in(session, operations, SLEEPING, cpu)? else {
        return Ok(());
    };
    let is_there = kill(session, operations.kill, ns, pid)?;
    println!(rt; "processor {cpu}: killed {ns} {pid}, there {is_there}")?;
    Ok(())
}

/// The name of the first process in a queue, its namespace and number; none where the queue is empty.
fn first_in(
    session: &mut Session,
    operations: Operations,
    state: u64,
    cpu: u64,
) -> Result<Option<(u64, u64)>, CallFault>
    ensures { session.new.store ≡ session.old.store }
{
    session.try_call(operations.queue, &[state, cpu])?;
    let mut name = [0; 2];
    match session.copy_row(0, &mut name) {
        Some(_) => Ok(Some((name[0], name[1]))),
        None => Ok(None),
    }
}
