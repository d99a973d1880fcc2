//! A workload, run on a store of its own.

ghost use Rattle.std.specs.Prelude.{◌≡◌, ◌≤◌, [], All, IfOk, OnOk, length, sum_by};
ghost use Rattle.std.specs.List.{range_with_len};
ghost use Rattle.rc_row.specs.Passes.{AreIdlePasses, core_of, spec_of};
ghost use Rattle.rc_runner.specs.Rounds.{HaveMade};
ghost use Rattle.rc_store.specs.Closed.{HasClosed};
ghost use Rattle.rc_store.specs.Store.{IsFree};
ghost use Rattle.rc_work.specs.Fitting.{HasThreads, RoundsFit};
ghost use Rattle.rc_work.specs.Limits.{KeepsLimits};
ghost use Rattle.rc_runner.specs.Running.{HasRun, numbers_of, stands_of};
ghost use Rattle.rc_runner.specs.Shares.{RoundsHaveTurnSizes, RoundsAreOf};

use crate::calling::make_round;
use crate::telling::tell;
use rc_maps::Seed;
use rc_plan::Compiled;
use rc_row::{Keeping, Pass};
use rc_store::{Closed, Gate, Store, Waking};
use rc_tuple::Memory;
use rc_work::{Round, Work};
use std::alloc::Global;
use std::sync::Wait;
use std::thread::Threads;

/// How many entries a pass may make: more than any workload has turns.
const MOST_ENTRIES: u64 = 1 << 48;

/// Makes the turns of some rounds of so many threads, one round after another. After each, all passes
/// learn what any has seen, so that what they commit next stands behind it.
fn run_rounds<R: Threads + Wait + Sync, G: Gate + Sync>(
    rt: &R,
    alloc: Global,
    store: &Store<Waking>,
    passes: &mut [Pass],
    threads: u32,
    rounds: &[Round],
    gate: &G,
) -> Result<(), Memory>
    requires free { All (IsFree store.now) passes.old }
    requires numbers { numbers_of passes.old ≡ range_with_len 0 (length passes.old) }
    requires none { All (λ pass. (core_of pass).own ≡ []) passes.old }
    requires few { sum_by length rounds.now ≤ store.now.limit }
    requires fit { RoundsFit (spec_of store.now.row) rounds.now }
    requires sizes { RoundsHaveTurnSizes rounds.now }
    requires threads { RoundsAreOf threads rounds.now }
    ensures free { All (IsFree store.now) passes.new }
    ensures numbers { numbers_of passes.new ≡ numbers_of passes.old }
    ensures made { OnOk result (HaveMade rounds.now (stands_of passes.new)) }
{
    for round in rounds {
        make_round(rt, alloc, store, passes, threads, round.list(), gate)?;
        tell(store, passes);
    }
    Ok(())
}

/// Ends a store whose passes are free.
fn close(store: Store<Waking>, passes: Vec<Pass>) -> Result<Closed, Memory>
    requires { AreIdlePasses store.row passes.items }
    ensures { IfOk result (HasClosed store passes.items) }
{
    match store.close(passes) {
        Ok(closed) => Ok(closed),
        Err(_) => Err(Memory),
    }
}

/// Makes all turns of a workload on a store of its own, and closes it: pass k makes the turns of thread k, in order, the calls
/// of each group as one entry; the threads of a round run beside each other, and each round after the one before. The journal
/// is a run of the workload, and the instance is of the relation that it leaves. The gate is told of each point that a turn
/// reaches. The seed is that of the store's hash tables. Only want of memory refuses it. (PLDI 2012, serializable
/// transactions.)
pub fn run_work<R: Threads + Wait + Sync, G: Gate + Sync>(
    rt: &R,
    alloc: Global,
    hash_seed: Seed,
    compiled: Compiled,
    work: &Work,
    gate: &G,
) -> Result<Closed, Memory>
    requires fit { RoundsFit compiled.spec work.now.rounds }
    requires threads { HasThreads work.now }
    requires limits { KeepsLimits work.now }
    ensures compiled { IfOk result (λ closed. closed.compiled ≡ compiled) }
    ensures run { IfOk result (HasRun work.now) }
{
    let (store, mut passes) = Store::build(
        alloc,
        hash_seed,
        compiled,
        work.threads,
        MOST_ENTRIES,
        Keeping::Entries,
        Waking,
    )?;
    run_rounds(
        rt,
        alloc,
        &store,
        &mut passes,
        work.threads,
        work.rounds.list(),
        gate,
    )?;
    close(store, passes)
}
