//! The turns of a round: each thread's in order, those of different threads beside each other.

ghost use Rattle.std.specs.Prelude.{◌≡◌, ◌∷◌, ◌+◌, ◌<◌, ◌≤◌, [], All, OnOk, length};
ghost use Rattle.std.specs.Thread.{IsSend, IsSync};
ghost use Rattle.rc_spec.specs.Calls.{Fits};
ghost use Rattle.rc_row.specs.Passes.{core_of, spec_of};
ghost use Rattle.rc_runner.specs.Rounds.{HasCalled, HasGrown, MadeRound, MadeTurns};
ghost use Rattle.rc_store.specs.Store.{IsFree};
ghost use Rattle.rc_work.specs.Fitting.{TurnsFit};
ghost use Rattle.rc_runner.specs.Running.{MayMake, number_of, numbers_of, stand_of};
ghost use Rattle.rc_runner.specs.Shares.{HaveTurnSizes, MayMakeShare, SharesFit, TurnFits, TurnsAreOf, share_of, turns_in};

use crate::sharing::{Share, share_out};
use rc_row::Pass;
use rc_spec::Call;
use rc_store::{CallFault, Gate, Store, Waking};
use rc_tuple::Memory;
use rc_work::Turn;
use std::alloc::Global;
use std::sync::Wait;
use std::thread::{Threads, join_mut};

/// Makes a call of a pass that may make one more.
fn make_call<R: Wait, G: Gate>(
    rt: &R,
    store: &Store<Waking>,
    pass: &mut Pass,
    call: &Call,
    gate: &G,
) -> Result<(), Memory>
    requires may { MayMake store.now 1 pass.old }
    requires fits { Fits (spec_of store.now.row) call.now }
    ensures free { IsFree store.now pass.new }
    ensures number { number_of pass.new ≡ number_of pass.old }
    ensures called { OnOk result
        (HasCalled (call.now ∷ []) (stand_of pass.old) (stand_of pass.new)) }
{
    match store.call(rt, pass, call, gate) {
        Ok(_) => Ok(()),
        Err(CallFault::Memory) => Err(Memory),
        Err(CallFault::Spent) => unreachable!(),
    }
}

/// Makes calls as one for a pass that may make one entry more.
fn make_group<R: Wait, G: Gate>(
    rt: &R,
    store: &Store<Waking>,
    pass: &mut Pass,
    calls: &[Call],
    gate: &G,
) -> Result<(), Memory>
    requires may { MayMake store.now 1 pass.old }
    requires fits { TurnFits (spec_of store.now.row) calls.now }
    ensures free { IsFree store.now pass.new }
    ensures number { number_of pass.new ≡ number_of pass.old }
    ensures called { OnOk result (HasCalled calls.now (stand_of pass.old) (stand_of pass.new)) }
{
    match store.call_group(rt, pass, calls, gate) {
        Ok(_) => Ok(()),
        Err(CallFault::Memory) => Err(Memory),
        Err(CallFault::Spent) => unreachable!(),
    }
}

/// Makes a turn: its call, or the calls of its group as one.
fn make_turn<R: Wait, G: Gate>(
    rt: &R,
    store: &Store<Waking>,
    pass: &mut Pass,
    turn: &Turn,
    gate: &G,
) -> Result<(), Memory>
    requires may { MayMake store.now 1 pass.old }
    requires fits { TurnFits (spec_of store.now.row) turn.now.calls }
    ensures free { IsFree store.now pass.new }
    ensures number { number_of pass.new ≡ number_of pass.old }
    ensures called { OnOk result
        (HasCalled turn.now.calls (stand_of pass.old) (stand_of pass.new)) }
{
    match turn.calls.list() {
        [call] => make_call(rt, store, pass, call, gate),
        calls => make_group(rt, store, pass, calls, gate),
    }
}

/// Makes some turns of a pass, in order.
fn make_turns<R: Wait, G: Gate>(
    rt: &R,
    store: &Store<Waking>,
    pass: &mut Pass,
    turns: &[&Turn],
    gate: &G,
) -> Result<(), Memory>
    requires may { MayMake store.now (length turns.now) pass.old }
    requires fit { All (TurnFits (spec_of store.now.row)) (turns_in turns.now) }
    ensures free { IsFree store.now pass.new }
    ensures number { number_of pass.new ≡ number_of pass.old }
    ensures made { OnOk result
        (HasGrown (turns_in turns.now) (stand_of pass.old) (stand_of pass.new)) }
{
    for turn in turns {
        make_turn(rt, store, pass, turn, gate)?;
    }
    Ok(())
}

/// Makes the turns of a pass's own share.
fn make_share<R: Wait, G: Gate>(
    rt: &R,
    store: &Store<Waking>,
    pass: &mut Pass,
    shares: &[Share<'_>],
    gate: &G,
) -> Result<(), Memory>
    requires may { MayMakeShare store.now shares.now pass.old }
    requires fit { SharesFit (spec_of store.now.row) shares.now }
    ensures free { IsFree store.now pass.new }
    ensures number { number_of pass.new ≡ number_of pass.old }
    ensures made { OnOk result (HasGrown (share_of shares.now (number_of pass.old))
        (stand_of pass.old) (stand_of pass.new)) }
{
    match shares.get(pass.number() as usize) {
        Some(turns) => make_turns(rt, store, pass, turns, gate),
        None => Ok(()),
    }
}

/// Makes the shares of some passes, each beside those of the others.
#[cycle(halves)]
fn make_shares<R: Threads + Wait + Sync, G: Gate + Sync>(
    rt: &R,
    store: &Store<Waking>,
    passes: &mut [Pass],
    shares: &[Share<'_>],
    gate: &G,
) -> Result<(), Memory>
    requires may { All (MayMakeShare store.now shares.now) passes.old }
    requires fit { SharesFit (spec_of store.now.row) shares.now }
    ensures free { All (IsFree store.now) passes.new }
    ensures numbers { numbers_of passes.new ≡ numbers_of passes.old }
    ensures made { OnOk result (MadeTurns number_of stand_of (share_of shares.now)
        passes.old passes.new) }
{
    let count = passes.len();
    if count == 0 {
        return Ok(());
    }
    if count == 1 {
        return make_share(rt, store, &mut passes[0], shares, gate);
    }
    let (left, right) = passes.split_at_mut(count / 2);
    make_both(rt, store, left, right, shares, gate)
}

/// Makes the shares of some passes beside those of others.
#[cycle(halves)]
fn make_both<R: Threads + Wait + Sync, G: Gate + Sync>(
    rt: &R,
    store: &Store<Waking>,
    left: &mut [Pass],
    right: &mut [Pass],
    shares: &[Share<'_>],
    gate: &G,
) -> Result<(), Memory>
    requires sides { (1 ≤ length left.old) × (1 ≤ length right.old) }
    requires may_left { All (MayMakeShare store.now shares.now) left.old }
    requires may_right { All (MayMakeShare store.now shares.now) right.old }
    requires fit { SharesFit (spec_of store.now.row) shares.now }
    ensures free_left { All (IsFree store.now) left.new }
    ensures free_right { All (IsFree store.now) right.new }
    ensures numbers_left { numbers_of left.new ≡ numbers_of left.old }
    ensures numbers_right { numbers_of right.new ≡ numbers_of right.old }
    ensures made { OnOk result (MadeTurns number_of stand_of (share_of shares.now) left.old left.new
        × MadeTurns number_of stand_of (share_of shares.now) right.old right.new) }
{
    let mut first = || -> Result<(), Memory>
        requires { IsSync R.row × IsSync G.row × All (MayMakeShare store.now shares.now) left.now
            × SharesFit (spec_of store.now.row) shares.now }
        ensures { All (IsFree store.entry.now) left.exit.now
            × (numbers_of left.exit.now ≡ numbers_of left.entry.now)
            × OnOk result (MadeTurns number_of stand_of (share_of shares.entry.now)
            left.entry.now left.exit.now) }
    { make_shares(rt, store, left, shares, gate) };
    let mut second = || -> Result<(), Memory>
        requires { IsSync R.row × IsSync G.row × All (MayMakeShare store.now shares.now) right.now
            × SharesFit (spec_of store.now.row) shares.now }
        ensures { All (IsFree store.entry.now) right.exit.now
            × (numbers_of right.exit.now ≡ numbers_of right.entry.now)
            × OnOk result (MadeTurns number_of stand_of (share_of shares.entry.now)
            right.entry.now right.exit.now) }
    { make_shares(rt, store, right, shares, gate) };
    let (first, second) = join_mut(rt, &mut first, &mut second);
    first?;
    second
}

/// Makes the turns of a round of so many threads, each thread's beside those of the others.
pub(crate) fn make_round<R: Threads + Wait + Sync, G: Gate + Sync>(
    rt: &R,
    alloc: Global,
    store: &Store<Waking>,
    passes: &mut [Pass],
    threads: u32,
    round: &[Turn],
    gate: &G,
) -> Result<(), Memory>
    requires may { All (MayMake store.now (length round.now)) passes.old }
    requires threads { TurnsAreOf threads round.now }
    requires fit { TurnsFit (spec_of store.now.row) round.now }
    requires sizes { HaveTurnSizes round.now }
    ensures free { All (IsFree store.now) passes.new }
    ensures numbers { numbers_of passes.new ≡ numbers_of passes.old }
    ensures made { OnOk result (MadeRound number_of stand_of round.now passes.old passes.new) }
{
    let shares = share_out(alloc, threads, round)?;
    make_shares(rt, store, passes, &shares, gate)
}
