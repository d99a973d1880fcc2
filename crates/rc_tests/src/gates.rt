//! Calls that wait, of which a gate holds one.

ghost use Rattle.rc_store.specs.Store.{IsFree};

use crate::graph::compiled;
use rc_maps::Seed;
use rc_row::{Keeping, Pass};
use rc_spec::{Call, Ranges, fits};
use rc_store::{Gate, OpenGate, Point, Store, Waking};
use rc_tuple::{Memory, Tuple};
use std::alloc::Global;
use std::sync::Wait;
use std::sync::atomic::AtomicU64;
use std::sync::atomic::Ordering::SeqCst;
use std::test::Fail;
use std::thread::{self, Threads, join};

/// For so many turns a call is held at most. Each turn lets others run, so that a loaded machine doesn't run out of them.
const TURNS: u32 = 2_000_000;

/// So many entries each pass may make.
const LIMIT: u64 = 1;

/// How far two calls have come.
#[derive(Drop)]
struct Progress {
    /// How many points the first has reached.
    reached: AtomicU64,
    /// Whether the second has answered.
    answered: AtomicU64,
}

/// Tells how far a call has come, and holds it before its commit until another has answered.
#[derive(Drop)]
struct HoldingGate<'a> {
    progress: &'a Progress,
}

impl<'a> Gate for HoldingGate<'a> {
    fn at(&self, _pass: u32, point: Point) {
        self.progress.reached.fetch_add(1, SeqCst);
        if point == Point::BeforeCommit {
            wait_for(&self.progress.answered, 1);
        }
    }
}

/// Waits until the count is so high, for a bounded number of turns. Whether it is.
pub(crate) fn wait_for(count: &AtomicU64, least: u64) -> bool {
    for _ in 0..TURNS {
        if count.load(SeqCst) >= least {
            return true;
        }
        thread::yield_now();
    }
    false
}

/// The place of a call that waits, with its gate, where it is answered.
fn place<R: Wait, G: Gate>(
    rt: &R,
    store: &Store<Waking>,
    pass: &mut Pass,
    call: &Call,
    gate: &G,
) -> Option<u64>
    requires { IsFree store.now pass.old }
{
    if !fits(store.compiled().accepted().spec(), call) {
        return None;
    }
    let receipt = store.call(rt, pass, call, gate).ok()?;
    Some(receipt.place)
}

/// The place of a call that its gate holds.
fn held_place<R: Wait>(
    rt: &R,
    store: &Store<Waking>,
    mut pass: Pass,
    call: &Call,
    gate: HoldingGate<'_>,
) -> Option<u64>
    requires { IsFree store.now pass }
{
    place(rt, store, &mut pass, call, &gate)
}

/// The place of a call that is made once the other is held.
fn other_place<R: Wait>(
    rt: &R,
    store: &Store<Waking>,
    mut pass: Pass,
    call: &Call,
    progress: &Progress,
) -> Option<u64>
    requires { IsFree store.now pass }
{
    if !wait_for(&progress.reached, 2) {
        return None;
    }
    let place = place(rt, store, &mut pass, call, &OpenGate)?;
    progress.answered.store(1, SeqCst);
    Some(place)
}

/// The places of a call that is held before its commit, and of one that is made meanwhile.
fn held_before<R: Threads + Wait + Sync>(
    rt: &R,
    store: &Store<Waking>,
    held: (Pass, &Call),
    other: (Pass, &Call),
) -> (Option<u64>, Option<u64>)
    requires held { IsFree store.now held.0 }
    requires other { IsFree store.now other.0 }
{
    let ((one, held), (two, other)) = (held, other);
    let progress = Progress {
        reached: AtomicU64::new(0),
        answered: AtomicU64::new(0),
    };
    let progress = &progress;
    join(
        rt,
        move || held_place(rt, store, one, held, HoldingGate { progress }),
        move || other_place(rt, store, two, other, progress),
    )
}

// ---- inserts on a new store of the graph

/// A call that is to be filled.
fn blank(alloc: Global) -> Call {
    Call {
        op: 0,
        args: Tuple::empty(alloc),
        ranges: Ranges::new(alloc),
    }
}

/// The places of an insert at the source 1, which is held, and of one of another edge at this source: on other stripes it goes by,
/// and stands first, and on the same it waits.
fn places<R: Threads + Wait + Sync>(
    rt: &R,
    alloc: Global,
    source: u64,
) -> Result<(Option<u64>, Option<u64>), Fail> {
    let mut held = blank(alloc);
    let mut other = blank(alloc);
    fill(&mut held, &mut other, source)?;
    places_of(rt, alloc, &held, &other)
}

/// Makes them these inserts.
fn fill(held: &mut Call, other: &mut Call, source: u64) -> Result<(), Memory> {
    held.args.refill(&[0, 1, 2], &[1, 2, 10])?;
    other.args.refill(&[0, 1, 2], &[source, 3, 7])
}

/// The places of the two calls on a new store.
fn places_of<R: Threads + Wait + Sync>(
    rt: &R,
    alloc: Global,
    held: &Call,
    other: &Call,
) -> Result<(Option<u64>, Option<u64>), Fail> {
    let compiled = compiled(alloc)?;
    let (keeping, seed) = (Keeping::Counts, Seed::fixed());
    let (store, mut passes) = Store::build(alloc, seed, compiled, 2, LIMIT, keeping, Waking)?;
    let one = passes.remove(0);
    let two = passes.remove(0);
    passes.destroy_empty();
    Ok(held_before(rt, &store, (one, held), (two, other)))
}

#[test]
fn calls_go_by_or_wait_and_are_woken(rt: HostRuntime) -> Result<(), Fail> {
    for (source, want) in [(2, (Some(1), Some(0))), (1, (Some(0), Some(1)))] {
        assert_eq!(&rt; places(&rt, rt.alloc(), source)?, want);
    }
    Ok(())
}
