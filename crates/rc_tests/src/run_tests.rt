//! Workloads through the top call, which a gate watches: a call that is held, also of a generated workload, and many calls of eight
//! threads.

use crate::gates::wait_for;
use crate::graph::GRAPH;
use crate::judge::is_legal;
use rc_io::{MemSink, MemSource};
use rc_maps::Seed;
use rc_store::{Gate, Point};
use rc_text::{push_bytes, push_u64};
use rc_top::{Outcome, Ran, Status, relc};
use rc_tuple::Memory;
use std::alloc::Global;
use std::sync::Wait;
use std::sync::atomic::AtomicU64;
use std::sync::atomic::Ordering::SeqCst;
use std::test::Fail;
use std::thread::Threads;

/// The most bytes that an answer may have.
const ROOM: usize = 1 << 22;

/// The words behind the program's name, with it.
pub(crate) fn words_of(alloc: Global, arguments: &[&str]) -> Result<Vec<String>, Memory> {
    let mut words = Vec::new(alloc);
    push_words(alloc, &mut words, arguments)?;
    Ok(words)
}

/// Adds the program's name and the words behind it.
fn push_words(alloc: Global, words: &mut Vec<String>, arguments: &[&str]) -> Result<(), Memory> {
    push_word(alloc, words, "relc")?;
    for argument in arguments {
        push_word(alloc, words, argument)?;
    }
    Ok(())
}

fn push_word(alloc: Global, words: &mut Vec<String>, word: &str) -> Result<(), Memory> {
    let word = String::from_str(alloc, word)?;
    words.push(word)?;
    Ok(())
}

// ---- the gate

/// Counts the points that it is told, and the commits among them. One that holds has the first turn of the pass 0 wait before its
/// commit until the pass 1 has answered one, which begins once the other is held.
#[derive(Drop)]
struct Watch {
    holds: bool,
    points: AtomicU64,
    commits: AtomicU64,
    held: AtomicU64,
    answered: AtomicU64,
    /// Whether either was waited for in vain.
    late: AtomicU64,
}

impl Gate for Watch {
    fn at(&self, pass: u32, point: Point) {
        self.points.fetch_add(1, SeqCst);
        if point == Point::AfterCommit {
            self.commits.fetch_add(1, SeqCst);
        }
        if self.holds {
            self.hold(pass, point);
        }
    }
}

impl Watch {
    /// Nothing was told yet.
    fn new(holds: bool) -> Watch {
        Watch {
            holds,
            points: AtomicU64::new(0),
            commits: AtomicU64::new(0),
            held: AtomicU64::new(0),
            answered: AtomicU64::new(0),
            late: AtomicU64::new(0),
        }
    }

    fn hold(&self, pass: u32, point: Point) {
        match (pass, point) {
            (0, Point::BeforeCommit) => {
                self.held.store(1, SeqCst);
                self.wait(&self.answered);
            }
            (1, Point::BeforeLocks) => self.wait(&self.held),
            (1, Point::Answered) => self.answered.store(1, SeqCst),
            _ => {}
        }
    }

    /// Waits for the other.
    fn wait(&self, other: &AtomicU64) {
        if !wait_for(other, 1) {
            self.late.store(1, SeqCst);
        }
    }

    /// Whether both came in time.
    fn came_in_time(&self) -> bool {
        self.answered.load(SeqCst) == 1 && self.late.load(SeqCst) == 0
    }

    /// Whether so many calls were made: each has four points, of which one is its commit.
    fn saw(&self, calls: u64) -> bool {
        self.commits.load(SeqCst) == calls && self.points.load(SeqCst) == calls.wrapping_mul(4)
    }
}

// ---- workloads

/// A workload, and what is made of it.
#[derive(Clone, Copy, Debug, PartialEq, Eq)]
enum Workload {
    /// Of two turns of one round the first is held until the second is answered: it stands later.
    Held,
    /// So it is of a group and a call,
    HeldGroup,
    /// and of a call that brings its operation.
    HeldOpen,
    /// Calls of eight threads in all rounds are one history.
    Many,
    /// Threads of a generated workload run beside each other: a call is held until one of another thread is answered.
    HeldGenerated,
}

impl Workload {
    fn words(self) -> &'static [&'static str] {
        match self {
            Workload::Held | Workload::Many => &["run"],
            Workload::HeldGroup => &["group"],
            Workload::HeldOpen => &["open"],
            Workload::HeldGenerated => &["big", "7", "4"],
        }
    }

    /// Whether the gate holds its first turn.
    fn is_held(self) -> bool {
        self != Workload::Many
    }

    /// Adds the text that the words are given.
    fn push_text(self, text: &mut Vec<u8>) -> Result<(), Memory> {
        if self == Workload::HeldGenerated {
            return Ok(());
        }
        push_bytes(text, GRAPH)?;
        match self {
            Workload::Held => push_bytes(text, b"work 2\nround\n0 ins 1 2 10\n1 ins 2 5 1\nend\n"),
            Workload::HeldGroup => {
                let work = b"work 2\nround\n0 & 2\n0 ins 1 2 10\n0 ins 1 3 11\n1 ins 2 5 1\nend\n";
                push_bytes(text, work)
            }
            Workload::HeldOpen => {
                push_bytes(
                    text,
                    b"work 2\nround\n0 ? src = 1 -> dst\n1 ins 2 5 1\nend\n",
                )
            }
            Workload::Many | Workload::HeldGenerated => push_many_calls(text),
        }
    }
}

/// The report of two calls of one round, of which the first is held.
const HELD: &[u8] = b"journal 2
0 1 ins 2 5 1 -> inserted
1 0 ins 1 2 10 -> inserted
final 2
(1 2 10)
(2 5 1)
end
";

/// The report of a group and a call of one round, of which the group is held.
const HELD_GROUP: &[u8] = b"journal 2
0 1 ins 2 5 1 -> inserted
1 0 & 2
1 0 ins 1 2 10 -> inserted
1 0 ins 1 3 11 -> inserted
final 3
(1 2 10)
(1 3 11)
(2 5 1)
end
";

/// The report of two calls of one round, of which the one that brings its operation is held.
const HELD_OPEN: &[u8] = b"journal 2
0 1 ins 2 5 1 -> inserted
1 0 ?1 1 -> 0 rows
final 1
(2 5 1)
end
";

/// So many calls all rounds have: as many as a workload may.
const CALLS: u64 = 20_000;

/// So many rounds there are: as many as a workload may have.
const ROUNDS: u64 = 64;

/// Adds a workload of eight threads in all rounds, on few sources.
fn push_many_calls(text: &mut Vec<u8>) -> Result<(), Memory> {
    push_bytes(text, b"work 8\n")?;
    for number in 0..CALLS {
        if number * ROUNDS % CALLS < ROUNDS {
            push_bytes(text, b"round\n")?;
        }
        push_call(text, number)?;
    }
    push_bytes(text, b"end\n")
}

/// Adds the line of a call: of the threads in turn, half of them inserts, a quarter each removes and queries.
fn push_call(text: &mut Vec<u8>, number: u64) -> Result<(), Memory> {
    push_u64(text, number % 8)?;
    match number / 8 % 4 {
        0 | 1 => push_bytes(text, b" ins ")?,
        2 => push_bytes(text, b" del ")?,
        _ => push_bytes(text, b" succ ")?,
    }
    push_u64(text, number % 13)?;
    if number / 8 % 4 != 3 {
        push_bytes(text, b" ")?;
        push_u64(text, number / 13 % 11)?;
    }
    if number / 8 % 4 < 2 {
        push_bytes(text, b" ")?;
        push_u64(text, number % 5)?;
    }
    push_bytes(text, b"\n")
}

// ---- runs

#[test]
fn workloads_go_well(rt: HostRuntime) -> Result<(), Fail> {
    for workload in [
        Workload::Held,
        Workload::HeldGroup,
        Workload::HeldOpen,
        Workload::Many,
        Workload::HeldGenerated,
    ] {
        assert!(&rt; goes_well(&rt, rt.alloc(), workload)?, "{workload:?}");
    }
    Ok(())
}

/// Whether the workload goes as it should.
fn goes_well<R: Threads + Wait + Sync>(
    rt: &R,
    alloc: Global,
    workload: Workload,
) -> Result<bool, Fail> {
    let gate = Watch::new(workload.is_held());
    let mut sink = MemSink::new(alloc, ROOM, ROOM, Vec::new(alloc))?;
    Ok(goes_well_into(rt, alloc, workload, &mut sink, &gate)?)
}

/// Whether it does where its report is written into the sink, and the gate watches.
fn goes_well_into<R: Threads + Wait + Sync>(
    rt: &R,
    alloc: Global,
    workload: Workload,
    sink: &mut MemSink,
    gate: &Watch,
) -> Result<bool, Memory> {
    let outcome = outcome(rt, alloc, workload, sink, gate)?;
    is_as_it_should(alloc, workload, &outcome, sink.bytes(), gate)
}

/// The outcome of the words on their text, which is written into the sink.
fn outcome<R: Threads + Wait + Sync>(
    rt: &R,
    alloc: Global,
    workload: Workload,
    sink: &mut MemSink,
    gate: &Watch,
) -> Result<Outcome, Memory> {
    let mut text = Vec::new(alloc);
    workload.push_text(&mut text)?;
    let words = words_of(alloc, workload.words())?;
    let mut source = MemSource::new(text, 1 << 20, Vec::new(alloc));
    Ok(relc(rt, alloc, Seed::fixed(), &words, &mut source, sink, gate))
}

/// Whether that is what is to come of the workload.
fn is_as_it_should(
    alloc: Global,
    workload: Workload,
    outcome: &Outcome,
    bytes: &[u8],
    gate: &Watch,
) -> Result<bool, Memory> {
    if outcome.status != Status::Done {
        return Ok(false);
    }
    match workload {
        Workload::Held => Ok(gate.came_in_time() && bytes.ends_with(HELD)),
        Workload::HeldGroup => Ok(gate.came_in_time() && bytes.ends_with(HELD_GROUP)),
        Workload::HeldOpen => Ok(gate.came_in_time() && bytes.ends_with(HELD_OPEN)),
        Workload::Many => Ok(gate.saw(CALLS) && is_run(alloc, outcome)?),
        Workload::HeldGenerated => Ok(gate.came_in_time()),
    }
}

/// Whether the outcome is a run of all calls, which are legal.
fn is_run(alloc: Global, outcome: &Outcome) -> Result<bool, Memory> {
    match &outcome.ran {
        Some(ran) => Ok(made_by(ran) == CALLS && is_legal(alloc, &ran.closed)?),
        None => Ok(false),
    }
}

/// How many calls a run made.
fn made_by(ran: &Ran) -> u64 {
    ran.closed
        .made()
        .iter()
        .fold(0, |sum: u64, made| sum.wrapping_add(*made))
}
