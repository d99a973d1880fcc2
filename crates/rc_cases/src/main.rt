//! Runs cases of the top call: what it answers to words and a text is compared with what the case says.
#![tactic(auto)]

use rc_case::{Case, End, LineFault, Script, Tally};
use rc_io::{MemSink, MemSource, read_all};
use rc_maps::Seed;
use rc_store::OpenGate;
use rc_top::relc;
use rc_tuple::Memory;
use std::alloc::Global;
use std::process::ExitCode;
use std::sync::Wait;
use std::thread::Threads;
use std::{env, fs, io};

/// The most bytes that an answer may have.
const ROOM: usize = 1 << 20;

/// More bytes than any input has.
const ALL: u64 = 1 << 25;

/// How the top call ends over streams in memory. By the leave of `rt` it may make threads, and wait.
fn answer<R: Threads + Wait + Sync>(rt: &R, alloc: Global, case: &Case) -> Result<End, Memory> {
    let streams = &case.streams;
    let piece = streams.piece.max(1);
    let mut source = MemSource::new(case.input.clone()?, piece, streams.failed_reads.clone()?);
    let mut sink = MemSink::new(alloc, ROOM, piece, streams.failed_writes.clone()?)?;
    let words = &case.words;
    let outcome = relc(
        rt,
        alloc,
        Seed::fixed(),
        words,
        &mut source,
        &mut sink,
        &OpenGate,
    );
    Ok(End {
        status: outcome.status.code(),
        left: left_in(alloc, &mut source),
        text: sink.bytes().to_vec(alloc)?,
    })
}

/// How many bytes are left; where a read fails, more than there can be.
fn left_in(alloc: Global, source: &mut MemSource) -> usize {
    match read_all(alloc, source, ALL) {
        Ok(rest) => rest.len(),
        Err(_) => usize::MAX,
    }
}

/// Runs a case, and says how it ended.
fn run<R: Threads + Wait + Sync>(
    rt: &R,
    alloc: Global,
    tally: &mut Tally,
    case: Result<Case, LineFault>,
) -> Result<String, LineFault> {
    let case = case?;
    let end = answer(rt, alloc, &case)?;
    Ok(tally.judge(alloc, &case, &end)?)
}

/// Runs the cases of each file that the words name, and prints a line for each. It is `run_files` of `rc_case`, but for the
/// leave that the top call takes.
fn main(rt: HostRuntime) -> io::Result<ExitCode> {
    let alloc = rt.alloc();
    let mut script = Script::new(alloc);
    let mut tally = Tally::new();
    for file in env::args(&rt)?.skip(1) {
        let text = fs::read_to_string(&rt, file.as_str())?;
        for (number, case) in script.cases(alloc, &text) {
            let said = run(&rt, alloc, &mut tally, case);
            println!(rt; "{}", tally.line(alloc, &file, number, said)?)?;
        }
    }
    println!(rt; "{tally}")?;
    Ok(tally.exit_code())
}
