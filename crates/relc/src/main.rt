//! RELC: checks specifications, plans their operations, and runs workloads on them.
#![tactic(auto)]

use rc_io::{StdSink, StdSource};
use rc_maps::Seed;
use rc_store::OpenGate;
use rc_top::{Status, relc};
use std::alloc::Global;
use std::process::ExitCode;
use std::{env, io};

/// The exit status where the system hands out no words.
const NO_WORDS: u8 = 7;

/// Runs the program over its words and the standard streams.
fn main(rt: HostRuntime) -> ExitCode {
    let alloc = rt.alloc();
    let words = match words(&rt, alloc) {
        Ok(words) => words,
        Err(error) => return ExitCode::from(words_status(&error)),
    };
    let mut source = StdSource::new(rt.reader());
    let mut sink = StdSink::new(io::writer(&rt));
    let outcome = relc(
        &rt,
        alloc,
        hash_seed(&rt),
        &words,
        &mut source,
        &mut sink,
        &OpenGate,
    );
    ExitCode::from(outcome.status.code())
}

/// The seed of hash tables: drawn at random, or where the system has no random numbers the one that
/// anyone may know, with which a run may be slow and answers the same.
fn hash_seed(rt: &HostRuntime) -> Seed {
    Seed::draw(rt).unwrap_or(Seed::fixed())
}

/// The words of the command line, the program's name first.
fn words(rt: &HostRuntime, alloc: Global) -> io::Result<Vec<String>> {
    let words = env::args(rt)?.collect(alloc)?;
    Ok(words)
}

/// The exit status where the words cannot be had.
fn words_status(error: &io::Error) -> u8 {
    match error.kind() {
        io::ErrorKind::OutOfMemory => Status::OutOfMemory.code(),
        _ => NO_WORDS,
    }
}
