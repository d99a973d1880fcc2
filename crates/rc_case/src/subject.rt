//! Subjects, which answer cases without any leave, and the runs of case files on them.

use crate::{Case, End, LineFault, Script, Tally};
use rc_tuple::Memory;
use std::alloc::Global;
use std::process::ExitCode;
use std::rt::{Env, Files};
use std::{env, fs, io};

/// What cases are run on that neither makes threads nor waits. What does either takes the cases of a `Script` itself.
pub trait Subject {
    /// How it ends on the case's words, input and streams. It has no use for what the case wants.
    fn answer(&self, alloc: Global, case: &Case) -> Result<End, Memory>;
}

/// Runs the cases of each file that the program's words name, and prints a line for each.
pub fn run_files<R: AllocGlobal + Env + Files + Print, S: Subject>(
    rt: &R,
    subject: &S,
) -> io::Result<ExitCode> {
    let alloc = rt.alloc();
    let mut script = Script::new(alloc);
    let mut tally = Tally::new();
    for file in env::args(rt)?.skip(1) {
        let text = fs::read_to_string(rt, file.as_str())?;
        for (number, case) in script.cases(alloc, &text) {
            let said = run(alloc, subject, &mut tally, case);
            println!(rt; "{}", tally.line(alloc, &file, number, said)?)?;
        }
    }
    println!(rt; "{tally}")?;
    Ok(tally.exit_code())
}

/// Runs a case, and says how it ended.
fn run<S: Subject>(
    alloc: Global,
    subject: &S,
    tally: &mut Tally,
    case: Result<Case, LineFault>,
) -> Result<String, LineFault> {
    let case = case?;
    let end = subject.answer(alloc, &case)?;
    Ok(tally.judge(alloc, &case, &end)?)
}
