//! Runs cases of the libraries over accepted specifications: plans, tested by the rules of plans, and the rows that edges keep, with
//! the stripes on which they fall. What each answers to a text is compared with what the case says.
#![tactic(auto)]

mod checks;
mod forms;
mod rows;
mod specs;
mod stop;

use crate::forms::fill;
use crate::stop::Stop;
use rc_case::{Case, End, Subject, run_files};
use rc_tuple::Memory;
use std::alloc::Global;
use std::io;
use std::process::ExitCode;

/// The forms, each of which answers the text of a case.
struct Middle;

impl Subject for Middle {
    fn answer(&self, alloc: Global, case: &Case) -> Result<End, Memory> {
        let mut text = Vec::new(alloc);
        match fill(&case.words, &case.input, &mut text) {
            Ok(()) => Ok(End::new(0, text)),
            Err(Stop::Memory) => Err(Memory),
            Err(stop) => Ok(End::without_answer(alloc, &stop)?),
        }
    }
}

/// Runs the cases of each file that the words name, and prints a line for each.
fn main(rt: HostRuntime) -> io::Result<ExitCode> {
    run_files(&rt, &Middle)
}
