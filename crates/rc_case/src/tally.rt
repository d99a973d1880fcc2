//! Tallies: what is said of cases, and counts of them.

use crate::{Case, End, LineFault};
use std::alloc::{AllocError, Global};
use std::fmt;
use std::process::ExitCode;

/// How many cases ran, and how much failed.
#[derive(Clone, Copy, Debug, Default, PartialEq, Eq)]
pub struct Tally {
    ran: u64,
    /// How many cases ended otherwise than they were to, and lines were not done.
    failed: u64,
}

impl Tally {
    /// Nothing ran yet.
    pub fn new() -> Tally {
        Tally { ran: 0, failed: 0 }
    }

    /// Counts a case that ended so, and says whether it was to.
    pub fn judge(&mut self, alloc: Global, case: &Case, end: &End) -> Result<String, AllocError> {
        self.ran = self.ran.saturating_add(1);
        if end.is(&case.wanted) {
            return format!(in alloc; "{}: ok", case.name);
        }
        self.failed = self.failed.saturating_add(1);
        failure(alloc, &case.name, end)
    }

    /// What is printed for a line of a file: what is said of its case, or why the line is not done, which counts as failed
    /// and is said with the file's name and the line's number.
    pub fn line(
        &mut self,
        alloc: Global,
        file: &str,
        number: u64,
        said: Result<String, LineFault>,
    ) -> Result<String, AllocError> {
        match said {
            Ok(said) => Ok(said),
            Err(fault) => {
                self.failed = self.failed.saturating_add(1);
                format!(in alloc; "{file} {number}: {fault}")
            }
        }
    }

    /// The status of a program that ran the cases: 0 where nothing failed, and else 1.
    pub fn exit_code(&self) -> ExitCode {
        if self.failed == 0 {
            ExitCode::SUCCESS
        } else {
            ExitCode::FAILURE
        }
    }
}

impl fmt::Display for Tally {
    fn fmt<W: fmt::Write>(&self, f: &mut fmt::Formatter<W>) -> fmt::Result {
        write!(f, "{} ran, {} failed", self.ran, self.failed)
    }
}

/// How a case ended that is to end otherwise.
fn failure(alloc: Global, name: &str, end: &End) -> Result<String, AllocError> {
    let (status, left) = (end.status, end.left);
    match str::from_utf8(&end.text) {
        Ok(text) => {
            format!(in alloc;
                "{name}: FAILED: status {status}, {left} bytes left, and wrote:\n{text}"
            )
        }
        Err(_) => {
            format!(in alloc;
                "{name}: FAILED: status {status}, {left} bytes left, and wrote no text"
            )
        }
    }
}
