//! The cases of a file, one after another.

ghost use Rattle.std.specs.Iterator.{at_most};
ghost use Rattle.rc_case.specs.Remaining.{most_left};

use crate::{Case, LineFault, Script};
use std::alloc::Global;
use std::str::Lines;

/// The cases that the lines of a file make. An item is the number of a line and the case that the line completes, or why
/// the line is not done. What is wrong with the end of the file has the number of the last line.
#[derive(Drop)]
pub struct Cases<'a> {
    alloc: Global,
    script: &'a mut Script,
    lines: Lines<'a>,
    /// How many lines were read.
    number: u64,
    /// Whether the end of the file was read.
    is_ended: bool,
}

impl<'a> Cases<'a> {
    /// The cases of the text, behind what the script has made.
    pub(crate) fn new(alloc: Global, script: &'a mut Script, text: &'a str) -> Cases<'a> {
        Cases {
            alloc,
            script,
            lines: text.lines(),
            number: 0,
            is_ended: false,
        }
    }
}

impl<'a> Iterator for Cases<'a> {
    type Item = (u64, Result<Case, LineFault>);

    ghost remaining = { λ s. at_most (most_left s) };

    fn next(&mut self) -> Option<(u64, Result<Case, LineFault>)> {
        while let Some(line) = self.lines.next() {
            self.number = self.number.saturating_add(1);
            if let Some(case) = self.script.read(self.alloc, line).transpose() {
                return Some((self.number, case));
            }
        }
        if self.is_ended {
            return None;
        }
        self.is_ended = true;
        let fault = self.script.end().err()?;
        Some((self.number, Err(fault)))
    }
}
