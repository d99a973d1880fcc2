//! The settings of a case: its words, its streams, and the numbers of how it is to end.

use crate::lines::{byte, number, numbers, words};
use crate::{Case, LineFault};
use std::alloc::Global;

/// Sets what the word names.
pub(crate) fn set(alloc: Global, case: &mut Case, word: &str, rest: &str) -> Result<(), LineFault> {
    match word {
        "words" => case.words = words(alloc, rest)?,
        "piece" => case.streams.piece = number(rest)? as usize,
        "failed-reads" => case.streams.failed_reads = numbers(alloc, rest)?,
        "failed-writes" => case.streams.failed_writes = numbers(alloc, rest)?,
        "status" => case.wanted.status = byte(number(rest)?)?,
        "left" => case.wanted.left = number(rest)? as usize,
        _ => return Err(LineFault::NoForm),
    }
    Ok(())
}
