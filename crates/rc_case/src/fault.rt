//! Why a line is not done.

use rc_tuple::Memory;
use std::alloc::{AllocError, AllocFailed};
use std::fmt;

/// Why a line of a case file is not done.
#[derive(Clone, Copy, Debug, PartialEq, Eq)]
pub enum LineFault {
    /// It has the form of no line.
    NoForm,
    /// It names or changes a text that is not there.
    NoText,
    /// It needs a case, and none was begun.
    NoCase,
    /// The case before it was not run.
    NotRun,
    /// Memory was wanted and not given.
    Memory,
}

impl From<AllocError> for LineFault {
    fn from(_: AllocError) -> Self {
        LineFault::Memory
    }
}

impl<T: Drop> From<AllocFailed<T>> for LineFault {
    fn from(_: AllocFailed<T>) -> Self {
        LineFault::Memory
    }
}

impl From<Memory> for LineFault {
    fn from(_: Memory) -> Self {
        LineFault::Memory
    }
}

impl fmt::Display for LineFault {
    fn fmt<W: fmt::Write>(&self, f: &mut fmt::Formatter<W>) -> fmt::Result {
        match self {
            LineFault::NoForm => write!(f, "no such line"),
            LineFault::NoText => write!(f, "no such text"),
            LineFault::NoCase => write!(f, "no case"),
            LineFault::NotRun => write!(f, "a case before was not run"),
            LineFault::Memory => write!(f, "no memory"),
        }
    }
}
