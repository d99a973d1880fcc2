//! Why a form gives no answer.

use rc_tuple::Memory;
use std::alloc::{AllocError, AllocFailed};
use std::fmt;

/// Why a form gives no answer: memory was wanted, or the words or the input aren't those of the form.
#[derive(Clone, Copy, Debug, PartialEq, Eq)]
pub(crate) enum Stop {
    Memory,
    /// The words name no form, or not what the form takes.
    Words,
    /// The input is no specification, with what the form wants behind it.
    Input,
    /// The specification breaks a rule.
    Refused,
    /// A line isn't one of the form.
    Line,
    /// There is more of something than the form takes.
    Many,
}

impl fmt::Display for Stop {
    fn fmt<W: fmt::Write>(&self, f: &mut fmt::Formatter<W>) -> fmt::Result {
        match self {
            Stop::Memory => write!(f, "no memory"),
            Stop::Words => write!(f, "no such words"),
            Stop::Input => write!(f, "no such input"),
            Stop::Refused => write!(f, "not accepted"),
            Stop::Line => write!(f, "no such line"),
            Stop::Many => write!(f, "too many"),
        }
    }
}

impl From<Memory> for Stop {
    fn from(_: Memory) -> Self {
        Stop::Memory
    }
}

impl From<AllocError> for Stop {
    fn from(_: AllocError) -> Self {
        Stop::Memory
    }
}

impl<T: Drop> From<AllocFailed<T>> for Stop {
    fn from(_: AllocFailed<T>) -> Self {
        Stop::Memory
    }
}
