//! The entries of histories.

ghost use Rattle.std.specs.Prelude.{◌≡◌, IfOk};

use crate::steps::Steps;
use rc_spec::{Call, Reply};
use rc_tuple::Memory;

/// The most entries that one pass makes.
pub const MAX_ENTRIES: u64 = 1 << 48;

/// A call with the reply that it had.
#[derive(Debug, Drop)]
pub struct Step {
    pub call: Call,
    pub reply: Reply,
}

/// An entry of a history: the steps that a pass made at once, as its entry number `nth`, counted
/// from 0.
#[derive(Debug, Drop)]
pub struct Entry {
    pub pass: u32,
    pub nth: u64,
    pub steps: Steps,
}

/// An entry with its place in the history, counted from 0.
#[derive(Debug, Drop)]
pub struct Placed {
    pub place: u64,
    pub entry: Entry,
}

impl Step {
    /// Another step with the same call and reply.
    pub fn copy(&self) -> Result<Step, Memory>
        ensures { IfOk result (λ step. step ≡ self.now) }
    {
        let call = self.call.copy()?;
        Ok(Step {
            call,
            reply: self.reply.copy()?,
        })
    }
}

impl Entry {
    /// Another entry of the same pass with the same number and steps.
    pub fn copy(&self) -> Result<Entry, Memory>
        ensures { IfOk result (λ entry. entry ≡ self.now) }
    {
        Ok(Entry {
            pass: self.pass,
            nth: self.nth,
            steps: self.steps.copy()?,
        })
    }
}
