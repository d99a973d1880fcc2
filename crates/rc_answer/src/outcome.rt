//! How a command ended, and what its run left.

ghost use Rattle.std.specs.Prelude.{◌≡◌, None, IfOk};
ghost use Rattle.rc_answer.specs.Ran.{outcome_in, status_in};

use crate::status::{Status, Stop};
use rc_store::Closed;
use rc_tuple::Tuples;

/// What a run leaves: the closed store with its plans, its journal and its fragments, and the rows after the last call.
#[derive(Drop)]
pub struct Ran {
    pub closed: Closed,
    pub last: Tuples,
}

/// How a command ended, and what its run left, where it made one and wrote the whole of it.
#[derive(Drop)]
pub struct Outcome {
    pub status: Status,
    pub ran: Option<Ran>,
}

impl Outcome {
    /// The end of a command that left no run.
    pub fn without_run(status: Status) -> Outcome
        ensures { result ≡ record { status = status; ran = None } }
    {
        Outcome { status, ran: None }
    }
}

/// The outcome of a writer that made a run, and wrote all of it.
pub(crate) fn with_run(answer: Result<Ran, Stop>) -> Result<Outcome, Stop>
    ensures { result ≡ outcome_in answer }
{
    match answer {
        Ok(ran) => Ok(Outcome {
            status: Status::Done,
            ran: Some(ran),
        }),
        Err(stop) => Err(stop),
    }
}

/// The outcome of a writer that made no run.
pub(crate) fn without_run(answer: Result<Status, Stop>) -> Result<Outcome, Stop>
    ensures status { status_in result ≡ answer }
    ensures none { IfOk result (λ outcome. outcome.ran ≡ None) }
{
    match answer {
        Ok(status) => Ok(Outcome::without_run(status)),
        Err(stop) => Err(stop),
    }
}
