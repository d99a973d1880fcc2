//! Case files: texts that say what a program is given and how it is to end.
//!
//! A `Script` hands out the cases of a file, and a `Tally` is told how each ended. Neither calls what the cases are run on,
//! so none is asked for the leave to make threads or to wait; `run_files` runs those that need none.
#![tactic(auto)]

mod case;
mod cases;
mod fault;
mod lines;
mod script;
mod settings;
mod subject;
mod tally;
mod texts;

pub use case::{Case, End, Streams};
pub use cases::Cases;
pub use fault::LineFault;
pub use script::Script;
pub use subject::{Subject, run_files};
pub use tally::Tally;
