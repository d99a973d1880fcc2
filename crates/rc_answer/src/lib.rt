//! Answers a text as a command asks: reads it, tests its rules, plans its operations, makes its calls and its groups of calls,
//! and writes the plans and the report, or a drawing, or the refusal of the first broken rule. Judges a printed run.
#![tactic(auto)]

mod auditing;
mod by_hand;
mod drawing;
mod laws;
mod open_run;
mod outcome;
mod performing;
mod planning;
mod refusing;
mod status;
mod summing;
mod writing;

pub use laws::{cut_runs_are_refused, without_plans_hand_is_run, without_shapes_open_is_run};
pub use outcome::{Outcome, Ran};
pub use performing::answer;
pub use refusing::refuse_size;
pub use status::{Status, Stop};
pub use summing::answer_big;
