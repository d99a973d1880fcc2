//! The judge of a printed run, or of a journal alone: whether lines are those that a run of a workload
//! may print, or which is the first with which no such text begins.
#![tactic(auto)]

mod auditing;
mod closing;
mod cursors;
mod entries;
mod fault;
mod form;
mod judge;
mod laws;
mod meeting;
mod opening;
mod relation;
mod stage;
mod tail;
mod verdict;

pub use auditing::audit;
pub use fault::Fault;
pub use form::Form;
pub use judge::Judge;
pub use laws::{one_verdict, passed_lines_begin, plan_lines_are_written};
pub use verdict::Verdict;
