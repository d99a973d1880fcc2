//! The top call: does what the words ask, from the bytes of a source to those of a sink.
#![tactic(auto)]

mod top;

pub use rc_answer::{Outcome, Ran, Status};
pub use top::relc;
