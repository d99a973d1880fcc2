//! The planners of inserts, removes and updates, and the plans of all operations.
#![tactic(auto)]

mod classes;
mod insert;
mod operations;
mod probes;
mod remove;
mod update;

pub use insert::plan_insert;
pub use operations::{compile, plan_all, plan_of, plan_op};
pub use remove::plan_remove;
pub use update::plan_update;
