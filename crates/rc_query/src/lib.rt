//! The plans that the planning rules give, and the planner of queries.
#![tactic(auto)]

mod laws;
mod operation;
mod probe;
mod query;
mod statements;

pub use laws::{one_planned_plan, planned_plans_are_accepted};
pub use operation::pattern_of;
pub use probe::PlannedProbe;
pub use query::plan_query;
pub use statements::{ClassSet, classes_of_edges, push_ending, push_locks_and_reads};
