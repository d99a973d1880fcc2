//! Plans as data, what they mean, the rules that they keep, and the law of accepted plans.
#![tactic(auto)]

mod access;
mod compiled;
mod edge_classes;
mod evaluation;
mod laws;
mod printing;
mod refusal;
mod resolved;
mod statement;

pub use access::{AccessPath, is_read_of};
pub use compiled::Compiled;
pub use evaluation::{answer, push_merge, push_merges, some_differs};
pub use laws::{
    accepted_plans_lock_in_order, accepted_plans_serve, accepted_plans_serve_in_turn,
    compiled_plans_serve, compiled_plans_serve_in_turn, named_stripes_are_locked,
    plan_checks_are_rules,
};
pub use printing::{print_plan, push_column, push_statement};
pub use refusal::{PlanRefusal, PlanRule};
pub use resolved::ResolvedEdge;
pub use statement::{Plan, ReadMode, Statement, Which};
