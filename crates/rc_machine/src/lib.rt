//! The machine that runs the plan of a call over the stripes that a holder lends.
#![tactic(auto)]

mod apply;
mod arguments;
mod check;
mod differing;
mod edge_change;
mod edge_query;
mod edge_read;
mod edge_row;
mod emit;
mod late;
mod lock;
mod machine;
mod path_answer;
mod places;
mod read;
mod step;
mod stop;
mod stripe;
mod workspace;

pub use machine::{run_plan, run_statements};
pub use stop::Stop;
pub use workspace::Workspace;
