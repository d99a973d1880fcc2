//! Plans written by hand: read from the lines between a specification and its workload, tested by the rules of plans, and
//! put in the place of the planned ones.
#![tactic(auto)]

mod compiling;
mod forms;
mod hand;
mod heads;
mod laws;
mod lines;
mod printing;
mod reading;
mod refusal;
mod starts;
mod statements;
mod words;

pub use compiling::{HandFault, compile_with};
pub use hand::{Hand, MAX_STATEMENTS};
pub use laws::{
    first_broken_plan_line, one_chosen_plan, planned_plans_may_be_written,
    without_a_text_no_plan_is_read, without_plans_nothing_is_read,
};
pub use printing::{print_plan_refusal, print_plans};
pub use reading::{read_plans, read_plans_only};
pub use refusal::{HandRefusal, HandRule};
pub use starts::Closing;
