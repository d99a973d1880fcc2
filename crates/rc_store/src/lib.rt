//! The shared store: threads make calls on one relation, each with a pass of its own; a call runs its plan over the
//! stripes of a row of locks, commits once, and stands in one legal history. (PLDI 2012, concurrent relations.)
#![tactic(auto)]

mod calls;
mod close;
mod closed;
mod finish;
mod finish_group;
mod gate;
mod group;
mod group_run;
mod laws;
mod lender;
mod locking;
mod open_group;
mod open_run;
mod opening;
mod prepared_group;
mod receipt;
mod resume;
mod run;
mod running;
mod running_group;
mod steps;
mod store;
mod taking;
mod wakes;

pub use close::StoreBack;
pub use closed::Closed;
pub use gate::{Gate, OpenGate, Point};
pub use laws::{
    receipts_are_of_the_closed, receipts_are_plain, receipts_go_on, receipts_mean_one_history,
    resumed_histories_are_one, telling_goes_on,
};
pub use open_group::{OpenBack, OpenGroup};
pub use receipt::{BeginBack, CallFault, GroupReceipt, Position, Receipt, TryFault};
pub use resume::ResumeBack;
pub use running::Running;
pub use running_group::RunningGroup;
pub use store::Store;
pub use wakes::{Quiet, Wakes, Waking};
