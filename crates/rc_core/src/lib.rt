//! The pure core of a shared store, as a machine over plain lists: passes that lock stripes Shared or Exclusive, run plans,
//! commit entries and unlock. Its laws say of every list of allowed events what a row of locks has to show of threads.
//! (PLDI 2012, two-phase locking.)
#![tactic(auto)]

mod event;
mod laws;
mod state;

pub use event::Event;
pub use laws::{
    events_keep_goodness, histories_go_on, no_circle_of_waits, own_are_of_history,
    passes_determine_state, runs_are_sound, shares_are_home, starts_are_good, states_are_small,
};
pub use state::{CoreState, Hold, Keeper, PassState, Rows, StripeState};
