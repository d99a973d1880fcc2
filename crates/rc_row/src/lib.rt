//! The row of locks of a shared store, over one table of atomic words: threads lock stripes to write or to share them, change
//! fragments in place, commit and unlock, and at every moment words, fragments and passes show a good state of the core.
//! (PLDI 2012, lock placements with striped locks.)
#![tactic(auto)]

mod build;
mod close;
mod commit;
mod fragments;
mod hands;
mod held;
mod history;
mod keeping;
mod law;
mod laws;
mod locks;
mod pass;
mod plays;
mod readers;
mod release;
mod row;
mod slot;
mod steps;
mod waiting;

pub use close::{EndedPass, EndedRow, RowBack};
pub use history::History;
pub use keeping::Keeping;
pub use law::{Key, Law, Refusal, Standing, View};
pub use laws::{
    held_are_of_the_state, known_are_beginnings, locks_are_events, no_circle_is_shown,
    one_state_is_shown, refusals_have_moments, rows_are_runs, steps_are_events,
};
pub use pass::{Note, Pass};
pub use row::Row;
pub use slot::Slot;
