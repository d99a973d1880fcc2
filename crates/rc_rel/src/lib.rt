//! The plain relation: a rising list of tuples on which calls are made one after another, and the
//! histories of such calls.
#![tactic(auto)]

mod change;
mod dependencies;
mod entry;
mod laws;
mod plain_rel;
mod scan;
mod steps;

pub use entry::{Entry, MAX_ENTRIES, Placed, Step};
pub use laws::{
    histories_are_few, histories_stay, numbered_goes_on, own_entries_are_the_history,
    own_entries_stand, placed_are_own, shares_add_up, states_are_relations, states_satisfy,
};
pub use plain_rel::PlainRel;
pub use steps::Steps;
