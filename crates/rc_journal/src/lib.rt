//! The entries that the passes of a store keep, and the journal into which they are merged.
#![tactic(auto)]

mod journal;
mod laws;
mod part;
mod parting;

pub use journal::{Journal, Room, merge};
pub use laws::{
    merged_parts_are_own, own_entries_make_the_history, own_parts_are_of_history,
    own_places_are_numbers,
};
pub use part::Part;
pub use parting::part_again;
