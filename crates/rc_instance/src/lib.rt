//! All fragments of a store, lent to one plan at a time; and the natural join of lists of tuples, by the values at
//! columns that both sides have.
#![tactic(auto)]

mod fragments;
mod hash_join;
mod held_numbers;
mod index;
mod instance;
mod laws;
mod represent;
mod room;

pub use hash_join::join;
pub use instance::Instance;
pub use laws::{instance_is_its_relation, instances_become_sound};
pub use room::InstanceRoom;
