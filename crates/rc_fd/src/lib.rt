//! What functional dependencies imply: the closure of a column set, implied dependencies and keys.
#![tactic(auto)]

mod implied;
mod laws;

pub use implied::{closure, determines, is_key, is_lossless};
pub use laws::{
    follows_augmented, follows_closed, follows_columns, follows_dependency, follows_held,
    follows_satisfied, follows_subset, follows_transitive, follows_union, follows_weaker,
};
