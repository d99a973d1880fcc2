//! The containers of an edge's rows.
#![tactic(auto)]

mod edge_map;
mod entry;
mod extra;
mod key;
mod list_map;
mod one_map;

pub use edge_map::EdgeMap;
pub use entry::Entry;
pub use key::Key;
pub use list_map::ListMap;
pub use one_map::OneMap;
