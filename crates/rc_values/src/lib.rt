//! Text values as ranks among all texts of a workload.
#![tactic(auto)]

mod laws;
mod name64;
mod ranks;

pub use laws::{ranks_are_places, ranks_keep_order};
pub use name64::{MAX_LEN, Name64};
pub use ranks::Ranks;
