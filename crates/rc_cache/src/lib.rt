//! Plans of operations that a specification doesn't declare, planned when they are first asked for and shared by threads.
#![tactic(auto)]

mod cache;
mod compiling;
mod laws;
mod shape;

pub use cache::{PlanCache, Plans};
pub use compiling::compile_open;
pub use laws::plans_are_apart;
