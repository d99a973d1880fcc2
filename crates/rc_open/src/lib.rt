//! A specification with operations that it doesn't declare, and the lines by which these are printed.
#![tactic(auto)]

mod extending;
mod printing;

pub use extending::with_operations;
pub use printing::print_shapes;
