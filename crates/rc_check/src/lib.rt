//! Whether a plan keeps the rules of accepted plans, and the first that it breaks.
#![tactic(auto)]

mod check;
mod checks;
mod cover;
mod found;
mod phases;
mod progress;
mod steps;

pub use check::check_plan;
