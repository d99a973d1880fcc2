//! Drawings of specifications and of plans, as texts that are meant for Graphviz.
#![tactic(auto)]

mod drawing;
mod graph;
mod reading;
mod tables;
mod words;

pub use drawing::{print_drawing, print_plan_drawing};
