//! Routes through a decomposition: good routes, the pruned walk, costs, and least paths.
#![tactic(auto)]

mod choice;
mod costs;
mod good;
mod laws;
mod least;
mod search;
mod walk;

pub use choice::route_for;
pub use laws::{
    chosen_routes_are_good, least_paths_cost_least, least_paths_exist, one_chosen_route,
    one_least_path, one_pruned_walk, paths_are_good, walks_are_good, walks_are_pruned, walks_stay,
};
pub use least::least_path;
pub use walk::pruned_walk;

/// Edges of a decomposition by their numbers, in the order in which they are read.
pub type Route = rc_tuple::SmallList<u8>;
