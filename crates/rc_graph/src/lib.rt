//! Whether a decomposition is a graph with one root and without circles: the tests of rules A1 and A2, and an order of its
//! nodes in which each edge leads forward.
#![tactic(auto)]

mod circles;
mod entries;
mod order;

pub use circles::keeps_a2;
pub use entries::keeps_a1;
pub use order::order_nodes;
