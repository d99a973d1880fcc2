//! Singletons that are kept in the rows above them: decompositions without the edges that do no more than add columns to
//! a node to which one edge leads. And edges that are placed together where their lock classes have the same columns.
#![tactic(auto)]

mod contraction;
mod inlining;
mod laws;
mod placing;

pub use inlining::inline;
pub use laws::{
    embedding_keeps_calls, embedding_keeps_schemas, embedding_leaves_operations,
    inlining_keeps_calls, inlining_keeps_schemas, placing_shares_classes, schemas_decide_calls,
};
pub use placing::{embed, place_together};
