//! The containers of an edge over hash tables and ordered tables, and the tables.
#![tactic(auto)]

mod block;
mod blocks;
mod entry_table;
mod hash_table;
mod keyed;
mod ordered_edge;
mod ordered_table;
mod other_keys;
mod pair_keys;
mod seed;
mod table_edge;

pub use block::{Block, Row};
pub use blocks::Blocks;
pub use entry_table::EntryTable;
pub use hash_table::HashTable;
pub use keyed::Keyed;
pub use ordered_edge::OrderedEdge;
pub use ordered_table::OrderedTable;
pub use other_keys::OtherKeys;
pub use pair_keys::PairKeys;
pub use seed::{Seed, SeededHasher};
pub use table_edge::{HashEdge, TableEdge, TreeEdge};
