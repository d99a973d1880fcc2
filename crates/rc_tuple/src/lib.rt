//! Column sets, tuples, relations and functional dependencies.
#![tactic(auto)]

mod col_set;
mod dep;
mod memory;
mod small_list;
mod sorting;
mod tuple;

pub use col_set::{ColSet, MAX_COLS};
pub use dep::Dep;
pub use memory::Memory;
pub use small_list::SmallList;
pub use sorting::distinct;
pub use tuple::Tuple;

/// A list of column numbers, in written order.
pub type Cols = SmallList<u8>;

/// A list of values.
pub type Vals = SmallList<u64>;

/// A list of tuples.
pub type Tuples = SmallList<Tuple>;
