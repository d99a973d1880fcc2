//! The tests of the rules of adequacy at edges and columns, of placement and of operations, and the acceptance of a
//! specification: the rules as a table, and one judge that walks it. (PLDI 2011, adequacy; PLDI 2012, lock placements.)
#![tactic(auto)]

mod acceptance;
mod adequacy;
mod judging;
mod ops;
mod placement;

pub use acceptance::{AcceptFault, accept};
pub use adequacy::{keeps_a3, keeps_a4, keeps_a5, keeps_a6, keeps_a7};
pub use judging::judge;
pub use ops::keeps_o;
