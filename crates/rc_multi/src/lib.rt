//! Groups: several calls as one, over stripes that are all held before the first. (PLDI 2012, serializable transactions
//! by two-phase locks: the growing phase is over before the first read.)
//!
//! Where the locks of a group are held, `run_group` runs the plans of its calls one after another; what is held then is
//! what one entry of them all commits. `group_locks` lists the locks, and `covers` tests whether some suffice for a call.
#![tactic(auto)]

mod class_lock;
mod covering;
mod fitting;
mod group;
mod laws;
mod locks;
mod offered;
mod using;

pub use covering::covers;
pub use fitting::all_fit;
pub use group::{run_group, run_in_group};
pub use laws::{
    calls_that_fit_have_operations, group_locks_are_locked, group_locks_lie_inside,
    group_locks_rise, group_locks_suffice, groups_keep_what_they_use,
    groups_leave_what_is_committed, groups_may_commit,
};
pub use locks::group_locks;
pub use using::uses;
