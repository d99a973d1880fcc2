//! The takes of a group's locks.

ghost use Rattle.std.specs.Prelude.{◌≡◌, ◌<◌, ℕ, [], IfErr, OnOk};
ghost use Rattle.std.specs.Ordering.{nat_cmp};
ghost use Rattle.rc_tuple.specs.RisingSet.{In, IsRising};
ghost use Rattle.rc_plan.specs.StripeLocks.{stripes_of as lock_stripes};
ghost use Rattle.rc_row.specs.Passes.{IsPassOf, stripes_of};
ghost use Rattle.rc_store.specs.Busy.{IsLockBusy};
ghost use Rattle.rc_store.specs.Lending.{IsOnTheWay};
ghost use Rattle.rc_store.specs.Locking.{HasTakenLocks};
ghost use Rattle.rc_store.specs.Runs.{IsStoppedBy};

use crate::taking::Takes;
use rc_fragment::Held;
use rc_machine::Stop;
use rc_row::{Pass, Row};
use rc_spec::Mode;

/// Takes the locks, which rise, for a pass that holds nothing. After a stop it may hold some of them.
pub(crate) fn take_locks<T: Takes>(
    row: &Row,
    locks: &[(u32, Mode)],
    pass: &mut Pass,
    taking: &T,
) -> Result<(), Stop>
    requires pass { IsPassOf row.now pass.old }
    requires idle { pass.old.held ≡ [] }
    requires rising { IsRising nat_cmp (lock_stripes locks.now) }
    requires inside { (p : ℕ) → In p (lock_stripes locks.now) → p < stripes_of row.now }
    ensures pass { IsPassOf row.now pass.new }
    ensures way { IsOnTheWay row.now pass.old pass.new }
    ensures taken { OnOk result (HasTakenLocks T.waits row.now pass.old pass.new locks.now) }
    ensures stopped { IfErr result (IsStoppedBy T.waits (IsLockBusy row.now locks.now pass.old pass.new) pass.old pass.new) }
{
    pass.held_agrees();
    for lock in locks {
        let (stripe, mode) = *lock;
        let found = taking.take(row, pass, stripe, mode)?;
        pass.held_agrees();
        if let Some(found) = found {
            return Err(Stop::Held(Held { stripe, found }));
        }
    }
    Ok(())
}
