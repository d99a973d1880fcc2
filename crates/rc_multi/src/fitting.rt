//! Which calls may be in a group, and which may be declared of one.

ghost use Rattle.std.specs.Prelude.{◌↔◌, IsTrue};
ghost use Rattle.std.specs.List.{AllByRecursion};
ghost use Rattle.rc_spec.specs.Calls.{Fits};
ghost use Rattle.rc_spec.specs.InRange.{IsInRange};

use rc_spec::{Call, Spec, fits};

/// Whether each of the calls fits.
pub fn all_fit(spec: &Spec, calls: &[Call]) -> bool
    requires { IsInRange spec.now }
    ensures { IsTrue result ↔ AllByRecursion (Fits spec.now) calls.now }
{
    calls.iter().all(|call| fits(spec, call))
}
