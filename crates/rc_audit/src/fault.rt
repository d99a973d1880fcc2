ghost use Rattle.std.specs.Prelude.{◌≡◌};
ghost use Rattle.rc_audit.specs.declared.fault.Fault.TheVariants as faults;

use rc_tuple::Memory;

/// Why a line of a report isn't passed.
#[derive(Clone, Copy, Debug, PartialEq, Eq)]
pub enum Fault {
    /// Memory was wanted and not given.
    Memory,
    /// With this line no good report begins.
    Bad,
}

impl From<Memory> for Fault {
    ghost from_gives = { λ _ fault. fault ≡ faults.Memory };

    fn from(_: Memory) -> Self {
        Fault::Memory
    }
}
