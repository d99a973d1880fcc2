use rc_fragment::{Held, TakeStop};
use rc_tuple::Memory;

/// Why a run of a plan ended without a reply. Nothing that is held is changed.
#[derive(Clone, Copy, Debug, PartialEq, Eq)]
pub enum Stop {
    /// Memory was wanted.
    Memory,
    /// Something stood in the way of a stripe.
    Held(Held),
}

impl From<Memory> for Stop {
    ghost use Rattle.std.specs.Prelude.{◌≡◌};
    ghost use Rattle.rc_machine.specs.declared.stop.Stop.TheVariants as stop;

    ghost from_gives = { λ _ s. s ≡ stop.Memory };

    fn from(_: Memory) -> Self {
        Stop::Memory
    }
}

impl From<TakeStop> for Stop {
    ghost use Rattle.std.specs.Prelude.{◌≡◌};
    ghost use Rattle.rc_machine.specs.Stopped.{stopped};

    ghost from_gives = { λ taken s. s ≡ stopped taken };

    fn from(stop: TakeStop) -> Self {
        match stop {
            TakeStop::Memory => Stop::Memory,
            TakeStop::Held(held) => Stop::Held(held),
        }
    }
}
