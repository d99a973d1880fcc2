//! A fragment that a pass holds.

ghost use Rattle.std.specs.Prelude.{◌≡◌};
ghost use Rattle.rc_spec.specs.declared.lock.Mode.TheVariants.{Exclusive, Shared};
ghost use Rattle.rc_row.specs.HeldRows.{just_held};

use rc_fragment::{CowFragment, Keep};
use rc_spec::Mode;

/// The fragment of a stripe that a pass holds.
#[derive(Drop, Debug)]
pub struct HeldFragment {
    /// The number of the stripe, over all classes.
    pub(crate) stripe: u32,
    /// How the stripe is held.
    pub(crate) mode: Mode,
    /// Its fragment as it is.
    pub(crate) fragment: CowFragment,
}

impl HeldFragment {
    /// The fragment of a stripe just locked to write it: by value, where nobody else has it. Takes no memory.
    pub(crate) fn locked(stripe: u32, keep: Keep) -> HeldFragment
        ensures { result ≡ just_held stripe Exclusive keep }
    {
        HeldFragment {
            stripe,
            mode: Mode::Exclusive,
            fragment: CowFragment::alone_or_kept(keep),
        }
    }

    /// The fragment of a stripe just shared.
    pub(crate) fn shared(stripe: u32, keep: Keep) -> HeldFragment
        ensures { result ≡ just_held stripe Shared keep }
    {
        HeldFragment {
            stripe,
            mode: Mode::Shared,
            fragment: CowFragment::kept(keep),
        }
    }
}
