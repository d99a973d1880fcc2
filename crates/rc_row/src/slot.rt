//! What a slot of the table has.

ghost use Rattle.std.specs.Prelude.{◌≡◌, Bool};
ghost use Rattle.rc_fragment.specs.Keep.{KeptRows};
ghost use Rattle.rc_row.specs.Law.{kept_in};
ghost use Rattle.rc_row.specs.Slots.{kept_at};

use rc_fragment::Keep;

/// What a slot of the table has: the slot of a stripe, or that of a pass and a stripe, in which the pass keeps its own pointer to the
/// stripe's fragment between two shares.
#[derive(Drop, Debug)]
pub enum Slot {
    /// Nothing.
    Empty,
    /// The fragment of a stripe, to which no pass has kept a pointer since it was last written.
    Apart(Keep),
    /// The fragment of a stripe, to which passes may have kept pointers; or such a pointer.
    Handed(Keep),
}

impl Slot {
    /// The fragment that it has, where it has one.
    pub(crate) fn kept(self) -> Option<Keep>
        ensures { result ≡ kept_at self }
    {
        match self {
            Slot::Apart(keep) | Slot::Handed(keep) => Some(keep),
            Slot::Empty => None,
        }
    }

    /// The fragment that it has.
    pub(crate) fn into_keep(self) -> Keep
        requires { (handed : Bool) × (keep : KeptRows) × (self ≡ kept_in handed keep) }
        ensures { (handed : Bool) (keep : KeptRows) → self ≡ kept_in handed keep → result ≡ keep }
    {
        match self {
            Slot::Apart(keep) | Slot::Handed(keep) => keep,
            Slot::Empty => unreachable!(),
        }
    }
}
