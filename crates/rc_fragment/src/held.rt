use rc_spec::Found;

/// Why a stripe was not taken: the stripe that was asked for, and what was found in the way.
#[derive(Clone, Copy, Debug, PartialEq, Eq)]
pub struct Held {
    /// The number of the physical stripe.
    pub stripe: u32,
    /// What was found in the way.
    pub found: Found,
}

/// Why a take was refused. Nothing was taken.
#[derive(Clone, Copy, Debug, PartialEq, Eq)]
pub enum TakeStop {
    /// Memory was wanted.
    Memory,
    /// Something stood in the way.
    Held(Held),
}

/// Why a tuple was not added, where that was asked only of a new one.
#[derive(Clone, Copy, Debug, PartialEq, Eq)]
pub enum AddStop {
    /// Memory was wanted.
    Memory,
    /// A row has its values of source and key.
    There,
}
