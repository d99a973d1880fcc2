//! What calls answer.

ghost use Rattle.std.specs.Prelude.{◌≡◌};
ghost use Rattle.rc_store.specs.Busy.{fault_by};

use rc_fragment::Held;
use rc_machine::Stop;
use rc_row::Pass;
use rc_spec::{Found, Reply};
use rc_tuple::SmallList;

/// Where the entry of a call stands.
#[derive(Drop, Debug)]
pub struct Receipt {
    /// Its place in the history, counted from 0.
    pub place: u64,
    /// Its number among the pass's own entries, counted from 0.
    pub nth: u64,
    /// The reply, where the store's passes keep no entries. Where they do, it stands in the pass's entry of that
    /// number.
    pub reply: Option<Reply>,
}

/// Where the entry of a group of calls stands.
#[derive(Drop, Debug)]
pub struct GroupReceipt {
    /// Its place in the history, counted from 0.
    pub place: u64,
    /// Its number among the pass's own entries, counted from 0.
    pub nth: u64,
    /// The replies of the calls, in their order, where the store's passes keep no entries. Where they do, they stand in the
    /// pass's entry of that number.
    pub replies: Option<SmallList<Reply>>,
}

/// Where a call, or a group of calls, stands in the history of all calls of its store, in which a group counts as one entry.
#[derive(Clone, Copy, Debug, PartialEq, Eq)]
pub struct Position {
    /// Its place in the history, counted from 0.
    pub place: u64,
    /// Its number among the entries of its pass, or session, counted from 0.
    pub nth: u64,
}

/// Why a call that waits for nobody has no receipt. History, fragments and the pass's own entries are as before, and the
/// pass holds nothing.
#[derive(Clone, Copy, Debug, PartialEq, Eq)]
pub enum TryFault {
    /// Memory was wanted.
    Memory,
    /// Something stood in the way of a stripe that the call's plan names, or that is one of the group's locks.
    Busy {
        /// The number of the stripe, over all classes.
        stripe: u32,
        /// What was found in the way.
        found: Found,
    },
    /// The pass has made as many entries as the store lets it.
    Spent,
}

impl From<Stop> for TryFault {
    ghost from_gives = { λ stop fault. fault ≡ fault_by stop };

    fn from(stop: Stop) -> Self {
        match stop {
            Stop::Memory => TryFault::Memory,
            Stop::Held(Held { stripe, found }) => TryFault::Busy { stripe, found },
        }
    }
}

/// A pass whose call was not begun, and why. It holds nothing; its entries and what it has seen are as before.
#[derive(Drop)]
pub struct BeginBack {
    /// The pass.
    pub pass: Pass,
    /// The cause.
    pub fault: TryFault,
}

/// Why a call that waits has no receipt. The pass holds nothing; its entries and what it has seen are as before.
#[derive(Clone, Copy, Debug, PartialEq, Eq)]
pub enum CallFault {
    /// Memory was wanted.
    Memory,
    /// The pass has made as many entries as the store lets it.
    Spent,
}
