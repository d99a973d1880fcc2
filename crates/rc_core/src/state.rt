//! The state of the core, as plain data, of which contracts and laws speak.

use rc_rel::{Entry, Placed};
use rc_spec::{CountedRow, Mode};
use rc_tuple::SmallList;

/// Rows of edges, each with its count.
pub type Rows = SmallList<CountedRow>;

/// A stripe that a pass has locked, to write it or to share it.
#[derive(Debug, Drop)]
pub struct Hold {
    /// The number of the stripe, over all classes.
    pub stripe: u32,
    /// Exclusive where the pass writes the stripe.
    pub mode: Mode,
    /// The rows of the stripe as the pass has them: those that lay at home when it took it, and of a stripe that it
    /// writes those that its commits since then left.
    pub rows: Rows,
}

/// All that the core's state has of one pass.
#[derive(Debug, Drop)]
pub struct PassState {
    /// The number of the pass, from 0, below 255.
    pub number: u32,
    /// The stripes that it has locked, in the order in which it took them, which rises.
    pub held: SmallList<Hold>,
    /// The stripe at which it turns back, where it found a writer and is still counted in.
    pub turning: Option<u32>,
    /// Its own entries with their places, at most 2^48.
    pub own: SmallList<Placed>,
    /// The length of the history that it has seen.
    pub seen: u64,
    /// The stripe that it wants.
    pub wish: Option<u32>,
}

/// Where the rows of a stripe are.
#[derive(Debug, Drop)]
pub enum Keeper {
    /// At home, since no pass writes the stripe.
    Home(Rows),
    /// With the pass of this number, which writes the stripe.
    Writer(u32),
}

/// What the core's state has of one stripe.
#[derive(Debug, Drop)]
pub struct StripeState {
    /// Where its rows are.
    pub keeper: Keeper,
    /// The numbers of the passes that are counted in, rising: those that share the stripe, and those that turn back.
    pub counted: SmallList<u32>,
}

/// The state of the core: all that passes, locks and commits make of one store.
#[derive(Debug, Drop)]
pub struct CoreState {
    /// The entries that were committed, in order.
    pub history: SmallList<Entry>,
    /// The stripes, by number, at most 256.
    pub stripes: SmallList<StripeState>,
    /// The passes, by number, 1 to 255.
    pub passes: SmallList<PassState>,
}
