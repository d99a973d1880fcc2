//! Who wakes those that wait for a stripe.

ghost use Rattle.std.specs.Prelude.{◌<◌};
ghost use Rattle.rc_row.specs.Passes.{stripes_of};

use rc_row::Row;

/// Wakes those that wait for a stripe that a call has given back. A store has it as its type parameter, so that one on
/// which no call waits is built without anything that parks or wakes. Others may implement it: calls that wait for nobody
/// do so where `wake` waits for nobody, as in `Waking` and `Quiet`.
pub trait Wakes: Drop {
    /// Wakes those that may wait for the stripe.
    fn wake(&self, row: &Row, stripe: u32)
        requires { stripe < stripes_of row.now };
}

/// Wakes them, for a store on which calls may wait. Where nobody waits it costs one load.
#[derive(Clone, Copy, Debug)]
pub struct Waking;

impl Wakes for Waking {
    fn wake(&self, row: &Row, stripe: u32) {
        row.wake(stripe);
    }
}

/// Wakes nobody, for a store on which no call waits.
#[derive(Clone, Copy, Debug)]
pub struct Quiet;

impl Wakes for Quiet {
    fn wake(&self, _row: &Row, _stripe: u32) {}
}
