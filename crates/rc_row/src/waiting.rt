//! How many threads wait for each stripe, so that a stripe for which nobody waits is given back without a system call.

ghost use Rattle.std.specs.Prelude.{◌≤◌};

use crate::row::WORDS_OF_A_LINE;
use rc_tuple::Memory;
use std::alloc::Global;
use std::sync::atomic::{AtomicU64, Ordering};

/// How often a waiter looks at a word before it parks, or yields.
pub(crate) const SPINS: u32 = 100;

/// A count for each stripe, 64 bytes apart as words are, so that who waits for one stripe doesn't slow those who give back its
/// neighbours. A waiter adds itself before it parks and takes itself off after. Contracts say nothing of the counts, since they
/// say nothing of waiting.
#[derive(Drop, Debug)]
pub(crate) struct Waiting {
    counts: Vec<AtomicU64>,
}

impl Waiting {
    /// Nobody waits for any of so many stripes.
    pub(crate) fn new(alloc: Global, stripes: usize) -> Result<Waiting, Memory>
        requires { stripes ≤ 256 }
    {
        let count = WORDS_OF_A_LINE * stripes;
        let mut counts = Vec::with_capacity(alloc, count)?;
        for _ in 0..count {
            counts.push(AtomicU64::new(0))?;
        }
        Ok(Waiting { counts })
    }

    /// One more waits for the stripe.
    pub(crate) fn enter(&self, stripe: u32) {
        if let Some(count) = self.counts.get(WORDS_OF_A_LINE * stripe as usize) {
            count.fetch_add(1, Ordering::SeqCst);
        }
    }

    /// One less waits for the stripe.
    pub(crate) fn leave(&self, stripe: u32) {
        if let Some(count) = self.counts.get(WORDS_OF_A_LINE * stripe as usize) {
            count.fetch_sub(1, Ordering::SeqCst);
        }
    }

    /// Whether somebody may wait for the stripe.
    pub(crate) fn has_some(&self, stripe: u32) -> bool {
        match self.counts.get(WORDS_OF_A_LINE * stripe as usize) {
            Some(count) => count.load(Ordering::SeqCst) > 0,
            None => false,
        }
    }
}
