//! The numbers of held stripes.

ghost use Rattle.std.specs.Prelude.{◌≡◌, ◌<◌, [], ◌∷◌, ◌++◌, length};

use rc_spec::MAX_STRIPES;
use std::marker::Model;

/// The numbers of the stripes that are held, in the order in which they were taken. It has its place
/// in itself, and takes no memory.
#[derive(Drop, Debug)]
pub(crate) struct HeldNumbers {
    numbers: [u32; MAX_STRIPES],
    count: usize,
}

impl Model for HeldNumbers {
    ghost use Rattle.std.specs.Prelude.{ℕ, ◌≤◌, List, take};

    ghost Value = { List ℕ };

    ghost view = { λ a. take a.count a.numbers };

    ghost invariant = { λ a. a.count ≤ 256 };
}

impl HeldNumbers {
    /// No number.
    pub(crate) fn none() -> Self
        ensures { result ≡ [] }
    {
        HeldNumbers {
            numbers: [0; MAX_STRIPES],
            count: 0,
        }
    }

    /// Puts the number at the end.
    pub(crate) fn push(&mut self, stripe: u32)
        requires { length self.old < 256 }
        ensures { self.new ≡ self.old ++ stripe ∷ [] }
    {
        self.numbers[self.count] = stripe;
        self.count += 1;
    }

    /// Takes all numbers out.
    pub(crate) fn clear(&mut self)
        ensures { self.new ≡ [] }
    {
        self.count = 0;
    }

    /// The numbers.
    pub(crate) fn list(&self) -> &[u32]
        ensures { result.now ≡ self.now }
    {
        &self.numbers[..self.count]
    }
}
