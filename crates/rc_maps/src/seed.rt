//! How hash tables hash.

ghost use Rattle.std.specs.Prelude.{◌≡◌};
ghost use Rattle.rc_maps.specs.Seed.{seed_of};

use std::fmt::{self, Debug, Formatter};
use std::hash::{BuildHasher, FoldHasher, Hasher};
use std::io;
use std::random::RandomSource;

/// The secret of a hash table: two numbers that enter each hash, one before the key and one behind
/// it, so that no list of colliding keys can be written down beforehand. The hash is std's fast one
/// and no cryptographic one; whether keys collide changes how long a call takes, and no answer.
#[derive(Clone, Copy, Drop)]
pub struct Seed {
    state: FoldHasher,
    last: u64,
}

impl Seed {
    /// The seed of these numbers. They are to be drawn at random, and told to nobody.
    pub fn new(first: u64, last: u64) -> Seed
        ensures { result ≡ seed_of first last }
    {
        let mut state = FoldHasher::default();
        state.write_u64(first);
        Seed { state, last }
    }

    /// One seed, the same everywhere, so that anyone can tell which keys collide: where the keys are
    /// known, or the system has no random numbers.
    pub fn fixed() -> Seed {
        Seed::new(0x243F_6A88_85A3_08D3, 0x1319_8A2E_0370_7344)
    }

    /// A seed from the system's random numbers. `Err` where the system has none.
    pub fn draw(rt: &impl RandomSource) -> io::Result<Seed> {
        let mut bytes = [0; 16];
        rt.fill_bytes(&mut bytes)?;
        let numbers = u128::from_le_bytes(bytes);
        Ok(Seed::new(
            (numbers & 0xFFFF_FFFF_FFFF_FFFF) as u64,
            (numbers >> 64) as u64,
        ))
    }
}

impl Debug for Seed {
    /// Tells neither number.
    fn fmt<W: fmt::Write>(&self, f: &mut Formatter<W>) -> fmt::Result {
        f.debug_struct("Seed").finish_non_exhaustive()
    }
}

impl BuildHasher for Seed {
    type Hasher = SeededHasher;

    ghost use Rattle.rc_maps.specs.Seed.{seeded};

    ghost build_hasher = { seeded };

    fn build_hasher(&self) -> SeededHasher {
        SeededHasher {
            state: self.state,
            last: self.last,
        }
    }
}

/// A hasher that multiplies and folds, as `FoldHasher`, with a secret at both ends.
#[derive(Clone, Copy, Drop)]
pub struct SeededHasher {
    state: FoldHasher,
    last: u64,
}

impl Hasher for SeededHasher {
    ghost use Rattle.rc_maps.specs.Seed.{finished, hashed};

    ghost write = { hashed };

    ghost finish = { finished };

    fn finish(&self) -> u64 {
        let mut state = self.state;
        state.write_u64(self.last);
        state.finish()
    }

    fn write(&mut self, bytes: &[u8]) {
        self.state.write(bytes);
    }
}
