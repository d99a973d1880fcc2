ghost use Rattle.std.specs.Prelude.{◌↔◌, IsTrue};
ghost use Rattle.rc_spec.specs.Locks.{Suffices};

/// How a lock is taken: beside other readers, or alone.
#[derive(Clone, Copy, Debug, PartialEq, Eq)]
pub enum Mode {
    /// Beside other readers.
    Shared,
    /// Alone.
    Exclusive,
}

impl Mode {
    /// Whether a stripe that is held so may be used so.
    pub fn suffices(self, wanted: Mode) -> bool
        ensures { IsTrue result ↔ Suffices self wanted }
    {
        match self {
            Mode::Exclusive => true,
            Mode::Shared => match wanted {
                Mode::Exclusive => false,
                Mode::Shared => true,
            },
        }
    }
}

/// What a step found in the way of a lock.
#[derive(Clone, Copy, Debug, PartialEq, Eq)]
pub enum Found {
    /// The pass with this number holds the stripe alone.
    Pass(u32),
    /// So many passes are counted as readers of the stripe. Those that found a writer and turn back count too, until they
    /// are out again.
    Readers(u32),
    /// The pass with this number, which shares the stripe, is taking its own hold of the fragment.
    Latch(u32),
}
