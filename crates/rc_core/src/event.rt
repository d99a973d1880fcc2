use rc_rel::Entry;

/// What may happen next. Each event is of one pass, and a stripe is named by its number over all classes. (PLDI 2012,
/// two-phase locking with shared and exclusive locks.)
#[derive(Debug, Drop)]
pub enum Event {
    /// The pass takes the stripe to write it. Nobody writes it or is counted in, and it is above all that the pass holds.
    Lock { pass: u32, stripe: u32 },
    /// The pass finds the stripe taken, and wants it.
    Block { pass: u32, stripe: u32 },
    /// The pass is counted in. Where nobody writes the stripe it shares it, else it turns back.
    Share { pass: u32, stripe: u32 },
    /// The pass that turned back at the stripe is counted out.
    Back { pass: u32, stripe: u32 },
    /// The pass shares the stripe no more, and is counted out.
    Leave { pass: u32, stripe: u32 },
    /// The pass adds an entry to the history, and what it writes has the rows afterwards.
    Commit { pass: u32, entry: Entry },
    /// The pass writes the stripe no more, and its rows go home.
    Unlock { pass: u32, stripe: u32 },
    /// The pass learns that the history is so long, or longer.
    Learn { pass: u32, length: u64 },
}
