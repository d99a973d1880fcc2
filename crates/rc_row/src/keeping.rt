/// What the passes of a row keep of the entries that they commit.
#[derive(Clone, Copy, Debug, PartialEq, Eq)]
pub enum Keeping {
    /// All, in memory.
    Entries,
    /// Their count alone, so that nothing grows from call to call.
    Counts,
}
